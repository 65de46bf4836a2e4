// Entries with their numbers.
ghost use Rattle.std.specs.Prelude.{◌≡◌, ◌<◌, ◌||◌, ◌==◌, nat_le};
ghost use Rattle.sl_saves.specs.Keeping.{entries_credited};

use crate::entry::Slot;

/// A slot with its number.
#[derive(Clone, Copy)]
pub struct Entry {
    pub number: u64,
    pub slot: Slot,
}

/// Whether a credit ends at an entry, where it may go to `left` entries more and there are so many
/// before.
fn is_last(left: u8, before: usize, age: u16, back: u16) -> bool
    ensures { result ≡ (left == 0 || (nat_le age back || before == 0)) }
{
    left == 0 || age <= back || before == 0
}

/// Credits a data packet to the last entries above its stamp, to so many at most.
pub fn credit_entries(entries: &mut [Entry], credits: u8, channel: u32, age: u16, bytes: u64)
    requires { channel < 8 }
    ensures { entries.new ≡ entries_credited credits
        (record { channel = channel; age = age; bytes = bytes }) entries.old }
{
    let mut age = age;
    let mut left = credits;
    let mut place = entries.len();
    while left > 0 && place > 0 {
        left -= 1;
        place -= 1;
        let back = entries[place].slot.back;
        let is_foot = is_last(left, place, age, back);
        entries[place].slot.credit(is_foot, channel, age, bytes);
        if is_foot {
            return;
        }
        age -= back;
    }
}
