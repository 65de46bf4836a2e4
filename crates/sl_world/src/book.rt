// The book of a world.
ghost use Rattle.std.specs.Prelude.{◌≡◌, ◌+◌, ◌<◌, ◌^◌, ◌++◌, ◌∷◌, [], OnOk};
ghost use Rattle.std.specs.Vec.{vec_len, vec_capacity};
ghost use Rattle.sl_world.specs.Scene.{last_number, entry_after};

use sl_machine::{Entry, Memory};

/// The last number, or 0 in an empty book.
fn last_number(entries: &[Entry]) -> u64
    ensures { result ≡ last_number entries.now }
{
    match entries {
        [] => 0,
        [.., last] => last.number,
    }
}

/// Makes room for one more entry.
pub fn make_room(entries: &mut Vec<Entry>) -> Result<(), Memory>
    ensures entries { entries.new.items ≡ entries.old.items }
    ensures room { OnOk result (vec_len entries.new < vec_capacity entries.new) }
{
    Ok(entries.reserve(1)?)
}

/// Adds a turn, with the next number.
pub fn note(entries: &mut Vec<Entry>, actor: u32, choice: u32)
    requires room { vec_len entries.old < vec_capacity entries.old }
    requires number { last_number entries.old.items < 2 ^ 63 }
    ensures { entries.new.items ≡ entries.old.items
        ++ entry_after entries.old.items actor choice ∷ [] }
{
    let number = last_number(entries.as_slice()) + 1;
    entries.push_reserved(Entry {
        number,
        actor,
        choice,
    });
}
