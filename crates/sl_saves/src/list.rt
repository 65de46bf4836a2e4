// Saved entries in a list.
ghost use Rattle.std.specs.Prelude.{◌≡◌, ◌+◌, ◌-◌, ◌*◌, ◌%◌, ◌^◌, ◌<◌, ◌≤◌, length, replicate};
ghost use Rattle.std.specs.Prelude.{drop, [], IfOk};
ghost use Rattle.sl_saves.specs.Views.{free_slot};

use crate::entries::{Entry, credit_entries};
use crate::entry::{Slot, View};
use crate::keep::Saves;
use crate::place::place_above;
use crate::slots::Slots;
use sl_machine::Memory;
use std::alloc::Global;

/// More entries than fit any memory.
const MOST_ENTRIES: usize = 140_737_488_355_328;

/// All saved entries in a list, with plain numbers.
#[derive(Drop)]
pub struct ListSaves {
    window: u16,
    ring: u16,
    credits: u8,
    number: u64,
    entries: Vec<Entry>,
    ghost least: { 1 ≤ window },
    ghost most: { window ≤ ring },
    ghost some: { 1 ≤ credits },
    ghost few: { credits ≤ 4 },
    ghost low: { number ≤ 65535 * length entries.items },
    ghost short: { length entries.items ≤ 140737488355328 },
}

impl ListSaves {
    ghost use Rattle.sl_saves.specs.Keeping.{IsListed, list_view};
    ghost use Rattle.sl_saves.specs.Lists.{list_kept, list_window, list_size, list_credits};

    /// Saved entries at the number 0, with nothing saved, whose views have `ring` slots. A credit
    /// goes to the last `credits` entries at most.
    pub fn new(alloc: Global, window: u16, ring: u16, credits: u8) -> Result<ListSaves, Memory>
        requires least { 1 ≤ window }
        requires most { window ≤ ring }
        requires some { 1 ≤ credits }
        requires few { credits ≤ 4 }
        ensures kept { IfOk result
            (λ saves. list_kept saves ≡ record { size = ring; last = 0; entries = [] }) }
        ensures shows { IfOk result (λ saves. IsListed credits (list_kept saves) []) }
        ensures window { IfOk result (λ saves. list_window saves ≡ window) }
        ensures size { IfOk result (λ saves. list_size saves ≡ ring) }
        ensures credits { IfOk result (λ saves. list_credits saves ≡ credits) }
    {
        Ok(ListSaves {
            window,
            ring,
            credits,
            number: 0,
            entries: Vec::new(alloc),
        })
    }

    /// Writes the last entries into a view in which nothing is saved.
    fn write(&self, view: &mut View)
        requires { view.old.slots ≡ replicate self.now.ring free_slot }
        ensures { view.new ≡ list_view (list_kept self.now) }
    {
        view.at = (self.number % u64::from(self.ring)) as u16;
        let old = self.entries.len().saturating_sub(self.ring as usize);
        write_entries(&mut view.slots, &self.entries, old);
    }
}

ghost use Rattle.sl_saves.specs.Keeping.{written};

/// The place of a number in a ring, from that of another number. Nothing is divided where the two
/// lie near each other, as those of saved entries do.
fn place_from(size: usize, number: u64, place: usize, to: u64) -> usize
    requires some { 1 ≤ size }
    requires small { size < 2 ^ 32 }
    requires place { place ≡ number % size }
    ensures { result ≡ to % size }
{
    if number <= to && to - number <= size as u64 {
        place_above(size, place, (to - number) as usize)
    } else {
        (to % size as u64) as usize
    }
}

/// Writes the entries from a place on into a ring of slots, later ones over earlier ones.
fn write_entries(slots: &mut Slots, entries: &[Entry], from: usize)
    requires some { 1 ≤ length slots.old }
    requires small { length slots.old < 2 ^ 32 }
    ensures { slots.new ≡ written slots.old (drop from entries.now) }
{
    let size = slots.len();
    let mut number = 0;
    let mut place = 0;
    for i in from..entries.len() {
        let entry = entries[i];
        place = place_from(size, number, place, entry.number);
        number = entry.number;
        slots.set(place, entry.slot);
    }
}

impl Saves for ListSaves {
    ghost use Rattle.sl_saves.specs.Keeping.{EntryList, IsListed, list_adopted, list_credited};
    ghost use Rattle.sl_saves.specs.Keeping.{list_view};
    ghost use Rattle.sl_saves.specs.Lists.{list_kept, list_window, list_size, list_credits};
    ghost use Rattle.sl_saves.specs.Lists.{ListHasRoom};

    ghost Kept = { EntryList };

    ghost kept = { list_kept };

    ghost adopted = { list_adopted };

    ghost credited = { list_credited };

    ghost image = { list_view };

    ghost shows = { IsListed };

    ghost window = { list_window };

    ghost size = { list_size };

    ghost credits = { list_credits };

    ghost has_room = { ListHasRoom };

    fn ready(&mut self) -> Result<(), Memory> {
        if self.entries.len() >= MOST_ENTRIES {
            return Err(Memory);
        }
        Ok(self.entries.reserve(1)?)
    }

    fn adopt(&mut self, by: u16, packets: u64, bytes: u64) {
        self.number += u64::from(by);
        self.entries.push_reserved(Entry {
            number: self.number,
            slot: Slot::adopted(by, packets, bytes),
        });
    }

    fn credit(&mut self, channel: u32, age: u16, bytes: u64) {
        credit_entries(&mut self.entries, self.credits, channel, age, bytes);
    }

    fn view(&self) -> Result<View, Memory> {
        let slots = Slots::free(*self.entries.allocator(), self.ring)?;
        let mut view = View { at: 0, slots };
        self.write(&mut view);
        Ok(view)
    }

    fn fill(&self, view: &mut View) {
        view.slots.clear();
        self.write(view);
    }
}
