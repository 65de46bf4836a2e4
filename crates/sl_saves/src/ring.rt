// Trusted types: for nodes Ring, RingSaves.
// Saved entries in a ring of slots.
ghost use Rattle.std.specs.Prelude.{◌≡◌, ◌<◌, ◌≤◌, ◌^◌, length, replicate, [], IfOk, OnOk};

use crate::entry::{Slot, View};
use crate::keep::Saves;
use crate::place::place_above;
use crate::ring_slots::RingSlots;
use sl_machine::Memory;
use std::alloc::Global;

/// A ring of slots, each number in the slot that it has modulo the ring's size.
#[derive(Drop)]
pub struct Ring {
    at: u16,
    slots: RingSlots,
}

impl Ring {
    ghost use Rattle.sl_saves.specs.Keeping.{view_adopted, view_credited};
    ghost use Rattle.sl_saves.specs.Rings.{view_of};

    /// Moves on to another number, and saves the counters there.
    #[inline(never)]
    fn adopt(&mut self, by: u16, packets: u64, bytes: u64)
        requires at { self.old.at < length self.old.slots }
        requires by { by ≤ length self.old.slots }
        requires size { length self.old.slots < 2 ^ 16 }
        ensures { view_of self.new ≡ view_adopted by packets bytes (view_of self.old) }
    {
        let size = self.slots.items().len();
        let place = place_above(size, self.at as usize, by as usize);
        self.slots.set(place, Slot::adopted(by, packets, bytes));
        self.at = place as u16;
    }

    /// Adds a data packet in flight to the slots of the last numbers, to so many at most.
    #[inline(never)]
    fn credit(&mut self, credits: u8, channel: u32, age: u16, bytes: u64)
        requires at { self.old.at < length self.old.slots }
        requires channel { channel < 8 }
        requires age { age ≤ length self.old.slots }
        ensures value { view_of self.new ≡ view_credited credits
            (record { channel = channel; age = age; bytes = bytes }) (view_of self.old) }
        ensures size { length self.new.slots ≡ length self.old.slots }
    {
        self.slots
            .credit_from(self.at as usize, credits, channel, age, bytes);
    }

    /// Makes a view that of the ring. Memory that it has is used again.
    fn show(&mut self, view: &mut View) -> Result<(), Memory>
        ensures same { self.new ≡ self.old }
        ensures shown { OnOk result (view.new ≡ view_of self.old) }
    {
        self.slots.show(&mut view.slots)?;
        view.at = self.at;
        Ok(())
    }
}

/// Saved entries in a ring of slots.
#[derive(Drop)]
pub struct RingSaves {
    window: u16,
    ring: Ring,
    credits: u8,
    ghost least: { 1 ≤ window },
    ghost most: { window ≤ length ring.slots },
    ghost some: { 1 ≤ credits },
    ghost few: { credits ≤ 4 },
    ghost at: { ring.at < length ring.slots },
    ghost size: { length ring.slots < 2 ^ 16 },
}

impl RingSaves {
    ghost use Rattle.sl_saves.specs.Views.{IsShown, free_slot};
    ghost use Rattle.sl_saves.specs.Rings.{ring_view, ring_window, ring_size, ring_credits};

    /// Saved entries at the number 0, with nothing saved, in a ring of `ring` slots. A credit goes
    /// to the last `credits` entries at most.
    pub fn new(alloc: Global, window: u16, ring: u16, credits: u8) -> Result<RingSaves, Memory>
        requires least { 1 ≤ window }
        requires most { window ≤ ring }
        requires some { 1 ≤ credits }
        requires few { credits ≤ 4 }
        ensures view { IfOk result
            (λ saves. ring_view saves ≡ record { at = 0; slots = replicate ring free_slot }) }
        ensures shows { IfOk result (λ saves. IsShown credits (ring_view saves) []) }
        ensures window { IfOk result (λ saves. ring_window saves ≡ window) }
        ensures size { IfOk result (λ saves. ring_size saves ≡ ring) }
        ensures credits { IfOk result (λ saves. ring_credits saves ≡ credits) }
    {
        let slots = RingSlots::free(alloc, ring)?;
        Ok(RingSaves {
            window,
            credits,
            ring: Ring { at: 0, slots },
        })
    }

    /// Makes a view what `view` gives. Unlike `fill` it may take memory, but where the view was one of
    /// as large a ring it takes hardly any, and shares the slots of a large ring: those that were
    /// written since it was last shown are copied, where nobody holds them any more.
    pub fn show(&mut self, view: &mut View) -> Result<(), Memory>
        ensures same { self.new ≡ self.old }
        ensures shown { OnOk result (view.new ≡ ring_view self.old) }
    {
        self.ring.show(view)
    }
}

impl Saves for RingSaves {
    ghost use Rattle.sl_saves.specs.declared.entry.View.{View};
    ghost use Rattle.sl_saves.specs.Views.{IsShown};
    ghost use Rattle.sl_saves.specs.Keeping.{view_adopted, view_credited};
    ghost use Rattle.sl_saves.specs.Rings.{ring_view, ring_window, ring_size, ring_credits};

    ghost Kept = { View };

    ghost kept = { ring_view };

    ghost adopted = { view_adopted };

    ghost credited = { view_credited };

    ghost image = { λ view. view };

    ghost shows = { IsShown };

    ghost window = { ring_window };

    ghost size = { ring_size };

    ghost credits = { ring_credits };

    ghost has_room = { λ _. Unit {0} };

    fn ready(&mut self) -> Result<(), Memory> {
        Ok(())
    }

    fn adopt(&mut self, by: u16, packets: u64, bytes: u64) {
        self.ring.adopt(by, packets, bytes);
    }

    fn credit(&mut self, channel: u32, age: u16, bytes: u64) {
        self.ring.credit(self.credits, channel, age, bytes);
    }

    fn view(&self) -> Result<View, Memory> {
        let slots = self.ring.slots.copied()?;
        Ok(View {
            at: self.ring.at,
            slots,
        })
    }

    fn fill(&self, view: &mut View) {
        view.slots.copy_from(self.ring.slots.items());
        view.at = self.ring.at;
    }
}
