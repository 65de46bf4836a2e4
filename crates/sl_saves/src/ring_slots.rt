// Trusted types: for nodes RingSlots.
// The slots of a ring.
ghost use Rattle.std.specs.Prelude.{◌≡◌, ◌<◌, ◌≤◌, ℕ, length, replicate, slice_index_or, slice_set};
ghost use Rattle.std.specs.Prelude.{IfOk, OnOk};
ghost use Rattle.sl_saves.specs.Views.{free_slot, no_slot};
ghost use Rattle.sl_saves.specs.Keeping.{slot_credited, slots_credited, is_last};

use crate::entry::Slot;
use crate::place::place_below;
use crate::shared::Shared;
use crate::slots::Slots;
use sl_machine::Memory;
use std::alloc::Global;
use std::marker::Model;

/// So many slots are shared with views only once they were shown often: what is shared takes memory of
/// its own. To share three misses the caches less often than to copy them.
const FEW: usize = 4;

/// How often is often.
const OFTEN: u8 = 32;

/// The slots of a ring, with those that its views share.
#[derive(Drop)]
pub struct RingSlots {
    items: Vec<Slot>,
    shared: Option<Shared>,
    // how often few slots were copied for a view
    copies: u8,
}

impl Model for RingSlots {
    ghost use Rattle.std.specs.Prelude.{List, IfSome};
    ghost use Rattle.sl_saves.specs.declared.entry.Slot.{Slot};
    ghost use Rattle.sl_saves.specs.Shares.{IsKeptAs};

    ghost Value = { List Slot };

    ghost view = { λ s. s.items.items };

    ghost invariant = { λ s. IfSome s.shared (λ shared. IsKeptAs shared s.items.items) };
}

impl RingSlots {
    /// So many slots in which nothing is saved.
    pub fn free(alloc: Global, size: u16) -> Result<RingSlots, Memory>
        ensures { IfOk result (λ slots. slots ≡ replicate size free_slot) }
    {
        let items = vec![in alloc; Slot::free(); size as usize]?;
        Ok(RingSlots {
            items,
            shared: None,
            copies: 0,
        })
    }

    /// They as a slice.
    pub fn items(&self) -> &[Slot]
        ensures { result.now ≡ self.now }
    {
        &self.items
    }

    /// A copy of them.
    pub fn copied(&self) -> Result<Slots, Memory>
        ensures { IfOk result (λ slots. slots ≡ self.now) }
    {
        let items = Vec::from_slice(*self.items.allocator(), &self.items)?;
        Ok(Slots::new(items))
    }

    fn get(&self, place: usize) -> &Slot
        requires { place < length self.now }
        ensures { result.now ≡ slice_index_or self.now place no_slot }
    {
        &self.items[place]
    }

    /// Writes a slot.
    pub fn set(&mut self, place: usize, slot: Slot)
        requires { place < length self.old }
        ensures { self.new ≡ slice_set self.old place slot }
    {
        if let Some(shared) = &mut self.shared {
            shared.note(place);
        }
        self.items[place] = slot;
    }

    /// Adds a data packet in flight to a slot, which is its foot or not.
    fn credit(&mut self, place: usize, is_foot: bool, channel: u32, age: u16, bytes: u64)
        requires place { place < length self.old }
        requires channel { channel < 8 }
        ensures { self.new ≡ slice_set self.old place
            (slot_credited is_foot (record { channel = channel; age = age; bytes = bytes })
            (slice_index_or self.old place no_slot)) }
    {
        if let Some(shared) = &mut self.shared {
            shared.note(place);
        }
        self.items[place].credit(is_foot, channel, age, bytes);
    }

    /// Whether a credit ends at a place, where it may go to `left` slots more.
    fn is_last(&self, place: usize, left: u8, age: u16) -> bool
        requires place { place < length self.now }
        requires age { age ≤ length self.now }
        ensures { (channel bytes : ℕ)
            → result ≡ is_last left (record { channel = channel; age = age; bytes = bytes })
            place self.now }
    {
        let back = self.get(place).back;
        left == 0
            || age <= back
            || self
                .get(place_below(self.items.len(), place, back as usize))
                .back
                == 0
    }

    /// Adds a data packet in flight to the slots from a place on, to so many at most.
    pub fn credit_from(&mut self, place: usize, credits: u8, channel: u32, age: u16, bytes: u64)
        requires place { place < length self.old }
        requires channel { channel < 8 }
        requires age { age ≤ length self.old }
        ensures value { self.new ≡ slots_credited credits
            (record { channel = channel; age = age; bytes = bytes }) place self.old }
        ensures size { length self.new ≡ length self.old }
    {
        let size = self.items.len();
        let mut place = place;
        let mut age = age;
        let mut left = credits;
        while left > 0 {
            left -= 1;
            let back = self.get(place).back;
            let is_foot = self.is_last(place, left, age);
            self.credit(place, is_foot, channel, age, bytes);
            if is_foot {
                return;
            }
            age -= back;
            place = place_below(size, place, back as usize);
        }
    }

    /// Whether they are copied for a view. A single one always is.
    fn is_copied(&self) -> bool {
        self.items.len() <= 1 || (self.items.len() <= FEW && self.copies < OFTEN)
    }

    /// Makes the slots of a view what they are: copies of few, and else shared ones.
    pub fn show(&mut self, view: &mut Slots) -> Result<(), Memory>
        ensures same { self.new ≡ self.old }
        ensures shown { OnOk result (view.new ≡ self.old) }
    {
        if self.is_copied() {
            self.copies = self.copies.saturating_add(1);
            return view.copy(&self.items);
        }
        view.release();
        let shown = match &mut self.shared {
            Some(shared) => shared.show(&self.items)?,
            None => {
                let alloc = *self.items.allocator();
                let mut shared = Shared::new(alloc, &self.items)?;
                let shown = shared.show(&self.items)?;
                self.shared = Some(shared);
                shown
            }
        };
        view.share(shown)
    }
}
