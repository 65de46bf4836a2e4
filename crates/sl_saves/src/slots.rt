// Trusted types: for nodes Slots.
// The slots of a view.
ghost use Rattle.std.specs.Prelude.{◌≡◌, ◌<◌, ◌≤◌, length, replicate, slice_index_or, slice_set};
ghost use Rattle.std.specs.Prelude.{vec_capacity, IfOk, OnOk, None};
ghost use Rattle.std.specs.Arc.{arc_value};
ghost use Rattle.sl_saves.specs.Views.{free_slot, no_slot};
ghost use Rattle.sl_saves.specs.Slots.{slots_in, FitsRoom};

use crate::entry::Slot;
use sl_machine::Memory;
use std::alloc::Global;
use std::marker::Model;
use std::mem;
use std::sync::Arc;

/// A list of slots: its own, or some that it shares. Where it shares some, `items` has room for
/// them.
#[derive(Debug, Drop)]
pub struct Slots {
    items: Vec<Slot>,
    shared: Option<Arc<Vec<Slot>>>,
}

impl Model for Slots {
    ghost use Rattle.std.specs.Prelude.{List, vec_capacity};
    ghost use Rattle.sl_saves.specs.declared.entry.Slot.{Slot};
    ghost use Rattle.sl_saves.specs.Slots.{slots_in, FitsRoom};

    ghost Value = { List Slot };

    ghost view = { λ s. slots_in s.shared s.items.items };

    ghost invariant = { λ s. FitsRoom s.shared (vec_capacity s.items) };
}

/// Writes shared slots into a list that has room for them. It takes no memory.
fn settle(items: &mut Vec<Slot>, shared: &mut Option<Arc<Vec<Slot>>>)
    requires { FitsRoom shared.old (vec_capacity items.old) }
    ensures items { items.new.items ≡ slots_in shared.old items.old.items }
    ensures alone { shared.new ≡ None }
{
    if let Some(slots) = mem::replace(shared, None) {
        items.clear();
        for slot in slots.as_slice() {
            items.push_reserved(*slot);
        }
    }
}

impl Slots {
    /// These slots.
    pub fn new(items: Vec<Slot>) -> Slots
        ensures { result ≡ items.items }
    {
        Slots {
            items,
            shared: None,
        }
    }

    /// So many slots in which nothing is saved.
    pub(crate) fn free(alloc: Global, size: u16) -> Result<Slots, Memory>
        ensures { IfOk result (λ slots. slots ≡ replicate size free_slot) }
    {
        let items = vec![in alloc; Slot::free(); size as usize]?;
        Ok(Slots::new(items))
    }

    /// How many there are.
    pub fn len(&self) -> usize
        ensures { result ≡ length self.now }
    {
        match &self.shared {
            Some(shared) => shared.len(),
            None => self.items.len(),
        }
    }

    /// The slot at a place.
    pub fn get(&self, place: usize) -> &Slot
        requires { place < length self.now }
        ensures { result.now ≡ slice_index_or self.now place no_slot }
    {
        match &self.shared {
            Some(shared) => &shared[place],
            None => &self.items[place],
        }
    }

    /// Shares these slots. Memory that it has is used again.
    pub(crate) fn share(&mut self, slots: Arc<Vec<Slot>>) -> Result<(), Memory>
        ensures { OnOk result (self.new ≡ (arc_value slots).items) }
    {
        self.shared = None;
        self.items.clear();
        self.items.reserve(slots.len())?;
        self.shared = Some(slots);
        Ok(())
    }

    /// Shares nothing any more, and has any slots. It takes no memory.
    pub fn release(&mut self) {
        self.shared = None;
    }

    /// Makes them a copy of others. Memory that it has is used again.
    pub(crate) fn copy(&mut self, slots: &[Slot]) -> Result<(), Memory>
        ensures { OnOk result (self.new ≡ slots.now) }
    {
        self.shared = None;
        self.items.clear();
        self.items.extend_from_slice(slots)?;
        Ok(())
    }

    /// Makes them what others are. It takes no memory.
    pub(crate) fn copy_from(&mut self, slots: &[Slot])
        requires { length self.old ≡ length slots.now }
        ensures { self.new ≡ slots.now }
    {
        settle(&mut self.items, &mut self.shared);
        self.items.as_mut_slice().copy_from_slice(slots);
    }

    /// Saves nothing in any of them.
    pub(crate) fn clear(&mut self)
        ensures { self.new ≡ replicate (length self.old) free_slot }
    {
        settle(&mut self.items, &mut self.shared);
        self.items.as_mut_slice().fill(Slot::free());
    }

    /// Writes a slot.
    pub(crate) fn set(&mut self, place: usize, slot: Slot)
        requires { place < length self.old }
        ensures { self.new ≡ slice_set self.old place slot }
    {
        settle(&mut self.items, &mut self.shared);
        self.items[place] = slot;
    }
}
