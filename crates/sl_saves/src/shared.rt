// Slots that a ring shares with its views.
ghost use Rattle.std.specs.Prelude.{◌≡◌, ◌≢◌, ◌<◌, ℕ, List, length, slice_set, IfOk, OnOk, OnErr, false};
ghost use Rattle.std.specs.Arc.{arc_value};
ghost use Rattle.sl_saves.specs.declared.entry.Slot.{Slot};
ghost use Rattle.sl_saves.specs.Shares.{AgreesBut, IsKeptAs};

use crate::entry::Slot;
use sl_machine::Memory;
use std::alloc::Global;
use std::sync::Arc;

/// So many written places are noted at most.
const MOST_PLACES: usize = 8;

/// The slots of a ring as its last view showed them, and where they were written since.
#[derive(Debug, Drop)]
pub struct Shared {
    slots: Arc<Vec<Slot>>,
    written: Vec<usize>,
    // whether more places were written than are noted
    stale: bool,
}

/// Copies the slots at some places.
fn copy_places(shown: &mut [Slot], slots: &[Slot], places: &[usize])
    requires length { length shown.old ≡ length slots.now }
    requires agree { AgreesBut places.now shown.old slots.now }
    ensures { shown.new ≡ slots.now }
{
    for place in places {
        if *place < slots.len() {
            shown[*place] = slots[*place];
        }
    }
}

/// Makes shared slots what others are: in place where nobody else holds them, and else as a copy.
fn refresh(
    alloc: Global,
    shared: &mut Arc<Vec<Slot>>,
    slots: &[Slot],
    written: &[usize],
    stale: bool,
) -> Result<(), Memory>
    requires length { length (arc_value shared.old).items ≡ length slots.now }
    requires agree { stale ≡ false → AgreesBut written.now (arc_value shared.old).items slots.now }
    ensures ok { OnOk result ((arc_value shared.new).items ≡ slots.now) }
    ensures err { OnErr result (shared.new ≡ shared.old) }
{
    if let Some(shown) = Arc::get_mut(shared) {
        if stale {
            shown.as_mut_slice().copy_from_slice(slots);
        } else {
            copy_places(shown, slots, written);
        }
        return Ok(());
    }
    *shared = Arc::new(alloc, Vec::from_slice(alloc, slots)?)?;
    Ok(())
}

impl Shared {
    /// These slots, shared.
    pub fn new(alloc: Global, slots: &[Slot]) -> Result<Shared, Memory>
        ensures { IfOk result (λ shared. IsKeptAs shared slots.now) }
    {
        Ok(Shared {
            slots: Arc::new(alloc, Vec::from_slice(alloc, slots)?)?,
            written: Vec::with_capacity(alloc, MOST_PLACES)?,
            stale: false,
        })
    }

    /// Notes that a slot is written.
    pub fn note(&mut self, place: usize)
        ensures { (slots : List Slot) (slot : Slot) → IsKeptAs self.old slots
            → IsKeptAs self.new (slice_set slots place slot) }
    {
        for other in &self.written {
            if *other == place {
                return;
            }
        }
        if self.written.len() < self.written.capacity() {
            self.written.push_reserved(place);
        } else {
            self.stale = true;
        }
    }

    /// The slots as they are now, to be shared.
    pub fn show(&mut self, slots: &[Slot]) -> Result<Arc<Vec<Slot>>, Memory>
        requires { IsKeptAs self.old slots.now }
        ensures kept { IsKeptAs self.new slots.now }
        ensures shown { IfOk result (λ shown. (arc_value shown).items ≡ slots.now) }
    {
        let alloc = *self.written.allocator();
        refresh(alloc, &mut self.slots, slots, &self.written, self.stale)?;
        self.written.clear();
        self.stale = false;
        Ok(Arc::try_clone(&self.slots)?)
    }
}
