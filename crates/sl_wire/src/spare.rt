// Trusted types: for nodes Spare.
// Dumps that were read.
ghost use Rattle.std.specs.Prelude.{◌≡◌, OnOk};
ghost use Rattle.sl_saves.specs.Rings.{ring_view};

use crate::boxed::Boxed;
use crate::message::Dump;
use sl_ids::Wid;
use sl_machine::Memory;
use sl_saves::RingSaves;
use std::marker::Model;

/// A dump that was read, on its way back to a unit, which uses its memory again. Contracts see nothing
/// of it, so that nothing can depend on it.
#[derive(Debug, Drop)]
pub struct Spare {
    dump: Option<Boxed<Dump>>,
}

impl Model for Spare {
    ghost Value = { Unit {0} };

    ghost view = { λ s. tt };
}

impl Spare {
    /// Such a dump, or none. It shares no slots any more, so that its unit can write there.
    pub fn new(dump: Option<Boxed<Dump>>) -> Spare {
        let mut dump = dump;
        if let Some(dump) = &mut dump {
            dump.inner.view.slots.release();
        }
        Spare { dump }
    }

    /// The dump.
    pub fn into_dump(self) -> Option<Boxed<Dump>> {
        self.dump
    }
}

impl Boxed<Dump> {
    /// Makes it the dump of these registers. Memory that it has is used again.
    pub fn refill(
        &mut self,
        id: Wid,
        cpu: Wid,
        last: [Wid; 8],
        saves: &mut RingSaves,
    ) -> Result<(), Memory>
        ensures saves { saves.new ≡ saves.old }
        ensures dump { OnOk result
            (self.new ≡ record { id = id; cpu = cpu; last = last; view = ring_view saves.old }) }
    {
        let dump = &mut *self.inner;
        saves.show(&mut dump.view)?;
        dump.id = id;
        dump.cpu = cpu;
        dump.last = last;
        Ok(())
    }
}
