// Trusted types: Total; for nodes Slot, Saved, View.
// Totals, saved slots, views and answers.
ghost use Rattle.std.specs.Prelude.{◌≡◌, ◌<◌, ◌≤◌, ◌^◌, length};

use crate::slots::Slots;

/// Packets and bytes of a channel that were in flight.
#[derive(Clone, Copy, Debug, PartialEq, Eq)]
pub struct Total {
    /// How many packets.
    pub packets: u64,
    /// How many bytes these have together.
    pub bytes: u64,
}

/// What is saved when a number is adopted.
#[derive(Clone, Copy, Debug, PartialEq, Eq)]
pub struct Slot {
    /// The packets counted before.
    pub packets: u64,
    /// The bytes counted before.
    pub bytes: u64,
    /// What was credited to the number, by channel.
    pub inflight: [Total; 8],
    /// How far the number lies above the one saved before. 0 where nothing is saved here.
    pub back: u16,
    /// The greatest age of a credit whose foot the number is, 0 where there is none.
    pub reach: u16,
}

const _: () = prove!(size_of::<Slot>() <= 160);

/// What was saved for a number.
#[derive(Clone, Copy, Debug, PartialEq, Eq)]
pub enum Saved {
    /// Its value: the packets and bytes counted before it, and what was in flight by channel.
    Value {
        packets: u64,
        bytes: u64,
        inflight: [Total; 8],
    },
    /// It was not saved. `to` is the least number above it that was.
    Skipped {
        to: u64,
    },
    /// A number above it is the foot of an older packet: `by` is the least such number, `reach`
    /// the greatest age of a packet whose foot it is.
    Miscredited {
        by: u64,
        reach: u16,
    },
}

/// The slots of a ring, as they are read.
#[derive(Debug, Drop)]
pub struct View {
    /// The place of the slot of the unit's id.
    pub at: u16,
    /// The slots of the ring.
    pub slots: Slots,
}

impl Total {
    /// No packet.
    pub(crate) const NONE: Total = Total {
        packets: 0,
        bytes: 0,
    };
}

impl Slot {
    ghost use Rattle.sl_saves.specs.Views.{free_slot};
    ghost use Rattle.sl_saves.specs.Keeping.{new_slot, slot_credited};

    /// A slot in which nothing is saved.
    pub(crate) fn free() -> Slot
        ensures { result ≡ free_slot }
    {
        Slot::adopted(0, 0, 0)
    }

    /// A slot as an adoption writes it.
    pub(crate) fn adopted(by: u16, packets: u64, bytes: u64) -> Slot
        ensures { result ≡ new_slot by packets bytes }
    {
        Slot {
            packets,
            bytes,
            inflight: [Total::NONE; 8],
            back: by,
            reach: 0,
        }
    }

    /// Adds a data packet in flight, whose foot it is or not.
    pub(crate) fn credit(&mut self, is_foot: bool, channel: u32, age: u16, bytes: u64)
        requires { channel < 8 }
        ensures { self.new ≡ slot_credited is_foot
            (record { channel = channel; age = age; bytes = bytes }) self.old }
    {
        let total = &mut self.inflight[channel as usize];
        total.packets = total.packets.saturating_add(1);
        total.bytes = total.bytes.saturating_add(bytes);
        if is_foot {
            self.reach = self.reach.max(age);
        }
    }
}
