// Trusted types: for nodes Rows, Done, Dump, Msg.
// Messages between actors.
ghost use Rattle.std.specs.Prelude.{◌≡◌, option_map};
ghost use Rattle.sl_wire.specs.Carried.{bytes_on, carrying, frame_on};
ghost use Rattle.sl_wire.specs.Frames.{decoded};

use crate::boxed::Boxed;
use crate::frame::{Header, WireFault, decode};
use crate::framed::Framed;
use crate::spare::Spare;
use sl_ids::{Wid, Width};
use sl_net::{Bytes, Packet};
use sl_saves::{Saved, View};
use std::marker::Model;

/// What one unit saved.
#[derive(Debug, Drop)]
pub struct Rows {
    /// Pairs of a number and what was saved for it.
    pub items: Vec<(u64, Saved)>,
}

impl Model for Rows {
    ghost use Rattle.std.specs.Prelude.{ℕ, List};
    ghost use Rattle.sl_saves.specs.declared.entry.Saved.{Saved};

    ghost Value = { List (ℕ × Saved) };

    ghost view = { λ r. r.items.items };
}

/// What a control plane tells the observer of a unit, by a dump that it took. The ids are whole
/// numbers.
#[derive(Debug, Drop)]
pub struct Done {
    /// The unit's place among the units of the net.
    pub unit: u32,
    /// Its id.
    pub id: u64,
    /// Its last-seen ids on its data channels in order, 0 past them.
    pub last: [u64; 8],
    /// The least of its id, its last-seen ids on its data channels and, where it is an ingress
    /// unit, the last-seen id of its control plane.
    pub floor: u64,
    /// What it saved for each number above those collected before, up to the least of its id and
    /// its last-seen ids on its data channels.
    pub rows: Rows,
}

/// The registers of a unit, with wrapped ids.
#[derive(Debug, Drop)]
pub struct Dump {
    /// Its id.
    pub id: Wid,
    /// The last-seen id of its control plane, 0 of an egress unit.
    pub cpu: Wid,
    /// The last-seen ids of its data channels in order, 0 past them.
    pub last: [Wid; 8],
    /// What it saved, in its ring.
    pub view: View,
}

/// A message between actors. Ids on links and in dumps are wrapped; a Begin and a Done have whole
/// numbers.
#[derive(Debug, Drop)]
pub enum Msg {
    /// A frame: of a packet from a host or to it, of a data packet or a probe between units, or of an
    /// initiation from a control plane to an ingress unit.
    Frame(Framed),
    /// Bytes of a host that are not 24.
    Wire(Bytes),
    /// A poll, from a control plane to a unit. It may take a dump back that was read.
    Poll(Spare),
    /// A notice that a last-seen number of a unit has changed, to its control plane.
    Notice,
    /// A unit's registers, to its control plane.
    Dump(Boxed<Dump>),
    /// The begin of a snapshot, from the observer to a control plane.
    Begin(u64),
    /// A Done on a unit, from its control plane to the observer.
    Done(Boxed<Done>),
}

const _: () = prove!(size_of::<Msg>() <= 32);

impl Msg {
    /// The message with these bytes. Those of 24 take no memory of their own.
    pub fn carrying(bytes: Bytes) -> Msg
        ensures { result ≡ carrying bytes }
    {
        if bytes.items.len() != 24 {
            return Msg::Wire(bytes);
        }
        Msg::Frame(Framed::new(bytes.items.as_slice()))
    }

    /// What the bytes that it carries are read as, where it carries some.
    #[inline(always)]
    pub fn read(&self, width: Width) -> Option<Result<(u8, Header, Packet), WireFault>>
        ensures { result ≡ option_map (decoded width.bits) (bytes_on self.now) }
    {
        match self {
            Msg::Frame(frame) => Some(frame.decode(width)),
            Msg::Wire(bytes) => Some(decode(width, bytes.items.as_slice())),
            _ => None,
        }
    }

    /// The header and the packet of which it carries the frame in either version, with ids of this
    /// width.
    #[inline(always)]
    pub fn frame(&self, width: Width) -> Option<(Header, Packet)>
        ensures { result ≡ frame_on width.bits self.now }
    {
        match self.read(width) {
            Some(Ok((_version, header, packet))) => Some((header, packet)),
            _ => None,
        }
    }
}
