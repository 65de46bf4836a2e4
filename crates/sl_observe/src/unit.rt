// What the observer knows of a unit.
ghost use Rattle.std.specs.Prelude.{◌≡◌, ◌+◌, ◌≤◌, ◌++◌, OnOk, length, map, replicate, vec_len};
ghost use Rattle.std.specs.Prelude.{vec_capacity};
ghost use Rattle.std.specs.Option.{option_copied};
ghost use Rattle.sl_observe.specs.Observer.{is_after};

use sl_saves::Saved;
use sl_wire::Done;
use std::alloc::{AllocError, Global};
use std::marker::Model;

/// Room for so many rows is taken at first. Room that isn't written costs no memory, and rows that
/// find room aren't copied.
const MANY: usize = 1024;

/// What the last Done on a unit said; zeros before the first.
#[derive(Clone, Copy, Debug, PartialEq, Eq)]
pub struct Seen {
    /// The unit's id.
    pub id: u64,
    /// Its last-seen numbers on its data channels in order, 0 past them.
    pub last: [u64; 8],
    /// The number that its id and all its last-seen numbers have reached, that of its control
    /// plane too where it is an ingress unit.
    pub floor: u64,
}

/// A unit, with what the last Done on it said and the rows that came for it in order, from the
/// row of the number 1.
#[derive(Drop)]
pub struct Collected {
    device: u32,
    channels: usize,
    seen: Seen,
    rows: Vec<Saved>,
}

impl Model for Collected {
    ghost use Rattle.std.specs.Prelude.{◌-◌, vec_len, vec_capacity};
    ghost use Rattle.sl_observe.specs.Kept as kept;

    ghost Value = { kept.Collected };

    ghost view = { λ u. record {
      state = record {
        device = u.device;
        channels = u.channels;
        id = u.seen.id;
        last = u.seen.last;
        floor = u.seen.floor;
        rows = u.rows.items;
      };
      room = vec_capacity u.rows - vec_len u.rows;
    } };
}

impl Seen {
    /// What is known of a unit before the first Done on it.
    fn nothing() -> Seen
        ensures id { result.id ≡ 0 }
        ensures last { result.last ≡ replicate 8 0 }
        ensures floor { result.floor ≡ 0 }
    {
        Seen {
            id: 0,
            last: [0; 8],
            floor: 0,
        }
    }
}

/// Whether rows are those of the numbers after one, ascending without a gap.
fn is_after(number: u64, rows: &[(u64, Saved)]) -> bool
    ensures { result ≡ is_after number rows.now }
{
    let mut before = number;
    for row in rows {
        if row.0 <= before || row.0 - before > 1 {
            return false;
        }
        before = row.0;
    }
    true
}

/// Adds rows, for which there is room.
fn append(rows: &mut Vec<Saved>, more: &[(u64, Saved)])
    requires { vec_len rows.old + length more.now ≤ vec_capacity rows.old }
    ensures { rows.new.items ≡ rows.old.items ++ map (λ r. r.1) more.now }
{
    for row in more {
        rows.push_reserved(row.1);
    }
}

impl Collected {
    ghost use Rattle.sl_observe.specs.Observer.{new_unit, seen_of, saved_of, is_next, after_done};

    /// A unit of a device with so many data channels, before the first Done on it.
    pub fn new(alloc: Global, device: u32, channels: usize) -> Collected
        ensures { result.state ≡ new_unit device channels }
    {
        Collected {
            device,
            channels,
            seen: Seen::nothing(),
            rows: Vec::new(alloc),
        }
    }

    /// Its device.
    pub fn device(&self) -> u32
        ensures { result ≡ self.now.state.device }
    {
        self.device
    }

    /// What the last Done on it said.
    pub fn seen(&self) -> Seen
        ensures { result ≡ seen_of self.now.state }
    {
        self.seen
    }

    /// The row of a number, where it came.
    pub fn saved(&self, k: u64) -> Option<&Saved>
        ensures { option_copied result ≡ saved_of self.now.state k }
    {
        if k == 0 {
            None
        } else {
            self.rows.get((k - 1) as usize)
        }
    }

    /// Takes room for so many rows more. Room doubles, and is that of many rows at first and two rings
    /// at least, but not beyond that for the rows of so many snapshots and a ring.
    pub fn make_room(&mut self, ring: u16, count: u64) -> Result<(), AllocError>
        ensures state { self.new.state ≡ self.old.state }
        ensures room { OnOk result (ring ≤ self.new.room) }
        ensures more { self.old.room ≤ self.new.room }
    {
        let ring = ring as usize;
        let len = self.rows.len();
        if ring <= self.rows.capacity() - len {
            return Ok(());
        }
        let most = (count as usize).saturating_add(ring);
        let wanted = len.max(2 * ring).max(MANY).min(most.saturating_sub(len));
        self.rows.reserve_exact(ring.max(wanted))
    }

    /// Whether the rows of a Done are the unit's next ones, at most as many as a ring holds. Which
    /// number the Done says that the unit has reached isn't asked.
    fn is_next(&self, ring: u16, done: &Done) -> bool
        ensures { result ≡ is_next ring self.now.state done.now }
    {
        let rows = done.rows.items.as_slice();
        rows.len() <= ring as usize && is_after(self.rows.len() as u64, rows)
    }

    /// Takes a Done that came from a device.
    pub fn collect(&mut self, ring: u16, link: u32, done: &Done)
        requires { self.old.state.device ≡ link → ring ≤ self.old.room }
        ensures state { self.new.state ≡ after_done ring link done.now self.old.state }
        ensures same { (self.new.state.device ≡ link → ⊥) → self.new ≡ self.old }
    {
        if self.device == link && self.is_next(ring, done) {
            self.seen = Seen {
                id: done.id,
                last: done.last,
                floor: done.floor,
            };
            append(&mut self.rows, done.rows.items.as_slice());
        }
    }
}
