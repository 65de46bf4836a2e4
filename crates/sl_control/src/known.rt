// Trusted types: for nodes UnitWires, Known.
// What a control plane knows of a unit.
ghost use Rattle.std.specs.Prelude.{◌≡◌, ◌≤◌, ◌<◌, ◌++◌, ◌+◌, true, length, [], ◌∷◌, if◌then◌else◌};
ghost use Rattle.std.specs.Bool.{OnTrue};
ghost use Rattle.std.specs.List.{list_all};
ghost use Rattle.std.specs.Vec.{vec_capacity};
ghost use Rattle.sl_wire.specs.Carried.{poll};
ghost use Rattle.sl_wire.specs.Reach.{reached};
ghost use Rattle.sl_wire.specs.Wids.{is_wid, has_room, unwrapped_each};
ghost use Rattle.sl_control.specs.Rows.{seen_on};
ghost use Rattle.sl_control.specs.Control.{asked, poll_by, has_wids, has_rooms, numbers_told};
ghost use Rattle.sl_control.specs.Told.{told_of, is_read_by, rows_by, floor_by, done_by};
ghost use Rattle.sl_control.specs.Told.{answered_by, puts_by};

use crate::rows::{is_sized, read_rows};
use sl_ids::{Wid, Width, unwrap_from};
use sl_machine::Outputs;
use sl_saves::{Saved, View};
use sl_wire::{Boxed, Done, Dump, Msg, Rows, Spare, are_wids, has_room, have_room, is_wid};

/// How a unit is joined to its control plane.
#[derive(Clone, Copy)]
pub struct UnitWires {
    /// The unit's place among the units of the net.
    pub place: u32,
    /// The choice by which its notices are taken.
    pub notice: u32,
    /// The choice by which its dumps are taken.
    pub dump: u32,
    /// The place of the link for polls to it among the control plane's outgoing links.
    pub poll: u32,
    /// Whether it is an ingress unit.
    pub ingress: bool,
    /// How many data channels it has.
    pub channels: u32,
}

/// What a control plane knows of a unit. Ids are those of the latest dump, 0 before the first.
#[derive(Clone, Copy)]
pub struct Known {
    /// How the unit is joined.
    pub wires: UnitWires,
    /// Whether a poll to it is outstanding.
    pub waits: bool,
    /// Whether a notice or a sweep came since that poll.
    pub again: bool,
    /// Its id.
    pub id: u64,
    /// The last-seen ids of its data channels in order, 0 past them.
    pub last: [u64; 8],
    /// The last-seen id of its control plane, 0 of an egress unit.
    pub cpu: u64,
    /// The number up to which its rows are collected.
    pub upto: u64,
}

/// The numbers of a unit that a dump tells.
#[derive(Clone, Copy)]
pub struct Numbers {
    /// Its id.
    pub id: u64,
    /// The last-seen id of its control plane, 0 of an egress unit.
    pub cpu: u64,
    /// The last-seen ids of its data channels in order.
    pub last: [u64; 8],
}

/// What a dump tells of a unit, as it is reported.
#[derive(Clone, Copy)]
pub(crate) struct Told {
    /// Its id.
    pub id: u64,
    /// The last-seen id of its control plane, 0 of an egress unit.
    pub cpu: u64,
    /// The last-seen ids of its data channels in order, 0 past them.
    pub last: [u64; 8],
    /// The number that its id and these have reached.
    pub reached: u64,
}

/// A poll, which takes back one of the dumps that were read.
fn poll(spares: &mut Vec<Spare>) -> Msg
    ensures { result ≡ poll }
{
    Msg::Poll(spares.pop().unwrap_or(Spare::new(None)))
}

/// Whether each id of a dump is one of this width.
pub(crate) fn has_wids(width: Width, dump: &Dump) -> bool
    ensures { result ≡ has_wids width.bits dump.now }
{
    is_wid(width, dump.id) && is_wid(width, dump.cpu) && are_wids(width, &dump.last)
}

/// The last-seen ids that the wrapped ones of so many data channels stand for, 0 past them, and the
/// least of an id and these.
fn lasts_told(
    width: Width,
    count: u32,
    id: u64,
    known: &[u64; 8],
    wids: &[Wid; 8],
) -> ([u64; 8], u64)
    requires wids { list_all (is_wid width.bits) wids.now ≡ true }
    requires room { list_all (has_room width.bits) known.now ≡ true }
    ensures last { result.0 ≡ seen_on count (unwrapped_each width.bits known.now wids.now) }
    ensures reached { result.1 ≡ reached count id (unwrapped_each width.bits known.now wids.now) }
    ensures most { result.1 ≤ id }
{
    let mut last = [0; 8];
    let mut reached = id;
    for channel in 0..(count as usize).min(8) {
        let number = unwrap_from(width, known[channel], wids[channel]);
        last[channel] = number;
        reached = reached.min(number);
    }
    (last, reached)
}

impl Known {
    /// Whether from each number, all that a wrapped id may stand for fit 64 bits.
    pub(crate) fn has_rooms(&self, width: Width) -> bool
        ensures { result ≡ has_rooms width.bits self.now }
    {
        has_room(width, self.id) && has_room(width, self.cpu) && have_room(width, &self.last)
    }

    /// What a dump tells, relative to what is known.
    pub(crate) fn told_by(&self, width: Width, dump: &Dump) -> Told
        requires wids { has_wids width.bits dump.now ≡ true }
        requires rooms { has_rooms width.bits self.now ≡ true }
        ensures told { result ≡ told_of (numbers_told width.bits dump.now self.now) self.now }
        ensures most { result.reached ≤ result.id }
    {
        let id = unwrap_from(width, self.id, dump.id);
        let (last, reached) = lasts_told(width, self.wires.channels, id, &self.last, &dump.last);
        Told {
            id,
            cpu: unwrap_from(width, self.cpu, dump.cpu),
            last,
            reached,
        }
    }

    /// Polls the unit, or notes that it is to be polled again.
    pub(crate) fn ask(&mut self, spares: &mut Vec<Spare>, out: &mut Outputs<Msg>)
        requires { length out.old.items < out.old.room }
        ensures known { self.new ≡ asked self.old }
        ensures puts { out.new.items ≡ out.old.items ++ poll_by self.old }
        ensures room { out.new.room ≡ out.old.room }
    {
        if !self.waits {
            out.put(self.wires.poll, poll(spares));
        }
        self.again = self.waits;
        self.waits = true;
    }

    fn floor_of(&self, told: &Told) -> u64
        ensures { result ≡ floor_by told.now self.now }
    {
        if self.wires.ingress {
            told.reached.min(told.cpu)
        } else {
            told.reached
        }
    }

    /// Reads the rows that a dump brings, and answers whether it can be read.
    pub(crate) fn read(
        &self,
        ring: u16,
        told: &Told,
        view: &View,
        rows: &mut Vec<(u64, Saved)>,
    ) -> bool
        requires empty { rows.old.items ≡ [] }
        requires room { ring ≤ vec_capacity rows.old }
        requires most { told.now.reached ≤ told.now.id }
        ensures read { result ≡ is_read_by ring told.now view.now self.now }
        ensures rows { OnTrue result (rows.new.items ≡ rows_by told.now view.now self.now) }
    {
        if !self.waits || !is_sized(ring, view) {
            return false;
        }
        read_rows(rows, view, told.id, self.upto, told.reached)
    }

    fn done_of(&self, told: &Told, view: &View, rows: Vec<(u64, Saved)>) -> Done
        requires { rows.items ≡ rows_by told.now view.now self.now }
        ensures { result ≡ done_by told.now view.now self.now }
    {
        Done {
            unit: self.wires.place,
            id: told.id,
            last: told.last,
            floor: self.floor_of(told),
            rows: Rows { items: rows },
        }
    }

    /// Notes what a dump tells.
    fn learn(&mut self, told: &Told)
        ensures { self.new ≡ answered_by told.now self.old }
    {
        self.upto = self.upto.max(told.reached);
        self.id = told.id;
        self.last = told.last;
        self.cpu = told.cpu;
        self.waits = self.again;
        self.again = false;
    }

    /// Polls the unit where it was asked for again.
    fn poll_again(&self, spares: &mut Vec<Spare>, out: &mut Outputs<Msg>)
        requires { length out.old.items < out.old.room }
        ensures puts { out.new.items ≡ out.old.items
            ++ (if self.now.again then (self.now.wires.poll, poll) ∷ [] else []) }
        ensures room { out.new.room ≡ out.old.room }
    {
        if self.again {
            out.put(self.wires.poll, poll(spares));
        }
    }

    /// Reports the rows of a dump, and polls again where that was asked for.
    pub(crate) fn answer(
        &mut self,
        done: u32,
        told: &Told,
        view: &View,
        mut report: Boxed<Done>,
        rows: Vec<(u64, Saved)>,
        spares: &mut Vec<Spare>,
        out: &mut Outputs<Msg>,
    )
        requires rows { rows.items ≡ rows_by told.now view.now self.old }
        requires room { length out.old.items + 2 ≤ out.old.room }
        ensures known { self.new ≡ answered_by told.now self.old }
        ensures puts { out.new.items ≡ out.old.items ++ puts_by done told.now view.now self.old }
        ensures room { out.new.room ≡ out.old.room }
    {
        report.set(self.done_of(told, view, rows));
        out.put(done, Msg::Done(report));
        self.poll_again(spares, out);
        self.learn(told);
    }
}
