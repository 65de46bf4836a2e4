// What a control plane knows of its units, one after the other.
ghost use Rattle.std.specs.Prelude.{◌≡◌, ◌≤◌, ◌<◌, ◌++◌, ◌+◌, [], None, Some, MatchOption};
ghost use Rattle.std.specs.Prelude.{IsSome, IsTrue, length, map, flat_map, cond};
ghost use Rattle.std.specs.Vec.{vec_capacity};
ghost use Rattle.std.specs.List.{AllByRecursion};
ghost use Rattle.sl_control.specs.declared.known.Known.{Known};
ghost use Rattle.sl_machine.specs.Machine.{send_all};
ghost use Rattle.sl_control.specs.Control.{ask_by, ask_puts, dump_by, dump_puts, initiation};
ghost use Rattle.sl_control.specs.Control.{numbers_told, answered, answer_by, is_taken, is_swept};
ghost use Rattle.sl_control.specs.Told.{is_read_by, answered_by, puts_by};
ghost use Rattle.sl_control.specs.Joined.{AreApart, choice_of, choices_of, HasChoice};

use crate::blanks::Blanks;
use crate::known::{Known, Told, has_wids};
use sl_ids::{Width, wrap};
use sl_machine::Outputs;
use sl_net::Packet;
use sl_saves::View;
use sl_wire::{Dump, Framed, Header, Kind, Msg, Spare};

/// The place of the unit to which a choice belongs, where the choices after the first are two for
/// each unit in order, as a net's are.
fn usual_place(choice: u32) -> usize {
    (choice.saturating_sub(1) / 2) as usize
}

/// What a sweep does to the units.
pub fn ask_all(units: &mut Vec<Known>, spares: &mut Vec<Spare>, out: &mut Outputs<Msg>)
    requires { length out.old.items + length units.old.items ≤ out.old.room }
    ensures units { units.new.items ≡ map (ask_by None) units.old.items }
    ensures puts { out.new.items ≡ out.old.items ++ flat_map (ask_puts None) units.old.items }
    ensures room { out.new.room ≡ out.old.room }
{
    for i in 0..units.len() {
        units[i].ask(spares, out);
    }
}

/// What a unit sends its control plane: each is taken by a choice of its own.
#[derive(Clone, Copy)]
enum Sent {
    Notice,
    Dump,
}

/// The choice by which a unit's notices, or its dumps, are taken.
#[inline(always)]
fn choice_of(sent: Sent, known: &Known) -> u32
    ensures { result ≡ choice_of sent known.now }
{
    match sent {
        Sent::Notice => known.wires.notice,
        Sent::Dump => known.wires.dump,
    }
}

/// Whether there is a unit at a place with this choice.
#[inline(always)]
fn has_choice(units: &[Known], place: usize, sent: Sent, choice: u32) -> bool
    ensures { IsTrue result → HasChoice sent choice place units.now }
{
    match units.get(place) {
        Some(known) => choice_of(sent, known) == choice,
        None => false,
    }
}

/// The place of the unit with this choice. It looks at the usual one first.
#[inline(always)]
fn find(units: &[Known], sent: Sent, choice: u32) -> Option<usize>
    ensures { MatchOption result (AllByRecursion (λ y. y ≡ choice → ⊥) (choices_of sent units.now))
        (λ i. HasChoice sent choice i units.now) }
{
    let place = usual_place(choice);
    if has_choice(units, place, sent, choice) {
        return Some(place);
    }
    for place in 0..units.len() {
        if choice_of(sent, &units[place]) == choice {
            return Some(place);
        }
    }
    None
}

/// What a notice by this choice does to the units.
pub fn ask_one(units: &mut Vec<Known>, choice: u32, spares: &mut Vec<Spare>, out: &mut Outputs<Msg>)
    requires apart { AreApart (choices_of Sent.Notice units.old.items) }
    requires room { length out.old.items + length units.old.items ≤ out.old.room }
    ensures units { units.new.items ≡ map (ask_by (Some choice)) units.old.items }
    ensures puts { out.new.items ≡ out.old.items ++ flat_map
        (ask_puts (Some choice)) units.old.items }
    ensures room { out.new.room ≡ out.old.room }
{
    if let Some(i) = find(units, Sent::Notice, choice) {
        units[i].ask(spares, out);
    }
}

/// Whether each unit has a poll outstanding and is asked for again.
pub fn is_swept(units: &[Known]) -> bool
    ensures { result ≡ is_swept units.now }
{
    units.iter().all(|known| known.waits && known.again)
}

/// The frame of the initiation of a number.
pub fn initiation(width: Width, version: u8, number: u64) -> Framed
    ensures { Msg.Frame result ≡ initiation width.bits version number }
{
    let header = Header {
        kind: Kind::Init,
        id: wrap(width, number),
        channel: 255,
    };
    let packet = Packet {
        src: 0,
        dst: 0,
        seq: 0,
        len: 0,
        hops: 0,
    };
    Framed::of(version, &header, &packet)
}

/// Puts a frame on each of these links where it passes.
pub fn put_inits(outs: &[u32], passes: bool, frame: &Framed, out: &mut Outputs<Msg>)
    requires { length out.old.items + length outs.now ≤ out.old.room }
    ensures puts { out.new.items ≡ out.old.items ++ cond passes
        (send_all (Msg.Frame frame.now) outs.now) [] }
    ensures room { out.new.room ≡ out.old.room }
{
    if passes {
        for link in outs {
            out.put(*link, Msg::Frame(frame.again()));
        }
    }
}

/// What a dump does to the unit of which it tells this.
fn answer_told(
    known: &mut Known,
    ring: u16,
    done: u32,
    told: &Told,
    view: &View,
    blanks: &mut Blanks,
    out: &mut Outputs<Msg>,
)
    requires empty { blanks.old.rows.items ≡ [] }
    requires rows { ring ≤ vec_capacity blanks.old.rows }
    requires report { IsSome blanks.old.done }
    requires most { told.now.reached ≤ told.now.id }
    requires room { length out.old.items + 2 ≤ out.old.room }
    ensures known { known.new ≡ cond (is_read_by ring told.now view.now known.old)
        (answered_by told.now known.old) known.old }
    ensures puts { out.new.items ≡ out.old.items ++ cond
        (is_read_by ring told.now view.now known.old) (puts_by done told.now view.now known.old)
        [] }
    ensures room { out.new.room ≡ out.old.room }
    ensures left { blanks.new.rows.items ≡ [] }
{
    if known.read(ring, told, view, &mut blanks.rows) {
        if let Some(report) = blanks.done.take() {
            let rows = blanks.take_rows();
            known.answer(done, told, view, report, rows, &mut blanks.spares, out);
        }
    } else {
        blanks.rows.clear();
    }
}

/// What a dump by this choice does to the unit.
fn answer_one(
    known: &mut Known,
    width: Width,
    ring: u16,
    done: u32,
    dump: &Dump,
    blanks: &mut Blanks,
    out: &mut Outputs<Msg>,
)
    requires empty { blanks.old.rows.items ≡ [] }
    requires rows { ring ≤ vec_capacity blanks.old.rows }
    requires report { IsSome blanks.old.done }
    requires room { length out.old.items + 2 ≤ out.old.room }
    ensures known { known.new
        ≡ cond (is_taken (record { bits = width.bits; ring = ring }) dump.now known.old)
        (answered (numbers_told width.bits dump.now known.old) known.old) known.old }
    ensures puts { out.new.items ≡ out.old.items ++ cond
        (is_taken (record { bits = width.bits; ring = ring }) dump.now known.old)
        (answer_by done (numbers_told width.bits dump.now known.old) dump.now.view known.old) [] }
    ensures room { out.new.room ≡ out.old.room }
    ensures left { blanks.new.rows.items ≡ [] }
{
    if has_wids(width, dump) && known.has_rooms(width) {
        let told = known.told_by(width, dump);
        answer_told(known, ring, done, &told, &dump.view, blanks, out);
    }
}

/// What a dump by this choice does to the units.
pub fn answer_dump(
    units: &mut Vec<Known>,
    width: Width,
    ring: u16,
    done: u32,
    choice: u32,
    dump: &Dump,
    blanks: &mut Blanks,
    out: &mut Outputs<Msg>,
)
    requires empty { blanks.old.rows.items ≡ [] }
    requires rows { ring ≤ vec_capacity blanks.old.rows }
    requires report { IsSome blanks.old.done }
    requires apart { AreApart (choices_of Sent.Dump units.old.items) }
    requires room { 0 < length units.old.items → length out.old.items + 2 ≤ out.old.room }
    ensures units { units.new.items
        ≡ map (dump_by (record { bits = width.bits; ring = ring }) choice dump.now)
        units.old.items }
    ensures puts { out.new.items ≡ out.old.items ++ flat_map
        (dump_puts (record { bits = width.bits; ring = ring }) done choice dump.now)
        units.old.items }
    ensures room { out.new.room ≡ out.old.room }
    ensures left { blanks.new.rows.items ≡ [] }
{
    if let Some(i) = find(units, Sent::Dump, choice) {
        answer_one(&mut units[i], width, ring, done, dump, blanks, out);
    }
}
