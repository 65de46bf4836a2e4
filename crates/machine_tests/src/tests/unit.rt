// Units of a device with two ports.
ghost use Rattle.std.specs.Prelude.{◌≡◌, ◌<◌, ◌≤◌, IfOk, length, slice_index};
ghost use Rattle.sl_layout.specs.Net.{units, links_into, links_from};
ghost use Rattle.sl_unit.specs.Made.{IsRanged};
ghost use Rattle.sl_unit.specs.Units.{unit_counts};

use super::messages::Event::{Data, Frame, Probe};
use super::nets::{let_go, net};
use super::rig::{Rig, Turn, first_wrong};
use sl_machine::Memory;
use sl_net::{Net, Side, Snapshot};
use sl_route::Routes;
use sl_saves::{Saved, Total, View, read_saved, try_read_saved};
use sl_unit::{Unit, UnitCounts, unit_side};
use sl_wire::{Boxed, Dump, Msg, Spare};
use std::alloc::Global;
use std::test::Fail;

/// A window of two, a ring of two slots, and so many credits.
fn snapshot(credits: u8) -> Snapshot
    requires least { 1 ≤ credits }
    requires most { credits ≤ 4 }
    ensures { IsRanged result }
{
    Snapshot {
        width: 2,
        window: 2,
        ring: 2,
        count: 2,
        retries: 0,
        credits,
        version: 1,
    }
}

/// The unit at a place of a net, with so many credits.
fn unit_of(alloc: Global, net: &Net, place: u32, credits: u8) -> Result<Unit, Memory>
    requires place { place < length (units net.now) }
    requires least { 1 ≤ credits }
    requires most { credits ≤ 4 }
    ensures { IfOk result (λ unit. let a = slice_index (units net.now) place in
        unit_counts unit
        ≡ record {
          ins = length (links_into net.now a);
          outs = length (links_from net.now a);
          actions = 0;
        }) }
{
    match unit_side(net, place) {
        Side::Ingress => {
            let routes = Routes::make(alloc, net)?;
            Unit::ingress(alloc, net, &routes, place, &snapshot(credits))
        }
        Side::Egress => Unit::egress(alloc, net, place, &snapshot(credits)),
    }
}

/// The unit at a place of a net, with its links and so many credits.
fn joined(alloc: Global, net: &Net, place: u32, credits: u8) -> Result<Rig<Unit>, Fail>
    requires least { 1 ≤ credits }
    requires most { credits ≤ 4 }
{
    if place as usize >= net.units().len() {
        return Err("no such unit".into());
    }
    let actor = net.unit_actor(place);
    let ins = net.links_into(actor).len() as u32;
    let outs = net.links_from(actor).len() as u32;
    Ok(Rig {
        machine: unit_of(alloc, net, place, credits)?,
        ins,
        outs,
        actions: 0,
    })
}

/// The unit at a place: `in a.0`, `out a.0`, `in a.1`, `out a.1`.
fn unit(alloc: Global, place: u32, credits: u8) -> Result<Rig<Unit>, Fail>
    requires least { 1 ≤ credits }
    requires most { credits ≤ 4 }
{
    let net = net(alloc, 2)?;
    let unit = joined(alloc, &net, place, credits);
    let_go(net);
    unit
}

/// The dump with which a unit answers a poll by its last choice. The poll takes another one back.
fn polled(
    alloc: Global,
    unit: &mut Rig<Unit>,
    back: Option<Boxed<Dump>>,
) -> Result<Boxed<Dump>, Fail> {
    let mut out = unit.take(alloc, 2, Msg::Poll(Spare::new(back)))?;
    match out.take_first() {
        Some((_, Msg::Dump(dump))) => Ok(dump),
        _ => Err("no dump".into()),
    }
}

/// What a view at the number `id` says of `k`.
fn saved(view: &View, id: u64, k: u64) -> Option<Saved> {
    let slots = view.slots.len() as u64;
    if k < 1 || k > id || id - k >= slots || u64::from(view.at) >= slots {
        return None;
    }
    let tried = try_read_saved(view, id, k);
    if tried.is_some() {
        return Some(read_saved(view, id, k));
    }
    None
}

/// Turns of `out a.1`: a packet comes after its id has passed on.
static LATE: [Turn; 3] = [
    (1, Probe(1), 00002),
    (1, Probe(2), 00002),
    (0, Data(0), 20003),
];

fn late() -> &'static [Turn] {
    &LATE
}

/// Whether a dump says that a packet of the number 0 came late.
fn is_late(dump: &Dump) -> bool {
    let first = saved(&dump.view, 2, 1);
    let late = Saved::Miscredited { by: 2, reach: 2 };
    (dump.id.raw, dump.last[0].raw, dump.last[1].raw) == (2, 0, 2) && first == Some(late)
}

/// Whether the packet is late by a dump that is new, and by one in the memory of one that was read.
fn is_late_twice(alloc: Global, unit: &mut Rig<Unit>) -> Result<(bool, bool), Fail> {
    let early = polled(alloc, unit, None)?;
    if first_wrong(alloc, unit, late())?.is_some() {
        return Ok((false, false));
    }
    let made = is_late(polled(alloc, unit, Some(early))?.get());
    let filled = is_late(polled(alloc, unit, None)?.get());
    Ok((made, filled))
}

/// Whether it is so in a new unit with one credit.
fn late_at_one(alloc: Global) -> Result<(bool, bool), Fail> {
    let mut unit = unit(alloc, 3, 1)?;
    is_late_twice(alloc, &mut unit)
}

#[test]
fn late_packet(rt: HostRuntime) -> Result<(), Fail> {
    assert_eq!(rt; late_at_one(rt.alloc())?, (true, true));
    Ok(())
}

/// Whether a dump says that the packet was in flight at both numbers.
fn is_in_flight(dump: &Dump) -> bool {
    let none = Total {
        packets: 0,
        bytes: 0,
    };
    let one = Total {
        packets: 1,
        bytes: 100,
    };
    let value = Saved::Value {
        packets: 0,
        bytes: 0,
        inflight: [one, none, none, none, none, none, none, none],
    };
    saved(&dump.view, 2, 1) == Some(value) && saved(&dump.view, 2, 2) == Some(value)
}

/// Whether it is so after the turns.
fn is_credited_twice(alloc: Global, unit: &mut Rig<Unit>) -> Result<bool, Fail> {
    if first_wrong(alloc, unit, late())?.is_some() {
        return Ok(false);
    }
    Ok(is_in_flight(polled(alloc, unit, None)?.get()))
}

/// Whether it is so in a new unit with two credits.
fn credited_by_two(alloc: Global) -> Result<bool, Fail> {
    let mut unit = unit(alloc, 3, 2)?;
    is_credited_twice(alloc, &mut unit)
}

#[test]
fn two_credits(rt: HostRuntime) -> Result<(), Fail> {
    assert!(rt; credited_by_two(rt.alloc())?);
    Ok(())
}

/// Whether the registers of a unit are zeros, with a view of two slots in which nothing is saved.
fn is_blank(dump: &Dump) -> bool {
    dump.id.raw == 0
        && dump.cpu.raw == 0
        && dump.view.at == 0
        && dump.last.iter().all(|last| last.raw == 0)
        && dump.view.slots.len() == 2
        && (0..2usize).all(|place| dump.view.slots.get(place).back == 0)
}

/// Whether the registers of a unit are blank, and it counted nothing.
fn counts_nothing(unit: &Unit) -> Result<bool, Fail> {
    let none = UnitCounts {
        packets: 0,
        bytes: 0,
        bad: 0,
        expired: 0,
        noroute: 0,
    };
    let dump = unit.dump()?;
    Ok(is_blank(&dump) && unit.counts() == none)
}

/// Whether those of a new unit are.
fn is_new(alloc: Global, place: u32) -> Result<bool, Fail> {
    let unit = unit(alloc, place, 1)?;
    counts_nothing(&unit.machine)
}

#[test]
fn new_registers(rt: HostRuntime) -> Result<(), Fail> {
    for place in 0..4 {
        assert!(rt; is_new(rt.alloc(), place)?);
    }
    Ok(())
}

/// Turns of `in a.1`, from whose host frames come.
static FRAMES: [Turn; 7] = [
    (0, Frame(1, 8, 0, 0), 30410),
    (0, Frame(0, 1, 0, 0), 20410),
    (0, Frame(1, 0, 0, 0), 0),
    (0, Frame(9, 8, 0, 0), 0),
    (0, Frame(1, 8, 16, 1), 0),
    (0, Frame(1, 8, 0, 2), 0),
    (0, Frame(9, 0, 0, 0), 0),
];

fn frames() -> &'static [Turn] {
    &FRAMES
}

/// Whether a unit takes the frames as it should, and counts them.
fn takes_frames(alloc: Global, unit: &mut Rig<Unit>) -> Result<bool, Fail> {
    let wrong = first_wrong(alloc, unit, frames())?;
    let counts = UnitCounts {
        packets: 5,
        bytes: 500,
        bad: 2,
        expired: 2,
        noroute: 1,
    };
    Ok(wrong.is_none() && unit.machine.counts() == counts)
}

/// Whether a new one does.
fn frames_are_taken(alloc: Global) -> Result<bool, Fail> {
    let mut unit = unit(alloc, 2, 1)?;
    takes_frames(alloc, &mut unit)
}

#[test]
fn frames_of_the_host(rt: HostRuntime) -> Result<(), Fail> {
    assert!(rt; frames_are_taken(rt.alloc())?);
    Ok(())
}
