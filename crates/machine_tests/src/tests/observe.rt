// The observer of a device with one port, which has two units.
ghost use Rattle.std.specs.Prelude.{◌≡◌, length};

use super::messages::Event::{Act, Done};
use super::messages::report;
use super::nets::{let_go, net, sent};
use super::rig::{IDLE, Rig, Turn, first_wrong};
use sl_net::{Net, Snapshot};
use sl_observe::Observer;
use sl_saves::Saved;
use sl_wire::Msg;
use std::alloc::Global;
use std::test::Fail;

/// An observer, with the number of its units.
#[derive(Drop)]
struct Collector {
    rig: Rig<Observer>,
    units: usize,
    ghost units_are: { length rig.machine.state.units ≡ units },
}

impl Collector {
    /// Takes a report on a unit with rows from one number to another.
    fn hear(&mut self, alloc: Global, unit: u32, first: u64, reached: u64) -> Result<(), Fail> {
        let done = report(alloc, unit, first, reached)?;
        self.rig.take(alloc, 0, Msg::Done(done))?;
        Ok(())
    }

    fn saved(&self, unit: u32, k: u64) -> Option<Saved> {
        if (unit as usize) < self.units {
            self.rig.machine.saved(unit, k).copied()
        } else {
            None
        }
    }

    /// The id of a unit by the last report on it.
    fn id(&self, unit: u32) -> Option<u64> {
        if (unit as usize) < self.units {
            Some(self.rig.machine.seen(unit).id)
        } else {
            None
        }
    }
}

/// The observer of a net, for three snapshots in a window of two, with one retry.
fn collector_of(alloc: Global, net: &Net) -> Result<Collector, Fail> {
    if net.actors().is_empty() {
        return Err("no actor".into());
    }
    let snapshot = Snapshot {
        width: 2,
        window: 2,
        ring: 3,
        count: 3,
        retries: 1,
        credits: 1,
        version: 1,
    };
    let ins = net.links_into(0).len() as u32;
    let outs = net.links_from(0).len() as u32;
    let units = net.units().len();
    let rig = Rig {
        machine: sent(Observer::new(alloc, net, &snapshot)?),
        ins,
        outs,
        actions: 2,
    };
    Ok(Collector { rig, units })
}

fn make_collector(alloc: Global) -> Result<Collector, Fail> {
    let net = net(alloc, 1)?;
    let collector = collector_of(alloc, &net);
    let_go(net);
    collector
}

/// The choice by which the observer issues the next snapshot.
const ISSUE: u32 = 1;

/// The choice by which it begins the last one again.
const RESEND: u32 = 2;

static TURNS: [Turn; 9] = [
    (ISSUE, Act, 00201),
    (ISSUE, Act, 00202),
    (ISSUE, Act, IDLE),
    (RESEND, Act, 00202),
    (RESEND, Act, IDLE),
    (0, Done(0, 1, 1), 0),
    (ISSUE, Act, IDLE),
    (0, Done(1, 1, 1), 0),
    (ISSUE, Act, 00203),
];

fn turns() -> &'static [Turn] {
    &TURNS
}

/// The place of the first turn that went wrong, and what an observer has collected, issued and sent
/// again after the turns.
fn observes(alloc: Global, rig: &mut Rig<Observer>) -> Result<(Option<usize>, [u64; 3]), Fail> {
    let wrong = first_wrong(alloc, rig, turns())?;
    let observer = &rig.machine;
    Ok((
        wrong,
        [observer.floor(), observer.issued(), observer.resent()],
    ))
}

/// The same of a new one.
fn observed(alloc: Global) -> Result<(Option<usize>, [u64; 3]), Fail> {
    let mut collector = make_collector(alloc)?;
    observes(alloc, &mut collector.rig)
}

#[test]
fn window_and_retries(rt: HostRuntime) -> Result<(), Fail> {
    assert_eq!(rt; observed(rt.alloc())?, (None, [1, 3, 1]));
    Ok(())
}

/// The place of the first report on the unit 1, by its first row and its last, after which the id
/// of the unit is not the one wanted.
fn first_wrong_id(
    alloc: Global,
    collector: &mut Collector,
    reports: &[(u64, u64, u64)],
) -> Result<Option<usize>, Fail> {
    for place in 0..reports.len() {
        let (first, reached, id) = reports[place];
        collector.hear(alloc, 1, first, reached)?;
        if collector.id(1) != Some(id) {
            return Ok(Some(place));
        }
    }
    Ok(None)
}

/// Whether the reports leave just the row of 3.
fn has_third_row(collector: &Collector) -> bool {
    collector.saved(1, 0).is_none()
        && collector.saved(1, 3) == Some(Saved::Skipped { to: 3 })
        && collector.saved(1, 4).is_none()
}

/// Whether the ids are right after such reports, and just that row is left.
fn hears(alloc: Global, collector: &mut Collector) -> Result<bool, Fail> {
    let reports = [(1, 2, 2), (4, 4, 2), (3, 3, 3)];
    let wrong = first_wrong_id(alloc, collector, &reports)?;
    Ok(wrong.is_none() && has_third_row(collector))
}

/// The same of a new observer.
fn heard(alloc: Global) -> Result<bool, Fail> {
    let mut collector = make_collector(alloc)?;
    hears(alloc, &mut collector)
}

#[test]
fn rows_without_a_gap(rt: HostRuntime) -> Result<(), Fail> {
    assert!(rt; heard(rt.alloc())?);
    Ok(())
}
