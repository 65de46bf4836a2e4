// Worked nets, and parts that are refused.
use super::plan::{Plan, Port, built, parts};
use sl_net::{
    ActorId, Line, LinkKind, Net, NetFault, Place, Side, Sort, UnitId, choice_text, find_choice,
};
use std::alloc::Global;
use std::test::Fail;

/// A link: its number, the choice that takes it, spelled, its receiver, that choice, its sender and
/// its sort.
type Row = (usize, &'static str, u32, u32, u32, Sort);

/// The links inside a device of which two ports are wired, port 0 and the one that `#` stands for.
static INNER: [Row; 20] = [
    (0, "observer done:a", 0, 0, 1, Sort::Done),
    (1, "control a begin", 1, 0, 0, Sort::Begin),
    (2, "control a notice:in.0", 1, 1, 2, Sort::Notice),
    (3, "control a dump:in.0", 1, 2, 2, Sort::Dump),
    (4, "control a notice:out.0", 1, 3, 3, Sort::Notice),
    (5, "control a dump:out.0", 1, 4, 3, Sort::Dump),
    (6, "control a notice:in.#", 1, 5, 4, Sort::Notice),
    (7, "control a dump:in.#", 1, 6, 4, Sort::Dump),
    (8, "control a notice:out.#", 1, 7, 5, Sort::Notice),
    (9, "control a dump:out.#", 1, 8, 5, Sort::Dump),
    (11, "in a.0 init", 2, 1, 1, Sort::Init),
    (12, "in a.0 poll", 2, 2, 1, Sort::Poll),
    (13, "out a.0 x0", 3, 0, 2, Sort::Crossbar),
    (14, "out a.0 x#", 3, 1, 4, Sort::Crossbar),
    (15, "out a.0 poll", 3, 2, 1, Sort::Poll),
    (17, "in a.# init", 4, 1, 1, Sort::Init),
    (18, "in a.# poll", 4, 2, 1, Sort::Poll),
    (19, "out a.# x0", 5, 0, 2, Sort::Crossbar),
    (20, "out a.# x#", 5, 1, 4, Sort::Crossbar),
    (21, "out a.# poll", 5, 2, 1, Sort::Poll),
];

fn inner() -> &'static [Row] {
    &INNER
}

/// A net of one device of which two ports are wired.
struct Worked {
    plan: Plan,
    /// The second of these ports, and its number as text.
    second: (u32, &'static str),
    /// How many actors it has.
    actors: usize,
    /// The links that come from outside the device or go there.
    outer: &'static [Row],
    /// The actor of each unit, and the units upstream of it.
    units: &'static [(u32, &'static [u32])],
    /// The sorts and kinds of some links.
    kinds: &'static [(u32, Sort, LinkKind)],
    /// Choices that are no links: spelled, the actor and the choice.
    actions: &'static [(&'static str, u32, u32)],
    /// Texts that spell no choice.
    no_choices: &'static [&'static str],
}

static NETS: [Worked; 2] = [
    // a host at each port
    Worked {
        plan: Plan {
            devices: &[("a", 2)],
            cables: &[],
            hosts: &[("h0", (0, 0)), ("h1", (0, 1))],
        },
        second: (1, "1"),
        actors: 8,
        outer: &[
            (10, "in a.0 host", 2, 0, 6, Sort::FromHost),
            (16, "in a.1 host", 4, 0, 7, Sort::FromHost),
            (22, "host h0 net", 6, 0, 3, Sort::ToHost),
            (23, "host h1 net", 7, 0, 5, Sort::ToHost),
        ],
        units: &[(2, &[]), (3, &[0, 2]), (4, &[]), (5, &[0, 2])],
        kinds: &[(2, Sort::Notice, LinkKind::Notice)],
        actions: &[
            ("observer issue", 0, 1),
            ("observer resend", 0, 2),
            ("control a sweep", 1, 9),
            ("host h0 inject", 6, 1),
            ("host h1 inject", 7, 1),
        ],
        no_choices: &[
            "",
            " ",
            "observer",
            "observer ",
            "observer done:b",
            "observer done:a ",
            "observer  issue",
            "Observer issue",
            "control b begin",
            "control a notice:in.2",
            "control a dump:in.00",
            "in a.00 host",
            "in a.0 host ",
            " in a.0 host",
            "in  a.0 host",
            "in a.0  host",
            "in a.0 cable",
            "in a.2 host",
            "out a.0 x2",
            "out a.0 x01",
            "host h1",
            "host h2 net",
            "host h1 net x",
            "pass 1",
        ],
    },
    // a cable from one to the other, past a port that is not wired
    Worked {
        plan: Plan {
            devices: &[("a", 3)],
            cables: &[((0, 2), (0, 0))],
            hosts: &[],
        },
        second: (2, "2"),
        actors: 6,
        outer: &[
            (10, "in a.0 cable", 2, 0, 5, Sort::Cable),
            (16, "in a.2 cable", 4, 0, 3, Sort::Cable),
        ],
        units: &[(2, &[3]), (3, &[0, 2]), (4, &[1]), (5, &[0, 2])],
        kinds: &[
            (0, Sort::Done, LinkKind::Reliable),
            (10, Sort::Cable, LinkKind::Cable),
        ],
        actions: &[],
        no_choices: &["in a.1 init", "in a.0 host"],
    },
];

fn nets() -> &'static [Worked] {
    &NETS
}

fn unit(port: u32, side: Side) -> ActorId {
    ActorId::Unit(UnitId {
        device: 0,
        port,
        side,
    })
}

/// The actors of such a device and of two hosts.
fn actors(second: u32) -> [ActorId; 8] {
    [
        ActorId::Observer,
        ActorId::Control(0),
        unit(0, Side::Ingress),
        unit(0, Side::Egress),
        unit(second, Side::Ingress),
        unit(second, Side::Egress),
        ActorId::Host(0),
        ActorId::Host(1),
    ]
}

fn spelled(alloc: Global, net: &Net, actor: u32, choice: u32) -> Result<Line, Fail> {
    if (actor as usize) < net.actors().len() && choice < net.choice_count(actor) {
        Ok(choice_text(alloc, net, actor, choice).map_err(|_| "no memory")?)
    } else {
        Err("no choice")?
    }
}

/// Whether a choice has this spelling, and is found by it.
fn has_spelling(
    alloc: Global,
    net: &Net,
    text: &str,
    actor: u32,
    choice: u32,
) -> Result<bool, Fail> {
    let line = spelled(alloc, net, actor, choice)?;
    let found = find_choice(net, text);
    Ok(found == Some((actor, choice)) && line.items.as_slice() == text.as_bytes())
}

fn is_link(net: &Net, (number, _, to, _, from, sort): &Row) -> bool {
    match net.links().get(*number) {
        Some(part) => part.to == *to && part.from == *from && part.sort.is(*sort),
        None => false,
    }
}

/// Whether a net has the link of a row, with its spelling.
fn has_link(alloc: Global, net: &Net, row: &Row, second: &str) -> Result<bool, Fail> {
    let (_, text, to, choice, _, _) = row;
    let text = text.replace(alloc, "#", second)?;
    let found = has_spelling(alloc, net, text.as_str(), *to, *choice)?;
    Ok(found && is_link(net, row))
}

/// The number of the first link that differs from its row.
fn first_wrong_link(
    alloc: Global,
    net: &Net,
    rows: &[Row],
    second: &str,
) -> Result<Option<usize>, Fail> {
    for row in rows {
        if !has_link(alloc, net, row, second)? {
            return Ok(Some(row.0));
        }
    }
    Ok(None)
}

fn first_wrong_action(
    alloc: Global,
    net: &Net,
    rows: &[(&str, u32, u32)],
) -> Result<Option<usize>, Fail> {
    for (place, (text, actor, choice)) in rows.iter().enumerate() {
        if !has_spelling(alloc, net, text, *actor, *choice)? {
            return Ok(Some(place));
        }
    }
    Ok(None)
}

fn first_spelling(net: &Net, texts: &[&str]) -> Option<usize> {
    texts
        .iter()
        .position(|text| find_choice(net, text).is_some())
}

fn is_unit(net: &Net, unit: u32, (actor, upstream): &(u32, &[u32])) -> bool {
    if unit as usize >= net.units().len() {
        return false;
    }
    let found = net.unit_actor(unit);
    found == *actor && net.unit_place(found) == unit && net.upstream(unit) == *upstream
}

fn first_wrong_unit(net: &Net, rows: &[(u32, &[u32])]) -> Option<u32> {
    for (unit, row) in (0..).zip(rows) {
        if !is_unit(net, unit, row) {
            return Some(unit);
        }
    }
    None
}

/// How many units, actors and links a net has.
fn sizes(net: &Net) -> [usize; 3] {
    [net.units().len(), net.actors().len(), net.links().len()]
}

/// How many links the wiring of a net has.
fn wired(net: &Net) -> usize {
    net.wiring().links.len()
}

fn has_kind(net: &Net, (link, sort, kind): &(u32, Sort, LinkKind)) -> bool {
    (*link as usize) < net.links().len()
        && net.link(*link).sort == *sort
        && net.kind(*link) == *kind
}

/// Whether a net has as many links as are told, and the actors, the units, the sorts and the kinds,
/// and whether the other texts spell no choice.
fn has_parts(net: &Net, told: &Worked) -> bool {
    let links = inner().len().saturating_add(told.outer.len());
    sizes(net) == [told.units.len(), told.actors, links]
        && wired(net) == links
        && actors(told.second.0).starts_with(net.actors())
        && first_wrong_unit(net, told.units).is_none()
        && first_spelling(net, told.no_choices).is_none()
        && told.kinds.iter().all(|row| has_kind(net, row))
}

/// Whether a net is as it is told.
fn is_as_told(alloc: Global, net: &Net, told: &Worked) -> Result<bool, Fail> {
    let inner = first_wrong_link(alloc, net, inner(), told.second.1)?;
    let outer = first_wrong_link(alloc, net, told.outer, told.second.1)?;
    let action = first_wrong_action(alloc, net, told.actions)?;
    Ok((inner, outer, action) == (None, None, None) && has_parts(net, told))
}

fn is_right(alloc: Global, told: &Worked) -> Result<bool, Fail> {
    let net = built(alloc, &told.plan)?;
    is_as_told(alloc, &net, told)
}

/// The actors in order, the links, the units with those upstream of them, and the texts.
#[test]
fn worked_nets(rt: HostRuntime) -> Result<(), Fail> {
    for told in nets() {
        assert!(rt; is_right(rt.alloc(), told)?);
    }
    Ok(())
}

const SOME: &[(&str, u32)] = &[("a", 2), ("b", 2)];

const MANY: &[(&str, u32)] = &[("d", 1); 65];

const CROWD: &[(&str, (u32, u32))] = &[("h", (0, 0)); 129];

/// A list of devices, one of cables and one of hosts, and why they make no net.
struct Case {
    fault: NetFault,
    devices: &'static [(&'static str, u32)],
    cables: &'static [(Port, Port)],
    hosts: &'static [(&'static str, Port)],
}

/// The first fault of each kind, the last place where it can stand, and two faults at once.
static CASES: [Case; 21] = [
    Case {
        fault: NetFault::N1,
        devices: &[],
        cables: &[],
        hosts: &[],
    },
    Case {
        fault: NetFault::N2(65),
        devices: MANY,
        cables: &[],
        hosts: &[],
    },
    Case {
        fault: NetFault::N3(0),
        devices: &[("a", 0), ("b", 9)],
        cables: &[],
        hosts: &[],
    },
    Case {
        fault: NetFault::N3(1),
        devices: &[("a", 8), ("b", 9)],
        cables: &[],
        hosts: &[],
    },
    Case {
        fault: NetFault::N4(Place::Cable(0)),
        devices: SOME,
        cables: &[((0, 0), (2, 0))],
        hosts: &[],
    },
    Case {
        fault: NetFault::N4(Place::Cable(1)),
        devices: SOME,
        cables: &[((0, 0), (1, 0)), ((1, 2), (0, 1))],
        hosts: &[],
    },
    Case {
        fault: NetFault::N4(Place::Host(0)),
        devices: SOME,
        cables: &[],
        hosts: &[("h", (0, 2))],
    },
    Case {
        fault: NetFault::N5(0),
        devices: SOME,
        cables: &[((0, 0), (0, 0))],
        hosts: &[],
    },
    Case {
        fault: NetFault::N5(1),
        devices: SOME,
        cables: &[((0, 0), (0, 1)), ((1, 0), (0, 1))],
        hosts: &[],
    },
    Case {
        fault: NetFault::N6(129),
        devices: SOME,
        cables: &[],
        hosts: CROWD,
    },
    Case {
        fault: NetFault::N7(1),
        devices: SOME,
        cables: &[((0, 0), (1, 1))],
        hosts: &[("g", (0, 1)), ("h", (1, 1))],
    },
    Case {
        fault: NetFault::N7(1),
        devices: SOME,
        cables: &[],
        hosts: &[("g", (0, 1)), ("h", (0, 1))],
    },
    Case {
        fault: NetFault::N8(Place::Device(1)),
        devices: &[("a", 1), ("a", 1)],
        cables: &[],
        hosts: &[],
    },
    Case {
        fault: NetFault::N8(Place::Host(2)),
        devices: SOME,
        cables: &[],
        hosts: &[("a", (0, 1)), ("h", (0, 0)), ("h", (1, 0))],
    },
    Case {
        fault: NetFault::N4(Place::Cable(0)),
        devices: SOME,
        cables: &[((2, 0), (0, 0))],
        hosts: &[],
    },
    Case {
        fault: NetFault::N4(Place::Host(1)),
        devices: SOME,
        cables: &[((0, 0), (1, 0))],
        hosts: &[("g", (0, 1)), ("h", (2, 0))],
    },
    Case {
        fault: NetFault::N7(0),
        devices: SOME,
        cables: &[((0, 0), (1, 1))],
        hosts: &[("g", (0, 0)), ("h", (1, 0))],
    },
    Case {
        fault: NetFault::N8(Place::Device(2)),
        devices: &[("a", 1), ("b", 1), ("a", 1), ("b", 1)],
        cables: &[],
        hosts: &[],
    },
    Case {
        fault: NetFault::N2(65),
        devices: MANY,
        cables: &[((0, 0), (0, 1))],
        hosts: CROWD,
    },
    Case {
        fault: NetFault::N3(1),
        devices: &[("a", 1), ("a", 9)],
        cables: &[((0, 0), (0, 1))],
        hosts: &[],
    },
    Case {
        fault: NetFault::N4(Place::Host(0)),
        devices: &[("a", 2), ("a", 2)],
        cables: &[((0, 0), (0, 0))],
        hosts: &[("h", (0, 2))],
    },
];

fn cases() -> &'static [Case] {
    &CASES
}

fn fault(alloc: Global, case: &Case) -> Result<Option<NetFault>, Fail> {
    let plan = Plan {
        devices: case.devices,
        cables: case.cables,
        hosts: case.hosts,
    };
    Ok(Net::build(alloc, parts(alloc, &plan)?).err())
}

fn first_wrong_fault(alloc: Global, cases: &[Case]) -> Result<Option<usize>, Fail> {
    for (place, case) in cases.iter().enumerate() {
        if fault(alloc, case)? != Some(case.fault) {
            return Ok(Some(place));
        }
    }
    Ok(None)
}

#[test]
fn faults(rt: HostRuntime) -> Result<(), Fail> {
    assert_eq!(rt; first_wrong_fault(rt.alloc(), cases())?, None);
    Ok(())
}
