// Routes of worked nets.
use super::plan::{Plan, built};
use sl_net::Net;
use sl_route::Routes;
use std::alloc::Global;
use std::test::Fail;

/// The routes to a host: for each device the next port and the number of cables, if there is a way.
type Ways = &'static [Option<(u8, u32)>];

/// Plans with the routes to each host of their nets.
static CASES: [(Plan, &[Ways]); 4] = [
    // two devices with a cable, and no third host
    (
        Plan {
            devices: &[("a", 2), ("b", 2)],
            cables: &[((0, 1), (1, 0))],
            hosts: &[("g", (0, 0)), ("h", (1, 1))],
        },
        &[
            &[Some((0, 0)), Some((0, 1))],
            &[Some((1, 1)), Some((1, 0))],
            &[None, None],
        ],
    ),
    // the same without the cable
    (
        Plan {
            devices: &[("a", 2), ("b", 2)],
            cables: &[],
            hosts: &[("g", (0, 0)), ("h", (1, 1))],
        },
        &[&[Some((0, 0)), None], &[None, Some((1, 0))]],
    ),
    // two equal ways, and a device that is cut off
    (
        Plan {
            devices: &[("a", 3), ("b", 2), ("c", 2), ("d", 3), ("e", 1)],
            cables: &[
                ((0, 1), (1, 0)),
                ((0, 0), (2, 0)),
                ((1, 1), (3, 1)),
                ((2, 1), (3, 0)),
            ],
            hosts: &[("g", (3, 2)), ("h", (0, 2))],
        },
        &[
            &[Some((0, 2)), Some((1, 1)), Some((1, 1)), Some((2, 0)), None],
            &[Some((2, 0)), Some((0, 1)), Some((0, 1)), Some((0, 2)), None],
        ],
    ),
    // a cable with both ends on one device, and two cables side by side
    (
        Plan {
            devices: &[("a", 5), ("b", 3)],
            cables: &[((0, 0), (0, 1)), ((0, 3), (1, 0)), ((0, 2), (1, 1))],
            hosts: &[("g", (1, 2)), ("h", (0, 4))],
        },
        &[&[Some((2, 1)), Some((2, 0))], &[Some((4, 0)), Some((0, 1))]],
    ),
];

fn cases() -> &'static [(Plan, &'static [Ways])] {
    &CASES
}

fn is_way(routes: &Routes, device: u32, host: u32, way: &Option<(u8, u32)>) -> bool {
    let found = (routes.next_port(device, host), routes.hops(device, host));
    match way {
        Some((port, cables)) => found == (Some(*port), Some(*cables)),
        None => found == (None, None),
    }
}

/// The first device whose way to a host is another.
fn first_wrong_way(routes: &Routes, host: u32, ways: &[Option<(u8, u32)>]) -> Option<u32> {
    for (device, way) in (0..).zip(ways) {
        if !is_way(routes, device, host, way) {
            return Some(device);
        }
    }
    None
}

/// The first host to which a way is another.
fn first_wrong_host(alloc: Global, net: &Net, hosts: &[Ways]) -> Result<Option<u32>, Fail> {
    let routes = Routes::make(alloc, net)?;
    for (host, ways) in (0..).zip(hosts) {
        if first_wrong_way(&routes, host, ways).is_some() {
            return Ok(Some(host));
        }
    }
    Ok(None)
}

fn first_wrong_of(alloc: Global, plan: &Plan, hosts: &[Ways]) -> Result<Option<u32>, Fail> {
    let net = built(alloc, plan)?;
    first_wrong_host(alloc, &net, hosts)
}

/// The place of the first case with a way that is another, and the host to which it is.
fn first_wrong(alloc: Global) -> Result<Option<(usize, u32)>, Fail> {
    for (case, (plan, hosts)) in cases().iter().enumerate() {
        if let Some(host) = first_wrong_of(alloc, plan, hosts)? {
            return Ok(Some((case, host)));
        }
    }
    Ok(None)
}

#[test]
fn routes(rt: HostRuntime) -> Result<(), Fail> {
    assert_eq!(rt; first_wrong(rt.alloc())?, None);
    Ok(())
}
