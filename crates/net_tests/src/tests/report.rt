// The text of routes.
use super::plan::{Plan, Port, built};
use sl_net::Net;
use sl_report::routes_bytes;
use sl_route::Routes;
use std::alloc::Global;
use std::test::Fail;

/// Two devices with a host each, and these cables.
fn plan(cables: &'static [(Port, Port)]) -> Plan {
    Plan {
        devices: &[("a", 2), ("b", 2)],
        cables,
        hosts: &[("h0", (0, 0)), ("h1", (1, 1))],
    }
}

fn text_of(alloc: Global, net: &Net) -> Result<Vec<u8>, Fail> {
    let routes = Routes::make(alloc, net)?;
    Ok(routes_bytes(alloc, net, &routes)?)
}

fn text(alloc: Global, plan: &Plan) -> Result<Vec<u8>, Fail> {
    let net = built(alloc, plan)?;
    text_of(alloc, &net)
}

const JOINED: &str = "route a h0 0 0\nroute a h1 1 1\nroute b h0 0 1\nroute b h1 1 0\nend\n";

const APART: &str = "route a h0 0 0\nroute a h1 none\nroute b h0 none\nroute b h1 1 0\nend\n";

#[test]
fn worked_routes(rt: HostRuntime) -> Result<(), Fail> {
    let joined = text(rt.alloc(), &plan(&[((0, 1), (1, 0))]))?;
    let apart = text(rt.alloc(), &plan(&[]))?;
    assert_eq!(rt; joined.as_slice(), JOINED.as_bytes());
    assert_eq!(rt; apart.as_slice(), APART.as_bytes());
    Ok(())
}
