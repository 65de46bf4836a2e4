// Equal shortest ways.
ghost use Rattle.std.specs.Prelude.{◌≡◌, ◌<◌, Some, length, filter};
ghost use Rattle.sl_parts.specs.Parts.{below, ports_of};
ghost use Rattle.sl_route.specs.Graph.{is_at};
ghost use Rattle.sl_route.specs.Route.{hops};
ghost use Rattle.sl_route.specs.Routes.{IsRoutesOf};
ghost use Rattle.sl_balance.specs.Equal.{leads_on, begins_by, equal_ports};

use crate::cabled::same_port;
use sl_net::{CablePart, Net, PortRef};
use sl_route::Routes;

/// Whether a device is so many cables away from a host.
fn is_at(routes: &Routes, net: &Net, device: u32, host: u32, away: u32) -> bool
    requires routes { IsRoutesOf net.now routes.now }
    requires device { device < length net.now.parts.devices }
    ensures { result ≡ is_at away (hops net.now.parts device host) }
{
    match routes.hops(device, host) {
        Some(found) => found == away,
        None => false,
    }
}

/// Whether a cable leads, in one of its directions, from a port to a device that is so many cables
/// away from a host.
fn leads_on(
    routes: &Routes,
    net: &Net,
    host: u32,
    hops: u32,
    port: PortRef,
    cable: CablePart,
) -> bool
    requires routes { IsRoutesOf net.now routes.now }
    requires one { cable.a.device < length net.now.parts.devices }
    requires other { cable.b.device < length net.now.parts.devices }
    ensures { result ≡ leads_on net.now.parts host hops port cable }
{
    (same_port(cable.a, port) && is_at(routes, net, cable.b.device, host, hops))
        || (same_port(cable.b, port) && is_at(routes, net, cable.a.device, host, hops))
}

/// Whether a cable at a port of a device leads so.
fn begins_by(routes: &Routes, net: &Net, device: u32, host: u32, hops: u32, port: u32) -> bool
    requires routes { IsRoutesOf net.now routes.now }
    ensures { result ≡ begins_by net.now.parts device host hops port }
{
    let parts = net.parts();
    for cable in &parts.cables {
        if leads_on(routes, net, host, hops, PortRef { device, port }, *cable) {
            return true;
        }
    }
    false
}

/// How many ports of a device have a cable that leads so.
fn count_ports(net: &Net, routes: &Routes, device: u32, host: u32, hops: u32) -> u32
    requires routes { IsRoutesOf net.now routes.now }
    requires device { device < length net.now.parts.devices }
    ensures { result
        ≡ length (filter (begins_by net.now.parts device host hops)
        (below (ports_of net.now.parts device))) }
{
    let mut count = 0;
    for port in 0..net.parts().devices[device as usize].ports {
        if begins_by(routes, net, device, host, hops, port) {
            count += 1;
        }
    }
    count
}

/// By how many ports of a device the shortest ways to a host begin: 1 on the host's own device, 0
/// where no way leads there or there is no such host.
pub fn equal_ports(net: &Net, routes: &Routes, device: u32, host: u32) -> u32
    requires routes { IsRoutesOf net.now routes.now }
    requires device { device < length net.now.parts.devices }
    ensures { result ≡ equal_ports net.now.parts device host }
{
    match routes.hops(device, host) {
        None => 0,
        Some(0) => 1,
        Some(hops) => count_ports(net, routes, device, host, hops - 1),
    }
}
