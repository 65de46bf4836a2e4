// The text of routes.
ghost use Rattle.std.specs.Prelude.{◌≡◌, ◌++◌, IfOk, OnOk, string_bytes};
ghost use Rattle.sl_route.specs.Routes.{IsRoutesOf};
ghost use Rattle.sl_report.specs.RoutesText.{way_text, route_line, routes_text};

use sl_machine::Memory;
use sl_net::{Name, Net};
use sl_route::{Pair, PairText, Routes, push_pairs};
use std::alloc::{AllocError, Global};

fn push_way(out: &mut String, port: Option<u8>, hops: Option<u32>) -> Result<(), AllocError>
    ensures { OnOk result (string_bytes out.new ≡ string_bytes out.old ++ way_text port hops) }
{
    match (port, hops) {
        (Some(port), Some(hops)) => write!(out, "{port} {hops}"),
        _ => write!(out, "none"),
    }
}

#[tactic(auto, unfolding(crate::specs::RoutesText::route_line))]
fn push_line(
    out: &mut String,
    device: &Name,
    host: &Name,
    port: Option<u8>,
    hops: Option<u32>,
) -> Result<(), AllocError>
    ensures { OnOk result
        (string_bytes out.new ≡ string_bytes out.old ++ route_line device.now host.now port hops) }
{
    write!(out, "route {device} {host} ")?;
    push_way(out, port, hops)?;
    write!(out, "\n")
}

/// The route from a device to a host.
struct Route;

impl PairText for Route {
    ghost use Rattle.sl_report.specs.RoutesText.{route_text};

    ghost text = { route_text };

    fn push(out: &mut String, net: &Net, routes: &Routes, pair: Pair) -> Result<(), AllocError> {
        let Pair { device, host } = pair;
        let port = routes.next_port(device, host);
        let hops = routes.hops(device, host);
        let parts = net.parts();
        push_line(
            out,
            &parts.devices[device as usize].name,
            &parts.hosts[host as usize].name,
            port,
            hops,
        )
    }
}

/// The text of the routes of a net: for each device and each host the next port and the number of
/// cables, or that no way leads there.
pub fn routes_bytes(alloc: Global, net: &Net, routes: &Routes) -> Result<Vec<u8>, Memory>
    requires { IsRoutesOf net.now routes.now }
    ensures { IfOk result (λ bytes. bytes.items ≡ routes_text net.now) }
{
    let mut out = String::new(alloc);
    push_pairs::<Route>(&mut out, net, routes)?;
    write!(out, "end\n")?;
    Ok(out.into_bytes())
}
