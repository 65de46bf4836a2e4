// Texts for each device and each host of a net.
ghost use Rattle.std.specs.Prelude.{◌≡◌, ℕ, ◌<◌, ◌++◌, List, OnOk, length, flat_map, string_bytes};
ghost use Rattle.sl_parts.specs.Parts.{Parts, below};
ghost use Rattle.sl_route.specs.Routes.{IsRoutesOf};
ghost use Rattle.sl_route.specs.Pairs.{pairs_text};

use crate::routes::Routes;
use sl_net::Net;
use std::alloc::AllocError;

/// A device and a host, by their places from 0.
#[derive(Clone, Copy)]
pub struct Pair {
    pub device: u32,
    pub host: u32,
}

/// What is written for a device and a host.
pub trait PairText {
    ghost text: { Parts → ℕ → ℕ → List ℕ };

    /// Writes it.
    fn push(out: &mut String, net: &Net, routes: &Routes, pair: Pair) -> Result<(), AllocError>
        requires routes { IsRoutesOf net.now routes.now }
        requires device { pair.device < length net.now.parts.devices }
        requires host { pair.host < length net.now.parts.hosts }
        ensures { OnOk result (string_bytes out.new
            ≡ string_bytes out.old ++ text net.now.parts pair.device pair.host) };
}

/// Writes what is written for a device and each host.
fn push_device<T: PairText>(
    out: &mut String,
    net: &Net,
    routes: &Routes,
    device: u32,
) -> Result<(), AllocError>
    requires routes { IsRoutesOf net.now routes.now }
    requires device { device < length net.now.parts.devices }
    ensures { OnOk result (string_bytes out.new ≡ string_bytes out.old
        ++ flat_map (T.text net.now.parts device) (below (length net.now.parts.hosts))) }
{
    for host in 0..net.host_count() {
        T::push(out, net, routes, Pair { device, host })?;
    }
    Ok(())
}

/// Writes what is written for each device and each host, device by device.
pub fn push_pairs<T: PairText>(
    out: &mut String,
    net: &Net,
    routes: &Routes,
) -> Result<(), AllocError>
    requires { IsRoutesOf net.now routes.now }
    ensures { OnOk result
        (string_bytes out.new ≡ string_bytes out.old ++ pairs_text T.text net.now.parts) }
{
    for device in 0..net.device_count() {
        push_device::<T>(out, net, routes, device)?;
    }
    Ok(())
}
