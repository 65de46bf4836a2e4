// The ways to one host.
ghost use Rattle.std.specs.Prelude.{◌≡◌, ◌<◌, IfOk, Some, None, length, map, cond, min};
ghost use Rattle.std.specs.Prelude.{unwrap_or, slice_index_or};
ghost use Rattle.std.specs.List.{All};
ghost use Rattle.sl_parts.specs.Parts.{below};
ghost use Rattle.sl_route.specs.Least.{least};
ghost use Rattle.sl_route.specs.Graph.{neighbours_at, IsGraph, IsFar, is_at, ports_to, port_toward};

use crate::neighbours::{Neighbour, Neighbours};
use crate::search::distances;
use sl_net::PortRef;
use std::alloc::{AllocError, Global};
use std::marker::Model;

/// The ways to one host, by device.
#[derive(Drop)]
pub struct Ways {
    /// The next port from each device, where there is a way.
    pub ports: Vec<Option<u8>>,
    /// The number of cables from each device, where there is a way.
    pub hops: Vec<Option<u32>>,
}

impl Model for Ways {
    ghost use Rattle.sl_route.specs.Ways.{Ways};

    ghost Value = { Ways };

    ghost view = { λ w. record { ports = w.ports.items; hops = w.hops.items } };
}

fn is_at(hops: u32, far: Option<u32>) -> bool
    ensures { result ≡ is_at hops far }
{
    match far {
        Some(other) => other == hops,
        None => false,
    }
}

/// The lower one of a port so far and another, where that one passes.
fn lower(lowest: Option<u8>, passes: bool, port: u8) -> Option<u8>
    ensures { result ≡ cond passes (Some (min (unwrap_or lowest port) port)) lowest }
{
    if passes {
        Some(lowest.unwrap_or(port).min(port))
    } else {
        lowest
    }
}

/// The lowest port that leads to a device so many cables away.
#[tactic(auto, using(crate::proofs::Toward::ports_more))]
fn lowest_port(neighbours: &[Neighbour], far: &[Option<u32>], hops: u32) -> Option<u8>
    requires { All (λ k. k.device < length far.now) neighbours.now }
    ensures { result ≡ least (ports_to neighbours.now far.now hops) }
{
    let mut lowest = None;
    for neighbour in neighbours {
        let passes = is_at(hops, far[neighbour.device as usize]);
        lowest = lower(lowest, passes, neighbour.port);
    }
    lowest
}

/// The port of a device by which to go on to the device that `far` tells the distances from.
/// There it is the host's own port.
fn port_toward(
    neighbours: &[Neighbour],
    far: &[Option<u32>],
    hops: Option<u32>,
    own: u8,
) -> Option<u8>
    requires { All (λ k. k.device < length far.now) neighbours.now }
    ensures { result ≡ port_toward own far.now neighbours.now hops }
{
    match hops {
        None => None,
        Some(0) => Some(own),
        Some(hops) => lowest_port(neighbours, far, hops - 1),
    }
}

/// The next port of each device toward the device that `far` tells the distances from.
fn ports_toward(
    alloc: Global,
    table: &[Neighbours],
    far: &[Option<u32>],
    own: u8,
) -> Result<Vec<Option<u8>>, AllocError>
    requires graph { IsGraph table.now }
    requires size { length far.now ≡ length table.now }
    ensures { IfOk result
        (λ ports. ports.items
        ≡ map (λ d. port_toward own far.now (neighbours_at table.now d)
        (slice_index_or far.now d None)) (below (length table.now))) }
{
    let mut ports = Vec::new(alloc);
    for device in 0..table.len() {
        let neighbours = &table[device];
        ports.push(port_toward(neighbours.items.as_slice(), far, far[device], own))?;
    }
    Ok(ports)
}

/// The ways to a host at this port.
pub fn ways_to(alloc: Global, table: &[Neighbours], at: PortRef) -> Result<Ways, AllocError>
    requires graph { IsGraph table.now }
    requires device { at.device < length table.now }
    requires port { at.port < 8 }
    ensures hops { IfOk result (λ ways. IsFar table.now at.device ways.hops) }
    ensures ports { IfOk result
        (λ ways. ways.ports
        ≡ map (λ d. port_toward at.port ways.hops (neighbours_at table.now d)
        (slice_index_or ways.hops d None)) (below (length table.now))) }
{
    let hops = distances(alloc, table, at.device)?;
    let ports = ports_toward(alloc, table, &hops, at.port as u8)?;
    Ok(Ways { ports, hops })
}
