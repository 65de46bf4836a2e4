// The routes of a net.
ghost use Rattle.std.specs.Prelude.{◌≡◌, ◌<◌, None, IfOk, length, map, slice_index_or};
ghost use Rattle.sl_layout.specs.Net.{Net};
ghost use Rattle.sl_parts.specs.Parts.{below};
ghost use Rattle.sl_parts.specs.Valid.{IsValid};
ghost use Rattle.sl_route.specs.Route.{next_port, hops};
ghost use Rattle.sl_route.specs.Routes.{ways_of, IsRoutesOf};

use crate::neighbours::list_neighbours;
use crate::ways::{Ways, ways_to};
use sl_machine::Memory;
use sl_net::{Net, Parts};
use std::alloc::{AllocError, Global};
use std::marker::Model;

/// The routes of a net, from each device to each host.
#[derive(Drop)]
pub struct Routes {
    ways: Vec<Ways>,
}

impl Model for Routes {
    ghost use Rattle.std.specs.Prelude.{List};
    ghost use Rattle.sl_route.specs.Ways.{Ways};

    ghost Value = { List Ways };

    ghost view = { λ r. r.ways.items };
}

/// The ways to each host, in order.
fn all_ways(alloc: Global, parts: &Parts) -> Result<Vec<Ways>, AllocError>
    requires { IsValid parts.now }
    ensures { IfOk result
        (λ ways. ways.items ≡ map (ways_of parts.now) (below (length parts.now.hosts))) }
{
    let table = list_neighbours(alloc, parts)?;
    let mut ways = Vec::new(alloc);
    for host in &parts.hosts {
        ways.push(ways_to(alloc, &table, host.at)?)?;
    }
    Ok(ways)
}

/// What is kept for a device, or none past the last one.
fn kept<T: Copy>(row: &[Option<T>], device: u32) -> Option<T>
    ensures { result ≡ slice_index_or row.now device None }
{
    match row.get(device as usize) {
        Some(value) => *value,
        None => None,
    }
}

impl Routes {
    /// The routes of a net, by one search for each host that looks at each cable twice.
    pub fn make(alloc: Global, net: &Net) -> Result<Routes, Memory>
        ensures { IfOk result (λ routes. IsRoutesOf net.now routes) }
    {
        let ways = all_ways(alloc, net.parts())?;
        Ok(Routes { ways })
    }

    /// The lowest port of a device by which a way with the fewest cables to a host begins, or the
    /// host's own port on its own device. None where no way leads there or there is no such host.
    pub fn next_port(&self, device: u32, host: u32) -> Option<u8>
        ensures { (net : Net) → IsRoutesOf net self.now → device < length net.parts.devices
            → result ≡ next_port net.parts device host }
    {
        let ways = self.ways.get(host as usize)?;
        kept(&ways.ports, device)
    }

    /// The fewest cables of a way from a device to a host's device. None where no way leads there
    /// or there is no such host.
    pub fn hops(&self, device: u32, host: u32) -> Option<u32>
        ensures { (net : Net) → IsRoutesOf net self.now → device < length net.parts.devices
            → result ≡ hops net.parts device host }
    {
        let ways = self.ways.get(host as usize)?;
        kept(&ways.hops, device)
    }
}
