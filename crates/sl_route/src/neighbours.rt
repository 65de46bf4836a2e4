// The neighbours of each device.
ghost use Rattle.std.specs.Prelude.{◌≡◌, ◌<◌, ◌++◌, ◌∷◌, [], OnOk, IfOk, length, map};
ghost use Rattle.std.specs.Prelude.{slice_index_or, slice_set};
ghost use Rattle.sl_parts.specs.Parts.{below};
ghost use Rattle.sl_parts.specs.Valid.{IsValid};
ghost use Rattle.sl_route.specs.Route.{turned};
ghost use Rattle.sl_route.specs.Graph.{neighbour_by, neighbours_of};

use sl_machine::Listed;
use sl_net::{CablePart, Parts};
use sl_parts::empty_lists;
use std::alloc::{AllocError, Global};

/// A port of a device, and the device that its cable leads to.
#[derive(Clone, Copy)]
pub struct Neighbour {
    /// The port.
    pub port: u8,
    /// The device at the other end of its cable.
    pub device: u32,
}

/// The neighbours of one device, one for each cable at the device.
pub type Neighbours = Listed<Neighbour>;

fn turned(cable: CablePart) -> CablePart
    ensures { result ≡ turned cable }
{
    CablePart {
        a: cable.b,
        b: cable.a,
        version: cable.version,
    }
}

/// The cables, and then the cables turned.
fn both_ways(alloc: Global, cables: &[CablePart]) -> Result<Vec<CablePart>, AllocError>
    ensures { IfOk result (λ all. all.items ≡ cables.now ++ map turned cables.now) }
{
    let mut all = Vec::from_slice(alloc, cables)?;
    for cable in cables {
        all.push(turned(*cable))?;
    }
    Ok(all)
}

fn neighbour_by(cable: CablePart) -> Neighbour
    requires { cable.a.port < 8 }
    ensures { result ≡ neighbour_by cable }
{
    Neighbour {
        port: cable.a.port as u8,
        device: cable.b.device,
    }
}

/// Adds a neighbour to those of a device.
fn add_neighbour(
    table: &mut Vec<Neighbours>,
    device: u32,
    neighbour: Neighbour,
) -> Result<(), AllocError>
    requires { device < length table.old.items }
    ensures { OnOk result
        (table.new.items ≡ slice_set table.old.items device
        (slice_index_or table.old.items device [] ++ neighbour ∷ [])) }
{
    let list = &mut table[device as usize];
    list.items.push(neighbour)?;
    Ok(())
}

/// The neighbours of each device, in order.
pub fn list_neighbours(alloc: Global, parts: &Parts) -> Result<Vec<Neighbours>, AllocError>
    requires { IsValid parts.now }
    ensures { IfOk result
        (λ table. table.items ≡ map (neighbours_of parts.now) (below (length parts.now.devices))) }
{
    let cables = both_ways(alloc, &parts.cables)?;
    let mut table = empty_lists(alloc, parts.devices.len())?;
    for cable in &cables {
        add_neighbour(&mut table, cable.a.device, neighbour_by(*cable))?;
    }
    Ok(table)
}
