// How far each device is from one of them, searched breadth first.
ghost use Rattle.std.specs.Prelude.{◌≡◌, ◌<◌, ◌==◌, [], OnOk, IfOk, Some, None, length};
ghost use Rattle.std.specs.Prelude.{slice_set, replicate};
ghost use Rattle.std.specs.List.{All, list_any};
ghost use Rattle.sl_route.specs.Graph.{leads, IsGraph, Finds, IsFar};

use crate::neighbours::{Neighbour, Neighbours};
use std::alloc::{AllocError, Global};

/// Notes that a device is so many cables away, and adds it, where it was not reached before.
fn find(
    far: &mut Vec<Option<u32>>,
    found: &mut Vec<u32>,
    device: u32,
    hops: u32,
) -> Result<(), AllocError>
    requires { device < length far.old.items }
    ensures { OnOk result
        (Finds hops (λ d. device == d) far.old.items far.new.items
        found.old.items found.new.items) }
{
    if far[device as usize].is_none() {
        far[device as usize] = Some(hops);
        found.push(device)?;
    }
    Ok(())
}

/// Finds the neighbours of a device.
fn find_neighbours(
    far: &mut Vec<Option<u32>>,
    found: &mut Vec<u32>,
    neighbours: &[Neighbour],
    hops: u32,
) -> Result<(), AllocError>
    requires { All (λ k. k.device < length far.old.items) neighbours.now }
    ensures { OnOk result
        (Finds hops (λ d. list_any (λ k. k.device == d) neighbours.now)
        far.old.items far.new.items found.old.items found.new.items) }
{
    for neighbour in neighbours {
        find(far, found, neighbour.device, hops)?;
    }
    Ok(())
}

/// Finds the neighbours of the devices that were found last.
fn advance(
    alloc: Global,
    table: &[Neighbours],
    far: &mut Vec<Option<u32>>,
    last: &[u32],
    hops: u32,
) -> Result<Vec<u32>, AllocError>
    requires graph { IsGraph table.now }
    requires size { length far.old.items ≡ length table.now }
    requires near { All (λ x. x < length table.now) last.now }
    ensures { IfOk result
        (λ found. Finds hops (λ d. list_any (λ x. leads table.now x d) last.now)
        far.old.items far.new.items [] found.items) }
{
    let mut found = Vec::new(alloc);
    for device in last {
        let neighbours = &table[*device as usize];
        find_neighbours(far, &mut found, neighbours.items.as_slice(), hops)?;
    }
    Ok(found)
}

/// No device is reached but the one that the search begins at.
fn begin(alloc: Global, count: usize, device: u32) -> Result<Vec<Option<u32>>, AllocError>
    requires { device < count }
    ensures { IfOk result (λ far. far.items ≡ slice_set (replicate count None) device (Some 0)) }
{
    let mut far = Vec::new(alloc);
    for _place in 0..count {
        far.push(None)?;
    }
    far[device as usize] = Some(0);
    Ok(far)
}

/// How many cables each device is away from one of them, where it is joined to it.
pub fn distances(
    alloc: Global,
    table: &[Neighbours],
    device: u32,
) -> Result<Vec<Option<u32>>, AllocError>
    requires graph { IsGraph table.now }
    requires within { device < length table.now }
    ensures { IfOk result (λ far. IsFar table.now device far.items) }
{
    let mut far = begin(alloc, table.len(), device)?;
    let mut last = Vec::from_slice(alloc, &[device])?;
    for hops in 1..table.len() as u32 {
        last = advance(alloc, table, &mut far, &last, hops)?;
    }
    Ok(far)
}
