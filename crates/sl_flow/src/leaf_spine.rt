// A leaf-spine net: two spines, and two hosts at each leaf.
ghost use Rattle.std.specs.Prelude.{◌≡◌, ◌<◌, ◌≤◌, ◌+◌, ◌*◌, ◌++◌, IfOk, map, None, decimal};
ghost use Rattle.sl_parts.specs.Text.{IsName};
ghost use Rattle.sl_parts.specs.Parts.{below};
ghost use Rattle.sl_parts.specs.Fault.{fault_of};
ghost use Rattle.sl_parts.specs.Valid.{AreVersioned};
ghost use Rattle.sl_layout.specs.Net.{net_of};
ghost use Rattle.sl_flow.specs.Sample.{spine, leaf, devices, spine_port, leaf_port, cable, host};
ghost use Rattle.sl_flow.specs.Sample.{leaf_spine};

use sl_net::{CablePart, DevicePart, HostPart, Name, Net, NetFault, Parts, PortRef};
use std::alloc::{AllocError, Global};

/// A name of a letter and a number.
fn named(alloc: Global, letter: &str, number: u32) -> Result<Name, AllocError>
    requires { IsName (letter.now ++ decimal number) }
    ensures { IfOk result (λ name. name ≡ letter.now ++ decimal number) }
{
    let text = format!(in alloc; "{letter}{number}")?;
    match Name::new(alloc, text.as_str()) {
        Ok(Some(name)) => Ok(name),
        Ok(None) => unreachable!(),
        Err(_) => Err(AllocError),
    }
}

fn spine(alloc: Global, leaves: u32, i: u32) -> Result<DevicePart, AllocError>
    requires { i < 16 }
    ensures { IfOk result (λ part. part ≡ spine leaves i) }
{
    let name = named(alloc, "s", i)?;
    Ok(DevicePart {
        name,
        ports: leaves,
    })
}

fn leaf(alloc: Global, i: u32) -> Result<DevicePart, AllocError>
    requires { i < 16 }
    ensures { IfOk result (λ part. part ≡ leaf i) }
{
    let name = named(alloc, "l", i)?;
    Ok(DevicePart { name, ports: 4 })
}

/// Two spines, and so many leaves.
#[tactic(auto, using(crate::proofs::Counted::map_below_more))]
fn devices(alloc: Global, leaves: u32) -> Result<Vec<DevicePart>, AllocError>
    requires { leaves ≤ 8 }
    ensures { IfOk result (λ parts. parts.items ≡ devices leaves) }
{
    let mut parts = Vec::new(alloc);
    parts.push(spine(alloc, leaves, 0)?)?;
    parts.push(spine(alloc, leaves, 1)?)?;
    for i in 0..leaves {
        parts.push(leaf(alloc, i)?)?;
    }
    Ok(parts)
}

fn spine_port(i: u32, port: u32) -> PortRef
    ensures { result ≡ spine_port i port }
{
    PortRef { device: i, port }
}

fn leaf_port(i: u32, port: u32) -> PortRef
    requires { i < 8 }
    ensures { result ≡ leaf_port i port }
{
    PortRef {
        device: 2 + i,
        port,
    }
}

fn cable(c: u32) -> CablePart
    requires { c < 16 }
    ensures { result ≡ cable c }
{
    CablePart {
        a: leaf_port(c / 2, 2 + c % 2),
        b: spine_port(c % 2, c / 2),
        version: 1,
    }
}

/// Two cables a leaf, one to each spine.
fn cables(alloc: Global, count: u32) -> Result<Vec<CablePart>, AllocError>
    requires { count ≤ 16 }
    ensures { IfOk result (λ parts. parts.items ≡ map cable (below count)) }
{
    (0..count).map(|c| cable(c)).collect(alloc)
}

fn host(alloc: Global, h: u32) -> Result<HostPart, AllocError>
    requires { h < 16 }
    ensures { IfOk result (λ part. part ≡ host h) }
{
    let name = named(alloc, "h", h)?;
    Ok(HostPart {
        name,
        at: leaf_port(h / 2, h % 2),
    })
}

/// Two hosts a leaf.
#[tactic(auto, using(crate::proofs::Counted::map_below_more))]
fn hosts(alloc: Global, count: u32) -> Result<Vec<HostPart>, AllocError>
    requires { count ≤ 16 }
    ensures { IfOk result (λ parts. parts.items ≡ map host (below count)) }
{
    let mut parts = Vec::new(alloc);
    for h in 0..count {
        parts.push(host(alloc, h)?)?;
    }
    Ok(parts)
}

/// The parts of the net with so many leaves.
pub fn leaf_spine(alloc: Global, leaves: u32) -> Result<Parts, AllocError>
    requires { leaves ≤ 8 }
    ensures { IfOk result (λ parts. parts ≡ leaf_spine leaves) }
{
    Ok(Parts {
        devices: devices(alloc, leaves)?,
        cables: cables(alloc, 2 * leaves)?,
        hosts: hosts(alloc, 2 * leaves)?,
    })
}

/// The net of parts that have no fault.
pub fn built(alloc: Global, parts: Parts) -> Result<Net, AllocError>
    requires versions { AreVersioned parts.cables }
    requires right { fault_of parts ≡ None }
    ensures { IfOk result (λ net. net ≡ net_of parts) }
{
    match Net::build(alloc, parts) {
        Ok(net) => Ok(net),
        Err(NetFault::Memory) => Err(AllocError),
        Err(_) => unreachable!(),
    }
}
