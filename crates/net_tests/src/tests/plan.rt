// Plans of nets, and what is built from them.
ghost use Rattle.std.specs.Prelude.{IfOk};
ghost use Rattle.sl_parts.specs.Valid.{AreVersioned};

use sl_net::{CablePart, DevicePart, HostPart, Name, Net, Parts, PortRef};
use std::alloc::Global;
use std::test::Fail;

/// The place of a device and a port of it.
pub type Port = (u32, u32);

/// Devices by name and ports, cables by their ends, hosts by name and port.
#[derive(Clone, Copy)]
pub struct Plan {
    pub devices: &'static [(&'static str, u32)],
    pub cables: &'static [(Port, Port)],
    pub hosts: &'static [(&'static str, Port)],
}

fn name(alloc: Global, text: &str) -> Result<Name, Fail> {
    Ok(Name::new(alloc, text)?.ok_or("no name")?)
}

fn port((device, port): Port) -> PortRef {
    PortRef { device, port }
}

fn devices(alloc: Global, plan: &Plan) -> Result<Vec<DevicePart>, Fail> {
    let mut made = Vec::new(alloc);
    for (text, ports) in plan.devices {
        made.push(DevicePart {
            name: name(alloc, text)?,
            ports: *ports,
        })?;
    }
    Ok(made)
}

fn cables(alloc: Global, plan: &Plan) -> Result<Vec<CablePart>, Fail>
    ensures { IfOk result (λ made. AreVersioned made.items) }
{
    let mut made = Vec::new(alloc);
    for (a, b) in plan.cables {
        made.push(CablePart {
            a: port(*a),
            b: port(*b),
            version: 1,
        })?;
    }
    Ok(made)
}

fn hosts(alloc: Global, plan: &Plan) -> Result<Vec<HostPart>, Fail> {
    let mut made = Vec::new(alloc);
    for (text, at) in plan.hosts {
        made.push(HostPart {
            name: name(alloc, text)?,
            at: port(*at),
        })?;
    }
    Ok(made)
}

/// The parts of a plan.
pub fn parts(alloc: Global, plan: &Plan) -> Result<Parts, Fail>
    ensures { IfOk result (λ parts. AreVersioned parts.cables) }
{
    Ok(Parts {
        devices: devices(alloc, plan)?,
        cables: cables(alloc, plan)?,
        hosts: hosts(alloc, plan)?,
    })
}

/// The net of a plan whose parts are a net's.
pub fn built(alloc: Global, plan: &Plan) -> Result<Net, Fail> {
    Ok(Net::build(alloc, parts(alloc, plan)?).map_err(|_| "refused")?)
}
