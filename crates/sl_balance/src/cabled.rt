// The units of each device that have a cable.
ghost use Rattle.std.specs.Prelude.{◌≡◌, IfOk, length, map};
ghost use Rattle.sl_parts.specs.Parts.{below, same_port, has_cable};
ghost use Rattle.sl_layout.specs.Net.{same_side};
ghost use Rattle.sl_layout.specs.declared.actor.Side.TheVariants.{Egress};
ghost use Rattle.sl_balance.specs.Cabled.{is_cabled, cabled};

use sl_net::{ActorId, Net, Parts, PortRef, Side, push_if};
use sl_parts::Numbers;
use std::alloc::{AllocError, Global};

/// Whether two ports are the same.
pub fn same_port(a: PortRef, b: PortRef) -> bool
    ensures { result ≡ same_port a b }
{
    a.device == b.device && a.port == b.port
}

/// Whether a cable ends at a port.
fn has_cable(parts: &Parts, port: PortRef) -> bool
    ensures { result ≡ has_cable parts.now port }
{
    parts.cables.iter().any(|cable| same_port(cable.a, port) || same_port(cable.b, port))
}

fn is_egress(side: Side) -> bool
    ensures { result ≡ same_side side Egress }
{
    match side {
        Side::Ingress => false,
        Side::Egress => true,
    }
}

/// Whether an actor is an egress unit of a device, at a port with a cable.
fn is_cabled(parts: &Parts, device: u32, actor: ActorId) -> bool
    ensures { result ≡ is_cabled parts.now device actor }
{
    match actor {
        ActorId::Unit(unit) => {
            is_egress(unit.side)
                && unit.device == device
                && has_cable(
                    parts,
                    PortRef {
                        device: unit.device,
                        port: unit.port,
                    },
                )
        }
        _ => false,
    }
}

/// The egress units of a device that have a cable, by their places among the units.
fn cabled(alloc: Global, net: &Net, device: u32) -> Result<Vec<u32>, AllocError>
    ensures { IfOk result (λ places. places.items ≡ cabled net.now device) }
{
    let mut places = Vec::new(alloc);
    for place in 0..net.unit_count() {
        let actor = net.actor(net.unit_actor(place));
        push_if(&mut places, is_cabled(net.parts(), device, actor), place)?;
    }
    Ok(places)
}

/// For each device in order, its egress units that have a cable, by their places among the units.
pub fn list_cabled(alloc: Global, net: &Net) -> Result<Vec<Numbers>, AllocError>
    ensures { IfOk result
        (λ table. table.items ≡ map (cabled net.now) (below (length net.now.parts.devices))) }
{
    let mut table = Vec::new(alloc);
    for device in 0..net.device_count() {
        let items = cabled(alloc, net, device)?;
        table.push(Numbers { items })?;
    }
    Ok(table)
}
