// The links of a net in order.
ghost use Rattle.std.specs.Prelude.{◌≡◌, ◌<◌, ◌++◌, ◌∷◌, [], OnOk, IfOk, length, map, flat_map};
ghost use Rattle.std.specs.List.{All};
ghost use Rattle.sl_layout.specs.declared.actor.Sort.TheVariants.{Notice, Dump};
ghost use Rattle.sl_layout.specs.declared.actor.ActorId.TheVariants.{Observer, Control};
ghost use Rattle.sl_layout.specs.Net.{actors_of, incoming, unit_incoming, from_outside};
ghost use Rattle.sl_layout.specs.Net.{links_to};
ghost use Rattle.sl_parts.specs.Valid.{IsValid};
ghost use Rattle.sl_parts.specs.Ports.{IsNear};
ghost use Rattle.sl_layout.specs.Roster.{IsFew, IsActor, link_by};

use crate::actor::{ActorId, LinkPart, Side, Sort};
use crate::layout::Layout;
use crate::roster::{Roster, egress, ingress};
use sl_parts::PortRef;
use std::alloc::{AllocError, Global};

/// The sender of a link, and the link's sort.
type Incoming = (ActorId, Sort);

/// What the observer takes from: each control plane.
fn to_observer(alloc: Global, layout: &Layout) -> Result<Vec<Incoming>, AllocError>
    ensures { IfOk result (λ all. all.items ≡ incoming layout.now Observer) }
{
    let devices = layout.parts().devices.len() as u32;
    (0..devices)
        .map(|device| (ActorId::Control(device), Sort::Done))
        .collect(alloc)
}

fn add_reports(all: &mut Vec<Incoming>, unit: ActorId) -> Result<(), AllocError>
    ensures { OnOk result
        (all.new.items ≡ all.old.items ++ (unit, Notice) ∷ (unit, Dump) ∷ []) }
{
    all.push((unit, Sort::Notice))?;
    all.push((unit, Sort::Dump))?;
    Ok(())
}

/// What a control plane takes from: the observer, and twice from each unit of its device.
fn to_control(alloc: Global, layout: &Layout, device: u32) -> Result<Vec<Incoming>, AllocError>
    requires { device < length layout.now.devices }
    ensures { IfOk result (λ all. all.items ≡ incoming layout.now (Control device)) }
{
    let mut all = Vec::new(alloc);
    all.push((ActorId::Observer, Sort::Begin))?;
    for port in layout.used_ports(device) {
        add_reports(&mut all, ingress(device, *port))?;
        add_reports(&mut all, egress(device, *port))?;
    }
    Ok(all)
}

/// Adds what comes to a port from outside its device: from the host there, or else from the other
/// end of its cable.
fn add_outside(all: &mut Vec<Incoming>, layout: &Layout, port: PortRef) -> Result<(), AllocError>
    requires { IsNear (length layout.now.devices) port }
    ensures { OnOk result (all.new.items ≡ all.old.items ++ from_outside layout.now port) }
{
    if let Some(host) = layout.host_at(port) {
        all.push((ActorId::Host(host), Sort::FromHost))?;
    } else if let Some(end) = layout.other_end(port) {
        all.push((egress(end.device, end.port), Sort::Cable))?;
    }
    Ok(())
}

fn to_ingress(alloc: Global, layout: &Layout, port: PortRef) -> Result<Vec<Incoming>, AllocError>
    requires { IsNear (length layout.now.devices) port }
    ensures { IfOk result
        (λ all. all.items ≡ unit_incoming layout.now port.device port.port Side.Ingress) }
{
    let control = ActorId::Control(port.device);
    let mut all = Vec::new(alloc);
    add_outside(&mut all, layout, port)?;
    all.push((control, Sort::Init))?;
    all.push((control, Sort::Poll))?;
    Ok(all)
}

fn to_egress(alloc: Global, layout: &Layout, port: PortRef) -> Result<Vec<Incoming>, AllocError>
    requires { port.device < length layout.now.devices }
    ensures { IfOk result
        (λ all. all.items ≡ unit_incoming layout.now port.device port.port Side.Egress) }
{
    let mut all = Vec::new(alloc);
    for other in layout.used_ports(port.device) {
        all.push((ingress(port.device, *other), Sort::Crossbar))?;
    }
    all.push((ActorId::Control(port.device), Sort::Poll))?;
    Ok(all)
}

fn to_host(alloc: Global, layout: &Layout, host: u32) -> Result<Vec<Incoming>, AllocError>
    requires { host < length layout.now.hosts }
    ensures { IfOk result (λ all. all.items ≡ incoming layout.now (ActorId.Host host)) }
{
    let at = layout.parts().hosts[host as usize].at;
    let mut all = Vec::new(alloc);
    all.push((egress(at.device, at.port), Sort::ToHost))?;
    Ok(all)
}

/// What an actor takes from, in the order of its choices.
fn incoming(alloc: Global, layout: &Layout, actor: ActorId) -> Result<Vec<Incoming>, AllocError>
    requires valid { IsValid layout.now }
    requires actor { IsActor layout.now actor }
    ensures { IfOk result (λ all. all.items ≡ incoming layout.now actor) }
{
    match actor {
        ActorId::Observer => to_observer(alloc, layout),
        ActorId::Control(device) => to_control(alloc, layout, device),
        ActorId::Unit(unit) => {
            let port = PortRef {
                device: unit.device,
                port: unit.port,
            };
            match unit.side {
                Side::Ingress => to_ingress(alloc, layout, port),
                Side::Egress => to_egress(alloc, layout, port),
            }
        }
        ActorId::Host(host) => to_host(alloc, layout, host),
    }
}

/// Adds links to the actor of the number `to`.
fn add_links(
    links: &mut Vec<LinkPart>,
    roster: &Roster,
    to: u32,
    incoming: &[Incoming],
) -> Result<(), AllocError>
    requires { All (λ i. IsFew i.0) incoming.now }
    ensures { OnOk result
        (links.new.items ≡ links.old.items ++ map (link_by roster.now to) incoming.now) }
{
    for (from, sort) in incoming {
        links.push(LinkPart {
            from: roster.number_of(*from),
            to,
            sort: *sort,
        })?;
    }
    Ok(())
}

/// The links in order: by receiving actor, then by choice.
pub fn list_links(alloc: Global, roster: &Roster) -> Result<Vec<LinkPart>, AllocError>
    ensures { IfOk result
        (λ links. links.items ≡ flat_map (links_to roster.now (actors_of roster.now))
        (actors_of roster.now)) }
{
    // The hosts are few.
    let _parts = roster.layout().parts();
    let actors = roster.actors();
    let mut links = Vec::new(alloc);
    for i in 0..actors.len() {
        let all = incoming(alloc, roster.layout(), actors[i])?;
        add_links(&mut links, roster, i as u32, all.as_slice())?;
    }
    Ok(links)
}
