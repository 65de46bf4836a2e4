// What a unit puts.
ghost use Rattle.std.specs.Prelude.{◌≡◌, ◌++◌, ◌<◌, length, reverse, OnOk, IfOk};
ghost use Rattle.sl_layout.specs.Net.{links_out};
ghost use Rattle.sl_route.specs.Routes.{IsRoutesOf};
ghost use Rattle.sl_model.specs.Frame.{plain_frame};
ghost use Rattle.sl_model.specs.Puts.{send_all, crossbar_to, route, ingress_puts};
ghost use Rattle.sl_model.specs.Puts.{egress_puts, notice_puts, unit_puts};

use crate::frames::plain_frame;
use crate::sends::{Putter, add_out, add_sends};
use crate::tell::{id, last, stamp_of};
use crate::wires::links_out;
use sl_input::packet_of;
use sl_machine::Memory;
use sl_model::{Message, Put, Step};
use sl_net::{Net, Packet, Side, Sort, UnitId, push_if};
use sl_poll::{is_own_port, is_this_unit};
use sl_route::Routes;
use std::alloc::Global;

/// The crossbar links from a unit to the egress unit of a port of its device.
fn crossbar_to(
    alloc: Global,
    net: &Net,
    unit: u32,
    device: u32,
    port: u32,
) -> Result<Vec<u32>, Memory>
    requires { unit < length net.now.actors }
    ensures { IfOk result (λ links. links.items ≡ crossbar_to net.now unit device port) }
{
    let target = UnitId {
        device,
        port,
        side: Side::Egress,
    };
    let all = links_out(alloc, net, unit, Sort::Crossbar)?;
    let mut links = Vec::new(alloc);
    for link in &all {
        push_if(
            &mut links,
            is_this_unit(net.actor(net.link(*link).to), target),
            *link,
        )?;
    }
    Ok(links)
}

/// Sends a packet to the egress unit of its next port.
fn add_route(
    by: &Putter<'_>,
    routes: &Routes,
    puts: &mut Vec<Put>,
    device: u32,
    id: u64,
    packet: Packet,
) -> Result<(), Memory>
    requires unit { by.now.actor < length by.now.net.now.actors }
    requires routes { IsRoutesOf by.now.net.now routes.now }
    requires device { device < length by.now.net.now.parts.devices }
    ensures { OnOk result
        (puts.new.items ≡ puts.old.items ++ route by.now.net.now by.now.actor device id packet) }
{
    if packet.hops == 0 {
        return Ok(());
    }
    let Some(port) = routes.next_port(device, packet.dst as u32) else {
        return Ok(());
    };
    let onward = Packet {
        hops: packet.hops - 1,
        ..packet
    };
    let links = crossbar_to(by.alloc, by.net, by.actor, device, port as u32)?;
    add_sends(by.alloc, puts, &Message::Data(id, onward), &links)
}

fn add_ingress(
    by: &Putter<'_>,
    routes: &Routes,
    puts: &mut Vec<Put>,
    device: u32,
    id: u64,
    message: &Message,
) -> Result<(), Memory>
    requires unit { by.now.actor < length by.now.net.now.actors }
    requires routes { IsRoutesOf by.now.net.now routes.now }
    requires device { device < length by.now.net.now.parts.devices }
    ensures { OnOk result
        (puts.new.items ≡ puts.old.items
        ++ ingress_puts by.now.net.now by.now.actor device id message.now) }
{
    match message {
        Message::Host(bytes) => match packet_of(bytes) {
            Some(packet) => add_route(by, routes, puts, device, id, packet),
            None => Ok(()),
        },
        Message::Data(_, packet) => add_route(by, routes, puts, device, id, *packet),
        Message::Init(_) => add_out(by, puts, Sort::Crossbar, &Message::Probe(id)),
        _ => Ok(()),
    }
}

fn add_egress_data(
    by: &Putter<'_>,
    puts: &mut Vec<Put>,
    id: u64,
    packet: Packet,
) -> Result<(), Memory>
    requires { by.now.actor < length by.now.net.now.actors }
    ensures { let net = by.now.net.now in
        OnOk result
        (puts.new.items ≡ puts.old.items
        ++ (send_all (Message.Data id packet) (links_out net by.now.actor Sort.Cable)
        ++ send_all (Message.Host (plain_frame packet)) (links_out net by.now.actor Sort.ToHost))) }
{
    add_out(by, puts, Sort::Cable, &Message::Data(id, packet))?;
    add_out(
        by,
        puts,
        Sort::ToHost,
        &Message::Host(plain_frame(by.alloc, packet)?),
    )
}

fn add_egress(
    by: &Putter<'_>,
    puts: &mut Vec<Put>,
    of: UnitId,
    id: u64,
    link: u32,
    message: &Message,
) -> Result<(), Memory>
    requires unit { by.now.actor < length by.now.net.now.actors }
    requires link { link < length by.now.net.now.links }
    ensures { OnOk result
        (puts.new.items ≡ puts.old.items ++ egress_puts by.now.net.now by.now.actor
        of.device of.port id link message.now) }
{
    match message {
        Message::Data(_, packet) => add_egress_data(by, puts, id, *packet),
        Message::Probe(_) if is_own_port(by.net, of, link) => {
            add_out(by, puts, Sort::Cable, &Message::Probe(id))
        }
        _ => Ok(()),
    }
}

fn add_notice(
    by: &Putter<'_>,
    puts: &mut Vec<Put>,
    before: u64,
    stamp: Option<u64>,
) -> Result<(), Memory>
    requires { by.now.actor < length by.now.net.now.actors }
    ensures { OnOk result
        (puts.new.items ≡ puts.old.items
        ++ notice_puts by.now.net.now by.now.actor before stamp) }
{
    match stamp {
        Some(stamp) if stamp != before => add_out(by, puts, Sort::Notice, &Message::Notice),
        _ => Ok(()),
    }
}

/// The puts of a unit that takes a message.
pub fn add_unit(
    by: &Putter<'_>,
    routes: &Routes,
    puts: &mut Vec<Put>,
    of: UnitId,
    steps: &[Step],
    choice: u32,
    link: u32,
    message: &Message,
) -> Result<(), Memory>
    requires unit { by.now.actor < length by.now.net.now.actors }
    requires routes { IsRoutesOf by.now.net.now routes.now }
    requires device { of.device < length by.now.net.now.parts.devices }
    requires link { link < length by.now.net.now.links }
    ensures { OnOk result
        (puts.new.items ≡ puts.old.items ++ unit_puts by.now.net.now by.now.actor of
        (reverse steps.now) choice link message.now) }
{
    let stamp = stamp_of(message);
    let after = stamp.unwrap_or(0).max(id(steps));
    match of.side {
        Side::Ingress => add_ingress(by, routes, puts, of.device, after, message)?,
        Side::Egress => add_egress(by, puts, of, after, link, message)?,
    }
    add_notice(by, puts, last(choice, steps), stamp)?;
    match message {
        Message::Poll => add_out(by, puts, Sort::Dump, &Message::Dump(steps.len() as u64 + 1)),
        _ => Ok(()),
    }
}
