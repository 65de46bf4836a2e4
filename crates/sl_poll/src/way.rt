// What units put on the links that data packets go by.
ghost use Rattle.std.specs.Prelude.{◌≡◌, ◌<◌, length};
ghost use Rattle.sl_layout.specs.Net.{actor_of, same_actor};
ghost use Rattle.sl_route.specs.Routes.{IsRoutesOf};
ghost use Rattle.sl_model.specs.Matching.{is_data};
ghost use Rattle.sl_model.specs.Puts.{is_own_port};
ghost use Rattle.sl_layout.specs.declared.actor.ActorId.{ActorId};
ghost use Rattle.sl_poll.specs.Ways.{bears, leads, to_port, routed, from_ingress, from_egress};
ghost use Rattle.sl_poll.specs.Ways.{from_side, sends_of};

use sl_net::{ActorId, Net, Packet, Side, Sort, UnitId};
use sl_route::Routes;

/// Outgoing links of an actor: those of a sort, or the crossbar links to a unit.
#[derive(Clone, Copy)]
pub enum Way {
    Along(Sort),
    Across(UnitId),
}

/// What an entry puts, on each link that leads this way: a data packet, or another message.
#[derive(Clone, Copy)]
pub struct Sends {
    pub packet: Option<Packet>,
    pub way: Way,
}

/// Whether data packets go by links of a sort, or frames of hosts.
pub fn bears(sort: Sort) -> bool
    ensures { result ≡ bears sort }
{
    match sort {
        Sort::FromHost => true,
        Sort::Cable => true,
        Sort::Crossbar => true,
        _ => false,
    }
}

/// Whether links of a sort are data channels.
pub fn is_data(sort: Sort) -> bool
    ensures { result ≡ is_data sort }
{
    match sort {
        Sort::Cable => true,
        Sort::Crossbar => true,
        _ => false,
    }
}

/// Whether an actor is this unit.
pub fn is_this_unit(actor: ActorId, unit: UnitId) -> bool
    ensures { result ≡ same_actor actor (ActorId.Unit unit) }
{
    actor == ActorId::Unit(unit)
}

/// Whether a link leads this way.
pub fn leads(net: &Net, way: Way, link: u32) -> bool
    requires { link < length net.now.links }
    ensures { result ≡ leads net.now way link }
{
    let part = net.link(link);
    match way {
        Way::Along(sort) => part.sort.is(sort),
        Way::Across(unit) => part.sort.is(Sort::Crossbar) && is_this_unit(net.actor(part.to), unit),
    }
}

fn to_port(device: u32, packet: Packet, port: Option<u8>) -> Option<Sends>
    ensures { result ≡ to_port device packet port }
{
    match port {
        None => None,
        Some(port) => Some(Sends {
            packet: Some(packet),
            way: Way::Across(UnitId {
                device,
                port: port as u32,
                side: Side::Egress,
            }),
        }),
    }
}

/// What an ingress unit of a device puts for a data packet: it goes on with one hop less.
fn routed(net: &Net, routes: &Routes, device: u32, packet: Option<Packet>) -> Option<Sends>
    requires routes { IsRoutesOf net.now routes.now }
    requires device { device < length net.now.parts.devices }
    ensures { result ≡ routed net.now.parts device packet }
{
    let Some(packet) = packet else {
        return None;
    };
    if packet.hops == 0 {
        return None;
    }
    let port = routes.next_port(device, packet.dst as u32);
    let onward = Packet {
        hops: packet.hops - 1,
        ..packet
    };
    to_port(device, onward, port)
}

/// An initiation goes to each egress unit of the device.
fn from_ingress(
    net: &Net,
    routes: &Routes,
    device: u32,
    sort: Sort,
    packet: Option<Packet>,
) -> Option<Sends>
    requires routes { IsRoutesOf net.now routes.now }
    requires device { device < length net.now.parts.devices }
    ensures { result ≡ from_ingress net.now.parts device sort packet }
{
    if sort.is(Sort::Init) {
        return Some(Sends {
            packet: None,
            way: Way::Along(Sort::Crossbar),
        });
    }
    routed(net, routes, device, packet)
}

/// Whether a link comes from the ingress unit of a unit's port.
pub fn is_own_port(net: &Net, unit: UnitId, link: u32) -> bool
    requires { link < length net.now.links }
    ensures { result ≡ is_own_port net.now unit.device unit.port link }
{
    let own = UnitId {
        device: unit.device,
        port: unit.port,
        side: Side::Ingress,
    };
    is_this_unit(net.actor(net.link(link).from), own)
}

fn on_cable(packet: Option<Packet>) -> Sends
    ensures { result ≡ record { packet = packet; way = Way.Along Sort.Cable } }
{
    Sends {
        packet,
        way: Way::Along(Sort::Cable),
    }
}

/// A data packet goes on the cable; another message does from the unit's own port.
fn from_egress(
    net: &Net,
    unit: UnitId,
    link: u32,
    sort: Sort,
    packet: Option<Packet>,
) -> Option<Sends>
    requires { link < length net.now.links }
    ensures { result ≡ from_egress net.now unit link sort packet }
{
    if let Some(packet) = packet {
        return Some(on_cable(Some(packet)));
    }
    if is_data(sort) && is_own_port(net, unit, link) {
        return Some(on_cable(None));
    }
    None
}

fn from_side(
    net: &Net,
    routes: &Routes,
    unit: UnitId,
    link: u32,
    sort: Sort,
    packet: Option<Packet>,
) -> Option<Sends>
    requires routes { IsRoutesOf net.now routes.now }
    requires device { unit.device < length net.now.parts.devices }
    requires link { link < length net.now.links }
    ensures { result ≡ from_side net.now unit unit.side link sort packet }
{
    match unit.side {
        Side::Ingress => from_ingress(net, routes, unit.device, sort, packet),
        Side::Egress => from_egress(net, unit, link, sort, packet),
    }
}

/// What an actor puts that took a message from a link with this packet, or one with none, as far
/// as data packets go by there. Only units do.
pub fn sends_of(
    net: &Net,
    routes: &Routes,
    actor: u32,
    link: u32,
    packet: Option<Packet>,
) -> Option<Sends>
    requires routes { IsRoutesOf net.now routes.now }
    requires actor { actor < length net.now.actors }
    requires link { link < length net.now.links }
    ensures { result ≡ sends_of net.now (actor_of net.now actor) link packet }
{
    match net.actor(actor) {
        ActorId::Unit(unit) => from_side(net, routes, unit, link, net.link(link).sort, packet),
        _ => None,
    }
}
