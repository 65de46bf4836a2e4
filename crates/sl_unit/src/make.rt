// The links of a unit in a net.
ghost use Rattle.std.specs.Prelude.{◌≡◌, ◌<◌, ◌≤◌, ◌^◌, ◌++◌, OnOk, IfOk, IsSome, length};
ghost use Rattle.std.specs.Prelude.{slice_index_or};
ghost use Rattle.std.specs.List.{All};
ghost use Rattle.sl_layout.specs.Net.{actor_of, choices_of, data_channels, place_in};
ghost use Rattle.sl_ids.specs.Ids.{most_bits};
ghost use Rattle.sl_parts.specs.Parts.{version_at};
ghost use Rattle.sl_route.specs.Routes.{IsRoutesOf};
ghost use Rattle.sl_unit.specs.declared.wires.Entrance.TheVariants.{Other};
ghost use Rattle.sl_unit.specs.Wires.{IsSmall, AreEarly};
ghost use Rattle.sl_unit.specs.Spans.{AreByPort, AreSpans};
ghost use Rattle.sl_layout.specs.Devices.{device_of};
ghost use Rattle.sl_unit.specs.Made.{side_of, port_of, is_own, entrance, entrances_of, exits_of};
ghost use Rattle.sl_unit.specs.Made.{ports_of, version_of, wires_of};

use crate::wires::{Entrance, Exit, Span, Spans, Way, Wires, entrance_in, span_of};
use sl_ids::Width;
use sl_net::{ActorId, CablePart, Net, PortRef, Side, Snapshot, Sort, nets_are_wired, push_if};
use sl_route::Routes;
use std::alloc::{AllocError, Global};

/// Adds the choices of an actor that take from links of a sort.
fn add_choices(choices: &mut Vec<u32>, net: &Net, actor: u32, sort: Sort) -> Result<(), AllocError>
    requires { actor < length net.now.actors }
    ensures { OnOk result (choices.new.items ≡ choices.old.items ++ choices_of net.now actor sort) }
{
    let links = net.links_into(actor);
    for choice in 0..links.len() {
        let passes = net.link(links[choice]).sort.is(sort);
        push_if(choices, passes, choice as u32)?;
    }
    Ok(())
}

/// The choices by which a unit takes from its data channels.
#[tactic(auto, using(crate::proofs::Channels::channels_few))]
fn list_channels(alloc: Global, net: &Net, actor: u32) -> Result<Vec<u32>, AllocError>
    requires actor { actor < length net.now.actors }
    requires unit { IsSome (side_of (actor_of net.now actor)) }
    ensures channels { IfOk result (λ channels. channels.items ≡ data_channels net.now actor) }
    ensures few { length (data_channels net.now actor) ≤ 8 }
{
    nets_are_wired();
    let _parts = net.parts();
    let mut channels = Vec::new(alloc);
    add_choices(&mut channels, net, actor, Sort::Cable)?;
    add_choices(&mut channels, net, actor, Sort::Crossbar)?;
    Ok(channels)
}

/// The place of a number in a list, or how many there are where it is none of them.
fn place_in(numbers: &[u32], number: u32) -> usize
    ensures place { result ≡ place_in 0 number numbers.now }
    ensures most { result ≤ length numbers.now }
{
    let mut place = 0;
    for other in numbers {
        if *other == number {
            return place;
        }
        place += 1;
    }
    place
}

/// Whether an actor is the ingress unit of the port of a unit.
fn is_own(unit: ActorId, other: ActorId) -> bool
    ensures { result ≡ is_own unit other }
{
    match (unit, other) {
        (ActorId::Unit(unit), ActorId::Unit(other)) => match other.side {
            Side::Ingress => other.device == unit.device && other.port == unit.port,
            Side::Egress => false,
        },
        _ => false,
    }
}

/// What comes by a link of a sort.
fn entrance(sort: Sort, channel: u8, own: bool) -> Entrance
    ensures { result ≡ entrance sort channel own }
{
    match sort {
        Sort::FromHost => Entrance::Host,
        Sort::Cable => Entrance::Cable(channel),
        Sort::Crossbar => Entrance::Crossbar { channel, own },
        Sort::Init => Entrance::Init,
        Sort::Poll => Entrance::Poll,
        _ => Entrance::Other,
    }
}

/// The device of a unit.
pub fn device_of(actor: ActorId) -> u32
    ensures { result ≡ device_of actor }
{
    match actor {
        ActorId::Unit(unit) => unit.device,
        _ => 0,
    }
}

/// The port of an actor of a net, 0 where it is no unit.
fn port_of(net: &Net, actor: u32) -> u8
    requires { actor < length net.now.actors }
    ensures { result ≡ port_of (actor_of net.now actor) }
{
    let _parts = net.parts();
    match net.actor(actor) {
        ActorId::Unit(unit) => unit.port as u8,
        _ => 0,
    }
}

/// What comes to a unit by each choice.
#[tactic(auto, using(crate::proofs::Channels::entrances_small))]
fn list_entrances(alloc: Global, net: &Net, actor: u32) -> Result<Vec<Entrance>, AllocError>
    requires actor { actor < length net.now.actors }
    requires unit { IsSome (side_of (actor_of net.now actor)) }
    ensures entrances { IfOk result (λ entrances. entrances.items ≡ entrances_of net.now actor) }
    ensures small { IfOk result (λ entrances. All IsSmall entrances.items) }
{
    let channels = list_channels(alloc, net, actor)?;
    let unit = net.actor(actor);
    let links = net.links_into(actor);
    let mut entrances = Vec::new(alloc);
    for choice in 0..links.len() {
        let link = net.link(links[choice]);
        let place = place_in(channels.as_slice(), choice as u32) as u8;
        let own = is_own(unit, net.actor(link.from));
        entrances.push(entrance(link.sort, place, own))?;
    }
    Ok(entrances)
}

/// The outgoing links of a unit, by their numbers.
fn list_exits(alloc: Global, net: &Net, actor: u32) -> Result<Vec<Exit>, AllocError>
    requires { actor < length net.now.actors }
    ensures exits { IfOk result (λ exits. exits.items ≡ exits_of net.now actor) }
    ensures few { IfOk result (λ exits. length exits.items < 2 ^ 32) }
{
    let mut exits = Vec::new(alloc);
    for number in net.links_from(actor) {
        let link = net.link(*number);
        exits.push(Exit {
            sort: link.sort,
            to: net.actor(link.to),
        })?;
    }
    Ok(exits)
}

/// Where the crossbar links to the egress units of a device's first ports lie, by port.
fn spans_by_port(exits: &[Exit], device: u32) -> [Span; 8]
    requires { length exits.now < 2 ^ 32 }
    ensures { AreByPort device exits.now 8 result }
{
    let mut spans = [Span { from: 0, end: 0 }; 8];
    for port in 0..8 {
        spans[port as usize] = span_of(exits, Way::Toward { device, port });
    }
    spans
}

/// Where the outgoing links of the ways that units use lie.
fn spans_of(exits: &[Exit], device: u32) -> Spans
    requires { length exits.now < 2 ^ 32 }
    ensures { AreSpans device exits.now result }
{
    Spans {
        cable: span_of(exits, Way::All(Sort::Cable)),
        to_host: span_of(exits, Way::All(Sort::ToHost)),
        crossbar: span_of(exits, Way::All(Sort::Crossbar)),
        notice: span_of(exits, Way::All(Sort::Notice)),
        dump: span_of(exits, Way::All(Sort::Dump)),
        ports: spans_by_port(exits, device),
    }
}

/// The next port of a device to each host.
pub fn list_ports(
    alloc: Global,
    net: &Net,
    routes: &Routes,
    device: u32,
) -> Result<Vec<Option<u8>>, AllocError>
    requires device { device < length net.now.parts.devices }
    requires routes { IsRoutesOf net.now routes.now }
    ensures { IfOk result (λ ports. ports.items ≡ ports_of net.now device) }
{
    let mut ports = Vec::new(alloc);
    for host in 0..net.parts().hosts.len() {
        ports.push(routes.next_port(device, host as u32))?;
    }
    Ok(ports)
}

/// The version of the frames on the cable at a port, and another where there is none.
fn version_at(other: u8, cables: &[CablePart], port: PortRef) -> u8
    ensures { result ≡ version_at other cables.now port }
{
    for cable in cables {
        if cable.a == port || cable.b == port {
            return cable.version;
        }
    }
    other
}

/// The version of the frames that an actor sends to units.
fn version_of(cables: &[CablePart], version: u8, actor: ActorId) -> u8
    ensures { result ≡ version_of cables.now version actor }
{
    match actor {
        ActorId::Unit(unit) => match unit.side {
            Side::Ingress => version,
            Side::Egress => {
                let port = PortRef {
                    device: unit.device,
                    port: unit.port,
                };
                version_at(version, cables, port)
            }
        },
        _ => version,
    }
}

/// The first ten of these entrances, and `Other` past the last.
fn early_of(entrances: &[Entrance]) -> [Entrance; 10]
    ensures { AreEarly entrances.now result }
{
    let mut early = [Entrance::Other; 10];
    for choice in 0..10 {
        early[choice] = entrance_in(entrances, choice);
    }
    early
}

/// The links of a unit, with the next ports to hosts.
pub fn make_wires(
    alloc: Global,
    net: &Net,
    actor: u32,
    ports: Vec<Option<u8>>,
    snapshot: &Snapshot,
) -> Result<Wires, AllocError>
    requires actor { actor < length net.now.actors }
    requires unit { IsSome (side_of (actor_of net.now actor)) }
    requires some_bits { 1 ≤ snapshot.now.width }
    requires few_bits { snapshot.now.width ≤ most_bits }
    ensures { IfOk result (λ wires. wires ≡ wires_of net.now actor ports.items snapshot.now) }
{
    let unit = net.actor(actor);
    let version = version_of(&net.parts().cables, snapshot.version, unit);
    let width = Width {
        bits: snapshot.width,
    };
    let entrances = list_entrances(alloc, net, actor)?;
    let exits = list_exits(alloc, net, actor)?;
    let device = device_of(unit);
    let spans = spans_of(exits.as_slice(), device);
    let early = early_of(entrances.as_slice());
    Ok(Wires {
        early,
        device,
        port: port_of(net, actor),
        entrances,
        exits,
        spans,
        ports,
        width,
        version,
        actions: 0,
    })
}
