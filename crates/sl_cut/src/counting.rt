// What a unit counts, and what it drops.
ghost use Rattle.std.specs.Prelude.{◌≡◌, ◌*◌, ◌≤◌, ◌<◌, ◌^◌, length, reverse, unwrap_or};
ghost use Rattle.std.specs.Prelude.{option_map};
ghost use Rattle.sl_layout.specs.Net.{Net};
ghost use Rattle.sl_route.specs.Routes.{IsRoutesOf};
ghost use Rattle.sl_model.specs.Counting.{counted, packets, bytes, is_bad};
ghost use Rattle.sl_model.specs.Counting.{is_expired, is_noroute, bad, expired, noroute};

use sl_input::packet_of;
use sl_model::{Message, Step};
use sl_net::Packet;
use sl_route::Routes;

/// The data packet that a step counts, if there is one.
fn counted(step: &Step) -> Option<Packet>
    ensures { result ≡ counted step.now }
{
    match &step.taken {
        Some(Message::Host(bytes)) => packet_of(bytes),
        Some(Message::Data(_, packet)) => Some(*packet),
        _ => None,
    }
}

/// How many data packets a unit took.
pub fn packets(steps: &[Step]) -> u64
    ensures value { result ≡ packets (reverse steps.now) }
    ensures bound { result ≤ length steps.now }
{
    let mut packets = 0;
    for step in steps {
        if counted(step).is_some() {
            packets += 1;
        }
    }
    packets
}

fn len_counted(step: &Step) -> u64
    ensures value { result ≡ unwrap_or (option_map (λ p. p.len) (counted step.now)) 0 }
    ensures bound { result ≤ 65535 }
{
    match counted(step) {
        Some(packet) => packet.len as u64,
        None => 0,
    }
}

/// The bytes of the data packets that a unit took.
pub fn bytes(steps: &[Step]) -> u64
    requires { length steps.now < 2 ^ 40 }
    ensures { result ≡ bytes (reverse steps.now) }
{
    let mut bytes = 0;
    for step in steps {
        bytes += len_counted(step);
    }
    bytes
}

fn is_bad(step: &Step) -> bool
    ensures { result ≡ is_bad step.now.taken }
{
    match &step.taken {
        Some(Message::Host(bytes)) => packet_of(bytes).is_none(),
        _ => false,
    }
}

fn is_expired(packet: Option<Packet>) -> bool
    ensures { result ≡ is_expired packet }
{
    match packet {
        Some(packet) => packet.hops == 0,
        None => false,
    }
}

/// The routes are those of a net, and the device is one of its devices.
fn is_noroute(routes: &Routes, device: u32, packet: Option<Packet>) -> bool
    ensures { (net : Net) → IsRoutesOf net routes.now → device < length net.parts.devices
        → result ≡ is_noroute net.parts device packet }
{
    match packet {
        Some(packet) => packet.hops != 0 && routes.next_port(device, packet.dst as u32).is_none(),
        None => false,
    }
}

/// How many frames from its host an ingress unit dropped for their form.
pub fn bad(steps: &[Step]) -> u64
    ensures value { result ≡ bad (reverse steps.now) }
    ensures bound { result ≤ length steps.now }
{
    let mut bad = 0;
    for step in steps {
        if is_bad(step) {
            bad += 1;
        }
    }
    bad
}

/// How many packets an ingress unit dropped for their hop limit.
pub fn expired(steps: &[Step]) -> u64
    ensures value { result ≡ expired (reverse steps.now) }
    ensures bound { result ≤ length steps.now }
{
    let mut expired = 0;
    for step in steps {
        if is_expired(counted(step)) {
            expired += 1;
        }
    }
    expired
}

/// How many packets an ingress unit of a device dropped for want of a route. The routes are those
/// of a net, and the device is one of its devices.
pub fn noroute(routes: &Routes, device: u32, steps: &[Step]) -> u64
    ensures value { (net : Net) → IsRoutesOf net routes.now → device < length net.parts.devices
        → result ≡ noroute net.parts device (reverse steps.now) }
    ensures bound { result ≤ length steps.now }
{
    let mut noroute = 0;
    for step in steps {
        if is_noroute(routes, device, counted(step)) {
            noroute += 1;
        }
    }
    noroute
}
