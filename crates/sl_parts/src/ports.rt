// What each port leads to: the other end of its cable, or a host.
ghost use Rattle.std.specs.Prelude.{◌≡◌, ◌≢◌, ◌+◌, ◌*◌, ◌<◌, ◌≤◌, ◌&&◌, None, Some, OnOk, IfOk};
ghost use Rattle.std.specs.Prelude.{IfErr, [], length, slice_index_or, slice_set, is_none};
ghost use Rattle.std.specs.Prelude.{option_map};
ghost use Rattle.std.specs.List.{All};
ghost use Rattle.sl_parts.specs.Fault.{first_clash, reuses_port, used_host_port};
ghost use Rattle.sl_parts.specs.Valid.{IsValid};
ghost use Rattle.sl_parts.specs.Ports.{slot_of, HasEnds, HasGuests, with_cable, IsNear};

use crate::fault::NetFault;
use crate::parts::{CablePart, Parts, PortRef};
use crate::table::filled;
use std::alloc::{AllocError, Global};
use std::marker::Model;

/// Tables by ports, with eight places for each device: what the cable at each port leads to, and
/// which host stands there.
#[derive(Drop)]
pub struct PortTable {
    pub ends: Vec<Option<PortRef>>,
    pub guests: Vec<Option<u32>>,
}

impl Model for PortTable {
    ghost use Rattle.sl_parts.specs.Ports.{PortLists};

    ghost Value = { PortLists };

    ghost view = { λ t. record { ends = t.ends.items; guests = t.guests.items } };
}

/// The place of a port in a table by ports.
pub fn slot_of(port: PortRef) -> usize
    requires device { port.device < 64 }
    requires port { port.port < 8 }
    ensures { result ≡ slot_of port }
{
    8 * port.device as usize + port.port as usize
}

fn no_ends(alloc: Global, devices: usize) -> Result<Vec<Option<PortRef>>, AllocError>
    requires { devices ≤ 64 }
    ensures { IfOk result (λ ends. HasEnds devices [] ends.items) }
{
    filled(alloc, None, 8 * devices)
}

fn no_guests(alloc: Global, devices: usize) -> Result<Vec<Option<u32>>, AllocError>
    requires { devices ≤ 64 }
    ensures { IfOk result (λ guests. HasGuests devices [] guests.items) }
{
    filled(alloc, None, 8 * devices)
}

/// Notes what a port's cable leads to, and answers whether the port was free.
fn join(ends: &mut Vec<Option<PortRef>>, from: PortRef, to: PortRef) -> bool
    requires device { from.device < 64 }
    requires port { from.port < 8 }
    requires within { slot_of from < length ends.old.items }
    ensures free { result ≡ is_none (slice_index_or ends.old.items (slot_of from) None) }
    ensures joined { ends.new.items ≡ slice_set ends.old.items (slot_of from) (Some to) }
{
    let slot = slot_of(from);
    let free = ends[slot].is_none();
    ends[slot] = Some(to);
    free
}

/// Joins a cable's ends to each other, and answers whether both ports were free.
fn add_cable(ends: &mut Vec<Option<PortRef>>, cable: CablePart) -> bool
    requires device_a { cable.a.device < 64 }
    requires port_a { cable.a.port < 8 }
    requires within_a { slot_of cable.a < length ends.old.items }
    requires device_b { cable.b.device < 64 }
    requires port_b { cable.b.port < 8 }
    requires within_b { slot_of cable.b < length ends.old.items }
    ensures free { result
        ≡ (is_none (slice_index_or ends.old.items (slot_of cable.a) None)
        && is_none (slice_index_or (slice_set ends.old.items (slot_of cable.a) (Some cable.b))
        (slot_of cable.b) None)) }
    ensures joined { ends.new.items ≡ with_cable ends.old.items cable }
{
    let free_a = join(ends, cable.a, cable.b);
    let free_b = join(ends, cable.b, cable.a);
    free_a && free_b
}

/// What the cable at each port leads to, or the first cable that ends at a port of an earlier
/// cable end.
pub fn join_cables(
    alloc: Global,
    devices: usize,
    cables: &[CablePart],
) -> Result<Vec<Option<PortRef>>, NetFault>
    requires few { devices ≤ 64 }
    requires near { All (λ c. IsNear devices c.a × IsNear devices c.b) cables.now }
    ensures ok { OnOk result (first_clash reuses_port [] cables.now ≡ None) }
    ensures ends { IfOk result (λ ends. HasEnds devices cables.now ends.items) }
    ensures err { IfErr result
        (λ e. e ≢ NetFault.Memory → option_map NetFault.N5 (first_clash reuses_port [] cables.now)
        ≡ Some e) }
{
    let mut ends = no_ends(alloc, devices)?;
    for i in 0..cables.len() {
        if !add_cable(&mut ends, cables[i]) {
            return Err(NetFault::N5(i as u64));
        }
    }
    Ok(ends)
}

/// Notes the host at its port, and answers whether the port was free.
fn add_host(guests: &mut Vec<Option<u32>>, ends: &[Option<PortRef>], at: PortRef, host: u32) -> bool
    requires device { at.device < 64 }
    requires port { at.port < 8 }
    requires within { slot_of at < length guests.old.items }
    requires within_ends { slot_of at < length ends.now }
    ensures free { result
        ≡ (is_none (slice_index_or ends.now (slot_of at) None)
        && is_none (slice_index_or guests.old.items (slot_of at) None)) }
    ensures seated { guests.new.items ≡ slice_set guests.old.items (slot_of at) (Some host) }
{
    let slot = slot_of(at);
    let free = ends[slot].is_none() && guests[slot].is_none();
    guests[slot] = Some(host);
    free
}

/// Which host stands at each port, or the first host at a port that is used.
pub fn seat_hosts(
    alloc: Global,
    parts: &Parts,
    ends: &[Option<PortRef>],
) -> Result<Vec<Option<u32>>, NetFault>
    requires valid { IsValid parts.now }
    requires few { length parts.now.hosts ≤ 128 }
    requires ends { HasEnds (length parts.now.devices) parts.now.cables ends.now }
    ensures ok { OnOk result (used_host_port parts.now ≡ None) }
    ensures guests { IfOk result
        (λ guests. HasGuests (length parts.now.devices) parts.now.hosts guests.items) }
    ensures err { IfErr result (λ e. e ≢ NetFault.Memory → used_host_port parts.now ≡ Some e) }
{
    let mut guests = no_guests(alloc, parts.devices.len())?;
    for i in 0..parts.hosts.len() {
        if !add_host(&mut guests, ends, parts.hosts[i].at, i as u32) {
            return Err(NetFault::N7(i as u64));
        }
    }
    Ok(guests)
}
