// What is wrong with parts: the reasons that need no table.
ghost use Rattle.std.specs.Prelude.{◌≡◌, ℕ, ◌<◌, ◌≤◌, None, Some, ◌≢◌, OnOk, IfOk, IfErr, List};
ghost use Rattle.std.specs.Prelude.{[], length, bytes_eq};
ghost use Rattle.std.specs.List.{list_any, position};
ghost use Rattle.sl_parts.specs.Valid.{IsValid};
ghost use Rattle.sl_parts.specs.Ports.{ShowsPorts};
ghost use Rattle.sl_parts.specs.Fault.{fault_of, is_port, no_device, too_many_devices};
ghost use Rattle.sl_parts.specs.Fault.{wrong_ports, stray_cable, stray_host, too_many_hosts};
ghost use Rattle.sl_parts.specs.Fault.{is_stray_cable, is_stray_host, has_wrong_ports};
ghost use Rattle.sl_parts.specs.Fault.{first_clash, device_namesake, host_namesake};

use crate::fault::{NetFault, Place};
use crate::parts::{CablePart, DevicePart, HostPart, Parts, PortRef};
use crate::ports::{PortTable, join_cables, seat_hosts};
use crate::text::Name;
use std::alloc::Global;

/// Whether the device is there and has this port.
pub fn is_port(parts: &Parts, port: PortRef) -> bool
    ensures { result ≡ is_port parts.now port }
{
    match parts.devices.get(port.device as usize) {
        Some(device) => port.port < device.ports,
        None => false,
    }
}

fn has_wrong_ports(device: &DevicePart) -> bool
    ensures { result ≡ has_wrong_ports device.now }
{
    device.ports == 0 || device.ports > 8
}

fn is_stray_cable(parts: &Parts, cable: &CablePart) -> bool
    ensures { result ≡ is_stray_cable parts.now cable.now }
{
    !is_port(parts, cable.a) || !is_port(parts, cable.b)
}

fn is_stray_host(parts: &Parts, host: &HostPart) -> bool
    ensures { result ≡ is_stray_host parts.now host.now }
{
    !is_port(parts, host.at)
}

fn first_wrong_device(parts: &Parts) -> Option<usize>
    ensures { result ≡ position has_wrong_ports parts.now.devices }
{
    let mut devices = parts.devices.iter();
    devices.position(|device| has_wrong_ports(device))
}

fn first_stray_cable(parts: &Parts) -> Option<usize>
    ensures { result ≡ position (is_stray_cable parts.now) parts.now.cables }
{
    let mut cables = parts.cables.iter();
    cables.position(|cable| is_stray_cable(parts, cable))
}

fn first_stray_host(parts: &Parts) -> Option<usize>
    ensures { result ≡ position (is_stray_host parts.now) parts.now.hosts }
{
    let mut hosts = parts.hosts.iter();
    hosts.position(|host| is_stray_host(parts, host))
}

fn no_device(parts: &Parts) -> Option<NetFault>
    ensures { result ≡ no_device parts.now }
{
    parts.devices.is_empty().then_some(NetFault::N1)
}

fn too_many_devices(parts: &Parts) -> Option<NetFault>
    ensures { result ≡ too_many_devices parts.now }
{
    let count = parts.devices.len();
    (count > 64).then_some(NetFault::N2(count as u64))
}

fn too_many_hosts(parts: &Parts) -> Option<NetFault>
    ensures { result ≡ too_many_hosts parts.now }
{
    let count = parts.hosts.len();
    (count > 128).then_some(NetFault::N6(count as u64))
}

fn wrong_ports(parts: &Parts) -> Option<NetFault>
    ensures { result ≡ wrong_ports parts.now }
{
    let found = first_wrong_device(parts);
    found.map(|i| NetFault::N3(i as u64))
}

fn stray_cable(parts: &Parts) -> Option<NetFault>
    ensures { result ≡ stray_cable parts.now }
{
    let found = first_stray_cable(parts);
    found.map(|i| NetFault::N4(Place::Cable(i as u64)))
}

fn stray_host(parts: &Parts) -> Option<NetFault>
    ensures { result ≡ stray_host parts.now }
{
    let found = first_stray_host(parts);
    found.map(|i| NetFault::N4(Place::Host(i as u64)))
}

/// Whether two names are one.
pub fn same_name(a: &Name, b: &Name) -> bool
    ensures { result ≡ bytes_eq a.now b.now }
{
    a.items.as_slice() == b.items.as_slice()
}

/// A part with a name.
trait Named {
    ghost name_of: { Self → List ℕ };

    fn name(&self) -> &Name
        ensures { result.now ≡ name_of self.now };
}

impl Named for DevicePart {
    ghost name_of = { λ device. device.name };

    fn name(&self) -> &Name {
        &self.name
    }
}

impl Named for HostPart {
    ghost name_of = { λ host. host.name };

    fn name(&self) -> &Name {
        &self.name
    }
}

/// Whether an earlier part has the name of this one.
fn is_named<P: Named>(earlier: &[P], part: &P) -> bool
    ensures { result ≡ list_any (λ e. bytes_eq (P.name_of e) (P.name_of part.now)) earlier.now }
{
    earlier
        .iter()
        .any(|other| same_name(other.name(), part.name()))
}

/// The first part with the name of an earlier one.
fn first_namesake<P: Named>(parts: &[P]) -> Option<usize>
    ensures { result
        ≡ first_clash
        (λ earlier part. list_any (λ e. bytes_eq (P.name_of e) (P.name_of part)) earlier) []
        parts.now }
{
    for i in 0..parts.len() {
        if is_named(&parts[..i], &parts[i]) {
            return Some(i);
        }
    }
    None
}

fn device_namesake(parts: &Parts) -> Option<NetFault>
    ensures { result ≡ device_namesake parts.now }
{
    let found = first_namesake::<DevicePart>(&parts.devices);
    found.map(|i| NetFault::N8(Place::Device(i as u64)))
}

fn host_namesake(parts: &Parts) -> Option<NetFault>
    ensures { result ≡ host_namesake parts.now }
{
    let found = first_namesake::<HostPart>(&parts.hosts);
    found.map(|i| NetFault::N8(Place::Host(i as u64)))
}

/// Refused where there is a fault.
fn refuse(fault: Option<NetFault>) -> Result<(), NetFault>
    ensures ok { OnOk result (fault ≡ None) }
    ensures err { IfErr result (λ e. fault ≡ Some e) }
{
    match fault {
        None => Ok(()),
        Some(fault) => Err(fault),
    }
}

#[tactic(auto, using(crate::proofs::Checked::valid_from))]
fn check_ranges(parts: &Parts) -> Result<(), NetFault>
    ensures valid { OnOk result (IsValid parts.now) }
    ensures some { OnOk result (no_device parts.now ≡ None) }
    ensures few { OnOk result (too_many_devices parts.now ≡ None) }
    ensures ports { OnOk result (wrong_ports parts.now ≡ None) }
    ensures cables { OnOk result (stray_cable parts.now ≡ None) }
    ensures hosts { OnOk result (stray_host parts.now ≡ None) }
    ensures err { IfErr result (λ e. fault_of parts.now ≡ Some e) }
{
    refuse(no_device(parts))?;
    refuse(too_many_devices(parts))?;
    refuse(wrong_ports(parts))?;
    refuse(stray_cable(parts))?;
    refuse(stray_host(parts))
}

/// What each port leads to, or the first reason why the parts are no net.
pub fn check(alloc: Global, parts: &Parts) -> Result<PortTable, NetFault>
    ensures ok { OnOk result (fault_of parts.now ≡ None) }
    ensures valid { OnOk result (IsValid parts.now) }
    ensures few { OnOk result (length parts.now.hosts ≤ 128) }
    ensures shown { IfOk result (λ table. ShowsPorts parts.now table) }
    ensures err { IfErr result (λ e. e ≢ NetFault.Memory → fault_of parts.now ≡ Some e) }
{
    check_ranges(parts)?;
    let ends = join_cables(alloc, parts.devices.len(), parts.cables.as_slice())?;
    refuse(too_many_hosts(parts))?;
    let guests = seat_hosts(alloc, parts, ends.as_slice())?;
    refuse(device_namesake(parts))?;
    refuse(host_namesake(parts))?;
    Ok(PortTable { ends, guests })
}
