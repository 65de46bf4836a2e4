// Parts that are a net's, with tables to look things up.
ghost use Rattle.std.specs.Prelude.{◌≡◌, ◌≢◌, ◌<◌, ◌≤◌, ◌||◌, None, Some, OnOk, IfOk, IfErr};
ghost use Rattle.std.specs.Prelude.{IfSome, length, map, is_some, slice_index_or};
ghost use Rattle.std.specs.List.{All};
ghost use Rattle.sl_parts.specs.Parts.{below, is_used, ports_of, used_ports, other_end, host_at};
ghost use Rattle.sl_parts.specs.Fault.{fault_of};
ghost use Rattle.sl_parts.specs.Valid.{IsValid};
ghost use Rattle.sl_parts.specs.Ports.{slot_of, IsNear, ShowsPorts};

use sl_parts::{NetFault, Numbers, Parts, PortRef, PortTable, check, push_if, row, slot_of};
use std::alloc::{AllocError, Global};
use std::marker::Model;

/// Parts that are a net's, with what each port leads to and the used ports of each device.
#[derive(Drop)]
pub struct Layout {
    parts: Parts,
    table: PortTable,
    used: Vec<Numbers>,
}

impl Model for Layout {
    ghost use Rattle.sl_parts.specs.Parts.{Parts};

    ghost Value = { Parts };

    ghost use Rattle.sl_layout.specs.Layout.{IsLaidOut};

    ghost view = { λ l. l.parts };

    ghost invariant = { λ l. IsLaidOut l.parts l.table l.used.items };
}

fn is_used(table: &PortTable, port: PortRef) -> bool
    requires device { port.device < 64 }
    requires port { port.port < 8 }
    requires ends { slot_of port < length table.now.ends }
    requires guests { slot_of port < length table.now.guests }
    ensures { result
        ≡ (is_some (slice_index_or table.now.ends (slot_of port) None)
        || is_some (slice_index_or table.now.guests (slot_of port) None)) }
{
    let slot = slot_of(port);
    table.ends[slot].is_some() || table.guests[slot].is_some()
}

fn ports_of(parts: &Parts, device: u32) -> u32
    requires { device < length parts.now.devices }
    ensures { result ≡ ports_of parts.now device }
{
    parts.devices[device as usize].ports
}

fn device_ports(
    alloc: Global,
    parts: &Parts,
    table: &PortTable,
    device: u32,
) -> Result<Numbers, AllocError>
    requires device { device < length parts.now.devices }
    requires valid { IsValid parts.now }
    requires shown { ShowsPorts parts.now table.now }
    ensures { IfOk result (λ ports. ports ≡ used_ports parts.now device) }
{
    let mut items = Vec::new(alloc);
    for port in 0..ports_of(parts, device) {
        push_if(&mut items, is_used(table, PortRef { device, port }), port)?;
    }
    Ok(Numbers { items })
}

/// The used ports of each device.
fn all_ports(alloc: Global, parts: &Parts, table: &PortTable) -> Result<Vec<Numbers>, AllocError>
    requires valid { IsValid parts.now }
    requires shown { ShowsPorts parts.now table.now }
    ensures { IfOk result
        (λ used. used.items ≡ map (used_ports parts.now) (below (length parts.now.devices))) }
{
    let mut used = Vec::new(alloc);
    for device in 0..parts.devices.len() as u32 {
        used.push(device_ports(alloc, parts, table, device)?)?;
    }
    Ok(used)
}

impl Layout {
    /// The parts laid out, or the first reason why they are no net.
    pub fn new(alloc: Global, parts: Parts) -> Result<Layout, NetFault>
        ensures parts { IfOk result (λ layout. layout ≡ parts) }
        ensures ok { OnOk result (fault_of parts ≡ None) }
        ensures err { IfErr result (λ e. e ≢ NetFault.Memory → fault_of parts ≡ Some e) }
    {
        let table = check(alloc, &parts)?;
        let used = all_ports(alloc, &parts, &table)?;
        Ok(Layout { parts, table, used })
    }

    /// The parts as they were given.
    pub fn parts(&self) -> &Parts
        ensures now { result.now ≡ self.now }
        ensures right { fault_of self.now ≡ None }
        ensures valid { IsValid self.now }
        ensures few_hosts { length self.now.hosts ≤ 128 }
    {
        &self.parts
    }

    /// The used ports of a device, ascending.
    pub fn used_ports(&self, device: u32) -> &[u32]
        requires { device < length self.now.devices }
        ensures ports { result.now ≡ used_ports self.now device }
        ensures small { All (λ p. p < 8) result.now }
    {
        row(self.used.as_slice(), device as usize)
    }

    /// The other end of the cable at this port.
    pub fn other_end(&self, port: PortRef) -> Option<PortRef>
        requires { IsNear (length self.now.devices) port }
        ensures end { result ≡ other_end self.now.cables port }
        ensures near { IfSome result (IsNear (length self.now.devices)) }
    {
        self.table.ends[slot_of(port)]
    }

    /// The place of the host at this port.
    pub fn host_at(&self, port: PortRef) -> Option<u32>
        requires { IsNear (length self.now.devices) port }
        ensures host { result ≡ host_at self.now port }
        ensures few { IfSome result (λ h. h < 128) }
    {
        self.table.guests[slot_of(port)]
    }
}
