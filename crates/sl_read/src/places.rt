// Names of devices and hosts, looked up.
ghost use Rattle.std.specs.Prelude.{◌≡◌, ℕ, Ok, Err, List, Result, bytes_eq};
ghost use Rattle.std.specs.List.{position};
ghost use Rattle.sl_form.specs.declared.refusal.Refusal.{Refusal};
ghost use Rattle.sl_form.specs.Refusals.{Answers};
ghost use Rattle.sl_read.specs.Places.{device_place, host_place, known, port_place, cable_part};
ghost use Rattle.sl_read.specs.Places.{host_part, flow_part, raw_part, each, parts_of};

use crate::cable::CableRow;
use crate::flow::FlowRow;
use crate::host::HostRow;
use crate::raw::RawRow;
use sl_form::{Key, Path, PortText, ReadError, Refusal, TableName};
use sl_machine::Listed;
use sl_net::{Bytes, CablePart, DevicePart, Flow, HostPart, Name, Parts, PortRef, RawPart};
use std::alloc::Global;

/// A row that names devices or hosts.
pub trait Placed: Sized {
    /// What is named.
    type Named;

    /// What the row is, with the places of what it names.
    type Part: Drop;

    ghost part_of: { List Self.Named → ℕ → Self → Result Self.Part Refusal };

    /// Looks the names of the row up. It has this place in its list.
    fn place(
        &self,
        alloc: Global,
        named: &[Self::Named],
        index: u64,
    ) -> Result<Self::Part, ReadError>
        ensures { Answers result (part_of named.now index self.now) };
}

/// Each row, with the places of what it names.
pub fn place_each<R: Placed>(
    alloc: Global,
    named: &[R::Named],
    rows: &[R],
) -> Result<Listed<R::Part>, ReadError>
    ensures { Answers result (each (R.part_of named.now) 0 rows.now) }
{
    let mut found = Vec::new(alloc);
    for (index, row) in rows.iter().enumerate() {
        found.push(row.place(alloc, named, index as u64)?)?;
    }
    Ok(Listed { items: found })
}

fn same_name(a: &Name, b: &Name) -> bool
    ensures { result ≡ bytes_eq a.now b.now }
{
    a.items.as_slice() == b.items.as_slice()
}

fn device_place(devices: &[DevicePart], name: &Name) -> Option<usize>
    ensures { result ≡ device_place devices.now name.now }
{
    devices
        .iter()
        .position(|device| same_name(&device.name, name))
}

fn host_place(hosts: &[HostPart], name: &Name) -> Option<usize>
    ensures { result ≡ host_place hosts.now name.now }
{
    hosts.iter().position(|host| same_name(&host.name, name))
}

/// The place of a name that has to be there. So many devices or hosts that their places need more
/// than 32 bits have no room in memory.
fn known(path: Path, place: Option<usize>) -> Result<u32, ReadError>
    ensures { Answers result (known path place) }
{
    match place {
        Some(place) => match u32::try_from(place) {
            Ok(place) => Ok(place),
            Err(_) => Err(ReadError::Memory),
        },
        None => Err(ReadError::Refused(Refusal::Unknown(path))),
    }
}

fn port_place(devices: &[DevicePart], path: Path, port: &PortText) -> Result<PortRef, ReadError>
    ensures { Answers result (port_place devices.now path port.now) }
{
    let device = known(path, device_place(devices, &port.device))?;
    Ok(PortRef {
        device,
        port: port.port,
    })
}

fn cable_part(
    devices: &[DevicePart],
    version: u8,
    index: u64,
    cable: &CableRow,
) -> Result<CablePart, ReadError>
    ensures { Answers result (cable_part devices.now version index cable.now) }
{
    let at = TableName::Cable(index);
    let a = port_place(devices, Path::at(at, Key::A), &cable.a)?;
    let b = port_place(devices, Path::at(at, Key::B), &cable.b)?;
    let version = cable.version.unwrap_or(version);
    Ok(CablePart { a, b, version })
}

fn copy_name(alloc: Global, name: &Name) -> Result<Name, ReadError>
    ensures { Answers result (Ok name.now) }
{
    match Name::new(alloc, name.as_str())? {
        Some(copy) => Ok(copy),
        None => unreachable!(),
    }
}

impl Placed for HostRow {
    type Named = DevicePart;

    type Part = HostPart;

    ghost part_of = { host_part };

    fn place(
        &self,
        alloc: Global,
        named: &[DevicePart],
        index: u64,
    ) -> Result<HostPart, ReadError> {
        let path = Path::at(TableName::Host(index), Key::At);
        let at = port_place(named, path, &self.at)?;
        let name = copy_name(alloc, &self.name)?;
        Ok(HostPart { name, at })
    }
}

fn cable_parts(
    alloc: Global,
    devices: &[DevicePart],
    version: u8,
    cables: &[CableRow],
) -> Result<Listed<CablePart>, ReadError>
    ensures { Answers result (each (cable_part devices.now version) 0 cables.now) }
{
    let mut found = Vec::new(alloc);
    for (index, cable) in cables.iter().enumerate() {
        found.push(cable_part(devices, version, index as u64, cable)?)?;
    }
    Ok(Listed { items: found })
}

fn copy_device(alloc: Global, device: &DevicePart) -> Result<DevicePart, ReadError>
    ensures { Answers result (Ok device.now) }
{
    let name = copy_name(alloc, &device.name)?;
    Ok(DevicePart {
        name,
        ports: device.ports,
    })
}

fn copy_devices(alloc: Global, devices: &[DevicePart]) -> Result<Listed<DevicePart>, ReadError>
    ensures { Answers result (Ok devices.now) }
{
    let mut found = Vec::new(alloc);
    for device in devices {
        found.push(copy_device(alloc, device)?)?;
    }
    Ok(Listed { items: found })
}

/// The parts of the net, with ports by the places of their devices. A cable that gives no version
/// of its own has this one.
#[tactic(auto, unfolding(crate::specs::Places::parts_of))]
pub fn place_parts(
    alloc: Global,
    devices: &[DevicePart],
    version: u8,
    cables: &[CableRow],
    hosts: &[HostRow],
) -> Result<Parts, ReadError>
    ensures { Answers result (parts_of devices.now version cables.now hosts.now) }
{
    let cables = cable_parts(alloc, devices, version, cables)?;
    let hosts = place_each::<HostRow>(alloc, devices, hosts)?;
    let devices = copy_devices(alloc, devices)?;
    Ok(Parts {
        devices: devices.items,
        cables: cables.items,
        hosts: hosts.items,
    })
}

impl Placed for FlowRow {
    type Named = HostPart;

    type Part = Flow;

    ghost part_of = { flow_part };

    fn place(&self, _alloc: Global, named: &[HostPart], index: u64) -> Result<Flow, ReadError> {
        let at = TableName::Flow(index);
        let from = known(Path::at(at, Key::From), host_place(named, &self.from))?;
        let to = known(Path::at(at, Key::To), host_place(named, &self.to))?;
        Ok(Flow {
            from,
            to,
            count: self.count,
            bytes: self.bytes,
            hops: self.hops,
        })
    }
}

fn copy_bytes(alloc: Global, bytes: &Bytes) -> Result<Bytes, ReadError>
    ensures { Answers result (Ok bytes.now) }
{
    let items = Vec::from_slice(alloc, bytes.items.as_slice())?;
    Ok(Bytes { items })
}

impl Placed for RawRow {
    type Named = HostPart;

    type Part = RawPart;

    ghost part_of = { raw_part };

    fn place(&self, alloc: Global, named: &[HostPart], index: u64) -> Result<RawPart, ReadError> {
        let path = Path::at(TableName::Raw(index), Key::From);
        let from = known(path, host_place(named, &self.from))?;
        let bytes = copy_bytes(alloc, &self.bytes)?;
        Ok(RawPart { from, bytes })
    }
}
