// The nets of the tests: one device with a host at each port.
ghost use Rattle.std.specs.Prelude.{◌≡◌};

use sl_net::{DevicePart, HostPart, Name, Net, Parts, PortRef};
use std::alloc::Global;
use std::test::Fail;

fn name(alloc: Global, text: &str) -> Result<Name, Fail> {
    Ok(
        Name::new(alloc, text)
            .map_err(|_| "no memory")?
            .ok_or("no name")?,
    )
}

/// The host at a port.
fn host(alloc: Global, port: u32) -> Result<HostPart, Fail> {
    Ok(HostPart {
        name: name(alloc, if port == 0 { "h0" } else { "h1" })?,
        at: PortRef { device: 0, port },
    })
}

fn hosts(alloc: Global, ports: u32) -> Result<Vec<HostPart>, Fail> {
    let mut hosts = Vec::new(alloc);
    for port in 0..ports {
        hosts.push(host(alloc, port)?)?;
    }
    Ok(hosts)
}

fn devices(alloc: Global, ports: u32) -> Result<Vec<DevicePart>, Fail> {
    let device = DevicePart {
        name: name(alloc, "a")?,
        ports,
    };
    Ok(vec![in alloc; device]?)
}

/// A device with one port or two.
pub fn net(alloc: Global, ports: u32) -> Result<Net, Fail> {
    let devices = devices(alloc, ports)?;
    let parts = Parts {
        devices,
        cables: Vec::new(alloc),
        hosts: hosts(alloc, ports)?,
    };
    match Net::build(alloc, parts) {
        Ok(net) => Ok(net),
        Err(_) => Err("refused".into()),
    }
}

/// Lets a net go. A net is large, so this is proved here and not in each test.
pub fn let_go(_net: Net) {}

/// Gives a value back that may go to another thread.
pub fn sent<T: Send>(value: T) -> T
    ensures { result ≡ value }
{
    value
}
