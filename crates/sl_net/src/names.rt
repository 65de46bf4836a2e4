// The law of names. The function calls on what a name is: its contract is the law.
ghost use Rattle.std.specs.List.{All};
ghost use Rattle.sl_parts.specs.Text.{IsName};
ghost use Rattle.sl_net.specs.Names.{HasNames};

use crate::net::Net;
use sl_parts::{DevicePart, HostPart};

fn device_names(devices: &[DevicePart])
    ensures { All (λ d. IsName d.name) devices.now }
{
    for device in devices {
        device.name.as_str();
    }
}

fn host_names(hosts: &[HostPart])
    ensures { All (λ h. IsName h.name) hosts.now }
{
    for host in hosts {
        host.name.as_str();
    }
}

/// The devices and hosts of a net have names.
pub fn nets_have_names(net: &Net)
    ensures { HasNames net.now.parts }
{
    let parts = net.parts();
    device_names(parts.devices.as_slice());
    host_names(parts.hosts.as_slice());
}
