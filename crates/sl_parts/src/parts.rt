// Trusted types: PortRef, DevicePart, CablePart, HostPart.
// The parts that a net is built from.
use crate::text::Name;
use std::marker::Model;

/// A port of a device. `device` is the device's place, from 0.
#[derive(Clone, Copy, Debug, PartialEq, Eq)]
pub struct PortRef {
    pub device: u32,
    pub port: u32,
}

/// A device: its name and how many ports it has.
#[derive(Debug, Drop)]
pub struct DevicePart {
    pub name: Name,
    pub ports: u32,
}

/// A cable between two ports. The frames of data packets and probes on it are of `version`, 1 or 2.
#[derive(Clone, Copy, Debug, PartialEq, Eq)]
pub struct CablePart {
    pub a: PortRef,
    pub b: PortRef,
    pub version: u8,
}

/// A host: its name and the port that it stands at.
#[derive(Debug, Drop)]
pub struct HostPart {
    pub name: Name,
    pub at: PortRef,
}

/// The devices, cables and hosts of a net, in input order.
#[derive(Debug, Drop)]
pub struct Parts {
    pub devices: Vec<DevicePart>,
    pub cables: Vec<CablePart>,
    pub hosts: Vec<HostPart>,
}

impl Model for Parts {
    ghost use Rattle.sl_parts.specs.Parts.{Parts};

    ghost Value = { Parts };

    ghost view = { λ p.
        record { devices = p.devices.items; cables = p.cables.items; hosts = p.hosts.items } };
}
