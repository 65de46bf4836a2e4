// Trusted types: Place, NetFault.
// Why parts are refused as a net.
ghost use Rattle.std.specs.Prelude.{◌≡◌};
ghost use Rattle.sl_parts.specs.declared.fault.NetFault.TheVariants.{Memory};

use std::alloc::{AllocError, AllocFailed};

/// A part of a net, by its place in the input, from 0.
#[derive(Clone, Copy, Debug, PartialEq, Eq)]
pub enum Place {
    Device(u64),
    Cable(u64),
    Host(u64),
}

/// What is wrong with parts: the first of these that applies. Devices, cables and hosts are named
/// by their places, from 0.
#[derive(Clone, Copy, Debug, PartialEq, Eq)]
pub enum NetFault {
    /// There is no device.
    N1,
    /// There are more than 64 devices; their number.
    N2(u64),
    /// The first device with no port or more than 8.
    N3(u64),
    /// The first cable, or else the first host, that names a device that isn't there or a port
    /// that its device doesn't have.
    N4(Place),
    /// The first cable with an end at a port of an earlier cable end.
    N5(u64),
    /// There are more than 128 hosts; their number.
    N6(u64),
    /// The first host at a port that a cable or an earlier host uses.
    N7(u64),
    /// The first device, or else the first host, with the name of an earlier one.
    N8(Place),
    /// Want of memory.
    Memory,
}

impl From<AllocError> for NetFault {
    ghost from_gives = { λ _ e. e ≡ Memory };

    fn from(_: AllocError) -> NetFault {
        NetFault::Memory
    }
}

impl<T: Drop> From<AllocFailed<T>> for NetFault {
    ghost from_gives = { λ _ e. e ≡ Memory };

    fn from(_: AllocFailed<T>) -> NetFault {
        NetFault::Memory
    }
}
