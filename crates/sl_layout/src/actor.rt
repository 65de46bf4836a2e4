// Trusted types: Side, UnitId, ActorId, Sort, LinkKind, LinkPart.
// Actors and links of a net.

/// A direction of a port. An ingress unit handles what comes in from the cable or the host, an
/// egress unit what goes out to it.
#[derive(Clone, Copy, Debug, PartialEq, Eq)]
pub enum Side {
    Ingress,
    Egress,
}

/// A processing unit: one direction of one port of one device (Yaseen, Sonchack, Liu 2018).
#[derive(Clone, Copy, Debug, PartialEq, Eq)]
pub struct UnitId {
    /// The device's place, from 0.
    pub device: u32,
    /// The port's number, from 0.
    pub port: u32,
    pub side: Side,
}

/// An actor: the observer, the control plane of a device, a unit, or a host. Devices and hosts
/// are named by their places, from 0.
#[derive(Clone, Copy, Debug, PartialEq, Eq)]
pub enum ActorId {
    Observer,
    Control(u32),
    Unit(UnitId),
    Host(u32),
}

/// What a link is between.
#[derive(Clone, Copy, Debug, PartialEq, Eq)]
pub enum Sort {
    /// From a host to its ingress unit.
    FromHost,
    /// From an egress unit to its host.
    ToHost,
    /// From an egress unit to the ingress unit at the other end of its cable.
    Cable,
    /// From an ingress unit to an egress unit of its device.
    Crossbar,
    /// Initiations, from a control plane to an ingress unit of its device.
    Init,
    /// Polls, from a control plane to a unit of its device.
    Poll,
    /// Notices, from a unit to its control plane.
    Notice,
    /// Register dumps, from a unit to its control plane.
    Dump,
    /// Begins, from the observer to a control plane.
    Begin,
    /// Reports, from a control plane to the observer.
    Done,
}

impl Sort {
    ghost use Rattle.std.specs.Prelude.{◌≡◌};
    ghost use Rattle.sl_layout.specs.Net.{sort_number, same_sort};

    fn number(self) -> u8
        ensures { result ≡ sort_number self }
    {
        match self {
            Sort::FromHost => 0,
            Sort::ToHost => 1,
            Sort::Cable => 2,
            Sort::Crossbar => 3,
            Sort::Init => 4,
            Sort::Poll => 5,
            Sort::Notice => 6,
            Sort::Dump => 7,
            Sort::Begin => 8,
            Sort::Done => 9,
        }
    }

    /// Whether two sorts are the same.
    pub fn is(self, other: Sort) -> bool
        ensures { result ≡ same_sort self other }
    {
        self.number() == other.number()
    }
}

/// The kind of a link for losses. A reliable link loses nothing.
#[derive(Clone, Copy, Debug, PartialEq, Eq)]
pub enum LinkKind {
    Cable,
    Crossbar,
    Init,
    Notice,
    Reliable,
}

impl LinkKind {
    ghost use Rattle.std.specs.Prelude.{◌≡◌};
    ghost use Rattle.sl_layout.specs.Wiring.{is_lossy};

    /// Whether messages on links of this kind may be lost.
    pub fn is_lossy(self) -> bool
        ensures { result ≡ is_lossy self }
    {
        match self {
            LinkKind::Reliable => false,
            _ => true,
        }
    }
}

/// A link by the numbers of the actors at its ends.
#[derive(Clone, Copy, Debug, PartialEq, Eq)]
pub struct LinkPart {
    pub from: u32,
    pub to: u32,
    pub sort: Sort,
}
