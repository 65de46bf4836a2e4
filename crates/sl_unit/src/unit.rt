// Trusted types: for nodes Unit.
// Units as machines.
ghost use Rattle.std.specs.Prelude.{◌≡◌, ◌<◌, ℕ, Some, None, IfOk, length, slice_index};
ghost use Rattle.sl_unit.specs.Room.{HasRoom};

use crate::make::{device_of, list_ports, make_wires};
use crate::registers::Registers;
use crate::room::make_dumps;
use crate::step::{take_cable, take_crossbar, take_host, take_init, take_polled};
use crate::wires::{Entrance, Wires};
use sl_ids::Width;
use sl_machine::{Machine, Memory, Outputs};
use sl_net::{Net, Side, Snapshot};
use sl_route::Routes;
use sl_wire::{Boxed, Dump, Msg};
use std::alloc::Global;

/// A processing unit. An ingress unit handles what comes in from the cable or the host of its
/// port, an egress unit what goes out to it.
#[derive(Drop)]
pub struct Unit {
    dumps: Vec<Boxed<Dump>>,
    // one that was read, for the next that is made
    spare: Option<Boxed<Dump>>,
    wires: Wires,
    prepared: Option<u32>,
    registers: Registers,
    ghost ready: { (c : ℕ) → prepared ≡ Some c → HasRoom wires registers dumps.items c },
}

/// What a unit counted, as far as 64 bits go.
#[derive(Clone, Copy, Debug, PartialEq, Eq)]
pub struct UnitCounts {
    /// The data packets that it took.
    pub packets: u64,
    /// The bytes of these.
    pub bytes: u64,
    /// The frames of its host dropped that were no plain frames.
    pub bad: u64,
    /// The packets dropped that had no hop left.
    pub expired: u64,
    /// The packets dropped that had no route.
    pub noroute: u64,
}

impl Unit {
    ghost use Rattle.sl_layout.specs.Net.{units};
    ghost use Rattle.sl_route.specs.Routes.{IsRoutesOf};
    ghost use Rattle.sl_unit.specs.Registers.{dump_of};
    ghost use Rattle.sl_unit.specs.Made.{IsRanged, side_of, unit_at, first_state, ingress_state};
    ghost use Rattle.sl_unit.specs.Made.{egress_state};
    ghost use Rattle.sl_unit.specs.Units.{unit_state, unit_ready, shown_counts};

    /// A new unit with these links.
    fn make(alloc: Global, wires: Wires, snapshot: &Snapshot) -> Result<Unit, Memory>
        requires { IsRanged snapshot.now }
        ensures state { IfOk result (λ unit. unit_state unit ≡ first_state wires snapshot.now) }
        ensures ready { IfOk result (λ unit. unit_ready unit ≡ None) }
    {
        let registers = Registers::new(alloc, snapshot.window, snapshot.ring, snapshot.credits)?;
        Ok(Unit {
            prepared: None,
            dumps: Vec::new(alloc),
            spare: None,
            wires,
            registers,
        })
    }

    /// A new ingress unit: that at a place among the units of a net, with the net's routes.
    pub fn ingress(
        alloc: Global,
        net: &Net,
        routes: &Routes,
        unit: u32,
        snapshot: &Snapshot,
    ) -> Result<Unit, Memory>
        requires unit { unit < length (units net.now) }
        requires side { side_of (unit_at net.now unit) ≡ Some Side.Ingress }
        requires routes { IsRoutesOf net.now routes.now }
        requires snapshot { IsRanged snapshot.now }
        ensures state { IfOk result
            (λ made. unit_state made ≡ ingress_state net.now
            (slice_index (units net.now) unit) snapshot.now) }
        ensures ready { IfOk result (λ made. unit_ready made ≡ None) }
    {
        let actor = net.unit_actor(unit);
        let device = device_of(net.actor(actor));
        let ports = list_ports(alloc, net, routes, device)?;
        let wires = make_wires(alloc, net, actor, ports, snapshot)?;
        Unit::make(alloc, wires, snapshot)
    }

    /// A new egress unit: that at a place among the units of a net.
    pub fn egress(alloc: Global, net: &Net, unit: u32, snapshot: &Snapshot) -> Result<Unit, Memory>
        requires unit { unit < length (units net.now) }
        requires side { side_of (unit_at net.now unit) ≡ Some Side.Egress }
        requires snapshot { IsRanged snapshot.now }
        ensures state { IfOk result
            (λ made. unit_state made ≡ egress_state net.now
            (slice_index (units net.now) unit) snapshot.now) }
        ensures ready { IfOk result (λ made. unit_ready made ≡ None) }
    {
        let actor = net.unit_actor(unit);
        let wires = make_wires(alloc, net, actor, Vec::new(alloc), snapshot)?;
        Unit::make(alloc, wires, snapshot)
    }

    /// What the unit counted so far.
    pub fn counts(&self) -> UnitCounts
        ensures { result ≡ shown_counts (unit_state self.now).registers }
    {
        let registers = &self.registers;
        UnitCounts {
            packets: registers.packets,
            bytes: registers.bytes,
            bad: registers.bad,
            expired: registers.expired,
            noroute: registers.noroute,
        }
    }

    /// All registers.
    pub fn dump(&self) -> Result<Dump, Memory>
        ensures { IfOk result (λ dump. dump ≡ dump_of (unit_state self.now).registers) }
    {
        self.registers.dump()
    }
}

impl Machine for Unit {
    ghost use Rattle.sl_unit.specs.Step.{UnitState, unit_rules};
    ghost use Rattle.sl_unit.specs.Units.{unit_state, unit_counts, unit_ready};

    type Msg = Msg;

    ghost State = { UnitState };

    ghost state = { unit_state };

    ghost rules = { unit_rules };

    ghost counts = { unit_counts };

    ghost ready_for = { unit_ready };

    fn ready(&mut self, choice: u32) -> Result<(), Memory> {
        self.prepared = None;
        self.registers.ready()?;
        if let Entrance::Poll = self.wires.entrance(choice) {
            make_dumps(
                &self.wires,
                &mut self.registers,
                &mut self.dumps,
                &mut self.spare,
            )?;
        }
        self.prepared = Some(choice);
        Ok(())
    }

    fn take(&mut self, link: u32, m: Msg, out: &mut Outputs<Msg>) {
        self.prepared = None;
        let wires = &self.wires;
        let registers = &mut self.registers;
        match wires.entrance(link) {
            Entrance::Host => take_host(wires, registers, &m, out),
            Entrance::Cable(place) => take_cable(wires, registers, u32::from(place), &m, out),
            Entrance::Crossbar { channel, own } => {
                take_crossbar(wires, registers, u32::from(channel), own, &m, out);
            }
            Entrance::Init => take_init(wires, registers, &m, out),
            Entrance::Poll => {
                take_polled(wires, registers, &mut self.dumps, &mut self.spare, m, out);
            }
            Entrance::Other => {}
        }
    }

    fn act(&mut self, _action: u32, _out: &mut Outputs<Msg>) -> bool {
        self.prepared = None;
        false
    }
}
