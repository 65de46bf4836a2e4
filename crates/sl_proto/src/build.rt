// The nodes of an input, and the world of them.
ghost use Rattle.std.specs.Prelude.{◌≡◌, ◌<◌, ℕ, IfOk, None, Option, Some, length, map};
ghost use Rattle.std.specs.Prelude.{slice_index};
ghost use Rattle.std.specs.List.{All};
ghost use Rattle.sl_machine.specs.Fit.{HasCounts};
ghost use Rattle.sl_machine.specs.Machine.{Counts};
ghost use Rattle.sl_layout.specs.Net.{Net, units};
ghost use Rattle.sl_layout.specs.Wiring.{plan_of};
ghost use Rattle.sl_route.specs.Routes.{IsRoutesOf};
ghost use Rattle.sl_loss.specs.Loss.{IsFresh};
ghost use Rattle.sl_wire.specs.Sizes.{Sizes, sizes_of};
ghost use Rattle.sl_unit.specs.Made.{IsRanged, side_of, unit_at};
ghost use Rattle.sl_unit.specs.Units.{unit_state, unit_ready};
ghost use Rattle.sl_control.specs.Wires.{control_of, control_counts};
ghost use Rattle.sl_world.specs.Scene.{first_scene};
ghost use Rattle.sl_world.specs.World.{scene};
ghost use Rattle.sl_proto.specs.Nodes.{node_state_by, node_counts_by, node_ready_by};
ghost use Rattle.sl_proto.specs.Built.{IsBuildable, first_unit, first_at};
ghost use Rattle.sl_proto.specs.Built.{first_states, first_states_by, counts_at, IsFirstNode};

use crate::node::Node;
use sl_control::Control;
use sl_host::Host;
use sl_loss::Loss;
use sl_machine::Memory;
use sl_net::{ActorId, Input, Net, Side, Snapshot, nets_are_wired, nets_have_ways};
use sl_observe::Observer;
use sl_route::Routes;
use sl_unit::Unit;
use sl_world::World;
use std::alloc::Global;

/// A control plane that nodes can be made with.
pub trait ControlPlane: Drop {
    /// What it stands for.
    ghost State: { Type 0 };

    ghost state: { Self → State };

    /// How many incoming links, outgoing links and actions it has.
    ghost counts: { Self → Counts };

    /// The choice that it is ready for.
    ghost ready_for: { Self → Option ℕ };

    /// What it stands for before its first turn, by its number in a net.
    ghost first: { Net → ℕ → Sizes → State };

    /// The control plane of a device, by its place in the net.
    fn make(alloc: Global, net: &Net, device: u32, snapshot: &Snapshot) -> Result<Self, Memory>
        requires device { device < length net.now.parts.devices }
        requires snapshot { IsRanged snapshot.now }
        ensures state { IfOk result
            (λ c. state c ≡ first net.now (control_of net.now device) (sizes_of snapshot.now)) }
        ensures counts { IfOk result
            (λ c. counts c ≡ control_counts net.now (control_of net.now device)) }
        ensures ready { IfOk result (λ c. ready_for c ≡ None) };
}

impl ControlPlane for Control {
    ghost use Rattle.sl_control.specs.Control.{ControlState};
    ghost use Rattle.sl_control.specs.Wires.{first_control};

    ghost State = { ControlState };

    ghost state = { λ c. c.state };

    ghost counts = { λ c. c.counts };

    ghost ready_for = { λ c. c.ready };

    ghost first = { first_control };

    fn make(alloc: Global, net: &Net, device: u32, snapshot: &Snapshot) -> Result<Control, Memory> {
        Control::new(alloc, net, device, snapshot)
    }
}

/// The unit at a place among the units.
fn unit_at(
    alloc: Global,
    input: &Input,
    routes: &Routes,
    place: u32,
    side: Side,
) -> Result<Unit, Memory>
    requires place { place < length (units input.now.net) }
    requires side { side_of (unit_at input.now.net place) ≡ Some side }
    requires routes { IsRoutesOf input.now.net routes.now }
    requires input { IsBuildable input.now }
    ensures state { IfOk result
        (λ unit. unit_state unit ≡ first_unit input.now
        (slice_index (units input.now.net) place) side) }
    ensures ready { IfOk result (λ unit. unit_ready unit ≡ None) }
{
    match side {
        Side::Ingress => Unit::ingress(alloc, &input.net, routes, place, &input.snapshot),
        Side::Egress => Unit::egress(alloc, &input.net, place, &input.snapshot),
    }
}

/// The node of an actor. A net is that of its parts, so it is wired as such nets are.
#[tactic(auto, using(crate::proofs::Counts::observer_at, crate::proofs::Counts::place_is))]
fn make_node<C: ControlPlane>(
    alloc: Global,
    input: &Input,
    routes: &Routes,
    actor: u32,
) -> Result<Node<C>, Memory>
    requires below { actor < length input.now.net.actors }
    requires routes { IsRoutesOf input.now.net routes.now }
    requires input { IsBuildable input.now }
    ensures { IfOk result (IsFirstNode C.state C.counts C.ready_for
        (first_at C.first input.now actor) (counts_at input.now.net actor)) }
{
    let _parts = input.net.parts();
    nets_are_wired();
    nets_have_ways();
    match input.net.actor(actor) {
        ActorId::Observer => {
            let observer = Observer::new(alloc, &input.net, &input.snapshot)?;
            Ok(Node::Observer(observer))
        }
        ActorId::Control(device) => {
            let control = C::make(alloc, &input.net, device, &input.snapshot)?;
            Ok(Node::Control(control))
        }
        ActorId::Unit(unit) => {
            let place = input.net.unit_place(actor);
            let unit = unit_at(alloc, input, routes, place, unit.side)?;
            Ok(Node::Unit(unit))
        }
        ActorId::Host(host) => {
            let host = Host::new(alloc, host, input)?;
            Ok(Node::Host(host))
        }
    }
}

/// The nodes of an input before their first turn, one per actor in the order of its net's actors.
/// They fit the net's wiring, and none is ready for a turn.
pub fn build_nodes<C: ControlPlane>(alloc: Global, input: &Input) -> Result<Vec<Node<C>>, Memory>
    requires { IsBuildable input.now }
    ensures states { IfOk result
        (λ nodes. map (node_state_by C.state) nodes.items ≡ first_states_by C.first input.now) }
    ensures fit { IfOk result
        (λ nodes. HasCounts (node_counts_by C.counts) (plan_of input.now.net) nodes.items) }
    ensures ready { IfOk result
        (λ nodes. All (λ node. node_ready_by C.ready_for node ≡ None) nodes.items) }
{
    let routes = Routes::make(alloc, &input.net)?;
    let mut nodes = Vec::new(alloc);
    for actor in 0..input.net.actors().len() {
        let node = make_node(alloc, input, &routes, actor as u32)?;
        nodes.push(node)?;
    }
    Ok(nodes)
}

/// The world of an input's nodes, where nothing has happened yet. There is one place in the losses
/// for each link. After want of memory the losses are given up.
#[tactic(auto, using(crate::proofs::Counts::link_count))]
pub fn build_world(
    alloc: Global,
    input: &Input,
    losses: Vec<Option<Loss>>,
) -> Result<World<Node>, Memory>
    requires input { IsBuildable input.now }
    requires losses { length losses.items ≡ length input.now.net.links }
    requires fresh { All IsFresh losses.items }
    ensures { IfOk result
        (λ world. scene world ≡ first_scene (plan_of input.now.net)
        (first_states input.now) losses.items) }
{
    let nodes = build_nodes(alloc, input)?;
    World::new(alloc, nodes, input.net.wiring(), losses)
}
