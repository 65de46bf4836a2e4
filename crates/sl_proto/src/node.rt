// Trusted types: for nodes Node.
// The machine of any actor.
ghost use Rattle.std.specs.Prelude.{◌≡◌, ◌<◌, ◌≤◌, [], Some, None, true, OnOk, OnErr};
ghost use Rattle.sl_machine.specs.Machine.{IsChoice, is_fitting};
ghost use Rattle.sl_proto.specs.Nodes.{node_state_by, node_take};
ghost use Rattle.sl_proto.specs.Nodes.{node_counts_by, node_ready_by};
ghost use Rattle.sl_proto.specs.Told.{IsTraffic};

use sl_control::Control;
use sl_host::Host;
use sl_machine::{Machine, Memory, Outputs};
use sl_observe::Observer;
use sl_unit::Unit;
use sl_wire::Msg;

/// How many frames a host sent, and how many it took.
#[derive(Clone, Copy, Debug, PartialEq, Eq)]
pub struct Traffic {
    pub sent: u64,
    pub delivered: u64,
}

/// A node of a net: the machine of one of its actors. A turn of it is its machine's turn.
#[derive(Drop)]
pub enum Node<C = Control> {
    Observer(Observer),
    Control(C),
    Unit(Unit),
    Host(Host),
}

impl<C: Machine<Msg = Msg>> Node<C> {
    /// How many frames it sent and took, where it is a host.
    pub fn traffic(&self) -> Option<Traffic>
        ensures { IsTraffic (node_state_by C.state self.now) result }
    {
        match self {
            Node::Host(host) => Some(Traffic {
                sent: host.sent(),
                delivered: host.delivered(),
            }),
            _ => None,
        }
    }
}

// Most turns are of units. Those of other machines stand apart, so that one comparison tells.
impl<C: Machine<Msg = Msg>> Node<C> {
    /// `ready` of a machine that is no unit.
    #[inline(never)]
    fn ready_of_others(&mut self, choice: u32) -> Result<(), Memory>
        requires { IsChoice (node_counts_by C.counts self.old) choice }
        ensures state { node_state_by C.state self.new ≡ node_state_by C.state self.old }
        ensures counts { node_counts_by C.counts self.new ≡ node_counts_by C.counts self.old }
        ensures ok { OnOk result (node_ready_by C.ready_for self.new ≡ Some choice) }
        ensures err { OnErr result (node_ready_by C.ready_for self.new ≡ None) }
    {
        match self {
            Node::Observer(observer) => observer.ready(choice),
            Node::Control(control) => control.ready(choice),
            Node::Unit(unit) => unit.ready(choice),
            Node::Host(host) => host.ready(choice),
        }
    }

    /// `take` of a machine that is no unit.
    #[inline(never)]
    fn take_of_others(&mut self, link: u32, m: Msg, out: &mut Outputs<Msg>)
        requires link { link < (node_counts_by C.counts self.old).ins }
        requires ready { node_ready_by C.ready_for self.old ≡ Some link }
        requires empty { out.old.items ≡ [] }
        requires room { (node_counts_by C.counts self.old).outs ≤ out.old.room }
        ensures state { node_state_by C.state self.new
            ≡ (node_take C.rules (node_state_by C.state self.old) link m).state }
        ensures puts { out.new.items
            ≡ (node_take C.rules (node_state_by C.state self.old) link m).puts }
        ensures fitting { is_fitting (node_counts_by C.counts self.old).outs out.new.items ≡ true }
        ensures room { out.new.room ≡ out.old.room }
        ensures counts { node_counts_by C.counts self.new ≡ node_counts_by C.counts self.old }
        ensures spent { node_ready_by C.ready_for self.new ≡ None }
    {
        match self {
            Node::Observer(observer) => observer.take(link, m, out),
            Node::Control(control) => control.take(link, m, out),
            Node::Unit(unit) => unit.take(link, m, out),
            Node::Host(host) => host.take(link, m, out),
        }
    }
}

impl<C: Machine<Msg = Msg>> Machine for Node<C> {
    ghost use Rattle.sl_proto.specs.Nodes.{NodeOf, node_state_by, node_rules_by};
    ghost use Rattle.sl_proto.specs.Nodes.{node_counts_by, node_ready_by};

    type Msg = Msg;

    ghost State = { NodeOf C.State };

    ghost state = { node_state_by C.state };

    ghost rules = { node_rules_by C.rules };

    ghost counts = { node_counts_by C.counts };

    ghost ready_for = { node_ready_by C.ready_for };

    fn ready(&mut self, choice: u32) -> Result<(), Memory> {
        match self {
            Node::Unit(unit) => unit.ready(choice),
            _ => self.ready_of_others(choice),
        }
    }

    fn take(&mut self, link: u32, m: Msg, out: &mut Outputs<Msg>) {
        match self {
            Node::Unit(unit) => unit.take(link, m, out),
            _ => self.take_of_others(link, m, out),
        }
    }

    fn act(&mut self, action: u32, out: &mut Outputs<Msg>) -> bool {
        match self {
            Node::Observer(observer) => observer.act(action, out),
            Node::Control(control) => control.act(action, out),
            Node::Unit(unit) => unit.act(action, out),
            Node::Host(host) => host.act(action, out),
        }
    }
}
