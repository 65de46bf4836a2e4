// Whoever takes turns: a world of nodes, as data, and schedules of its turns.
ghost use Rattle.std.specs.Prelude.{◌≡◌, ◌+◌, ◌<◌, ◌≤◌, ◌^◌, length, All, Ok, Some, None, OnOk};
ghost use Rattle.std.specs.Prelude.{OnErr, IfOk, IfSome, slice_get};
ghost use Rattle.sl_machine.specs.Plan.{HasChoice};
ghost use Rattle.sl_layout.specs.Wiring.{plan_of};
ghost use Rattle.sl_wire.specs.declared.message.Msg.{Msg};
ghost use Rattle.sl_world.specs.Scene.{Scene, turn_of, after_turn, after_all, links_of, IsFront};
ghost use Rattle.sl_proto.specs.Nodes.{NodeState, ObserverNode, node_rules};
ghost use Rattle.sl_proto.specs.Standing.{HasObserver};
ghost use Rattle.sl_proto.specs.Told.{IsTraffic};
ghost use Rattle.sl_proto.specs.Calls.{HasDriven};

use crate::node::{Node, Traffic};
use crate::nodes::nodes_follow_their_books;
use sl_machine::Memory;
use sl_net::Net;
use sl_observe::Observer;
use sl_world::{Looked, Turn, World};
use std::alloc::Global;

/// Takes turns of a world of nodes.
pub trait Taker {
    /// The world of nodes that it stands for.
    ghost scene: { Self → Scene NodeState Msg };

    /// What no turn of it changes.
    ghost Fixed: { Type 0 };

    ghost fixed: { Self → Fixed };

    /// One turn of an actor. A turn that is refused for memory has changed nothing.
    fn turn(&mut self, actor: u32, choice: u32) -> Result<Turn, Memory>
        requires choice { HasChoice (scene self.old).plan actor choice }
        requires book { length (scene self.old).book < 2 ^ 40 }
        ensures after { OnOk result
            (scene self.new ≡ after_turn node_rules (scene self.old) (actor, choice)) }
        ensures did { result ≡ Ok Turn.Did → turn_of node_rules (scene self.old) actor choice
            ≡ Some (scene self.new) }
        ensures idle { result ≡ Ok Turn.Idle → turn_of node_rules (scene self.old) actor choice
            ≡ None }
        ensures err { OnErr result (scene self.new ≡ scene self.old) }
        ensures plan { (scene self.new).plan ≡ (scene self.old).plan }
        ensures book { length (scene self.new).book ≤ length (scene self.old).book + 1 }
        ensures fixed { fixed self.new ≡ fixed self.old };

    /// For each entry of a schedule the link that its choice takes from, and the number of links
    /// where it is an action.
    fn look_up(&self, alloc: Global, schedule: &[(u32, u32)]) -> Result<Looked, Memory>
        requires { All (λ e. HasChoice (scene self.now).plan e.0 e.1) schedule.now }
        ensures { IfOk result
            (λ links. links ≡ links_of (scene self.now).plan schedule.now) };

    /// The turns of a whole schedule; after want of memory, those of a front of it. Where the links
    /// of its entries are given, they are not looked up once more.
    fn run(&mut self, schedule: &[(u32, u32)], links: Option<&Looked>) -> Result<(), Memory>
        requires choices { All (λ e. HasChoice (scene self.old).plan e.0 e.1) schedule.now }
        requires links { IfSome links (λ l. l.now ≡ links_of (scene self.old).plan schedule.now) }
        requires book { length (scene self.old).book + length schedule.now < 2 ^ 40 }
        ensures ok { OnOk result
            (scene self.new ≡ after_all node_rules (scene self.old) schedule.now) }
        ensures front { IsFront node_rules (scene self.old) schedule.now (scene self.new) }
        ensures plan { (scene self.new).plan ≡ (scene self.old).plan }
        ensures book { length (scene self.new).book ≤ length
            (scene self.old).book + length schedule.now }
        ensures fixed { fixed self.new ≡ fixed self.old };

    /// The observer, where the first node is one.
    fn observer(&self) -> &Observer
        requires { HasObserver (scene self.now) }
        ensures { slice_get (scene self.now).states 0 ≡ Some (ObserverNode result.now.state) };

    /// How many frames an actor sent and took, where it is a host.
    fn traffic(&self, actor: u32) -> Option<Traffic>
        requires { actor < length (scene self.now).states }
        ensures { (s : NodeState) → slice_get (scene self.now).states actor ≡ Some s
            → IsTraffic s result };

    /// How many turns its book has.
    fn entries(&self) -> u64
        ensures { result ≡ length (scene self.now).book };
}

impl Taker for World<Node> {
    ghost use Rattle.sl_machine.specs.Plan.{Plan};
    ghost use Rattle.sl_world.specs.World.{scene as world_scene};

    ghost scene = { world_scene };

    ghost Fixed = { Plan };

    ghost fixed = { λ w. (world_scene w).plan };

    fn turn(&mut self, actor: u32, choice: u32) -> Result<Turn, Memory> {
        World::turn(self, actor, choice)
    }

    fn look_up(&self, alloc: Global, schedule: &[(u32, u32)]) -> Result<Looked, Memory> {
        World::look_up(self, alloc, schedule)
    }

    fn run(&mut self, schedule: &[(u32, u32)], links: Option<&Looked>) -> Result<(), Memory> {
        World::run(self, schedule, links)
    }

    fn observer(&self) -> &Observer {
        match self.machine(0) {
            Node::Observer(observer) => observer,
            _ => unreachable!(),
        }
    }

    fn traffic(&self, actor: u32) -> Option<Traffic> {
        self.machine(actor).traffic()
    }

    fn entries(&self) -> u64 {
        self.book().entries.len() as u64
    }
}

/// Takes the turns of a whole schedule where the book stays below 2^40 entries with them. A longer
/// book would fill any memory, so it is answered as want of memory, with no turn taken. After want
/// of memory the turns of a front of the schedule were taken. Where the nodes stand for the world
/// of their book they do so afterwards, also after want of memory: the book then has the turns of
/// the schedule that aren't idle besides. Where the links of the schedule's entries are given, they
/// are not looked up once more.
pub fn drive<T: Taker>(
    net: &Net,
    taker: &mut T,
    schedule: &[(u32, u32)],
    links: Option<&Looked>,
) -> Result<(), Memory>
    requires plan { (T.scene taker.old).plan ≡ plan_of net.now }
    requires links { IfSome links (λ l. l.now ≡ links_of (plan_of net.now) schedule.now) }
    requires choices { All (λ e. HasChoice (plan_of net.now) e.0 e.1) schedule.now }
    ensures ok { OnOk result
        (T.scene taker.new ≡ after_all node_rules (T.scene taker.old) schedule.now) }
    ensures front { IsFront node_rules (T.scene taker.old) schedule.now (T.scene taker.new) }
    ensures book { length (T.scene taker.new).book ≤ length
        (T.scene taker.old).book + length schedule.now }
    ensures driven { HasDriven T.scene T.fixed net.now taker.old schedule.now result taker.new }
{
    nodes_follow_their_books();
    let limit: u64 = 1 << 40;
    let entries = taker.entries();
    let more = schedule.len() as u64;
    if entries >= limit || more >= limit - entries {
        return Err(Memory);
    }
    taker.run(schedule, links)
}
