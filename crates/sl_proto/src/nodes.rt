// Laws of the nodes of a net: they follow the steps of histories, so that a scene of them stands
// for a world. The functions do nothing: their contracts are the laws, and the proofs are in
// proofs/.
ghost use Rattle.std.specs.Prelude.{◌≡◌, ℕ, ◌+◌, ◌^◌, ◌<◌, List, length, Option, Some, slice_get};
ghost use Rattle.sl_machine.specs.Plan.{IsSound};
ghost use Rattle.sl_loss.specs.Loss.{Loss};
ghost use Rattle.sl_net.specs.declared.input.Snapshot.{Snapshot};
ghost use Rattle.sl_layout.specs.Net.{Net};
ghost use Rattle.sl_net.specs.Input.{Input};
ghost use Rattle.sl_net.specs.Wired.{IsNet};
ghost use Rattle.sl_layout.specs.Wiring.{plan_of};
ghost use Rattle.sl_wire.specs.declared.message.Msg.{Msg};
ghost use Rattle.sl_wire.specs.Sizes.{sizes_of};
ghost use Rattle.sl_model.specs.History.{Losses};
ghost use Rattle.sl_unit.specs.Made.{IsRanged};
ghost use Rattle.sl_model.specs.Setup.{Setup, setup_of};
ghost use Rattle.sl_model.specs.World.{Entry, IsLossTable, start, world, IsLegal, kept};
ghost use Rattle.sl_world.specs.Scene.{Scene, first_scene, after_all, run_of};
ghost use Rattle.sl_world.specs.Scene.{kept as scene_kept};
ghost use Rattle.sl_proto.specs.Machines.{FollowHistories};
ghost use Rattle.sl_proto.specs.Meaning.{NodeStands, IsRunnable};
ghost use Rattle.sl_proto.specs.Built.{first_states};
ghost use Rattle.sl_proto.specs.Nodes.{NodeState, node_rules};
ghost use Rattle.sl_proto.specs.Runs.{IsBookOfTurns};
ghost use Rattle.sl_proto.specs.Standing.{Case, case_of, IsImageOf, StandsFor, HasObserver};
ghost use Rattle.sl_proto.specs.Standing.{FirstNodes, scene_of, AreNewLosses};
ghost use Rattle.sl_proto.specs.Calls.{KeepsStanding, Drives};
ghost use Rattle.sl_proto.specs.RunBook.{CanRun};

use sl_model::{known_steps_are_made, links_pass_messages, worlds_take_turns};
use sl_net::nets_are_wired;
use sl_simulation::{
    controls_act, controls_start, controls_stay, controls_take, hosts_act, hosts_have_two_links,
    hosts_start, hosts_stay, hosts_take, new_units_stand, observers_act, observers_start,
    observers_stay, observers_take, units_stay, units_take_messages,
};

/// Each turn of a node does the step of its actor, and is idle where this has none.
pub fn nodes_follow()
    ensures { (s : Setup) (table : Snapshot) (lost : Losses) → IsRunnable s table lost
        → FollowHistories s lost (sizes_of table) (NodeStands s table) node_rules }
{
    nets_are_wired();
    units_take_messages();
    units_stay();
    controls_take();
    controls_act();
    controls_stay();
    observers_take();
    observers_act();
    observers_stay();
    hosts_have_two_links();
    hosts_take();
    hosts_act();
    hosts_stay();
    worlds_take_turns();
    links_pass_messages();
    known_steps_are_made()
}

/// An input that can be run has what the laws of nodes ask.
pub fn inputs_are_runnable()
    ensures { (i : Input) (lost : Losses) → CanRun i → IsSound (plan_of i.net)
        → IsLossTable i.net lost → IsRunnable (setup_of i) i.snapshot lost }
{}

/// The first states of the nodes are one for each actor, and stand for the world where nothing has
/// happened.
pub fn nodes_start()
    ensures each { (i : Input) → length (first_states i) ≡ length i.net.actors }
    ensures stand { (i : Input) (a : ℕ) (state : NodeState) → IsRanged i.snapshot
        → slice_get (first_states i) a ≡ Some state
        → NodeStands (setup_of i) i.snapshot (start i.net) a state }
{
    new_units_stand();
    controls_start();
    observers_start();
    hosts_start();
    worlds_take_turns()
}

/// A scene of nodes that begins with nothing done stands, after any schedule, for the world of
/// whole histories of this schedule. It is legal in both or in neither; the entries that are kept
/// are the same, and the book has these, numbered from 1.
pub fn nodes_stand_for_histories()
    ensures image { (x : Case) (f : FirstNodes x) (es : List Entry) → length es < 2 ^ 40
        → IsImageOf x (world x.setup x.lost es) (after_all node_rules (scene_of f) es) }
    ensures kept { (x : Case) (f : FirstNodes x) (es : List Entry) → length es < 2 ^ 40
        → scene_kept node_rules (scene_of f) es ≡ kept x.setup x.lost es }
    ensures book { (x : Case) (f : FirstNodes x) (es : List Entry) → length es < 2 ^ 40
        → IsBookOfTurns (record { entries = (after_all node_rules (scene_of f) es).book })
        (kept x.setup x.lost es) }
    ensures legal { (x : Case) (f : FirstNodes x) (es : List Entry) → length es < 2 ^ 40
        → IsLegal x.setup x.lost es → run_of node_rules (scene_of f) es
        ≡ Some (after_all node_rules (scene_of f) es) }
    ensures only { (x : Case) (f : FirstNodes x) (es : List Entry) (v : Scene NodeState Msg)
        → length es < 2 ^ 40
        → run_of node_rules (scene_of f) es ≡ Some v → IsLegal x.setup x.lost es }
{
    nets_are_wired();
    nodes_follow();
    worlds_take_turns();
    links_pass_messages();
    known_steps_are_made()
}

/// The first scene of an input's nodes stands for the world of its book, which is empty. Its first
/// node is the observer.
pub fn nodes_stand_at_first()
    ensures stands { (i : Input) (lost : Losses) (losses : List (Option Loss))
        → IsRunnable (setup_of i) i.snapshot lost → IsRanged i.snapshot
        → AreNewLosses i.net lost losses
        → StandsFor i.net (case_of i lost) (first_scene (plan_of i.net) (first_states i) losses) }
    ensures observer { (i : Input) (losses : List (Option Loss)) → IsNet i.net
        → HasObserver (first_scene (plan_of i.net) (first_states i) losses) }
{
    nets_are_wired();
    nodes_start();
    worlds_take_turns()
}

/// A scene of nodes that stands for the world of its book goes on to do so along any schedule, and
/// its book gains the entries that aren't idle. The observer's node stays where it is.
pub fn nodes_follow_their_books()
    ensures stands { (net : Net) (v : Scene NodeState Msg) (es : List Entry)
        → length v.book + length es < 2 ^ 40
        → KeepsStanding net v (after_all node_rules v es) }
    ensures follows { (net : Net) (v : Scene NodeState Msg) (es : List Entry)
        → length v.book + length es < 2 ^ 40
        → Drives net v es (after_all node_rules v es) }
    ensures observer { (v : Scene NodeState Msg) (es : List Entry)
        → HasObserver v → HasObserver (after_all node_rules v es) }
{
    nets_are_wired();
    nodes_follow();
    worlds_take_turns();
    links_pass_messages();
    known_steps_are_made()
}
