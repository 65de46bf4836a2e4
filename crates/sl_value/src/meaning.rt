// What nodes that keep values stand for, over all schedules. The functions do nothing: their
// contracts are the laws, and the proofs are in proofs/.
ghost use Rattle.std.specs.Prelude.{◌≡◌, ◌<◌, ◌^◌, ℕ, Some, length, slice_get};
ghost use Rattle.sl_net.specs.declared.input.Snapshot.{Snapshot};
ghost use Rattle.sl_net.specs.Input.{Input};
ghost use Rattle.sl_net.specs.Wired.{IsNet};
ghost use Rattle.sl_unit.specs.Made.{IsRanged};
ghost use Rattle.sl_model.specs.Books.{schedule_of};
ghost use Rattle.sl_model.specs.History.{World, history};
ghost use Rattle.sl_model.specs.Losses.{losses};
ghost use Rattle.sl_model.specs.Setup.{Setup, setup_of};
ghost use Rattle.sl_model.specs.World.{world};
ghost use Rattle.sl_world.specs.Scene.{Scene};
ghost use Rattle.sl_wire.specs.declared.message.Msg.{Msg};
ghost use Rattle.sl_wire.specs.Sizes.{sizes_of};
ghost use Rattle.sl_control.specs.Control.{control_take, control_act};
ghost use Rattle.std.specs.Prelude.{option_map};
ghost use Rattle.sl_proto.specs.Machines.{FollowHistories};
ghost use Rattle.sl_proto.specs.Meaning.{IsRunnable};
ghost use Rattle.sl_proto.specs.Nodes.{ControlNode};
ghost use Rattle.sl_proto.specs.Standing.{Case, case_of, StandsFor};
ghost use Rattle.sl_value.specs.Valued.{ValueState, value_take, value_act, forget};
ghost use Rattle.sl_value.specs.Nodes.{ValueNodeState, value_node_rules, plain_scene};
ghost use Rattle.sl_value.specs.Run.{IsValueRun};
ghost use Rattle.sl_value.specs.Standing.{ValueStands, AnswersAsTold};

use crate::laws::values_are_counts;
use sl_model::{dumps_bring_rows, known_steps_are_made, worlds_take_turns};
use sl_net::nets_are_wired;
use sl_proto::{Meaning, machines_stand_for_histories, nodes_follow, nodes_start};
use sl_simulation::dumps_are_unwrapped;

/// The meaning of nodes that keep values, by the setup of a run.
pub struct ValueMeaning;

impl Meaning for ValueMeaning {
    ghost use Rattle.sl_value.specs.Nodes.{ValueNodeState};

    ghost State = { ValueNodeState };

    ghost Index = { Case };

    ghost stands = { λ x w a state. ValueStands x.setup x.table w a state };
}

/// A control plane that keeps values takes the turns of the one inside: without the values, what a
/// turn leaves is what that one's turn leaves.
pub fn values_change_no_turn()
    ensures take { (s : ValueState) (c : ℕ) (m : Msg)
        → forget (value_take s c m) ≡ control_take s.control c m }
    ensures act { (s : ValueState) (c : ℕ) → option_map forget (value_act s c)
        ≡ control_act s.control c }
{}

/// Each turn of a node that keeps values does the step of its actor, and is idle where this has
/// none; and what control planes keep goes on to be the values of the histories that they were
/// told.
pub fn values_follow()
    ensures { (x : Case) → IsRunnable x.setup x.table x.lost
        → FollowHistories x.setup x.lost (sizes_of x.table)
        (ValueStands x.setup x.table) value_node_rules }
{
    nets_are_wired();
    nodes_follow();
    values_are_counts();
    dumps_are_unwrapped();
    dumps_bring_rows();
    known_steps_are_made();
    worlds_take_turns()
}

/// In the world of an input's nodes that keep values, whatever turns it took, each node stands for
/// the history of its actor, and what each control plane keeps are the values that it was told.
pub fn values_stand_for_histories()
    ensures { (i : Input) (v : Scene ValueNodeState Msg) → IsValueRun i v
        → StandsFor i.net (case_of i (losses i)) (plain_scene v) → IsRanged i.snapshot
        → length v.book < 2 ^ 40 → (a : ℕ) (state : ValueNodeState)
        → slice_get v.states a ≡ Some state
        → ValueStands (setup_of i) i.snapshot (world (setup_of i) (losses i) (schedule_of v.book))
        a state }
{
    values_follow();
    machines_stand_for_histories::<ValueMeaning>();
    nodes_start();
    worlds_take_turns()
}

/// A control plane that stands for its history has, of each unit that it serves, the value of each
/// number from 1 up to that of the rows that it collected of the unit, and it is what the unit had
/// counted before its id reached the number. It has none for 0, for a number above that, and for a
/// unit that it does not serve.
pub fn values_are_those_collected()
    ensures { (s : Setup) (table : Snapshot) (w : World) (a : ℕ) (state : ValueState)
        → IsNet s.net → ValueStands s table w a (ControlNode state)
        → AnswersAsTold s.net (history w) a state.kept }
{
    nets_are_wired()
}
