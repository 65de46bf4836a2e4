// A turn of one of a list of machines.
ghost use Rattle.std.specs.Prelude.{◌≡◌, ◌+◌, ◌<◌, ◌≤◌, [], Some, None, map, length, slice_get};
ghost use Rattle.std.specs.Prelude.{slice_set, slice_index, OnOk, true};
ghost use Rattle.std.specs.Bool.{OnTrue, OnFalse};
ghost use Rattle.sl_machine.specs.Machine.{is_fitting};
ghost use Rattle.sl_machine.specs.Fit.{ins_of, outs_of, actions_of};
ghost use Rattle.sl_world.specs.Counts.{SameCounts};

use sl_machine::{Machine, Memory, Outputs};

/// Makes the machine of an actor ready for a choice.
pub fn ready_at<A: Machine>(machines: &mut Vec<A>, actor: usize, choice: u32) -> Result<(), Memory>
    requires actor { actor < length machines.old.items }
    requires choice { choice < slice_index (ins_of A.counts machines.old.items) actor + slice_index
        (actions_of A.counts machines.old.items) actor }
    ensures states { map A.state machines.new.items ≡ map A.state machines.old.items }
    ensures counts { SameCounts A.counts machines.old.items machines.new.items }
    ensures ready { OnOk result
        (slice_get (map A.ready_for machines.new.items) actor ≡ Some (Some choice)) }
{
    machines[actor].ready(choice)
}

/// The machine of an actor takes a message.
pub fn take_at<A: Machine>(
    machines: &mut Vec<A>,
    actor: usize,
    choice: u32,
    m: A::Msg,
    out: &mut Outputs<A::Msg>,
)
    requires actor { actor < length machines.old.items }
    requires choice { choice < slice_index (ins_of A.counts machines.old.items) actor }
    requires ready { slice_get (map A.ready_for machines.old.items) actor ≡ Some (Some choice) }
    requires empty { out.old.items ≡ [] }
    requires room { slice_index (outs_of A.counts machines.old.items) actor ≤ out.old.room }
    ensures states { (s : A.State) → slice_get (map A.state machines.old.items) actor ≡ Some s
        → map A.state machines.new.items ≡ slice_set (map A.state machines.old.items) actor
        (A.rules.take s choice m).state }
    ensures puts { (s : A.State) → slice_get (map A.state machines.old.items) actor ≡ Some s
        → out.new.items ≡ (A.rules.take s choice m).puts }
    ensures counts { SameCounts A.counts machines.old.items machines.new.items }
    ensures fitting { is_fitting (slice_index (outs_of A.counts machines.old.items) actor)
        out.new.items ≡ true }
    ensures room { out.new.room ≡ out.old.room }
{
    machines[actor].take(choice, m, out);
}

/// The machine of an actor acts.
pub fn act_at<A: Machine>(
    machines: &mut Vec<A>,
    actor: usize,
    choice: u32,
    out: &mut Outputs<A::Msg>,
) -> bool
    requires actor { actor < length machines.old.items }
    requires low { slice_index (ins_of A.counts machines.old.items) actor ≤ choice }
    requires choice { choice < slice_index (ins_of A.counts machines.old.items) actor + slice_index
        (actions_of A.counts machines.old.items) actor }
    requires ready { slice_get (map A.ready_for machines.old.items) actor ≡ Some (Some choice) }
    requires empty { out.old.items ≡ [] }
    requires room { slice_index (outs_of A.counts machines.old.items) actor ≤ out.old.room }
    ensures did { (s : A.State) → slice_get (map A.state machines.old.items) actor ≡ Some s
        → OnTrue result
        ((t : A.State)
        × (map A.state machines.new.items ≡ slice_set (map A.state machines.old.items) actor t)
        × (A.rules.act s choice ≡ Some (record { state = t; puts = out.new.items }))) }
    ensures idle { (s : A.State) → slice_get (map A.state machines.old.items) actor ≡ Some s
        → OnFalse result (A.rules.act s choice ≡ None) }
    ensures same { OnFalse result
        (map A.state machines.new.items ≡ map A.state machines.old.items) }
    ensures nothing { OnFalse result (out.new.items ≡ []) }
    ensures counts { SameCounts A.counts machines.old.items machines.new.items }
    ensures fitting { is_fitting (slice_index (outs_of A.counts machines.old.items) actor)
        out.new.items ≡ true }
    ensures room { out.new.room ≡ out.old.room }
{
    machines[actor].act(choice, out)
}
