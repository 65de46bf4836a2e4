// How the run of a schedule ends, by the nodes of an input.
ghost use Rattle.std.specs.Prelude.{◌≡◌, [], ◌&&◌, ◌==◌, if◌then◌else◌, IfOk, All, Some, slice_get};
ghost use Rattle.sl_machine.specs.Plan.{HasChoice};
ghost use Rattle.sl_layout.specs.Wiring.{plan_of};
ghost use Rattle.sl_net.specs.Input.{Input};
ghost use Rattle.sl_wire.specs.declared.message.Msg.{Msg};
ghost use Rattle.sl_model.specs.Losses.{losses};
ghost use Rattle.sl_model.specs.Setup.{setup_of};
ghost use Rattle.sl_model.specs.Books.{schedule_of};
ghost use Rattle.sl_observe.specs.Observer.{ObserverState, register_floor};
ghost use Rattle.sl_world.specs.Scene.{Scene};
ghost use Rattle.sl_world.specs.World.{scene};
ghost use Rattle.sl_proto.specs.Nodes.{NodeState, ObserverNode};
ghost use Rattle.sl_proto.specs.Standing.{case_of, world_of, HasObserver};
ghost use Rattle.sl_model.specs.Ending.{HasEnding};
ghost use Rattle.sl_check.specs.Polled.{ends_well};
ghost use Rattle.sl_check.specs.Driven.{StandsIn, Tells};

use crate::last::{all_polled, last_choices};
use crate::laws::worlds_finish_well;
use crate::nodes::{follow, take_pass};
use sl_machine::Memory;
use sl_model::{Ending, worlds_take_turns};
use sl_net::Input;
use sl_observe::Observer;
use sl_proto::{Node, Taker, nodes_tell_findings};
use sl_simulation::observers_tell;
use sl_world::World;
use std::alloc::Global;

/// Whether all snapshots are issued and collected.
fn is_collected(input: &Input, observer: &Observer) -> bool
    ensures { let o = observer.now.state in
        result ≡ ((register_floor o == o.issued) && (o.issued == input.now.snapshot.count)) }
{
    observer.floor() == observer.issued() && observer.issued() == input.snapshot.count
}

/// The observer's node of a world of nodes tells what the world of histories says.
fn observer_nodes_tell()
    ensures { (i : Input) (v : Scene NodeState Msg) (o : ObserverState)
        → StandsIn i v → slice_get v.states 0 ≡ Some (ObserverNode o)
        → Tells (setup_of i) (world_of (case_of i (losses i)) v) o }
{
    nodes_tell_findings();
    observers_tell()
}

/// Whether a world that has these turns, and is settled, is finished: all snapshots are issued and
/// collected, or no retry is left and the last step of each unit took a poll.
fn ends_well(
    alloc: Global,
    input: &Input,
    world: &World<Node>,
    schedule: &[(u32, u32)],
) -> Result<bool, Memory>
    requires observer { HasObserver (scene world.now) }
    requires stands { StandsIn input.now (scene world.now) }
    requires schedule { schedule_of (scene world.now).book ≡ schedule.now }
    ensures { IfOk result
        (λ ends. ends ≡ ends_well (setup_of input.now)
        (world_of (case_of input.now (losses input.now)) (scene world.now))) }
{
    observer_nodes_tell();
    worlds_take_turns();
    let observer = world.observer();
    if is_collected(input, observer) {
        return Ok(true);
    }
    if observer.resent() != input.snapshot.retries {
        return Ok(false);
    }
    let last = last_choices(alloc, input.net.actors().len(), schedule)?;
    Ok(all_polled(&input.net, last.as_slice()))
}

/// The ending of a schedule none of whose turns is idle.
fn ending(finished: bool) -> Ending
    ensures { result ≡ (if finished then Ending.Finished else Ending.Unfinished) }
{
    if finished {
        Ending::Finished
    } else {
        Ending::Unfinished
    }
}

/// How a schedule ends, by nodes that take its turns from the first one on. Where its world is
/// finished the nodes stand for it.
pub fn end_of(
    alloc: Global,
    input: &Input,
    world: &mut World<Node>,
    schedule: &[(u32, u32)],
) -> Result<Ending, Memory>
    requires stands { StandsIn input.now (scene world.old) }
    requires observer { HasObserver (scene world.old) }
    requires plan { (scene world.old).plan ≡ plan_of input.now.net }
    requires empty { (scene world.old).book ≡ [] }
    requires choices { All (λ e. HasChoice (plan_of input.now.net) e.0 e.1) schedule.now }
    ensures ending { IfOk result (HasEnding (setup_of input.now) (losses input.now) schedule.now) }
    ensures stands { StandsIn input.now (scene world.new) }
    ensures finished { IfOk result (λ ending. ending ≡ Ending.Finished
        → schedule_of (scene world.new).book ≡ schedule.now) }
{
    worlds_finish_well();
    if let Some(entry) = follow(&input.net, world, schedule)? {
        return Ok(Ending::Idle(entry));
    }
    if !take_pass(alloc, &input.net, world)? {
        return Ok(Ending::Unfinished);
    }
    let finished = ends_well(alloc, input, world, schedule)?;
    Ok(ending(finished))
}
