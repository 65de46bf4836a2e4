// The world that actors are merged to.
ghost use Rattle.std.specs.Prelude.{◌≡◌, ◌<◌, ◌^◌, length, map, IfOk};
ghost use Rattle.sl_actor.specs.Held.{held};
ghost use Rattle.sl_actor.specs.Made.{EachFollows};
ghost use Rattle.sl_world.specs.World.{scene};
ghost use Rattle.sl_merge.specs.Merging.{IsMerge, IsAscending};
ghost use Rattle.sl_merge.specs.Lamport.{IsNumbered, AreLow};
ghost use Rattle.sl_merge.specs.RunOfActors.{log_entries, StandsAsRun};
ghost use Rattle.sl_merge.specs.Merged.{AreWired, AreLeft, losses_before};

use crate::laws::{actors_are_runs, merges_are_resumed};
use crate::logs::merge_logs;
use crate::parts::{Parts, take_apart};
use crate::rests::meet_all;
use sl_actor::Actor;
use sl_machine::{Machine, Memory, Wiring};
use sl_world::World;
use std::alloc::Global;
use std::sync::Wait;

/// The world that goes on from actors, each of which follows the machine of its place in `first`.
/// Its book has the entries of all logs, in the order of number and actor, and it stands where one
/// thread would have come from the first machines by the schedule of this book. After want of
/// memory the actors are given up.
pub fn merge<R: Wait, A: Machine>(
    rt: &R,
    alloc: Global,
    actors: Vec<Actor<A>>,
    first: &[A],
    wiring: &Wiring,
) -> Result<World<A>, Memory>
    requires wired { AreWired wiring.now (map held actors.items) }
    requires first { length first.now ≡ length wiring.now.ins }
    requires follows { EachFollows A.rules (map A.state first.now) (map held actors.items) }
    requires few { length (log_entries (map held actors.items)) < 2 ^ 39 }
    ensures run { IfOk result
        (λ w. let losses = losses_before wiring.now.links (map held actors.items) in
        StandsAsRun A.rules wiring.now (map A.state first.now) losses (scene w)) }
    ensures numbers { IfOk result
        (λ w. let losses = losses_before wiring.now.links (map held actors.items) in
        IsNumbered A.rules wiring.now (map A.state first.now) losses (scene w).book) }
    ensures small { IfOk result (λ w. AreLow (scene w).book) }
    ensures book { IfOk result (λ w. IsMerge (log_entries (map held actors.items)) (scene w).book) }
    ensures order { IfOk result (λ w. IsAscending (scene w).book) }
    ensures plan { IfOk result (λ w. (scene w).plan ≡ wiring.now) }
    ensures machines { IfOk result
        (λ w. (scene w).states ≡ map (λ a. a.state) (map held actors.items)) }
    ensures links { IfOk result
        (λ w. AreLeft wiring.now.links (map held actors.items) (scene w).lines) }
{
    actors_are_runs::<A>();
    merges_are_resumed::<A>();
    let Parts {
        machines,
        logs,
        mut takes,
        mut outs,
    } = take_apart(alloc, actors)?;
    let links = wiring.links.as_slice();
    let rests = meet_all(rt, alloc, links, &mut takes, &mut outs)?;
    let book = merge_logs(alloc, logs.as_slice())?;
    let (losses, lost, messages) = rests.into_lists();
    World::resume(alloc, machines, wiring, losses, lost, messages, book)
}
