// Machines that run in threads of their own, and the world that they come to.
ghost use Rattle.std.specs.Prelude.{◌≡◌, ◌<◌, ◌≤◌, ◌^◌, length, map, IfOk};
ghost use Rattle.std.specs.List.{All};
ghost use Rattle.sl_machine.specs.Fit.{Fits};
ghost use Rattle.sl_loss.specs.Loss.{IsFresh};
ghost use Rattle.sl_world.specs.World.{scene};
ghost use Rattle.sl_merge.specs.Lamport.{IsNumbered};
ghost use Rattle.sl_merge.specs.Merging.{IsAscending};
ghost use Rattle.sl_merge.specs.RunOfActors.{StandsAsRun};
ghost use Rattle.sl_threads.specs.Threads.{ArePlans, ArePlanned, HavePassed, AreAtRest};

use crate::jobs::{actors_of, jobs_of, run_each};
use sl_actor::{Gate, make_actors};
use sl_loss::Loss;
use sl_machine::{Machine, Memory, Wiring};
use sl_merge::{made_actors_are_wired, merge};
use sl_world::World;
use std::alloc::Global;
use std::sync::Wait;
use std::thread::Threads;

/// How many messages a link holds.
const CAPACITY: u32 = 16;

/// Runs machines, each in a thread of its own by the choices of its plan, until none moves any
/// more. The world that they come to is one to which a single thread comes by the schedule of its
/// book. Each has passed the gate before each of its rounds, 200 at least where the book is short.
/// `first` are machines like these.
pub fn run_machines<R: Threads + Wait + Sync, A: Machine + Send, G: Gate + Sync>(
    rt: &R,
    alloc: Global,
    machines: Vec<A>,
    first: &[A],
    wiring: &Wiring,
    losses: Vec<Option<Loss>>,
    plans: Vec<Vec<u32>>,
    gate: &G,
) -> Result<World<A>, Memory>
where
    A::Msg: Send,
    requires fit { Fits A.counts wiring.now machines.items losses.items }
    requires fresh { All IsFresh losses.items }
    requires first { map A.state first.now ≡ map A.state machines.items }
    requires plans { ArePlans (map A.counts machines.items) (map (λ p. p.items) plans.items) }
    requires few { length machines.items ≤ 2 ^ 11 }
    ensures run { IfOk result
        (λ w. StandsAsRun A.rules wiring.now (map A.state machines.items) losses.items (scene w)) }
    ensures numbers { IfOk result
        (λ w. IsNumbered A.rules wiring.now (map A.state machines.items)
        losses.items (scene w).book) }
    ensures order { IfOk result (λ w. IsAscending (scene w).book) }
    ensures plan { IfOk result (λ w. (scene w).plan ≡ wiring.now) }
    ensures short { IfOk result (λ w. length (scene w).book < 2 ^ 39) }
    ensures chosen { IfOk result (λ w. ArePlanned (map (λ p. p.items) plans.items) (scene w).book) }
    ensures passed { IfOk result (λ w. length (scene w).book < 2 ^ 27
        → HavePassed G.passed gate.now (length machines.items) 200) }
    ensures rest { IfOk result (λ w. length (scene w).book < 2 ^ 27
        → AreAtRest A.rules wiring.now.ins (map (λ p. p.items) plans.items) (scene w).states) }
{
    made_actors_are_wired::<A>();
    let actors = make_actors(alloc, machines, wiring, losses, CAPACITY)?;
    let jobs = jobs_of(alloc, actors, plans)?;
    let ran = run_each(rt, jobs, gate)?;
    let actors = actors_of(alloc, ran)?;
    merge(rt, alloc, actors, first, wiring)
}
