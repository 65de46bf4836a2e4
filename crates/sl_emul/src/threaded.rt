// The run of an input with a thread for each actor.
ghost use Rattle.std.specs.Prelude.{◌≡◌, ◌<◌, ◌≤◌, ◌^◌, [], ◌∷◌, IfOk, IsErrOf, IsOkUnless};
ghost use Rattle.std.specs.Prelude.{length, map, if◌then◌else◌};
ghost use Rattle.sl_layout.specs.Net.{actor_of, links_into};
ghost use Rattle.sl_layout.specs.Wiring.{plan_of};
ghost use Rattle.sl_model.specs.Losses.{losses};
ghost use Rattle.sl_model.specs.Setup.{setup_of};
ghost use Rattle.sl_world.specs.World.{scene};
ghost use Rattle.sl_threads.specs.Threads.{HavePassed};
ghost use Rattle.sl_proto.specs.Nodes.{node_state};
ghost use Rattle.sl_proto.specs.Standing.{case_of, world_of, StandsFor, HasObserver};
ghost use Rattle.sl_proto.specs.RunBook.{CanRun};
ghost use Rattle.sl_emul.specs.Threaded.{tried_actions, tried_by, plans_of, HasRested};
ghost use Rattle.sl_emul.specs.Threaded.{IsThreadedFront, IsThreadedBook, IsThreadedOutcome};
ghost use Rattle.sl_emul.specs.Run.{HasEnded};

use crate::fault::EmulFault;
use crate::run::{FinishedRun, Run, finish_run, tell_run};
use sl_actor::Gate;
use sl_machine::Memory;
use sl_model::{
    cuts_are_consistent, inputs_spare_reliable_links, runs_are_bounded, worlds_take_turns,
};
use sl_net::{ActorId, Input, Net, nets_have_ways};
use sl_proto::{
    Node, books_grow_by_turns, build_nodes, inputs_are_runnable, make_losses, nodes_follow,
    nodes_follow_their_books, nodes_stand_at_first, nodes_stand_for_histories, nodes_start,
};
use sl_threads::run_machines;
use sl_world::{World, every_schedule};
use std::alloc::Global;
use std::sync::Wait;
use std::thread::Threads;

/// How many actors run in threads at most.
const MOST_ACTORS: u32 = 256;

/// Whether an actor tries the first of its own actions: the observer and the hosts do.
fn acts(net: &Net, actor: u32) -> bool
    requires { actor < length net.now.actors }
    ensures { tried_actions net.now actor (actor_of net.now actor)
        ≡ (if result then length (links_into net.now actor) ∷ [] else []) }
{
    match net.actor(actor) {
        ActorId::Observer => true,
        ActorId::Control(_) => false,
        ActorId::Unit(_) => false,
        ActorId::Host(_) => true,
    }
}

/// What an actor tries in each round: each of its links, and besides the observer to issue, and a
/// host to inject.
fn tried_by(alloc: Global, net: &Net, actor: u32) -> Result<Vec<u32>, Memory>
    requires { actor < length net.now.actors }
    ensures { IfOk result (λ plan. plan.items ≡ tried_by net.now actor) }
{
    let mut plan = Vec::new(alloc);
    let links = net.links_into(actor).len() as u32;
    for link in 0..links {
        plan.push(link)?;
    }
    if acts(net, actor) {
        plan.push(links)?;
    }
    Ok(plan)
}

/// What each actor tries in each round of a run in threads, one plan per actor in order.
pub fn plans_of(alloc: Global, net: &Net) -> Result<Vec<Vec<u32>>, Memory>
    ensures { IfOk result (λ plans. map (λ p. p.items) plans.items ≡ plans_of net.now) }
{
    let mut plans = Vec::new(alloc);
    for actor in 0..net.actors().len() as u32 {
        let plan = tried_by(alloc, net, actor)?;
        plans.push(plan)?;
    }
    Ok(plans)
}

/// The world to which the nodes of an input come that run each in a thread of its own, until none
/// moves any more. It stands for the world of its book, which one thread could have written.
pub fn threaded_world<R: Threads + Wait + Sync, G: Gate + Sync>(
    rt: &R,
    alloc: Global,
    input: &Input,
    gate: &G,
) -> Result<World<Node>, Memory>
    requires can { CanRun input.now }
    requires few { length input.now.net.actors ≤ 256 }
    ensures stands { IfOk result
        (λ w. StandsFor input.now.net (case_of input.now (losses input.now)) (scene w)) }
    ensures observer { IfOk result (λ w. HasObserver (scene w)) }
    ensures plan { IfOk result (λ w. (scene w).plan ≡ plan_of input.now.net) }
    ensures front { IfOk result (λ w. IsThreadedFront input.now (losses input.now) (scene w).book) }
    ensures rest { IfOk result (λ w. length (scene w).book < 2 ^ 27
        → HasRested (setup_of input.now)
        (world_of (case_of input.now (losses input.now)) (scene w))) }
    ensures passed { IfOk result (λ w. length (scene w).book < 2 ^ 27
        → HavePassed G.passed gate.now (length input.now.net.actors) 200) }
{
    inputs_spare_reliable_links();
    inputs_are_runnable();
    nets_have_ways();
    worlds_take_turns();
    nodes_start();
    nodes_follow();
    nodes_stand_at_first();
    nodes_follow_their_books();
    nodes_stand_for_histories();
    every_schedule::<Node>();
    let losses = make_losses(alloc, input)?;
    let plans = plans_of(alloc, &input.net)?;
    let nodes = build_nodes(alloc, input)?;
    let first = match build_nodes(alloc, input) {
        Ok(first) => first,
        Err(fault) => {
            drop(nodes);
            return Err(fault);
        }
    };
    let wiring = input.net.wiring();
    let world = run_machines(
        rt,
        alloc,
        nodes,
        first.as_slice(),
        wiring,
        losses,
        plans,
        gate,
    );
    drop(first);
    world
}

/// Runs an input of a net of few actors: in threads, and then finishes in one.
fn run_few<R: Threads + Wait + Sync, G: Gate + Sync>(
    rt: &R,
    alloc: Global,
    input: &Input,
    gate: &G,
) -> Result<FinishedRun, Memory>
    requires can { CanRun input.now }
    requires few { length input.now.net.actors ≤ 256 }
    ensures run { IfOk result
        (λ r. HasEnded IsThreadedBook input.now (losses input.now) (scene r.world) r.front) }
    ensures passed { IfOk result (λ r. r.front < 2 ^ 27
        → HavePassed G.passed gate.now (length input.now.net.actors) 200) }
{
    books_grow_by_turns();
    runs_are_bounded();
    cuts_are_consistent();
    let world = threaded_world(rt, alloc, input, gate)?;
    finish_run(alloc, input, world)
}

/// Runs an input on the nodes of its net to its end: each in a thread of its own until none moves
/// any more, and then finishes in one thread. Each actor passes the gate before each of its rounds,
/// 200 at least where the front is short. The script isn't used.
pub fn finish_threaded<R: Threads + Wait + Sync, G: Gate + Sync>(
    rt: &R,
    alloc: Global,
    input: &Input,
    gate: &G,
) -> Result<FinishedRun, EmulFault>
    requires { CanRun input.now }
    ensures run { IfOk result
        (λ r. HasEnded IsThreadedBook input.now (losses input.now) (scene r.world) r.front) }
    ensures passed { IfOk result (λ r. r.front < 2 ^ 27
        → HavePassed G.passed gate.now (length input.now.net.actors) 200) }
    ensures many { 256 < length input.now.net.actors
        → IsErrOf result (EmulFault.TooMany (length input.now.net.actors)) }
    ensures few { length input.now.net.actors ≤ 256 → IsOkUnless result EmulFault.Memory }
{
    let actors = input.net.actors().len() as u32;
    if actors > MOST_ACTORS {
        return Err(EmulFault::TooMany(actors));
    }
    Ok(run_few(rt, alloc, input, gate)?)
}

/// Runs an input as `finish_threaded` does, and tells what the run came to.
pub fn run_threaded<R: Threads + Wait + Sync, G: Gate + Sync>(
    rt: &R,
    alloc: Global,
    input: &Input,
    gate: &G,
) -> Result<Run, EmulFault>
    requires { CanRun input.now }
    ensures run { IfOk result
        (λ r. IsThreadedOutcome input.now (losses input.now) r.book.entries r.front r.findings
        (map node_state r.nodes.items)) }
    ensures passed { IfOk result (λ r. r.front < 2 ^ 27
        → HavePassed G.passed gate.now (length input.now.net.actors) 200) }
    ensures many { 256 < length input.now.net.actors
        → IsErrOf result (EmulFault.TooMany (length input.now.net.actors)) }
    ensures few { length input.now.net.actors ≤ 256 → IsOkUnless result EmulFault.Memory }
{
    let ran = finish_threaded(rt, alloc, input, gate)?;
    Ok(tell_run(alloc, input, ran)?)
}
