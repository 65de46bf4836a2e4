// Runs of the actors of a ring, and how many tokens came.
use super::ring::ring;
use crate::passer::Passer;
use sl_actor::{Actor, FreeGate, Moved};
use sl_machine::Memory;
use std::alloc::Global;
use std::collections::VecDeque;
use std::sync::Wait;
use std::test::Fail;
use std::thread;
use std::thread::Threads;

/// How many actors the ring has.
const ACTORS: u32 = 64;

/// How many tokens the first of them sends.
const TOKENS: u32 = 40;

/// How many tokens come to all actors together.
const ARRIVALS: u32 = TOKENS * (ACTORS - 1);

/// Runs an actor until nothing moves in 200 rounds.
fn run<R: Wait>(rt: &R, actor: &mut Actor<Passer>) {
    let _ = actor.run(rt, &[0, 1], 1 << 27, 200, &FreeGate);
}

fn run_one<R: Wait>(rt: &R, mut actor: Actor<Passer>) -> Actor<Passer> {
    run(rt, &mut actor);
    actor
}

/// Runs actors one after another.
fn run_in_turn<R: Wait>(rt: &R, mut actors: Vec<Actor<Passer>>) -> Vec<Actor<Passer>> {
    for i in 0..actors.len() {
        let actor = &mut actors[i];
        run(rt, actor);
    }
    actors
}

/// How many tokens came to actors.
fn arrivals(actors: &[Actor<Passer>]) -> u32 {
    let mut seen = 0;
    for actor in actors {
        seen = u32::saturating_add(seen, actor.machine().seen);
    }
    seen
}

/// A turn by each choice of an actor. Whether anything moved.
fn moves<R: Wait>(rt: &R, actor: &mut Actor<Passer>) -> Result<bool, Memory> {
    let takes = actor.turn(rt, 0)? != Moved::Idle;
    let sends = actor.turn(rt, 1)? != Moved::Idle;
    Ok(takes || sends)
}

/// A turn by each choice of each actor. Whether anything moved.
fn pass<R: Wait>(rt: &R, actors: &mut Vec<Actor<Passer>>) -> Result<bool, Memory> {
    let mut moved = false;
    for i in 0..actors.len() {
        let actor = &mut actors[i];
        if moves(rt, actor)? {
            moved = true;
        }
    }
    Ok(moved)
}

/// How many tokens have come once nothing moves any more.
fn arrivals_at_last<R: Wait>(rt: &R, mut actors: Vec<Actor<Passer>>) -> Result<u32, Memory> {
    for _ in 0..1000 {
        if !pass(rt, &mut actors)? {
            break;
        }
    }
    Ok(arrivals(actors.as_slice()))
}

/// All return from threads of their own. How much arrives while these run hangs on the machine's load,
/// so no test asks for it.
#[test]
fn a_thread_each(rt: HostRuntime) -> Result<(), Fail> {
    let actors = ring(rt.alloc(), ACTORS, TOKENS)?;
    let actors = thread::map_vec(&rt, actors, &|actor| run_one(&rt, actor))?;
    assert_eq!(rt; arrivals_at_last(&rt, actors)?, ARRIVALS);
    Ok(())
}

/// None waits for a message from an actor that runs only after it.
#[test]
fn one_after_another(rt: HostRuntime) -> Result<(), Fail> {
    let actors = ring(rt.alloc(), ACTORS, TOKENS)?;
    let actors = run_in_turn(&rt, actors);
    assert_eq!(rt; arrivals_at_last(&rt, actors)?, ARRIVALS);
    Ok(())
}

/// The next eight actors, or those that are left.
fn next_eight(
    alloc: Global,
    actors: &mut VecDeque<Actor<Passer>>,
) -> Result<Vec<Actor<Passer>>, Memory> {
    let mut group = Vec::new(alloc);
    for _ in 0..8 {
        if let Some(actor) = actors.pop_front() {
            group.push(actor)?;
        }
    }
    Ok(group)
}

/// Runs eight actors to a thread, and gives all back.
fn run_by_eight<R: Threads + Wait + Sync>(
    rt: &R,
    alloc: Global,
    actors: Vec<Actor<Passer>>,
) -> Result<Vec<Vec<Actor<Passer>>>, Memory> {
    let mut rest = VecDeque::from(actors);
    let mut groups = Vec::new(alloc);
    for _ in 0..ACTORS / 8 {
        groups.push(next_eight(alloc, &mut rest)?)?;
    }
    Ok(thread::map_vec(rt, groups, &|group| run_in_turn(rt, group))?)
}

#[test]
fn eight_to_a_thread(rt: HostRuntime) -> Result<(), Fail> {
    let actors = ring(rt.alloc(), ACTORS, TOKENS)?;
    let groups = run_by_eight(&rt, rt.alloc(), actors)?;
    let mut actors = Vec::new(rt.alloc());
    for group in groups {
        for actor in group {
            actors.push(actor)?;
        }
    }
    assert_eq!(rt; arrivals_at_last(&rt, actors)?, ARRIVALS);
    Ok(())
}
