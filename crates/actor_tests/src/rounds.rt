// The rounds of a run, as its gate sees them.
ghost use Rattle.std.specs.Prelude.{◌≤◌};

use crate::actor::{actors_in_line, run_all, turns_of};
use sl_actor::{Actor, Gate, Rest, make_actors};
use sl_machine::Memory;
use std::alloc::Global;
use std::sync::Wait;
use std::sync::atomic::{AtomicU64, Ordering};
use std::test::Fail;
use world_tests::{Relay, ring_wiring};

/// A gate that counts the rounds of one actor, and those that come out of order.
#[derive(Drop)]
pub struct Counter {
    actor: u32,
    rounds: AtomicU64,
    wrong: AtomicU64,
}

impl Counter {
    pub fn new(actor: u32) -> Counter {
        Counter {
            actor,
            rounds: AtomicU64::new(0),
            wrong: AtomicU64::new(0),
        }
    }

    /// How many rounds the actor began, and how many of them had another number.
    pub fn told(&self) -> (u64, u64) {
        (
            self.rounds.load(Ordering::SeqCst),
            self.wrong.load(Ordering::SeqCst),
        )
    }
}

impl Gate for Counter {
    ghost use Rattle.std.specs.Prelude.{⊤};

    ghost passed = { λ gate actor round. ⊤ };

    fn pass(&self, actor: u32, round: u64) {
        if actor == self.actor && self.rounds.fetch_add(1, Ordering::SeqCst) != round {
            self.wrong.fetch_add(1, Ordering::SeqCst);
        }
    }
}

/// How many rounds the actor at a place takes until it rests, in order.
fn rounds_of<R: Wait>(
    rt: &R,
    alloc: Global,
    actors: &mut Vec<Actor<Relay>>,
    place: u32,
    quiet: u64,
) -> Result<u64, Fail>
    requires { 1 ≤ quiet }
{
    if place as usize >= actors.len() {
        return Err("no actor".into());
    }
    let gate = Counter::new(place);
    let actor = &mut actors[place as usize];
    let rest = run_all(rt, alloc, actor, 1000, quiet, &gate)?;
    let (rounds, wrong) = gate.told();
    if rest != Rest::Rested || wrong != 0 {
        return Err("another run".into());
    }
    Ok(rounds)
}

/// One turn by each choice of the actor at a place, so often.
fn turns_at<R: Wait>(
    rt: &R,
    actors: &mut Vec<Actor<Relay>>,
    place: usize,
    times: u32,
) -> Result<(), Fail> {
    if place >= actors.len() {
        return Err("no actor".into());
    }
    let actor = &mut actors[place];
    for _ in 0..times {
        turns_of(rt, actor)?;
    }
    Ok(())
}

/// Two actors that send to each other: the first has two tokens, the second four.
fn actors_in_ring(alloc: Global) -> Result<Vec<Actor<Relay>>, Memory> {
    let machines = vec![in alloc; Relay::new(1, 1, 1, 2), Relay::new(1, 1, 1, 4)]?;
    let losses = vec![in alloc; None, None]?;
    let wiring = ring_wiring(alloc)?;
    make_actors(alloc, machines, &wiring, losses, 16)
}

/// Actors in a ring or in a line, the places of some with how many turns they take first, and then
/// the places of those that run, for how many rounds each is to be quiet, and the rounds it takes.
struct Case {
    are_in_ring: bool,
    turns: &'static [(usize, u32)],
    runs: &'static [(u32, u64, u64)],
}

static CASES: [Case; 3] = [
    // An actor of one empty link rests after as many rounds as it is to be quiet.
    Case {
        are_in_ring: false,
        turns: &[],
        runs: &[(1, 200, 200), (2, 1, 1)],
    },
    // The first host's three tokens wait, one on its link and two behind it. The relay takes the
    // one, so in the first round another goes on the link, and only the next round is quiet.
    Case {
        are_in_ring: false,
        turns: &[(0, 3), (1, 1)],
        runs: &[(0, 1, 2)],
    },
    // Two tokens came to the first actor and two are left to it: in each of two rounds it takes one
    // and sends one, and the third is quiet.
    Case {
        are_in_ring: true,
        turns: &[(1, 2)],
        runs: &[(0, 1, 3)],
    },
];

fn cases() -> &'static [Case] {
    &CASES
}

fn actors_of(alloc: Global, case: &Case) -> Result<Vec<Actor<Relay>>, Memory> {
    if case.are_in_ring {
        actors_in_ring(alloc)
    } else {
        actors_in_line(alloc, &[])
    }
}

/// The place of the first run of a case that takes other rounds.
fn wrong_run<R: Wait>(
    rt: &R,
    alloc: Global,
    actors: &mut Vec<Actor<Relay>>,
    case: &Case,
) -> Result<Option<u32>, Fail> {
    for (place, times) in case.turns {
        turns_at(rt, actors, *place, *times)?;
    }
    for (place, quiet, rounds) in case.runs {
        if *quiet == 0 || rounds_of(rt, alloc, actors, *place, *quiet)? != *rounds {
            return Ok(Some(*place));
        }
    }
    Ok(None)
}

fn wrong_run_of<R: Wait>(rt: &R, alloc: Global, case: &Case) -> Result<Option<u32>, Fail> {
    let mut actors = actors_of(alloc, case)?;
    let wrong = wrong_run(rt, alloc, &mut actors, case);
    drop(actors);
    wrong
}

#[test]
fn rounds_until_rest(rt: HostRuntime) -> Result<(), Fail> {
    for case in cases() {
        assert_eq!(rt; wrong_run_of(&rt, rt.alloc(), case)?, None);
    }
    Ok(())
}
