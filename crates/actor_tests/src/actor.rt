// Actors in a line: a host, two relays and a host.
ghost use Rattle.std.specs.Prelude.{◌≡◌, ◌+◌, ◌≤◌, map, IfOk};
ghost use Rattle.sl_machine.specs.Fit.{HasCounts};
ghost use Rattle.sl_actor.specs.Held.{held};
ghost use Rattle.world_tests.specs.Relays.{relay_state, relay_counts};
ghost use Rattle.actor_tests.specs.Lines.{in_line, states_in_line, AreUnderWay};

use sl_actor::{Actor, FreeGate, Gate, Moved, Rest, make_actors};
use sl_loss::Loss;
use sl_machine::{Memory, Wiring};
use sl_merge::made_actors_are_wired;
use std::alloc::{AllocError, Global};
use std::sync::Wait;
use std::test::Fail;
use std::thread;
use world_tests::{Relay, link};

/// The wiring of four actors in a line.
pub fn line_wiring(alloc: Global) -> Result<Wiring, AllocError>
    ensures { IfOk result (λ w. w ≡ in_line) }
{
    Ok(Wiring {
        links: vec![in alloc; link(0, 1), link(1, 2), link(2, 3)]?,
        in_counts: vec![in alloc; 0, 1, 1, 1]?,
        out_counts: vec![in alloc; 1, 1, 1, 0]?,
        action_counts: vec![in alloc; 1, 0, 0, 0]?,
    })
}

/// Machines in a line, of which the first has three tokens.
pub fn machines_in_line(alloc: Global) -> Result<Vec<Relay>, AllocError>
    ensures states { IfOk result (λ v. map relay_state v.items ≡ states_in_line) }
    ensures counts { IfOk result (λ v. HasCounts relay_counts in_line v.items) }
{
    Ok(vec![in alloc;
        Relay::new(0, 1, 1, 3),
        Relay::new(1, 1, 0, 0),
        Relay::new(1, 1, 0, 0),
        Relay::new(1, 0, 0, 0),
    ]?)
}

/// The first host has three tokens, and the relays' link loses these puts.
pub fn actors_in_line(alloc: Global, drops: &[u64]) -> Result<Vec<Actor<Relay>>, Memory>
    ensures { IfOk result (λ v. AreUnderWay (map held v.items)) }
{
    made_actors_are_wired::<Relay>();
    let loss = Loss::new(alloc, 1, 1, 0, drops)?;
    let losses = vec![in alloc; None, Some(loss), None]?;
    let machines = machines_in_line(alloc)?;
    let wiring = line_wiring(alloc)?;
    let actors = make_actors(alloc, machines, &wiring, losses, 1)?;
    Ok(actors)
}

/// How many choices an actor has.
pub fn choices_of(actor: &Actor<Relay>) -> u32
    ensures { result ≤ (held actor.now).counts.ins + (held actor.now).counts.actions }
{
    actor.machine().choices()
}

/// One turn by each choice of an actor. Whether anything moved.
pub fn turns_of<R: Wait>(rt: &R, actor: &mut Actor<Relay>) -> Result<bool, Memory> {
    let mut moved = false;
    let choices = choices_of(actor);
    for choice in 0..choices {
        if actor.turn(rt, choice)? != Moved::Idle {
            moved = true;
        }
    }
    Ok(moved)
}

/// How often one turn by each choice of an actor moves something, until it does not.
fn moves_of<R: Wait>(rt: &R, actor: &mut Actor<Relay>) -> Result<u32, Memory> {
    for moves in 0..10 {
        if !turns_of(rt, actor)? {
            return Ok(moves);
        }
    }
    Ok(10)
}

/// One turn by each choice of each actor. Whether anything moved.
fn pass<R: Wait>(rt: &R, actors: &mut Vec<Actor<Relay>>) -> Result<bool, Memory> {
    let mut moved = false;
    for i in 0..actors.len() {
        let actor = &mut actors[i];
        if turns_of(rt, actor)? {
            moved = true;
        }
    }
    Ok(moved)
}

/// Passes until nothing moves any more.
fn settle<R: Wait>(rt: &R, actors: &mut Vec<Actor<Relay>>) -> Result<(), Memory> {
    for _ in 0..100 {
        if !pass(rt, actors)? {
            break;
        }
    }
    Ok(())
}

/// Whether just so many tokens came to each actor.
fn have_seen(actors: &[Actor<Relay>], seen: &[u32]) -> bool {
    if actors.len() != seen.len() {
        return false;
    }
    for i in 0..actors.len() {
        if actors[i].machine().seen != seen[i] {
            return false;
        }
    }
    true
}

/// How many puts the links of an actor lost, and whether a message waits in an outbox of it.
fn lost_by_one(actor: Actor<Relay>) -> (u64, bool) {
    let mut lost = 0;
    let mut waits = false;
    let parts = actor.into_parts();
    for out in &parts.outs {
        waits = waits || !out.outbox.is_empty();
        lost = u64::saturating_add(lost, out.lost);
    }
    (lost, waits)
}

/// The same of actors.
fn lost_by(actors: Vec<Actor<Relay>>) -> (u64, bool) {
    let mut lost = 0;
    let mut waits = false;
    for actor in actors {
        let one = lost_by_one(actor);
        lost = u64::saturating_add(lost, one.0);
        waits = waits || one.1;
    }
    (lost, waits)
}

/// Runs an actor over all its choices.
pub fn run_all<R: Wait, G: Gate>(
    rt: &R,
    alloc: Global,
    actor: &mut Actor<Relay>,
    steps: u64,
    quiet: u64,
    gate: &G,
) -> Result<Rest, Memory>
    requires { 1 ≤ quiet }
{
    let mut plan = Vec::new(alloc);
    let choices = choices_of(actor);
    for choice in 0..choices {
        plan.push(choice)?;
    }
    actor.run(rt, plan.as_slice(), steps, quiet, gate)
}

/// Runs of the first host: their steps, and how they end.
static RUNS: [(u64, Rest); 3] = [(2, Rest::Spent), (2, Rest::Rested), (0, Rest::Spent)];

fn runs() -> &'static [(u64, Rest)] {
    &RUNS
}

/// The place of the first run that went wrong.
fn first_wrong<R: Wait>(
    rt: &R,
    alloc: Global,
    actor: &mut Actor<Relay>,
    runs: &[(u64, Rest)],
) -> Result<Option<usize>, Memory> {
    for i in 0..runs.len() {
        let (steps, rest) = runs[i];
        if run_all(rt, alloc, actor, steps, 2, &FreeGate)? != rest {
            return Ok(Some(i));
        }
    }
    Ok(None)
}

/// Whether the first actor's runs go as told, and its log has a turn for each token.
fn first_rests<R: Wait>(
    rt: &R,
    alloc: Global,
    actors: &mut Vec<Actor<Relay>>,
) -> Result<bool, Memory> {
    if actors.is_empty() {
        return Ok(false);
    }
    let host = &mut actors[0];
    let wrong = first_wrong(rt, alloc, host, runs())?;
    Ok(wrong.is_none() && host.log() == [(1, 0), (2, 0), (3, 0)].as_slice())
}

#[test]
fn an_actor_rests(rt: HostRuntime) -> Result<(), Fail> {
    let mut actors = actors_in_line(rt.alloc(), &[])?;
    let right = first_rests(&rt, rt.alloc(), &mut actors);
    drop(actors);
    assert!(rt; right?);
    Ok(())
}

fn run_one<R: Wait>(rt: &R, alloc: Global, mut actor: Actor<Relay>) -> Actor<Relay> {
    let _ = run_all(rt, alloc, &mut actor, 1000, 2, &FreeGate);
    actor
}

/// Whether three tokens come to each actor but the first, where turns deliver what is on its way.
fn come_by_turns<R: Wait>(rt: &R, mut actors: Vec<Actor<Relay>>) -> Result<bool, Memory> {
    settle(rt, &mut actors)?;
    Ok(have_seen(actors.as_slice(), &[0, 3, 3, 3]))
}

/// Each actor runs in a thread of its own; what is then still on its way is delivered by turns.
#[test]
fn a_thread_for_each(rt: HostRuntime) -> Result<(), Fail> {
    let alloc = rt.alloc();
    let actors = actors_in_line(alloc, &[])?;
    let actors = thread::map_vec(&rt, actors, &|actor| run_one(&rt, alloc, actor))?;
    assert!(rt; come_by_turns(&rt, actors)?);
    Ok(())
}

/// The puts that the relays' link loses, and how many tokens come to each actor.
static CASES: [(&[u64], [u32; 4]); 3] = [
    (&[], [0, 3, 3, 3]),
    (&[2], [0, 3, 2, 2]),
    (&[1, 2, 3], [0, 3, 0, 0]),
];

fn cases() -> &'static [(&'static [u64], [u32; 4])] {
    &CASES
}

/// How many moves the first actor makes. Then all go on until nothing moves any more.
fn moves_and_settle<R: Wait>(rt: &R, actors: &mut Vec<Actor<Relay>>) -> Result<u32, Memory> {
    if actors.is_empty() {
        return Ok(10);
    }
    let moves = moves_of(rt, &mut actors[0])?;
    settle(rt, actors)?;
    Ok(moves)
}

/// Whether the first actor makes three moves, these many tokens come to each actor, and each put
/// that is to be lost is lost and no other.
fn delivers<R: Wait>(rt: &R, alloc: Global, drops: &[u64], seen: &[u32]) -> Result<bool, Memory> {
    let mut actors = actors_in_line(alloc, drops)?;
    let moves = moves_and_settle(rt, &mut actors);
    let came = have_seen(actors.as_slice(), seen);
    let lost = lost_by(actors);
    Ok(moves? == 3 && came && lost == (drops.len() as u64, false))
}

#[test]
fn packets_are_delivered(rt: HostRuntime) -> Result<(), Fail> {
    for (drops, seen) in cases() {
        assert!(rt; delivers(&rt, rt.alloc(), drops, seen.as_slice())?);
    }
    Ok(())
}
