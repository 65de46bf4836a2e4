// Machines of a ring that run in threads, and the world that they come to.
ghost use Rattle.std.specs.Prelude.{◌≡◌, ◌≤◌, ◌∷◌, [], length, IsTrue, IfOk};
ghost use Rattle.std.specs.List.{All};
ghost use Rattle.sl_machine.specs.Plan.{HasChoice};
ghost use Rattle.sl_world.specs.World.{scene};
ghost use Rattle.thread_tests.specs.Ring.{IsRing};

use super::ring::{losses, machines, ring_wiring};
use crate::passer::Passer;
use sl_actor::{FreeGate, Gate};
use sl_machine::{Book, Memory, Wiring};
use sl_threads::run_machines;
use sl_world::{Turn, World};
use std::alloc::{AllocError, Global};
use std::sync::Wait;
use std::test::Fail;
use std::thread::Threads;

/// How many machines stand in the ring, how many tokens the first sends, which of its puts are lost,
/// and how many tokens come to all machines together.
static CASES: [(u32, u32, &[u64], u32); 5] = [
    (0, 0, &[], 0),
    (1, 3, &[], 3),
    (2, 5, &[1], 4),
    (5, 4, &[2, 3], 8),
    (16, 3, &[], 45),
];

fn cases() -> &'static [(u32, u32, &'static [u64], u32)] {
    &CASES
}

/// The plans of machines that all try their link and then to send.
fn plans(alloc: Global, count: u32) -> Result<Vec<Vec<u32>>, AllocError>
    ensures each { IfOk result (λ v. length v.items ≡ count) }
    ensures alike { IfOk result (λ v. All (λ p. p.items ≡ 0 ∷ 1 ∷ []) v.items) }
{
    let mut plans = Vec::new(alloc);
    for _ in 0..count {
        let plan = vec![in alloc; 0, 1]?;
        plans.push(plan)?;
    }
    Ok(plans)
}

/// The world to which the machines of a ring come.
pub fn run_ring<R: Threads + Wait + Sync, G: Gate + Sync>(
    rt: &R,
    alloc: Global,
    wiring: &Wiring,
    count: u32,
    tokens: u32,
    drops: &[u64],
    gate: &G,
) -> Result<World<Passer>, Memory>
    requires ring { IsRing count wiring.now }
    requires few { count ≤ 100 }
    ensures { IfOk result (λ w. (scene w).plan ≡ wiring.now) }
{
    let (machines, first) = machines(alloc, count, tokens)?;
    let losses = losses(alloc, count, drops)?;
    let plans = plans(alloc, count)?;
    run_machines(
        rt,
        alloc,
        machines,
        first.as_slice(),
        wiring,
        losses,
        plans,
        gate,
    )
}

/// Whether an actor has a choice.
fn has_choice(wiring: &Wiring, actor: u32, choice: u32) -> bool
    ensures { IsTrue result → HasChoice wiring.now actor choice }
{
    let actor = actor as usize;
    if actor >= wiring.in_counts.len() || actor >= wiring.action_counts.len() {
        return false;
    }
    choice < wiring.in_counts[actor].saturating_add(wiring.action_counts[actor])
}

/// One turn of an actor. Whether it did something.
fn turn(world: &mut World<Passer>, wiring: &Wiring, actor: u32, choice: u32) -> Result<bool, Fail>
    requires { (scene world.old).plan ≡ wiring.now }
    ensures { (scene world.new).plan ≡ wiring.now }
{
    if !has_choice(wiring, actor, choice) || world.book().entries.len() > 1000 {
        return Err("no turn".into());
    }
    Ok(world.turn(actor, choice)? == Turn::Did)
}

/// A turn by each link. Whether any did something.
fn pass(world: &mut World<Passer>, wiring: &Wiring, count: u32) -> Result<bool, Fail>
    requires { (scene world.old).plan ≡ wiring.now }
    ensures { (scene world.new).plan ≡ wiring.now }
{
    let mut moved = false;
    for actor in 0..count {
        if turn(world, wiring, actor, 0)? {
            moved = true;
        }
    }
    Ok(moved)
}

/// Passes until no message is on a link.
fn settle(world: &mut World<Passer>, wiring: &Wiring, count: u32) -> Result<(), Fail>
    requires { (scene world.old).plan ≡ wiring.now }
    ensures { (scene world.new).plan ≡ wiring.now }
{
    for _ in 0..1000 {
        if !pass(world, wiring, count)? {
            break;
        }
    }
    Ok(())
}

/// How many puts the first link lost.
fn lost_first(world: &World<Passer>, wiring: &Wiring) -> u64
    requires { (scene world.now).plan ≡ wiring.now }
{
    if wiring.links.len() == 0 {
        return 0;
    }
    world.lost(0)
}

/// How many entries of a book are by the machines' own action.
fn sends(book: &Book) -> u32 {
    let mut sends: u32 = 0;
    for entry in &book.entries {
        if entry.choice == 1 {
            sends = sends.saturating_add(1);
        }
    }
    sends
}

/// How many tokens came to machines.
fn arrivals(machines: &[Passer]) -> u32 {
    let mut seen: u32 = 0;
    for machine in machines {
        seen = seen.saturating_add(machine.seen);
    }
    seen
}

/// Whether the machines of a ring send all tokens in threads, and what is then on the links comes to
/// the others: so many in all, each by an entry of the book, but for the puts that are lost.
fn adds_up<R: Threads + Wait + Sync>(
    rt: &R,
    alloc: Global,
    count: u32,
    tokens: u32,
    drops: &[u64],
    came: u32,
) -> Result<bool, Fail> {
    if count > 100 {
        return Err("too many machines".into());
    }
    let wiring = ring_wiring(alloc, count)?;
    let mut world = run_ring(rt, alloc, &wiring, count, tokens, drops, &FreeGate)?;
    let sent = sends(world.book());
    settle(&mut world, &wiring, count)?;
    let lost = lost_first(&world, &wiring);
    let (machines, book) = world.into_book();
    let all = tokens.saturating_add(came) as usize;
    let right = arrivals(machines.as_slice()) == came && book.entries.len() == all;
    Ok(right && sent == tokens && lost == drops.len() as u64 && machines.len() == count as usize)
}

#[test]
fn machines_in_threads(rt: HostRuntime) -> Result<(), Fail> {
    for (count, tokens, drops, came) in cases() {
        assert!(rt; adds_up(&rt, rt.alloc(), *count, *tokens, drops, *came)?);
    }
    Ok(())
}
