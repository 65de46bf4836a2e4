// A world of two machines in a ring, turn by turn.
ghost use Rattle.std.specs.Prelude.{◌≡◌, ◌<◌, ◌≤◌, ◌^◌, length, map, IfOk, All};
ghost use Rattle.sl_machine.specs.Fit.{HasCounts};
ghost use Rattle.sl_world.specs.World.{scene};
ghost use Rattle.world_tests.specs.Plans.{ring};
ghost use Rattle.world_tests.specs.Relays.{relay_state, relay_counts};

use crate::relay::{Relay, ring_wiring};
use sl_loss::Loss;
use sl_machine::{Book, Entry, Memory, Wiring};
use sl_world::{Turn, World, every_schedule};
use std::alloc::{AllocError, Global};
use std::test::Fail;

/// Actor 0 has two tokens, and the second put on the link back to it is lost.
fn ring_world(alloc: Global) -> Result<World<Relay>, Memory>
    ensures { IfOk result (λ w. (scene w).plan ≡ ring) }
{
    let loss = Loss::new(alloc, 1, 0, 0, &[2])?;
    let losses = vec![in alloc; Some(loss), None]?;
    let machines = vec![in alloc; Relay::new(1, 1, 1, 2), Relay::new(1, 1, 1, 0)]?;
    let wiring = ring_wiring(alloc)?;
    World::new(alloc, machines, &wiring, losses)
}

/// Turns: the actor, its choice, and whether the turn does something.
static TURNS_BEFORE: [(u32, u32, Turn); 4] = [
    (0, 0, Turn::Idle),
    (1, 1, Turn::Idle),
    (0, 1, Turn::Did),
    (0, 1, Turn::Did),
];

fn turns_before() -> &'static [(u32, u32, Turn)] {
    &TURNS_BEFORE
}

/// The same after the run of a schedule.
static TURNS_AFTER: [(u32, u32, Turn); 3] = [
    (1, 0, Turn::Idle),
    (0, 0, Turn::Did),
    (0, 0, Turn::Idle),
];

fn turns_after() -> &'static [(u32, u32, Turn)] {
    &TURNS_AFTER
}

fn turn(world: &mut World<Relay>, actor: u32, choice: u32) -> Result<Turn, Fail>
    requires { (scene world.old).plan ≡ ring }
    ensures { (scene world.new).plan ≡ ring }
{
    if actor >= 2 || choice >= 2 || world.book().entries.len() > 100 {
        return Err("no such turn".into());
    }
    Ok(world.turn(actor, choice)?)
}

/// Whether these turns do what they should.
fn go_right(world: &mut World<Relay>, turns: &[(u32, u32, Turn)]) -> Result<bool, Fail>
    requires { (scene world.old).plan ≡ ring }
    ensures { (scene world.new).plan ≡ ring }
{
    for (actor, choice, expected) in turns {
        if turn(world, *actor, *choice)? != *expected {
            return Ok(false);
        }
    }
    Ok(true)
}

/// The second token goes to actor 1, which sends none by itself, and so does the first. The links of
/// the schedule are looked up before, or not.
fn run_three(alloc: Global, world: &mut World<Relay>, by_links: bool) -> Result<(), Fail>
    requires { (scene world.old).plan ≡ ring }
    ensures { (scene world.new).plan ≡ ring }
{
    if world.book().entries.len() > 100 {
        return Err("too many turns".into());
    }
    let schedule = [(1, 0), (0, 1), (1, 0)];
    if by_links {
        let links = world.look_up(alloc, &schedule)?;
        world.run(&schedule, Some(&links))?;
    } else {
        world.run(&schedule, None)?;
    }
    Ok(())
}

fn lost(world: &World<Relay>) -> (u64, u64)
    requires { (scene world.now).plan ≡ ring }
{
    (world.lost(0), world.lost(1))
}

/// Whether turns go right before the run of a schedule and after it.
fn play(alloc: Global, world: &mut World<Relay>, by_links: bool) -> Result<bool, Fail>
    requires { (scene world.old).plan ≡ ring }
    ensures { (scene world.new).plan ≡ ring }
{
    let before = go_right(world, turns_before())?;
    run_three(alloc, world, by_links)?;
    Ok(go_right(world, turns_after())? && before)
}

/// Whether a book has just so many entries, numbered from 1 on.
fn is_numbered(book: &Book, count: usize) -> bool {
    for i in 0..book.entries.len() {
        if book.entries[i].number != (i as u64).wrapping_add(1) {
            return false;
        }
    }
    book.entries.len() == count
}

/// Whether a token with so many hops came last to each machine.
fn saw_last(machines: &[Relay], hops: u32) -> bool {
    for machine in machines {
        if machine.last != hops {
            return false;
        }
    }
    true
}

/// Whether both machines saw a token with one hop last, and five turns are in the book.
fn ends_right(world: World<Relay>) -> bool {
    let (machines, book) = world.into_book();
    machines.len() == 2 && saw_last(machines.as_slice(), 1) && is_numbered(&book, 5)
}

/// Whether tokens go round in the ring, where links are looked up or not.
fn goes_round(alloc: Global, by_links: bool) -> Result<bool, Fail> {
    let mut world = ring_world(alloc)?;
    let played = play(alloc, &mut world, by_links);
    let lost = lost(&world);
    let right = ends_right(world);
    Ok(played? && lost == (1, 0) && right)
}

#[test]
fn tokens_go_round(rt: HostRuntime) -> Result<(), Fail> {
    let by_links = goes_round(rt.alloc(), true)?;
    let without = goes_round(rt.alloc(), false)?;
    assert_eq!(rt; (by_links, without), (true, true));
    Ok(())
}

/// What is on the link back of a ring that goes on: how many puts were lost there, and so many
/// messages, from this one down.
#[derive(Clone, Copy)]
struct Back {
    lost: u64,
    first: u32,
    count: u32,
}

/// What is on the links of the ring when it goes on, where no further put will be lost.
struct LinksAgain {
    lost: Vec<u64>,
    rests: Vec<Vec<u32>>,
    losses: Vec<Option<Loss>>,
    wiring: Wiring,
}

/// The messages on the link back, and none on the other.
fn messages(alloc: Global, back: &Back) -> Result<Vec<Vec<u32>>, AllocError>
    ensures { IfOk result (λ v. length v.items ≡ 2) }
{
    let mut rest = Vec::new(alloc);
    for behind in 0..back.count {
        rest.push(back.first.saturating_sub(behind))?;
    }
    Ok(vec![in alloc; rest, Vec::new(alloc)]?)
}

fn links_with(alloc: Global, back: &Back) -> Result<LinksAgain, AllocError>
    ensures lost { IfOk result (λ l. length l.lost.items ≡ 2) }
    ensures rests { IfOk result (λ l. length l.rests.items ≡ 2) }
    ensures losses { IfOk result (λ l. length l.losses.items ≡ 2) }
    ensures wiring { IfOk result (λ l. l.wiring ≡ ring) }
{
    let rests = messages(alloc, back)?;
    let lost = vec![in alloc; back.lost, 0]?;
    let losses = vec![in alloc; None, None]?;
    let wiring = ring_wiring(alloc)?;
    Ok(LinksAgain {
        lost,
        rests,
        losses,
        wiring,
    })
}

/// The ring that goes on from machines and a book, with this on the link back.
fn ring_on(
    alloc: Global,
    machines: Vec<Relay>,
    book: Book,
    back: &Back,
) -> Result<World<Relay>, Memory>
    requires machines { HasCounts relay_counts ring machines.items }
    requires book { length book.entries < 2 ^ 40 }
    requires numbers { All (λ e. e.number ≤ length book.entries) book.entries }
    ensures plan { IfOk result (λ w. (scene w).plan ≡ ring) }
    ensures states { IfOk result (λ w. (scene w).states ≡ map relay_state machines.items) }
{
    let LinksAgain {
        lost,
        rests,
        losses,
        wiring,
    } = links_with(alloc, back)?;
    World::resume(alloc, machines, &wiring, losses, lost, rests, book)
}

/// The ring with machines without tokens and a book of one turn of the first.
fn ring_later(alloc: Global, back: &Back) -> Result<World<Relay>, Memory>
    ensures plan { IfOk result (λ w. (scene w).plan ≡ ring) }
    ensures states { IfOk result (λ w. length (scene w).states ≡ 2) }
{
    let first = Entry {
        number: 1,
        actor: 0,
        choice: 1,
    };
    let entries = vec![in alloc; first]?;
    let machines = vec![in alloc; Relay::new(1, 1, 1, 0), Relay::new(1, 1, 1, 0)]?;
    ring_on(alloc, machines, Book { entries }, back)
}

/// Whether actor 0 takes so many messages.
fn takes(world: &mut World<Relay>, count: usize) -> Result<bool, Fail>
    requires plan { (scene world.old).plan ≡ ring }
    requires states { length (scene world.old).states ≡ 2 }
    ensures plan { (scene world.new).plan ≡ ring }
    ensures states { length (scene world.new).states ≡ 2 }
{
    every_schedule::<Relay>();
    for _i in 0..count {
        if world.book().entries.len() > 1000 {
            return Err("too many turns".into());
        }
        if world.turn(0, 0)? != Turn::Did {
            return Ok(false);
        }
    }
    Ok(true)
}

/// So many messages are on the link back, from this one down; actor 0 takes so many of them, and
/// this one last.
type Case = (u32, u32, usize, u32);

static CASES: [Case; 6] = [
    (4, 2, 1, 4),
    (300, 300, 1, 300),
    (300, 300, 2, 299),
    (300, 300, 3, 298),
    (300, 300, 299, 2),
    (300, 300, 300, 1),
];

fn cases() -> &'static [Case] {
    &CASES
}

/// Whether seven lost puts are known, actor 0 takes so many messages and this one last, and the
/// book goes on.
fn takes_in_order(world: &mut World<Relay>, count: usize, last: u32) -> Result<bool, Fail>
    requires plan { (scene world.old).plan ≡ ring }
    requires states { length (scene world.old).states ≡ 2 }
{
    let known = lost(world) == (7, 0);
    let took = takes(world, count)?;
    let book = is_numbered(world.book(), count.saturating_add(1));
    Ok(known && took && book && world.machine(0).last == last)
}

fn goes_on(alloc: Global, case: &Case) -> Result<bool, Fail> {
    let (first, count, taken, last) = *case;
    let back = Back {
        lost: 7,
        first,
        count,
    };
    let mut world = ring_later(alloc, &back)?;
    takes_in_order(&mut world, taken, last)
}

#[test]
fn a_world_goes_on(rt: HostRuntime) -> Result<(), Fail> {
    for case in cases() {
        assert!(rt; goes_on(rt.alloc(), case)?);
    }
    Ok(())
}

/// Whether a world sends the second token, the last one, and goes on with the book.
fn sends_last(world: &mut World<Relay>) -> Result<bool, Fail>
    requires { (scene world.old).plan ≡ ring }
{
    let second = turn(world, 0, 1)?;
    let third = turn(world, 0, 1)?;
    Ok(second == Turn::Did && third == Turn::Idle && is_numbered(world.book(), 2))
}

/// Sends the first token.
fn send_first(world: &mut World<Relay>) -> Result<(), Fail>
    requires { (scene world.old).plan ≡ ring }
    ensures plan { (scene world.new).plan ≡ ring }
    ensures book { IfOk result (λ _. length (scene world.new).book ≤ 100) }
{
    if turn(world, 0, 1)? != Turn::Did || world.book().entries.len() > 100 {
        return Err("another turn".into());
    }
    Ok(())
}

/// What the ring gives after its first turn.
fn parts_of_first(alloc: Global) -> Result<(Vec<Relay>, Book), Fail>
    ensures machines { IfOk result (λ r. HasCounts relay_counts ring r.0.items) }
    ensures book { IfOk result (λ r. length r.1.entries ≤ 100) }
    ensures numbers { IfOk result (λ r. All (λ e. e.number ≤ length r.1.entries) r.1.entries) }
{
    let mut world = ring_world(alloc)?;
    send_first(&mut world)?;
    Ok(world.into_book())
}

fn goes_on_from_another(alloc: Global) -> Result<bool, Fail> {
    let none = Back {
        lost: 0,
        first: 0,
        count: 0,
    };
    let (machines, book) = parts_of_first(alloc)?;
    let mut again = ring_on(alloc, machines, book, &none)?;
    sends_last(&mut again)
}

#[test]
fn a_world_goes_on_from_another(rt: HostRuntime) -> Result<(), Fail> {
    assert!(rt; goes_on_from_another(rt.alloc())?);
    Ok(())
}
