// The merge of two logs, and of actors after some turns.
ghost use Rattle.std.specs.Prelude.{◌≡◌, ◌<◌, ◌≤◌, length, map, IsTrue, IfOk};
ghost use Rattle.std.specs.List.{All};
ghost use Rattle.std.specs.List.Sorted.{IsNonDecreasingBy};
ghost use Rattle.sl_actor.specs.Held.{held};
ghost use Rattle.sl_world.specs.World.{scene};
ghost use Rattle.actor_tests.specs.Lines.{in_line, AreUnderWay};

use crate::actor::{actors_in_line, choices_of, line_wiring, machines_in_line};
use sl_actor::{Actor, Moved};
use sl_machine::{Book, Entry};
use sl_merge::{made_actors_are_wired, merge, sort_book};
use sl_world::{Turn, World};
use std::alloc::{AllocError, Global};
use std::sync::Wait;
use std::test::Fail;
use world_tests::Relay;

fn entry(number: u64, actor: u32, choice: u32) -> Entry
    ensures { result.actor ≡ actor }
{
    Entry {
        number,
        actor,
        choice,
    }
}

/// The log of actor 0, then that of actor 1.
fn two_logs(alloc: Global) -> Result<Book, AllocError>
    ensures { IfOk result (λ b. IsNonDecreasingBy (λ e. e.actor) b.entries) }
{
    Ok(Book {
        entries: vec![in alloc;
            entry(1, 0, 5),
            entry(4, 0, 5),
            entry(1, 1, 6),
            entry(2, 1, 0),
            entry(4, 1, 6),
        ]?,
    })
}

/// Whether the entries of a book are just these.
fn has_entries(book: &Book, entries: &[Entry]) -> bool {
    book.entries.as_slice() == entries
}

/// Both logs in order of number and actor.
fn both_in_order() -> [Entry; 5] {
    [
        entry(1, 0, 5),
        entry(1, 1, 6),
        entry(2, 1, 0),
        entry(4, 0, 5),
        entry(4, 1, 6),
    ]
}

#[test]
fn two_logs_are_merged(rt: HostRuntime) -> Result<(), Fail> {
    let mut book = two_logs(rt.alloc())?;
    sort_book(&mut book)?;
    assert!(rt; has_entries(&book, both_in_order().as_slice()));
    Ok(())
}

/// Turns of actors in a line by their first choice, and what each comes to. The first host sends its
/// three tokens: one goes on its link, and another when the relay has taken that one. The relay after
/// it passes the token on.
static TURNS: [(usize, Moved); 6] = [
    (0, Moved::Did),
    (0, Moved::Did),
    (0, Moved::Did),
    (1, Moved::Did),
    (0, Moved::Offered),
    (2, Moved::Did),
];

fn turns() -> &'static [(usize, Moved)] {
    &TURNS
}

/// What these turns put into the book.
fn merged_entries() -> [Entry; 5] {
    [
        entry(1, 0, 0),
        entry(2, 0, 0),
        entry(2, 1, 0),
        entry(3, 0, 0),
        entry(3, 2, 0),
    ]
}

/// One turn by the first choice of the actor at a place.
fn turn_at<R: Wait>(rt: &R, actors: &mut Vec<Actor<Relay>>, place: usize) -> Result<Moved, Fail>
    requires { AreUnderWay (map held actors.old.items) }
    ensures { AreUnderWay (map held actors.new.items) }
{
    made_actors_are_wired::<Relay>();
    if place >= actors.len() {
        return Err("no actor".into());
    }
    let actor = &mut actors[place];
    if choices_of(actor) == 0 {
        return Err("no choice".into());
    }
    Ok(actor.turn(rt, 0)?)
}

/// Whether no actor has logged more than a hundred turns.
fn are_short(actors: &[Actor<Relay>]) -> bool
    ensures { IsTrue result → All (λ a. length (held a).log ≤ 100) actors.now }
{
    for actor in actors {
        if actor.log().len() > 100 {
            return false;
        }
    }
    true
}

/// Takes the turns, all of which have to go right.
fn take_turns<R: Wait>(rt: &R, actors: &mut Vec<Actor<Relay>>) -> Result<(), Fail>
    requires { AreUnderWay (map held actors.old.items) }
    ensures way { IfOk result (λ _. AreUnderWay (map held actors.new.items)) }
    ensures short { IfOk result (λ _. All (λ a. length (held a).log ≤ 100) actors.new.items) }
{
    for (place, expected) in turns() {
        if turn_at(rt, actors, *place)? != *expected {
            return Err("another turn".into());
        }
    }
    if !are_short(actors.as_slice()) {
        return Err("long log".into());
    }
    Ok(())
}

/// Actors in a line after the turns; the relays' link loses its second put.
fn line_after_turns<R: Wait>(rt: &R, alloc: Global) -> Result<Vec<Actor<Relay>>, Fail>
    ensures way { IfOk result (λ v. AreUnderWay (map held v.items)) }
    ensures short { IfOk result (λ v. All (λ a. length (held a).log ≤ 100) v.items) }
{
    let mut actors = actors_in_line(alloc, &[2])?;
    take_turns(rt, &mut actors)?;
    Ok(actors)
}

/// The world that they are merged to.
fn merged_line<R: Wait>(rt: &R, alloc: Global) -> Result<World<Relay>, Fail>
    ensures { IfOk result (λ w. (scene w).plan ≡ in_line) }
{
    made_actors_are_wired::<Relay>();
    let first = machines_in_line(alloc)?;
    let wiring = line_wiring(alloc)?;
    let actors = line_after_turns(rt, alloc)?;
    Ok(merge(rt, alloc, actors, first.as_slice(), &wiring)?)
}

/// One turn by the first choice of an actor in the line.
fn turn_on(world: &mut World<Relay>, actor: u32) -> Result<Turn, Fail>
    requires { (scene world.old).plan ≡ in_line }
    ensures { (scene world.new).plan ≡ in_line }
{
    if actor >= 4 || world.book().entries.len() > 100 {
        return Err("no such turn".into());
    }
    Ok(world.turn(actor, 0)?)
}

/// How many turns by the first choice of an actor do something before one does not.
fn turns_on(world: &mut World<Relay>, actor: u32) -> Result<u32, Fail>
    requires { (scene world.old).plan ≡ in_line }
    ensures { (scene world.new).plan ≡ in_line }
{
    for turns in 0..10 {
        if turn_on(world, actor)? == Turn::Idle {
            return Ok(turns);
        }
    }
    Ok(10)
}

/// How many turns the relays take, then the last host and then the first.
fn all_turns_on(world: &mut World<Relay>) -> Result<[u32; 4], Fail>
    requires { (scene world.old).plan ≡ in_line }
    ensures { (scene world.new).plan ≡ in_line }
{
    let first = turns_on(world, 1)?;
    let second = turns_on(world, 2)?;
    let last = turns_on(world, 3)?;
    Ok([first, second, last, turns_on(world, 0)?])
}

/// How many puts the relays' link lost.
fn lost_between(world: &World<Relay>) -> u64
    requires { (scene world.now).plan ≡ in_line }
{
    world.lost(1)
}

/// Whether just so many tokens came to each machine, with so many hops the last of them.
fn have_seen(machines: &[Relay], seen: &[(u32, u32)]) -> bool {
    if machines.len() != seen.len() {
        return false;
    }
    for i in 0..machines.len() {
        let machine = &machines[i];
        if (machine.seen, machine.last) != seen[i] {
            return false;
        }
    }
    true
}

/// Whether the book of a world has so many entries, of which these are the first, and just so many
/// tokens came to each of its machines, with so many hops the last of them.
fn ends_as(world: World<Relay>, count: usize, entries: &[Entry], seen: &[(u32, u32)]) -> bool {
    let (machines, book) = world.into_book();
    book.entries.len() == count
        && book.entries.as_slice().starts_with(entries)
        && have_seen(machines.as_slice(), seen)
}

/// The book has the entries of all logs, in order of number and actor; the machines are the actors',
/// and what was put and not taken is on the links.
#[test]
fn actors_are_merged(rt: HostRuntime) -> Result<(), Fail> {
    let world = merged_line(&rt, rt.alloc())?;
    let seen = [(0, 0), (1, 3), (1, 2), (0, 0)];
    assert!(rt; ends_as(world, 5, merged_entries().as_slice(), &seen));
    Ok(())
}

/// Two tokens are on the first link, one in the channel and one that waited for room; the relay loses
/// the first of them.
#[test]
fn a_merged_world_goes_on(rt: HostRuntime) -> Result<(), Fail> {
    let mut world = merged_line(&rt, rt.alloc())?;
    let turns = all_turns_on(&mut world);
    let lost = lost_between(&world);
    let seen = [(0, 0), (3, 1), (2, 0), (2, 0)];
    let right = ends_as(world, 10, merged_entries().as_slice(), &seen);
    assert_eq!(rt; (turns?, lost, right), ([2, 1, 2, 0], 1, true));
    Ok(())
}
