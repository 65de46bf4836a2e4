// What histories tell, over slices of steps, the oldest first.
ghost use Rattle.std.specs.Prelude.{◌≡◌, ◌≤◌, min, ◌++◌, length, reverse, map, OnOk};
ghost use Rattle.std.specs.Prelude.{IfOk, option_and_then};
ghost use Rattle.std.specs.List.{fold};
ghost use Rattle.sl_model.specs.History.{stamp_of, stamp_taken, id, last, taken, put, on_link};
ghost use Rattle.sl_model.specs.History.{done_of};
ghost use Rattle.sl_model.specs.Knowledge.{known, puts_on};

use crate::message::add_copy_if;
use sl_machine::Memory;
use sl_model::{Message, Put, Step};
use std::alloc::Global;

/// The stamp of a message, if it has one.
pub fn stamp_of(message: &Message) -> Option<u64>
    ensures { result ≡ stamp_of message.now }
{
    match message {
        Message::Data(stamp, _) => Some(*stamp),
        Message::Probe(stamp) => Some(*stamp),
        Message::Init(stamp) => Some(*stamp),
        _ => None,
    }
}

/// The stamp that a step took, if it took one.
pub fn stamp_taken(step: &Step) -> Option<u64>
    ensures { result ≡ stamp_taken step.now }
{
    match &step.taken {
        Some(message) => stamp_of(message),
        None => None,
    }
}

/// The id of a unit.
pub fn id(steps: &[Step]) -> u64
    ensures { result ≡ id (reverse steps.now) }
{
    let mut id = 0;
    for step in steps {
        id = stamp_taken(step).unwrap_or(0).max(id);
    }
    id
}

/// The stamp of the last stamped message that was taken by a choice.
pub fn last(choice: u32, steps: &[Step]) -> u64
    ensures { result ≡ last choice (reverse steps.now) }
{
    let mut last = 0;
    for step in steps {
        if step.choice == choice {
            last = stamp_taken(step).unwrap_or(last);
        }
    }
    last
}

/// How many steps have a choice.
pub fn taken(choice: usize, steps: &[Step]) -> usize
    ensures value { result ≡ taken choice (reverse steps.now) }
    ensures bound { result ≤ length steps.now }
{
    let mut taken = 0;
    for step in steps {
        if step.choice as usize == choice {
            taken += 1;
        }
    }
    taken
}

/// Adds the messages that are put on a link.
fn add_on_link(
    alloc: Global,
    messages: &mut Vec<Message>,
    link: u32,
    puts: &[Put],
) -> Result<(), Memory>
    ensures { OnOk result (messages.new.items ≡ messages.old.items ++ on_link link puts.now) }
{
    for put in puts {
        add_copy_if(alloc, messages, put.link == link, &put.message)?;
    }
    Ok(())
}

/// All messages put on a link.
pub fn put(alloc: Global, link: u32, steps: &[Step]) -> Result<Vec<Message>, Memory>
    ensures { IfOk result (λ messages. messages.items ≡ put link (reverse steps.now)) }
{
    let mut messages = Vec::new(alloc);
    for step in steps {
        add_on_link(alloc, &mut messages, link, &step.puts.items)?;
    }
    Ok(messages)
}

fn done_taken(place: u32, step: &Step) -> Option<u64>
    ensures { result ≡ option_and_then (done_of place) step.now.taken }
{
    match &step.taken {
        Some(Message::Done(unit, count)) => { if place == *unit { Some(*count) } else { None } }
        _ => None,
    }
}

/// How many steps of the unit at a place the observer knows.
pub fn known(place: u32, steps: &[Step]) -> u64
    ensures { result ≡ known place (reverse steps.now) }
{
    let mut known = 0;
    for step in steps {
        known = done_taken(place, step).unwrap_or(known);
    }
    known
}

/// Whether something is put on a link.
pub fn puts_on(link: u32, puts: &[Put]) -> bool
    ensures { result ≡ puts_on link puts.now }
{
    let mut found = false;
    for put in puts {
        found = found || put.link == link;
    }
    found
}

/// The least of a number and the last stamps of some choices.
pub fn least_last(start: u64, choices: &[u32], steps: &[Step]) -> u64
    ensures { result ≡ fold min start (map (λ c. last c (reverse steps.now)) choices.now) }
{
    let mut least = start;
    for choice in choices {
        least = least.min(last(*choice, steps));
    }
    least
}
