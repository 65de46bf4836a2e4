// What a control plane knows of the units that it serves, and what it puts.
ghost use Rattle.std.specs.Prelude.{◌≡◌, [], ◌∷◌, ◌++◌, ◌&&◌, ◌<◌, length, reverse, flat_map};
ghost use Rattle.std.specs.Prelude.{OnOk, IfOk, if◌then◌else◌, ◌==◌, Option};
ghost use Rattle.std.specs.List.{All};
ghost use Rattle.sl_layout.specs.Net.{links_out, action_choice, unit_place};
ghost use Rattle.sl_layout.specs.Serving.{ServedUnit, serving, served};
ghost use Rattle.sl_model.specs.Knowledge.{is_outstanding, is_again, is_swept, asks};
ghost use Rattle.sl_model.specs.Puts.{send, poll_puts, dump_answer, control_puts};

use crate::sends::{Putter, add_out};
use crate::tell::{put, puts_on, taken};
use crate::wires::{action_choice, links_out};
use sl_machine::Memory;
use sl_model::{Message, Put, Step};
use sl_net::{Net, Sort, choice_from};
use std::alloc::Global;
use std::marker::Model;

/// A unit that a control plane serves, by its actor's number; the choices by which its notices
/// and its dumps are taken; the link of the polls to it.
#[derive(Drop)]
pub struct Serving {
    unit: u32,
    notice: u32,
    dump: u32,
    poll: u32,
}

impl Model for Serving {
    ghost use Rattle.sl_layout.specs.Serving.{ServedUnit};

    ghost Value = { ServedUnit };

    ghost view = { λ s. record { unit = s.unit; notice = s.notice; dump = s.dump; poll = s.poll } };
}

fn serve(alloc: Global, net: &Net, actor: u32, link: u32) -> Result<Serving, Memory>
    requires actor { actor < length net.now.actors }
    requires link { link < length net.now.links }
    ensures serving { IfOk result (λ one. one ≡ serving net.now actor link) }
    ensures unit { IfOk result (λ one. one.unit < length net.now.actors) }
{
    let unit = net.link(link).to;
    Ok(Serving {
        unit,
        notice: choice_from(alloc, net, actor, unit, Sort::Notice)?,
        dump: choice_from(alloc, net, actor, unit, Sort::Dump)?,
        poll: link,
    })
}

/// The units that a control plane serves, in order.
pub fn served(alloc: Global, net: &Net, actor: u32) -> Result<Vec<Serving>, Memory>
    requires { actor < length net.now.actors }
    ensures served { IfOk result (λ list. list.items ≡ served net.now actor) }
    ensures units { IfOk result (λ list. All (λ v. v.unit < length net.now.actors) list.items) }
{
    let polls = links_out(alloc, net, actor, Sort::Poll)?;
    let mut list = Vec::new(alloc);
    for poll in &polls {
        list.push(serve(alloc, net, actor, *poll)?)?;
    }
    Ok(list)
}

fn is_outstanding(alloc: Global, one: &Serving, steps: &[Step]) -> Result<bool, Memory>
    ensures { IfOk result (λ yes. yes ≡ is_outstanding one.now (reverse steps.now)) }
{
    Ok(taken(one.dump as usize, steps) < put(alloc, one.poll, steps)?.len())
}

fn asks(sweep: usize, one: &Serving, choice: u32, taken: &Option<Message>) -> bool
    ensures { result ≡ asks sweep one.now choice taken.now }
{
    match taken {
        Some(Message::Notice) => choice == one.notice,
        Some(_) => false,
        None => choice as usize == sweep,
    }
}

/// Whether a notice of the unit or a sweep came after the last poll to it.
fn is_again(sweep: usize, one: &Serving, steps: &[Step]) -> bool
    ensures { result ≡ is_again sweep one.now (reverse steps.now) }
{
    let mut again = false;
    for step in steps {
        again = !puts_on(one.poll, &step.puts.items)
            && (asks(sweep, one, step.choice, &step.taken) || again);
    }
    again
}

fn is_waiting(alloc: Global, sweep: usize, one: &Serving, steps: &[Step]) -> Result<bool, Memory>
    ensures { IfOk result
        (λ yes. yes ≡ (is_outstanding one.now (reverse steps.now)
        && is_again sweep one.now (reverse steps.now))) }
{
    Ok(is_outstanding(alloc, one, steps)? && is_again(sweep, one, steps))
}

/// Whether each unit has a poll outstanding and again.
pub fn is_swept(alloc: Global, net: &Net, actor: u32, steps: &[Step]) -> Result<bool, Memory>
    requires { actor < length net.now.actors }
    ensures { IfOk result (λ yes. yes ≡ is_swept net.now actor (reverse steps.now)) }
{
    let sweep = action_choice(net, actor);
    for one in &served(alloc, net, actor)? {
        if !is_waiting(alloc, sweep, one, steps)? {
            return Ok(false);
        }
    }
    Ok(true)
}

fn add_poll(puts: &mut Vec<Put>, passes: bool, link: u32) -> Result<(), Memory>
    ensures { OnOk result
        (puts.new.items ≡ puts.old.items ++ (if passes then send Message.Poll link ∷ [] else [])) }
{
    if passes {
        puts.push(Put {
            link,
            message: Message::Poll,
        })?;
    }
    Ok(())
}

/// Polls a unit, unless a poll is outstanding, and only where this passes.
fn add_poll_if(
    alloc: Global,
    puts: &mut Vec<Put>,
    passes: bool,
    one: &Serving,
    steps: &[Step],
) -> Result<(), Memory>
    ensures { OnOk result
        (puts.new.items ≡ puts.old.items
        ++ (if passes then poll_puts one.now (reverse steps.now) else [])) }
{
    if !passes {
        return Ok(());
    }
    let outstanding = is_outstanding(alloc, one, steps)?;
    add_poll(puts, !outstanding, one.poll)
}

fn add_notice_polls(
    alloc: Global,
    puts: &mut Vec<Put>,
    list: &[Serving],
    steps: &[Step],
    choice: u32,
) -> Result<(), Memory>
    ensures { OnOk result
        (puts.new.items ≡ puts.old.items ++ flat_map
        (λ v. if choice == v.notice then poll_puts v (reverse steps.now) else []) list.now) }
{
    for one in list {
        add_poll_if(alloc, puts, choice == one.notice, one, steps)?;
    }
    Ok(())
}

/// Tells the observer of a dump of a unit, and polls it again where it is asked for, but only where
/// this passes.
fn add_dump_answer_if(
    by: &Putter<'_>,
    puts: &mut Vec<Put>,
    passes: bool,
    one: &Serving,
    steps: &[Step],
    count: u64,
) -> Result<(), Memory>
    requires actor { by.now.actor < length by.now.net.now.actors }
    requires unit { one.now.unit < length by.now.net.now.actors }
    ensures { OnOk result
        (puts.new.items ≡ puts.old.items
        ++ (if passes then dump_answer by.now.net.now by.now.actor (reverse steps.now)
        count one.now else [])) }
{
    if !passes {
        return Ok(());
    }
    let place = by.net.unit_place(one.unit);
    add_out(by, puts, Sort::Done, &Message::Done(place, count))?;
    let sweep = action_choice(by.net, by.actor);
    add_poll(puts, is_again(sweep, one, steps), one.poll)
}

fn add_dump_answers(
    by: &Putter<'_>,
    puts: &mut Vec<Put>,
    list: &[Serving],
    steps: &[Step],
    count: u64,
    choice: u32,
) -> Result<(), Memory>
    requires actor { by.now.actor < length by.now.net.now.actors }
    requires units { All (λ v. v.unit < length by.now.net.now.actors) list.now }
    ensures { OnOk result
        (puts.new.items ≡ puts.old.items ++ flat_map
        (λ v. if choice == v.dump then dump_answer by.now.net.now by.now.actor
        (reverse steps.now) count v else []) list.now) }
{
    for one in list {
        add_dump_answer_if(by, puts, choice == one.dump, one, steps, count)?;
    }
    Ok(())
}

/// The puts of a control plane that takes a message.
pub fn add_control(
    by: &Putter<'_>,
    puts: &mut Vec<Put>,
    steps: &[Step],
    choice: u32,
    message: &Message,
) -> Result<(), Memory>
    requires { by.now.actor < length by.now.net.now.actors }
    ensures { OnOk result
        (puts.new.items ≡ puts.old.items ++ control_puts by.now.net.now by.now.actor
        (reverse steps.now) choice message.now) }
{
    let list = served(by.alloc, by.net, by.actor)?;
    match message {
        Message::Begin(number) => add_out(by, puts, Sort::Init, &Message::Init(*number)),
        Message::Notice => add_notice_polls(by.alloc, puts, &list, steps, choice),
        Message::Dump(count) => add_dump_answers(by, puts, &list, steps, *count, choice),
        _ => Ok(()),
    }
}

/// The polls of a sweep.
pub fn add_sweep(by: &Putter<'_>, puts: &mut Vec<Put>, steps: &[Step]) -> Result<(), Memory>
    requires { by.now.actor < length by.now.net.now.actors }
    ensures { OnOk result
        (puts.new.items ≡ puts.old.items ++ flat_map (λ v. poll_puts v (reverse steps.now))
        (served by.now.net.now by.now.actor)) }
{
    for one in &served(by.alloc, by.net, by.actor)? {
        add_poll_if(by.alloc, puts, true, one, steps)?;
    }
    Ok(())
}
