// The step that an entry makes.
ghost use Rattle.std.specs.Prelude.{◌≡◌, ◌++◌, ◌<◌, length, zero, reverse, not, OnOk, IfOk};
ghost use Rattle.std.specs.Prelude.{slice_get, Some, flat_map, option_map};
ghost use Rattle.sl_layout.specs.Serving.{served};
ghost use Rattle.sl_layout.specs.Roster.{IsActor};
ghost use Rattle.sl_route.specs.Routes.{IsRoutesOf};
ghost use Rattle.sl_layout.specs.declared.actor.ActorId.{ActorId};
ghost use Rattle.sl_model.specs.History.{history};
ghost use Rattle.sl_model.specs.Setup.{setup_of};
ghost use Rattle.sl_model.specs.Knowledge.{can_issue, can_resend, issued, is_swept};
ghost use Rattle.sl_layout.specs.Net.{links_out};
ghost use Rattle.sl_model.specs.Puts.{puts_of, action, guarded, begin_all, poll_puts, send_all};
ghost use Rattle.sl_model.specs.World.{front, acting, step_by, next_step, floor_for};
ghost use Rattle.sl_flow.specs.Flow.{HaveAddresses};
ghost use Rattle.sl_model.specs.Losses.{losses};

use crate::control::{add_control, add_sweep, is_swept};
use crate::flow::frame_at;
use crate::history::World;
use crate::knowledge::{can_issue, can_resend, floor, issued};
use crate::losses::carried;
use crate::message::copy_message;
use crate::sends::{Putter, add_out};
use crate::tell::taken;
use crate::units::add_unit;
use crate::wires::{action_choice, observer};
use sl_machine::Memory;
use sl_model::{Message, Put, Puts, Step};
use sl_net::{ActorId, Input, Net, Sort};
use sl_route::Routes;
use std::alloc::Global;

fn message_at(alloc: Global, messages: &[Message], place: usize) -> Result<Option<Message>, Memory>
    ensures { IfOk result (λ message. message ≡ slice_get messages.now place) }
{
    match messages.get(place) {
        Some(message) => Ok(Some(copy_message(alloc, message)?)),
        None => Ok(None),
    }
}

/// The message that an actor would take next from a link.
fn front(
    alloc: Global,
    input: &Input,
    world: &World,
    actor: u32,
    choice: u32,
    link: u32,
) -> Result<Option<Message>, Memory>
    requires { link < length input.now.net.links }
    ensures { IfOk result
        (λ message. message ≡ front input.now.net (losses input.now) world.now actor choice link) }
{
    let sender = world.steps(input.net.link(link).from);
    let messages = carried(alloc, input, link, sender)?;
    message_at(alloc, &messages, taken(choice as usize, world.steps(actor)))
}

fn add_puts(
    alloc: Global,
    input: &Input,
    routes: &Routes,
    puts: &mut Vec<Put>,
    actor: u32,
    of: ActorId,
    steps: &[Step],
    choice: u32,
    link: u32,
    message: &Message,
) -> Result<(), Memory>
    requires actor { actor < length input.now.net.actors }
    requires routes { IsRoutesOf input.now.net routes.now }
    requires part { IsActor input.now.net.parts of }
    requires link { link < length input.now.net.links }
    ensures { OnOk result
        (puts.new.items ≡ puts.old.items ++ puts_of (setup_of input.now) actor of
        (reverse steps.now) choice link message.now) }
{
    let by = Putter {
        alloc,
        net: &input.net,
        actor,
    };
    match of {
        ActorId::Observer => Ok(()),
        ActorId::Control(_) => add_control(&by, puts, steps, choice, message),
        ActorId::Unit(unit) => add_unit(&by, routes, puts, unit, steps, choice, link, message),
        ActorId::Host(_) => Ok(()),
    }
}

/// A message on each link of a sort on which an actor puts.
fn put_out(
    alloc: Global,
    net: &Net,
    actor: u32,
    sort: Sort,
    message: &Message,
) -> Result<Option<Puts>, Memory>
    requires { actor < length net.now.actors }
    ensures { IfOk result
        (λ puts. puts ≡ Some (send_all message.now (links_out net.now actor sort))) }
{
    let mut items = Vec::new(alloc);
    add_out(&Putter { alloc, net, actor }, &mut items, sort, message)?;
    Ok(Some(Puts { items }))
}

/// Begins a snapshot at each control plane, where a guard passes.
fn begin_if(alloc: Global, net: &Net, passes: bool, number: u64) -> Result<Option<Puts>, Memory>
    ensures { IfOk result (λ puts. puts ≡ guarded passes (begin_all net.now number)) }
{
    if !passes {
        return Ok(None);
    }
    put_out(
        alloc,
        net,
        observer(net),
        Sort::Begin,
        &Message::Begin(number),
    )
}

fn sweep_puts(alloc: Global, net: &Net, actor: u32, steps: &[Step]) -> Result<Option<Puts>, Memory>
    requires { actor < length net.now.actors }
    ensures { let h = reverse steps.now in
        IfOk result (λ puts. puts ≡ guarded (not (is_swept net.now actor h))
        (flat_map (λ v. poll_puts v h) (served net.now actor))) }
{
    if is_swept(alloc, net, actor, steps)? {
        return Ok(None);
    }
    let mut items = Vec::new(alloc);
    add_sweep(&Putter { alloc, net, actor }, &mut items, steps)?;
    Ok(Some(Puts { items }))
}

fn inject(
    alloc: Global,
    input: &Input,
    actor: u32,
    host: u32,
    steps: &[Step],
) -> Result<Option<Puts>, Memory>
    requires actor { actor < length input.now.net.actors }
    requires addresses { HaveAddresses input.now.flows }
    ensures { IfOk result
        (λ puts. puts ≡ action (setup_of input.now) 0 actor (ActorId.Host host)
        (reverse steps.now) zero) }
{
    let place = taken(action_choice(&input.net, actor), steps);
    match frame_at(alloc, input, host, place)? {
        Some(frame) => put_out(
            alloc,
            &input.net,
            actor,
            Sort::FromHost,
            &Message::Host(frame),
        ),
        None => Ok(None),
    }
}

#[tactic(auto, using(crate::proofs::Actions::observer_action))]
fn observer_action(
    alloc: Global,
    input: &Input,
    world: &World,
    actor: u32,
    number: usize,
) -> Result<Option<Puts>, Memory>
    ensures { IfOk result
        (λ puts. puts ≡ action (setup_of input.now)
        (floor_for input.now.net world.now ActorId.Observer) actor ActorId.Observer
        (history world.now actor) number) }
{
    let floor = floor(alloc, &input.net, world)?;
    let steps = world.steps(actor);
    let last = issued(&input.net, steps);
    match number {
        0 => begin_if(alloc, &input.net, can_issue(input, floor, steps), last + 1),
        1 => begin_if(alloc, &input.net, can_resend(input, floor, steps), last),
        _ => Ok(None),
    }
}

/// An own action of an actor, or none where its guard fails.
fn action(
    alloc: Global,
    input: &Input,
    world: &World,
    actor: u32,
    of: ActorId,
    number: usize,
) -> Result<Option<Puts>, Memory>
    requires actor { actor < length input.now.net.actors }
    requires addresses { HaveAddresses input.now.flows }
    ensures { IfOk result
        (λ puts. puts ≡ action (setup_of input.now) (floor_for input.now.net world.now of) actor of
        (history world.now actor) number) }
{
    match of {
        ActorId::Observer => observer_action(alloc, input, world, actor, number),
        ActorId::Control(_) if number == 0 => sweep_puts(
            alloc,
            &input.net,
            actor,
            world.steps(actor),
        ),
        ActorId::Host(host) if number == 0 => inject(alloc, input, actor, host, world.steps(actor)),
        _ => Ok(None),
    }
}

fn step_of_link(
    alloc: Global,
    input: &Input,
    routes: &Routes,
    world: &World,
    actor: u32,
    of: ActorId,
    choice: u32,
    link: u32,
) -> Result<Option<Step>, Memory>
    requires actor { actor < length input.now.net.actors }
    requires routes { IsRoutesOf input.now.net routes.now }
    requires part { IsActor input.now.net.parts of }
    requires link { link < length input.now.net.links }
    ensures { IfOk result
        (λ step. step ≡ step_by (setup_of input.now) (losses input.now) world.now actor choice
        (Some link) of) }
{
    let Some(message) = front(alloc, input, world, actor, choice, link)? else {
        return Ok(None);
    };
    let steps = world.steps(actor);
    let mut items = Vec::new(alloc);
    add_puts(
        alloc, input, routes, &mut items, actor, of, steps, choice, link, &message,
    )?;
    Ok(Some(Step {
        choice,
        taken: Some(message),
        puts: Puts { items },
    }))
}

/// The step of an own action with these puts, or none where its guard fails.
fn acting(choice: u32, puts: Option<Puts>) -> Option<Step>
    ensures { result ≡ option_map (acting choice) puts }
{
    let puts = puts?;
    Some(Step {
        choice,
        taken: None,
        puts,
    })
}

/// The step that an entry makes, or none where it is idle.
pub fn next_step(
    alloc: Global,
    input: &Input,
    routes: &Routes,
    world: &World,
    actor: u32,
    choice: u32,
) -> Result<Option<Step>, Memory>
    requires addresses { HaveAddresses input.now.flows }
    requires routes { IsRoutesOf input.now.net routes.now }
    ensures { IfOk result
        (λ step. step ≡ next_step (setup_of input.now) (losses input.now) world.now
        (actor, choice)) }
{
    let net = &input.net;
    if actor as usize >= net.actors().len() {
        return Ok(None);
    }
    let of = net.actor(actor);
    match net.links_into(actor).get(choice as usize) {
        Some(link) => step_of_link(alloc, input, routes, world, actor, of, choice, *link),
        None => {
            let number = (choice as usize).saturating_sub(action_choice(net, actor));
            let puts = action(alloc, input, world, actor, of, number)?;
            Ok(acting(choice, puts))
        }
    }
}
