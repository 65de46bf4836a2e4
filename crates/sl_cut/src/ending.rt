// How a schedule ends, by whole histories.
ghost use Rattle.std.specs.Prelude.{◌≡◌, ◌<◌, ◌≤◌, IfOk, length, count_by, ◌==◌};
ghost use Rattle.std.specs.Bool.{Decides};
ghost use Rattle.sl_flow.specs.Flow.{HaveAddresses};
ghost use Rattle.sl_model.specs.Knowledge.{floor};
ghost use Rattle.sl_model.specs.Losses.{losses};
ghost use Rattle.sl_model.specs.Setup.{setup_of, frames_of};
ghost use Rattle.sl_model.specs.World.{receiver, carried, taken_by};
ghost use Rattle.sl_model.specs.End.{AllTaken, AllSent, KnowsAll, IsFinished, is_collected};
ghost use Rattle.sl_model.specs.Ending.{HasEnding};
ghost use Rattle.sl_cut.specs.Sent.{HasSent};

use crate::history::World;
use crate::knowledge::{can_issue, floor, issued, resent};
use crate::losses::carried;
use crate::schedule::follow_legal;
use crate::tell::{known, taken};
use crate::wires::action_choice;
use sl_flow::packets_of;
use sl_machine::Memory;
use sl_model::Ending;
use sl_net::{ActorId, Input, Net, RawPart};
use std::alloc::Global;

/// Whether all messages that a link carried were taken.
fn is_taken(alloc: Global, input: &Input, world: &World, link: u32) -> Result<bool, Memory>
    requires { link < length input.now.net.links }
    ensures { IfOk result
        (λ done. done ≡ (taken_by input.now.net link (receiver input.now.net world.now link)
        == length (carried input.now.net (losses input.now) world.now link))) }
{
    let part = input.net.link(link);
    let messages = carried(alloc, input, link, world.steps(part.from))?;
    let choice = input.net.wire(link).choice;
    Ok(taken(choice as usize, world.steps(part.to)) == messages.len())
}

fn all_taken(alloc: Global, input: &Input, world: &World) -> Result<bool, Memory>
    ensures { IfOk result
        (λ done. Decides done (AllTaken input.now.net (losses input.now) world.now)) }
{
    for link in 0..input.net.links().len() as u32 {
        if !is_taken(alloc, input, world, link)? {
            return Ok(false);
        }
    }
    Ok(true)
}

/// How many raw frames come from a host.
fn raw_count(raws: &[RawPart], host: u32) -> usize
    ensures count { result ≡ count_by (λ r. r.from == host) raws.now }
    ensures bound { result ≤ length raws.now }
{
    let mut count = 0;
    for raw in raws {
        if raw.from == host {
            count += 1;
        }
    }
    count
}

/// How many frames a host sends.
fn frame_count(alloc: Global, input: &Input, host: u32) -> Result<usize, Memory>
    requires { HaveAddresses input.now.flows }
    ensures { IfOk result (λ count. count ≡ length (frames_of (setup_of input.now) host)) }
{
    let packets = packets_of(alloc, host, &input.flows)?;
    let raws = raw_count(&input.raws, host);
    Ok(packets.len() + raws)
}

/// Whether an actor that is a host has put all its frames; another one has none.
fn has_sent(alloc: Global, input: &Input, world: &World, actor: u32) -> Result<bool, Memory>
    requires actor { actor < length input.now.net.actors }
    requires addresses { HaveAddresses input.now.flows }
    ensures { IfOk result (λ done. Decides done (HasSent (setup_of input.now) world.now actor)) }
{
    let ActorId::Host(host) = input.net.actor(actor) else {
        return Ok(true);
    };
    let frames = frame_count(alloc, input, host)?;
    Ok(taken(action_choice(&input.net, actor), world.steps(actor)) == frames)
}

fn all_sent(alloc: Global, input: &Input, world: &World) -> Result<bool, Memory>
    requires { HaveAddresses input.now.flows }
    ensures { IfOk result (λ done. Decides done (AllSent (setup_of input.now) world.now)) }
{
    for actor in 0..input.net.actors().len() as u32 {
        if !has_sent(alloc, input, world, actor)? {
            return Ok(false);
        }
    }
    Ok(true)
}

/// Whether the observer knows of each unit its whole history.
fn knows_all(net: &Net, world: &World) -> bool
    ensures { Decides result (KnowsAll net.now world.now) }
{
    for unit in net.unit_actors() {
        let count = known(net.unit_place(*unit), world.steps(0));
        if count != world.steps(*unit).len() as u64 {
            return false;
        }
    }
    true
}

/// Whether all snapshots are issued and collected, at a world's floor.
fn is_collected(input: &Input, world: &World, lowest: u64) -> bool
    requires { lowest ≡ floor input.now.net world.now }
    ensures { result ≡ is_collected (setup_of input.now) world.now }
{
    let number = issued(&input.net, world.steps(0));
    lowest == number && number == input.snapshot.count
}

fn is_finished(alloc: Global, input: &Input, world: &World) -> Result<bool, Memory>
    requires { HaveAddresses input.now.flows }
    ensures { IfOk result
        (λ done. Decides done (IsFinished (setup_of input.now) (losses input.now) world.now)) }
{
    if !all_taken(alloc, input, world)? {
        return Ok(false);
    }
    if !all_sent(alloc, input, world)? {
        return Ok(false);
    }
    let lowest = floor(alloc, &input.net, world)?;
    if can_issue(input, lowest, world.steps(0)) {
        return Ok(false);
    }
    if is_collected(input, world, lowest) {
        return Ok(true);
    }
    Ok(resent(&input.net, world.steps(0)) == input.snapshot.retries && knows_all(&input.net, world))
}

/// How a schedule ends, from whole histories.
pub fn ending_of(alloc: Global, input: &Input, schedule: &[(u32, u32)]) -> Result<Ending, Memory>
    requires { HaveAddresses input.now.flows }
    ensures { IfOk result (HasEnding (setup_of input.now) (losses input.now) schedule.now) }
{
    let (world, front) = follow_legal(alloc, input, schedule)?;
    if front < schedule.len() {
        return Ok(Ending::Idle(front as u64 + 1));
    }
    Ok(if is_finished(alloc, input, &world)? {
        Ending::Finished
    } else {
        Ending::Unfinished
    })
}
