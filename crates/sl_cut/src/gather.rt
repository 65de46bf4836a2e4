// The findings of a run of whole histories.
ghost use Rattle.std.specs.Prelude.{◌≡◌, ◌+◌, ◌<◌, ◌≤◌, ◌^◌, cond, length, map, IfOk, IfSome};
ghost use Rattle.std.specs.Prelude.{is_some};
ghost use Rattle.sl_layout.specs.Net.{actor_of, units, hosts};
ghost use Rattle.sl_layout.specs.Devices.{device_of};
ghost use Rattle.sl_model.specs.History.{history, steps_in};
ghost use Rattle.sl_model.specs.Counting.{bad, expired, noroute};
ghost use Rattle.sl_model.specs.Setup.{setup_of};
ghost use Rattle.sl_model.specs.Findings.{row, rows_for, finding, is_ingress, drops_of, sent_by};
ghost use Rattle.sl_model.specs.Findings.{delivered_to, findings_in, findings};
ghost use Rattle.std.specs.List.{All, range_with_len};
ghost use Rattle.sl_route.specs.Routes.{IsRoutesOf};
ghost use Rattle.sl_model.specs.Losses.{losses};
ghost use Rattle.sl_flow.specs.Flow.{HaveAddresses};

use crate::counting::{bad, expired, noroute};
use crate::history::World;
use crate::judge::verdict;
use crate::knowledge::{floor, issued, resent};
use crate::lost::losses_of;
use crate::schedule::follow;
use crate::tell::taken;
use crate::values::row;
use crate::wires::{action_choice, hosts};
use sl_machine::Memory;
use sl_model::{Counts, Drops, Finding, FindingList, Findings, Rows1, Verdict, worlds_take_turns};
use sl_net::{ActorId, Input, Net, Side};
use sl_route::Routes;
use std::alloc::Global;

fn rows(
    alloc: Global,
    input: &Input,
    world: &World,
    snapshot: u64,
    units: &[u32],
) -> Result<Rows1, Memory>
    requires small { steps_in world.now < 2 ^ 40 }
    requires each { All (λ u. u < length input.now.net.actors) units.now }
    ensures { IfOk result
        (λ rows. rows ≡ map (row input.now.net (losses input.now) world.now snapshot) units.now) }
{
    let mut items = Vec::new(alloc);
    for unit in units {
        items.push(row(alloc, input, world, snapshot, *unit)?)?;
    }
    Ok(Rows1 { items })
}

fn rows_for(
    alloc: Global,
    input: &Input,
    world: &World,
    snapshot: u64,
    verdict: Verdict,
) -> Result<Rows1, Memory>
    requires { steps_in world.now < 2 ^ 40 }
    ensures { IfOk result
        (λ rows. rows ≡ rows_for input.now.net (losses input.now) world.now snapshot verdict) }
{
    match verdict {
        Verdict::Consistent => rows(alloc, input, world, snapshot, input.net.unit_actors()),
        _ => Ok(Rows1 {
            items: Vec::new(alloc),
        }),
    }
}

fn finding(alloc: Global, input: &Input, world: &World, snapshot: u64) -> Result<Finding, Memory>
    requires { steps_in world.now < 2 ^ 40 }
    ensures { IfOk result
        (λ one. one ≡ finding input.now.snapshot.credits input.now.net
        (losses input.now) world.now snapshot) }
{
    let verdict = verdict(alloc, input.snapshot.credits, &input.net, world, snapshot)?;
    Ok(Finding {
        k: snapshot,
        verdict,
        rows: rows_for(alloc, input, world, snapshot, verdict)?,
    })
}

fn finding_list(
    alloc: Global,
    input: &Input,
    world: &World,
    count: u64,
) -> Result<FindingList, Memory>
    requires { steps_in world.now < 2 ^ 40 }
    ensures { IfOk result
        (λ list. list
        ≡ map (finding input.now.snapshot.credits input.now.net (losses input.now) world.now)
        (range_with_len 1 count)) }
{
    let mut items = Vec::new(alloc);
    for done in 0..count {
        items.push(finding(alloc, input, world, done + 1)?)?;
    }
    Ok(FindingList { items })
}

/// The device of an ingress unit, or none for another actor.
fn ingress_device(net: &Net, actor: u32) -> Option<u32>
    requires { actor < length net.now.actors }
    ensures ingress { is_some result ≡ is_ingress (actor_of net.now actor) }
    ensures device { IfSome result (λ device. device ≡ device_of (actor_of net.now actor)) }
    ensures within { IfSome result (λ device. device < length net.now.parts.devices) }
{
    match net.actor(actor) {
        ActorId::Unit(unit) => match unit.side {
            Side::Ingress => Some(unit.device),
            Side::Egress => None,
        },
        _ => None,
    }
}

/// What an actor dropped where it is an ingress unit; another one drops nothing.
fn drops_at(net: &Net, routes: &Routes, world: &World, actor: u32) -> Drops
    requires routes { IsRoutesOf net.now routes.now }
    requires actor { actor < length net.now.actors }
    ensures bad { result.bad ≡ cond (is_ingress (actor_of net.now actor))
        (bad (history world.now actor)) 0 }
    ensures expired { result.expired ≡ cond (is_ingress (actor_of net.now actor))
        (expired (history world.now actor)) 0 }
    ensures noroute { let at = actor_of net.now actor in
        result.noroute ≡ cond (is_ingress at)
        (noroute net.now.parts (device_of at) (history world.now actor)) 0 }
    ensures few_bad { result.bad ≤ cond (is_ingress (actor_of net.now actor))
        (length (history world.now actor)) 0 }
    ensures few_expired { result.expired ≤ cond (is_ingress (actor_of net.now actor))
        (length (history world.now actor)) 0 }
    ensures few_noroute { result.noroute ≤ cond (is_ingress (actor_of net.now actor))
        (length (history world.now actor)) 0 }
{
    let Some(device) = ingress_device(net, actor) else {
        return Drops {
            bad: 0,
            expired: 0,
            noroute: 0,
        };
    };
    let steps = world.steps(actor);
    Drops {
        bad: bad(steps),
        expired: expired(steps),
        noroute: noroute(routes, device, steps),
    }
}

fn drops_of(alloc: Global, net: &Net, world: &World) -> Result<Drops, Memory>
    requires small { steps_in world.now < 2 ^ 40 }
    requires actors { length world.now ≡ length net.now.actors }
    ensures { IfOk result (λ drops. drops ≡ drops_of net.now world.now) }
{
    worlds_take_turns();
    let routes = Routes::make(alloc, net)?;
    let mut drops = Drops {
        bad: 0,
        expired: 0,
        noroute: 0,
    };
    for unit in net.unit_actors() {
        let more = drops_at(net, &routes, world, *unit);
        drops.bad += more.bad;
        drops.expired += more.expired;
        drops.noroute += more.noroute;
    }
    Ok(drops)
}

/// What each of some hosts sent, and what was delivered to it.
fn host_counts(
    alloc: Global,
    net: &Net,
    world: &World,
    hosts: &[u32],
) -> Result<(Counts, Counts), Memory>
    requires { All (λ a. a < length net.now.actors) hosts.now }
    ensures sent { IfOk result (λ r. r.0 ≡ map (sent_by net.now world.now) hosts.now) }
    ensures delivered { IfOk result (λ r. r.1 ≡ map (delivered_to world.now) hosts.now) }
{
    let mut sent = Vec::new(alloc);
    let mut delivered = Vec::new(alloc);
    for host in hosts {
        let steps = world.steps(*host);
        sent.push(taken(action_choice(net, *host), steps) as u64)?;
        delivered.push(taken(0, steps) as u64)?;
    }
    Ok((Counts { items: sent }, Counts { items: delivered }))
}

/// The findings of a world, where these are the hosts.
fn findings_in(
    alloc: Global,
    input: &Input,
    world: &World,
    host_list: &[u32],
) -> Result<Findings, Memory>
    requires small { steps_in world.now < 2 ^ 40 }
    requires actors { length world.now ≡ length input.now.net.actors }
    requires hosts { host_list.now ≡ hosts input.now.net }
    requires each { All (λ a. a < length input.now.net.actors) host_list.now }
    ensures { IfOk result
        (λ all. all ≡ findings_in (setup_of input.now) (losses input.now) world.now) }
{
    let net = &input.net;
    let floor = floor(alloc, net, world)?;
    let drops = drops_of(alloc, net, world)?;
    let lost = losses_of(alloc, input, world)?;
    let list = finding_list(alloc, input, world, input.snapshot.count)?;
    let (sent, delivered) = host_counts(alloc, net, world, host_list)?;
    Ok(Findings {
        issued: issued(net, world.steps(0)),
        floor,
        resent: resent(net, world.steps(0)),
        list,
        sent,
        delivered,
        drops,
        lost,
    })
}

/// The findings of the world that a schedule reaches, from whole histories. Idle entries change
/// nothing. A schedule of 2^40 entries is answered as want of memory.
pub fn findings_of(
    alloc: Global,
    input: &Input,
    schedule: &[(u32, u32)],
) -> Result<Findings, Memory>
    requires addresses { HaveAddresses input.now.flows }
    ensures findings { IfOk result
        (λ all. all ≡ findings (setup_of input.now) (losses input.now) schedule.now) }
{
    // A schedule of 2^40 entries would fill any memory.
    if schedule.len() >= 1 << 40 {
        return Err(Memory);
    }
    let hosts = hosts(alloc, &input.net)?;
    let world = follow(alloc, input, schedule)?;
    findings_in(alloc, input, &world, &hosts)
}
