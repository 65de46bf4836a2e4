// How the control plane of a device is joined in a net.
ghost use Rattle.std.specs.Prelude.{◌≡◌, ◌<◌, ◌≤◌, ◌++◌, ◌∷◌, [], IfOk, OnOk, cond, length, map};
ghost use Rattle.std.specs.Prelude.{slice_index_or};
ghost use Rattle.sl_layout.specs.declared.actor.ActorId.{ActorId};
ghost use Rattle.sl_layout.specs.Net.{same_actor, place_of, actor_of, choices_of};
ghost use Rattle.sl_layout.specs.Serving.{choice_from, serving, served};
ghost use Rattle.sl_layout.specs.Wires.{out_of};
ghost use Rattle.sl_control.specs.Wires.{control_of, outs_of, unit_wires, unheard};

use crate::known::{Known, UnitWires};
use sl_net::{ActorId, Net, Sort, choice_from, choices_of, nets_are_wired};
use std::alloc::{AllocError, Global};

fn is_control(actor: ActorId, device: u32) -> bool
    ensures { result ≡ same_actor (ActorId.Control device) actor }
{
    match actor {
        ActorId::Control(other) => device == other,
        _ => false,
    }
}

/// The place of a device's control plane among actors, or their number where it isn't there.
fn place_of(actors: &[ActorId], device: u32) -> usize
    ensures place { result ≡ place_of (ActorId.Control device) actors.now }
    ensures most { result ≤ length actors.now }
{
    let mut place = 0;
    for actor in actors {
        if is_control(*actor, device) {
            return place;
        }
        place += 1;
    }
    place
}

/// The number of the actor that is the control plane of a device.
pub fn control_of(net: &Net, device: u32) -> u32
    requires { device < length net.now.parts.devices }
    ensures number { result ≡ control_of net.now device }
    ensures within { result < length net.now.actors }
    ensures control { actor_of net.now result ≡ ActorId.Control device }
{
    // A net is that of its parts, and these have the device.
    let _parts = net.parts();
    nets_are_wired();
    place_of(net.actors(), device) as u32
}

/// Adds the place of a link among its sender's links where it passes.
fn add_out(outs: &mut Vec<u32>, net: &Net, link: u32, passes: bool) -> Result<(), AllocError>
    requires { link < length net.now.links }
    ensures { OnOk result
        (outs.new.items ≡ outs.old.items ++ cond passes (out_of net.now link ∷ []) []) }
{
    if passes {
        outs.push(net.wire(link).out)?;
    }
    Ok(())
}

/// The places of an actor's links of a sort among its outgoing links.
fn outs_of(alloc: Global, net: &Net, actor: u32, sort: Sort) -> Result<Vec<u32>, AllocError>
    requires { actor < length net.now.actors }
    ensures { IfOk result (λ outs. outs.items ≡ outs_of net.now actor sort) }
{
    let mut outs = Vec::new(alloc);
    for link in net.links_from(actor) {
        add_out(&mut outs, net, *link, net.link(*link).sort.is(sort))?;
    }
    Ok(outs)
}

/// The places of the links for initiations, ports ascending.
pub fn inits_of(alloc: Global, net: &Net, actor: u32) -> Result<Vec<u32>, AllocError>
    requires { actor < length net.now.actors }
    ensures { IfOk result (λ outs. outs.items ≡ outs_of net.now actor Sort.Init) }
{
    outs_of(alloc, net, actor, Sort::Init)
}

/// The place of the link for Dones, or 0 where there is none.
pub fn done_of(alloc: Global, net: &Net, actor: u32) -> Result<u32, AllocError>
    requires { actor < length net.now.actors }
    ensures { IfOk result (λ out. out ≡ slice_index_or (outs_of net.now actor Sort.Done) 0 0) }
{
    Ok(first_of(&outs_of(alloc, net, actor, Sort::Done)?))
}

/// The first number, or 0 where there is none.
fn first_of(numbers: &[u32]) -> u32
    ensures { result ≡ slice_index_or numbers.now 0 0 }
{
    match numbers.first() {
        Some(number) => *number,
        None => 0,
    }
}

/// How many choices of an actor take from links of a sort.
fn count_of(alloc: Global, net: &Net, actor: u32, sort: Sort) -> Result<u32, AllocError>
    requires { actor < length net.now.actors }
    ensures count { IfOk result (λ count. count ≡ length (choices_of net.now actor sort)) }
    ensures few { IfOk result (λ count. count ≤ 77888) }
{
    Ok(choices_of(alloc, net, actor, sort)?.len() as u32)
}

/// How the unit to which a poll link leads is joined to its control plane.
fn unit_wires(alloc: Global, net: &Net, actor: u32, link: u32) -> Result<UnitWires, AllocError>
    requires actor { actor < length net.now.actors }
    requires link { link < length net.now.links }
    ensures { IfOk result (λ wires. wires ≡ unit_wires net.now (serving net.now actor link)) }
{
    let unit = net.link(link).to;
    let cables = count_of(alloc, net, unit, Sort::Cable)?;
    let crossbar = count_of(alloc, net, unit, Sort::Crossbar)?;
    Ok(UnitWires {
        place: net.unit_place(unit),
        notice: choice_from(alloc, net, actor, unit, Sort::Notice)?,
        dump: choice_from(alloc, net, actor, unit, Sort::Dump)?,
        poll: net.wire(link).out,
        ingress: count_of(alloc, net, unit, Sort::Init)? > 0,
        channels: cables + crossbar,
    })
}

/// A unit from which no dump came.
fn unheard(wires: UnitWires) -> Known
    ensures { result ≡ unheard wires }
{
    Known {
        wires,
        id: 0,
        last: [0; 8],
        cpu: 0,
        upto: 0,
        waits: false,
        again: false,
    }
}

/// Adds the unit to which a poll link leads where it passes.
fn add_unit(
    alloc: Global,
    units: &mut Vec<Known>,
    net: &Net,
    actor: u32,
    link: u32,
    passes: bool,
) -> Result<(), AllocError>
    requires actor { actor < length net.now.actors }
    requires link { link < length net.now.links }
    ensures { OnOk result
        (units.new.items ≡ units.old.items ++ cond passes
        (unheard (unit_wires net.now (serving net.now actor link)) ∷ []) []) }
{
    if passes {
        units.push(unheard(unit_wires(alloc, net, actor, link)?))?;
    }
    Ok(())
}

/// The units that a control plane serves, none of which was heard.
pub fn units_of(alloc: Global, net: &Net, actor: u32) -> Result<Vec<Known>, AllocError>
    requires { actor < length net.now.actors }
    ensures { IfOk result
        (λ units. units.items ≡ map (λ v. unheard (unit_wires net.now v)) (served net.now actor)) }
{
    let mut units = Vec::new(alloc);
    for link in net.links_from(actor) {
        add_unit(
            alloc,
            &mut units,
            net,
            actor,
            *link,
            net.link(*link).sort.is(Sort::Poll),
        )?;
    }
    Ok(units)
}
