// Choices spelled out.
ghost use Rattle.std.specs.Prelude.{◌≡◌, ◌<◌, ◌++◌, decimal, codes, OnOk, IfOk, length};
ghost use Rattle.sl_parts.specs.Valid.{IsValid};
ghost use Rattle.sl_layout.specs.Roster.{IsActor};
ghost use Rattle.sl_net.specs.Spelling.{port_of, actor_text, sender_text, link_text};
ghost use Rattle.sl_net.specs.Spelling.{action_text, device_name, host_name, choice_word};
ghost use Rattle.sl_net.specs.Spelling.{choice_text, HasChoice};

use crate::matching::{link_word, side_word};
use crate::net::Net;
use sl_layout::{ActorId, Sort, UnitId};
use sl_machine::Memory;
use sl_parts::{Line, Parts};
use std::alloc::{AllocError, Global};

#[tactic(auto, using(std::proofs::lemmas::Fmt::decimal_digit))]
fn add_digit(line: &mut Vec<u8>, digit: u32) -> Result<(), AllocError>
    requires { digit < 8 }
    ensures { OnOk result (line.new.items ≡ line.old.items ++ decimal digit) }
{
    line.push(b'0' + digit as u8)?;
    Ok(())
}

/// Adds the number of a port, after a point.
fn add_port(line: &mut Vec<u8>, port: u32) -> Result<(), AllocError>
    requires { port < 8 }
    ensures { OnOk result (line.new.items ≡ line.old.items ++ (codes "." ++ decimal port)) }
{
    line.extend_from_slice(b".")?;
    add_digit(line, port)
}

fn add_device(line: &mut Vec<u8>, parts: &Parts, device: u32) -> Result<(), AllocError>
    requires { device < length parts.now.devices }
    ensures { OnOk result (line.new.items ≡ line.old.items ++ device_name parts.now device) }
{
    let name = &parts.devices[device as usize].name;
    line.extend_from_slice(name.as_str().as_bytes())
}

fn add_host(line: &mut Vec<u8>, parts: &Parts, host: u32) -> Result<(), AllocError>
    requires { host < length parts.now.hosts }
    ensures { OnOk result (line.new.items ≡ line.old.items ++ host_name parts.now host) }
{
    let name = &parts.hosts[host as usize].name;
    line.extend_from_slice(name.as_str().as_bytes())
}

fn add_unit(line: &mut Vec<u8>, parts: &Parts, unit: UnitId) -> Result<(), AllocError>
    requires valid { IsValid parts.now }
    requires unit { IsActor parts.now (ActorId.Unit unit) }
    ensures { OnOk result
        (line.new.items ≡ line.old.items ++ actor_text parts.now (ActorId.Unit unit)) }
{
    line.extend_from_slice(side_word(unit.side))?;
    line.extend_from_slice(b" ")?;
    add_device(line, parts, unit.device)?;
    add_port(line, unit.port)
}

fn add_actor(line: &mut Vec<u8>, parts: &Parts, actor: ActorId) -> Result<(), AllocError>
    requires valid { IsValid parts.now }
    requires actor { IsActor parts.now actor }
    ensures { OnOk result (line.new.items ≡ line.old.items ++ actor_text parts.now actor) }
{
    match actor {
        ActorId::Observer => line.extend_from_slice(b"observer"),
        ActorId::Control(device) => {
            line.extend_from_slice(b"control ")?;
            add_device(line, parts, device)
        }
        ActorId::Unit(unit) => add_unit(line, parts, unit),
        ActorId::Host(host) => {
            line.extend_from_slice(b"host ")?;
            add_host(line, parts, host)
        }
    }
}

fn add_sender(line: &mut Vec<u8>, parts: &Parts, sender: ActorId) -> Result<(), AllocError>
    requires valid { IsValid parts.now }
    requires sender { IsActor parts.now sender }
    ensures { OnOk result (line.new.items ≡ line.old.items ++ sender_text parts.now sender) }
{
    match sender {
        ActorId::Control(device) => add_device(line, parts, device),
        ActorId::Unit(unit) => {
            line.extend_from_slice(side_word(unit.side))?;
            add_port(line, unit.port)
        }
        _ => Ok(()),
    }
}

fn add_number(line: &mut Vec<u8>, parts: &Parts, sender: ActorId) -> Result<(), AllocError>
    requires valid { IsValid parts.now }
    requires sender { IsActor parts.now sender }
    ensures { OnOk result (line.new.items ≡ line.old.items ++ decimal (port_of sender)) }
{
    match sender {
        ActorId::Unit(unit) => add_digit(line, unit.port),
        _ => add_digit(line, 0),
    }
}

fn add_link(
    line: &mut Vec<u8>,
    parts: &Parts,
    sender: ActorId,
    sort: Sort,
) -> Result<(), AllocError>
    requires valid { IsValid parts.now }
    requires sender { IsActor parts.now sender }
    ensures { OnOk result (line.new.items ≡ line.old.items ++ link_text parts.now sender sort) }
{
    line.extend_from_slice(link_word(sort))?;
    match sort {
        Sort::Crossbar => add_number(line, parts, sender),
        Sort::Notice | Sort::Dump | Sort::Done => add_sender(line, parts, sender),
        _ => Ok(()),
    }
}

fn add_action(line: &mut Vec<u8>, actor: ActorId, action: u32) -> Result<(), AllocError>
    ensures { OnOk result (line.new.items ≡ line.old.items ++ action_text actor action) }
{
    match actor {
        ActorId::Observer if action == 0 => line.extend_from_slice(b"issue"),
        ActorId::Observer => line.extend_from_slice(b"resend"),
        ActorId::Control(_) => line.extend_from_slice(b"sweep"),
        ActorId::Unit(_) => Ok(()),
        ActorId::Host(_) => line.extend_from_slice(b"inject"),
    }
}

fn add_word(line: &mut Vec<u8>, net: &Net, actor: u32, choice: u32) -> Result<(), AllocError>
    requires { actor < length net.now.actors }
    ensures { OnOk result (line.new.items ≡ line.old.items ++ choice_word net.now actor choice) }
{
    let links = net.links_into(actor);
    if (choice as usize) < links.len() {
        let part = net.link(links[choice as usize]);
        add_link(line, net.parts(), net.actor(part.from), part.sort)
    } else {
        add_action(line, net.actor(actor), choice - links.len() as u32)
    }
}

/// The spelling of a choice.
pub fn choice_text(alloc: Global, net: &Net, actor: u32, choice: u32) -> Result<Line, Memory>
    requires { HasChoice net.now actor choice }
    ensures { IfOk result (λ line. line ≡ choice_text net.now actor choice) }
{
    let mut items = Vec::new(alloc);
    add_actor(&mut items, net.parts(), net.actor(actor))?;
    items.extend_from_slice(b" ")?;
    add_word(&mut items, net, actor, choice)?;
    Ok(Line { items })
}
