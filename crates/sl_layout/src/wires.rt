// The links of a net, with tables to look them up.
ghost use Rattle.std.specs.Prelude.{◌≡◌, ◌<◌, ◌≤◌, IfOk, length, map};
ghost use Rattle.std.specs.List.{All};
ghost use Rattle.sl_parts.specs.Parts.{below};
ghost use Rattle.sl_layout.specs.Net.{net_of, link_of, link_numbers, links_into, links_from};
ghost use Rattle.sl_layout.specs.Net.{choice_of};
ghost use Rattle.sl_layout.specs.Wires.{HasEnds, out_of};
ghost use Rattle.sl_layout.specs.Ends.{actor_at, links_at, place_at};

use crate::actor::LinkPart;
use crate::groups::{Groups, group};
use crate::links::list_links;
use crate::roster::Roster;
use std::alloc::{AllocError, Global};
use std::marker::Model;

/// The links of a net in order, sorted by their receivers and by their senders.
#[derive(Drop)]
pub struct Wires {
    roster: Roster,
    links: Vec<LinkPart>,
    into: Groups,
    from: Groups,
}

impl Model for Wires {
    ghost use Rattle.sl_layout.specs.Net.{Net, net_of};

    ghost Value = { Net };

    ghost use Rattle.sl_layout.specs.Wires.{AreWires};

    ghost view = { λ w. net_of w.roster };

    ghost invariant = { λ w. AreWires w.roster w.links.items w.into w.from };
}

/// An end of a link.
#[derive(Clone, Copy)]
pub(crate) enum End {
    Receiver,
    Sender,
}

fn actors_at(alloc: Global, links: &[LinkPart], end: End) -> Result<Vec<u32>, AllocError>
    ensures { IfOk result (λ keys. keys.items ≡ map (actor_at end) links.now) }
{
    match end {
        End::Receiver => links.iter().map(|link| link.to).collect(alloc),
        End::Sender => links.iter().map(|link| link.from).collect(alloc),
    }
}

/// The links of each actor at one of their ends, and the place of each link there.
fn group_by(
    alloc: Global,
    roster: &Roster,
    links: &[LinkPart],
    end: End,
) -> Result<Groups, AllocError>
    requires { links.now ≡ (net_of roster.now).links }
    ensures lists { IfOk result
        (λ groups. groups.lists ≡ map (links_at (net_of roster.now) end)
        (below (length (net_of roster.now).actors))) }
    ensures places { IfOk result
        (λ groups. groups.places ≡ map (place_at (net_of roster.now) end)
        (link_numbers (net_of roster.now))) }
{
    let actors = roster.actors();
    let keys = actors_at(alloc, links, end)?;
    group(alloc, keys.as_slice(), actors.len())
}

impl Wires {
    /// Lists the links, and sorts them by receivers and by senders.
    pub fn new(alloc: Global, roster: Roster) -> Result<Wires, AllocError>
        ensures { IfOk result (λ wires. wires ≡ net_of roster) }
    {
        let links = list_links(alloc, &roster)?;
        let into = group_by(alloc, &roster, links.as_slice(), End::Receiver)?;
        let from = group_by(alloc, &roster, links.as_slice(), End::Sender)?;
        Ok(Wires {
            roster,
            links,
            into,
            from,
        })
    }

    /// The actors, with their numbers.
    pub fn roster(&self) -> &Roster
        ensures { self.now ≡ net_of result.now }
    {
        &self.roster
    }

    /// How many actors there are.
    pub fn count(&self) -> u32
        ensures { result ≡ length self.now.actors }
    {
        self.roster.actors().len() as u32
    }

    /// The links in order.
    pub fn links(&self) -> &[LinkPart]
        ensures now { result.now ≡ self.now.links }
        ensures few { length result.now ≤ 77888 }
        ensures ends { All (HasEnds self.now) result.now }
    {
        self.links.as_slice()
    }

    /// The link of a number.
    pub fn link(&self, link: u32) -> LinkPart
        requires { link < length self.now.links }
        ensures link { result ≡ link_of self.now link }
        ensures ends { HasEnds self.now result }
    {
        self.links[link as usize]
    }

    fn sorted(&self, end: End) -> &Groups
        ensures lists { result.now.lists
            ≡ map (links_at self.now end) (below (length self.now.actors)) }
        ensures places { result.now.places ≡ map (place_at self.now end) (link_numbers self.now) }
        ensures few { length self.now.links ≤ 77888 }
    {
        match end {
            End::Receiver => &self.into,
            End::Sender => &self.from,
        }
    }

    /// The links of an actor at one of their ends, ascending.
    pub(crate) fn links_at(&self, actor: u32, end: End) -> &[u32]
        requires { actor < length self.now.actors }
        ensures links { result.now ≡ links_at self.now end actor }
        ensures each { All (λ l. l < length self.now.links) result.now }
        ensures few { length result.now ≤ 77888 }
    {
        self.sorted(end).list(actor)
    }

    fn places(&self, end: End) -> &[u32]
        ensures now { result.now ≡ map (place_at self.now end) (link_numbers self.now) }
        ensures len { length result.now ≡ length self.now.links }
        ensures few { length result.now ≤ 77888 }
    {
        self.sorted(end).places()
    }

    /// The links that an actor takes from, in the order of its choices.
    pub fn links_into(&self, actor: u32) -> &[u32]
        requires { actor < length self.now.actors }
        ensures links { result.now ≡ links_into self.now actor }
        ensures each { All (λ l. l < length self.now.links) result.now }
        ensures few { length result.now ≤ 77888 }
    {
        self.links_at(actor, End::Receiver)
    }

    /// The links on which an actor puts, ascending.
    pub fn links_from(&self, actor: u32) -> &[u32]
        requires { actor < length self.now.actors }
        ensures links { result.now ≡ links_from self.now actor }
        ensures each { All (λ l. l < length self.now.links) result.now }
        ensures few { length result.now ≤ 77888 }
    {
        self.links_at(actor, End::Sender)
    }

    /// The choice by which each link is taken.
    pub fn choices(&self) -> &[u32]
        ensures now { result.now ≡ map (choice_of self.now) (link_numbers self.now) }
        ensures len { length result.now ≡ length self.now.links }
        ensures few { length result.now ≤ 77888 }
    {
        self.places(End::Receiver)
    }

    /// The place of each link among its sender's links.
    pub fn outs(&self) -> &[u32]
        ensures now { result.now ≡ map (out_of self.now) (link_numbers self.now) }
        ensures len { length result.now ≡ length self.now.links }
        ensures few { length result.now ≤ 77888 }
    {
        self.places(End::Sender)
    }
}
