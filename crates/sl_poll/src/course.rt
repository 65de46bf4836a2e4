// A run followed link by link, as far as data packets go by.
ghost use Rattle.std.specs.Prelude.{◌≡◌, ◌<◌, ◌∷◌, [], IfOk, OnOk, Some, cond, map, length};
ghost use Rattle.std.specs.Prelude.{slice_get};
ghost use Rattle.sl_parts.specs.Parts.{below};
ghost use Rattle.sl_flow.specs.Flow.{HaveAddresses};
ghost use Rattle.sl_layout.specs.Net.{Net as NetData, links_into, is_unit};
ghost use Rattle.sl_route.specs.Routes.{IsRoutesOf};
ghost use Rattle.sl_model.specs.Losses.{loss_on};
ghost use Rattle.sl_model.specs.Setup.{setup_of};
ghost use Rattle.sl_poll.specs.Hearing.{Hears};
ghost use Rattle.sl_poll.specs.Lanes.{put_each, AreFew};
ghost use Rattle.sl_poll.specs.Trail.{count_of};
ghost use Rattle.sl_poll.specs.Ways.{leads, links_by, send_by, first_mark, rest_of, packet_on};
ghost use Rattle.sl_poll.specs.Ways.{paired, counts, injected, next_of, first_lane, first_feed};
ghost use Rattle.sl_poll.specs.Ways.{feed_at, lanes_after, feeds_after, pairs_told, counts_told};

use crate::feed::{Feed, list_feeds};
use crate::lane::{Lane, Mark};
use crate::listener::Listener;
use crate::trail::{Counted, Pair};
use crate::way::{Sends, Way, bears, is_data, leads, sends_of};
use sl_input::loss_on;
use sl_machine::Memory;
use sl_net::{ActorId, Input, Net, Packet, Sort};
use sl_route::Routes;
use std::alloc::Global;

/// What is on its way on each link, and what each host has left.
#[derive(Drop)]
pub struct Course {
    pub lanes: Vec<Lane>,
    pub feeds: Vec<Feed>,
}

fn first_lane(alloc: Global, input: &Input, link: u32) -> Result<Lane, Memory>
    requires { link < length input.now.net.links }
    ensures { IfOk result (λ lane. lane ≡ first_lane input.now link) }
{
    let loss = loss_on(alloc, input, link)?;
    Ok(Lane::new(alloc, loss))
}

fn list_lanes(alloc: Global, input: &Input) -> Result<Vec<Lane>, Memory>
    ensures { IfOk result
        (λ lanes. lanes.items ≡ map (first_lane input.now) (below (length input.now.net.links))) }
{
    let mut lanes = Vec::new(alloc);
    for link in 0..input.net.links().len() as u32 {
        lanes.push(first_lane(alloc, input, link)?)?;
    }
    Ok(lanes)
}

/// The course of a run in which nothing has happened.
pub fn first_course(alloc: Global, input: &Input) -> Result<Course, Memory>
    requires { HaveAddresses input.now.flows }
    ensures lanes { IfOk result
        (λ course. course.lanes.items ≡ map (first_lane input.now)
        (below (length input.now.net.links))) }
    ensures feeds { IfOk result
        (λ course. course.feeds.items ≡ map (first_feed (setup_of input.now))
        (below (length input.now.net.actors))) }
{
    Ok(Course {
        lanes: list_lanes(alloc, input)?,
        feeds: list_feeds(alloc, input)?,
    })
}

fn put_if(lanes: &mut Vec<Lane>, passes: bool, link: u32, mark: Mark) -> Result<(), Memory>
    requires link { link < length lanes.old.items }
    requires few { AreFew lanes.old.items }
    ensures lanes { OnOk result
        (lanes.new.items ≡ put_each mark (cond passes (link ∷ []) []) lanes.old.items) }
    ensures few { OnOk result (AreFew lanes.new.items) }
    ensures each { OnOk result (length lanes.new.items ≡ length lanes.old.items) }
{
    if passes {
        lanes[link as usize].put(mark)?;
    }
    Ok(())
}

/// Puts the same on each link of an actor that leads this way.
#[tactic(auto, using(crate::proofs::Puts::put_more))]
fn put_all(lanes: &mut Vec<Lane>, net: &Net, actor: u32, way: Way, mark: Mark) -> Result<(), Memory>
    requires actor { actor < length net.now.actors }
    requires each { length lanes.old.items ≡ length net.now.links }
    requires few { AreFew lanes.old.items }
    ensures lanes { OnOk result
        (lanes.new.items ≡ put_each mark (links_by net.now actor way) lanes.old.items) }
    ensures few { OnOk result (AreFew lanes.new.items) }
    ensures each { OnOk result (length lanes.new.items ≡ length net.now.links) }
{
    for link in net.links_from(actor) {
        put_if(lanes, leads(net, way, *link), *link, mark)?;
    }
    Ok(())
}

fn send(
    lanes: &mut Vec<Lane>,
    net: &Net,
    entry: u64,
    actor: u32,
    sends: Option<Sends>,
) -> Result<(), Memory>
    requires actor { actor < length net.now.actors }
    requires each { length lanes.old.items ≡ length net.now.links }
    requires few { AreFew lanes.old.items }
    ensures lanes { OnOk result
        (lanes.new.items ≡ send_by net.now entry actor sends lanes.old.items) }
    ensures few { OnOk result (AreFew lanes.new.items) }
    ensures each { OnOk result (length lanes.new.items ≡ length net.now.links) }
{
    match sends {
        None => Ok(()),
        Some(sends) => {
            let mark = Mark {
                put: entry,
                packet: sends.packet,
            };
            put_all(lanes, net, actor, sends.way, mark)
        }
    }
}

/// Takes the first message of a link, where data packets go by there.
fn take_first(lanes: &mut Vec<Lane>, link: u32, bears: bool) -> Option<Mark>
    requires link { link < length lanes.old.items }
    requires few { AreFew lanes.old.items }
    ensures mark { result ≡ first_mark lanes.old.items link bears }
    ensures lanes { lanes.new.items ≡ rest_of lanes.old.items link bears }
    ensures few { AreFew lanes.new.items }
    ensures each { length lanes.new.items ≡ length lanes.old.items }
{
    if !bears {
        return None;
    }
    lanes[link as usize].take()
}

fn packet_on(mark: Option<Mark>) -> Option<Packet>
    ensures { result ≡ packet_on mark }
{
    mark?.packet
}

fn tell_pair<L: Listener>(
    listener: &mut L,
    net: &Net,
    data_channel: bool,
    link: u32,
    entry: u64,
    mark: Option<Mark>,
) -> Result<(), Memory>
    requires { link < length net.now.links }
    ensures { OnOk result
        (Hears L.heard net.now listener.old listener.new (paired data_channel link entry mark) []) }
{
    let Some(mark) = mark else {
        return Ok(());
    };
    if mark.packet.is_some() && data_channel {
        let pair = Pair {
            link,
            put: mark.put,
            take: entry,
        };
        listener.hear_pair(net, pair)?;
    }
    Ok(())
}

fn is_unit(actor: ActorId) -> bool
    ensures { result ≡ is_unit actor }
{
    matches!(actor, ActorId::Unit(_))
}

fn tell_count<L: Listener>(
    listener: &mut L,
    unit: u32,
    entry: u64,
    packet: Option<Packet>,
) -> Result<(), Memory>
    ensures { (net : NetData)
        → OnOk result
        (Hears L.heard net listener.old listener.new [] (count_of unit entry packet)) }
{
    if let Some(packet) = packet {
        listener.hear_count(Counted {
            unit,
            entry,
            bytes: packet.len as u64,
        })?;
    }
    Ok(())
}

fn tell_counts<L: Listener>(
    listener: &mut L,
    net: &Net,
    actor: u32,
    entry: u64,
    packet: Option<Packet>,
) -> Result<(), Memory>
    requires { actor < length net.now.actors }
    ensures { OnOk result
        (Hears L.heard net.now listener.old listener.new [] (counts net.now actor entry packet)) }
{
    if is_unit(net.actor(actor)) {
        tell_count(listener, net.unit_place(actor), entry, packet)?;
    }
    Ok(())
}

/// An entry that takes a message from a link.
fn follow_take<L: Listener>(
    course: &mut Course,
    listener: &mut L,
    net: &Net,
    routes: &Routes,
    entry: u64,
    actor: u32,
    link: u32,
) -> Result<(), Memory>
    requires routes { IsRoutesOf net.now routes.now }
    requires actor { actor < length net.now.actors }
    requires link { link < length net.now.links }
    requires each { length course.old.lanes.items ≡ length net.now.links }
    requires few { AreFew course.old.lanes.items }
    ensures lanes { OnOk result
        (course.new.lanes.items ≡ lanes_after net.now entry actor
        (Some link) course.old.lanes.items course.old.feeds.items) }
    ensures feeds { OnOk result (course.new.feeds.items ≡ course.old.feeds.items) }
    ensures few { OnOk result (AreFew course.new.lanes.items) }
    ensures each { OnOk result (length course.new.lanes.items ≡ length net.now.links) }
    ensures heard { let lanes = course.old.lanes.items in
        OnOk result (Hears L.heard net.now listener.old listener.new
        (pairs_told net.now entry (Some link) lanes)
        (counts_told net.now entry actor (Some link) lanes)) }
{
    let sort = net.link(link).sort;
    let mark = take_first(&mut course.lanes, link, bears(sort));
    let packet = packet_on(mark);
    tell_pair(listener, net, is_data(sort), link, entry, mark)?;
    tell_counts(listener, net, actor, entry, packet)?;
    let sends = sends_of(net, routes, actor, link, packet);
    send(&mut course.lanes, net, entry, actor, sends)
}

fn injected(frame: Option<Option<Packet>>) -> Option<Sends>
    ensures { result ≡ injected frame }
{
    match frame {
        None => None,
        Some(packet) => Some(Sends {
            packet,
            way: Way::Along(Sort::FromHost),
        }),
    }
}

/// An entry that acts: a host sends its next frame.
fn follow_action(course: &mut Course, net: &Net, entry: u64, actor: u32) -> Result<(), Memory>
    requires actor { actor < length net.now.actors }
    requires each { length course.old.lanes.items ≡ length net.now.links }
    requires few { AreFew course.old.lanes.items }
    requires feeds { length course.old.feeds.items ≡ length net.now.actors }
    ensures lanes { let frame = next_of (feed_at course.old.feeds.items actor) in
        OnOk result (course.new.lanes.items ≡ send_by net.now entry actor
        (injected frame) course.old.lanes.items) }
    ensures feeds { OnOk result
        (course.new.feeds.items ≡ feeds_after actor None course.old.feeds.items) }
    ensures few { OnOk result (AreFew course.new.lanes.items) }
    ensures each { OnOk result (length course.new.lanes.items ≡ length net.now.links) }
{
    let frame = course.feeds[actor as usize].next();
    send(&mut course.lanes, net, entry, actor, injected(frame))
}

/// Follows a run by one entry, whose number is from 1, and tells what it does with data packets.
pub fn follow<L: Listener>(
    course: &mut Course,
    listener: &mut L,
    net: &Net,
    routes: &Routes,
    entry: u64,
    actor: u32,
    choice: u32,
) -> Result<(), Memory>
    requires routes { IsRoutesOf net.now routes.now }
    requires actor { actor < length net.now.actors }
    requires each { length course.old.lanes.items ≡ length net.now.links }
    requires few { AreFew course.old.lanes.items }
    requires feeds { length course.old.feeds.items ≡ length net.now.actors }
    ensures lanes { let link = slice_get (links_into net.now actor) choice in
        OnOk result (course.new.lanes.items ≡ lanes_after net.now
        entry actor link course.old.lanes.items course.old.feeds.items) }
    ensures feeds { let link = slice_get (links_into net.now actor) choice in
        OnOk result (course.new.feeds.items ≡ feeds_after actor link course.old.feeds.items) }
    ensures few { OnOk result (AreFew course.new.lanes.items) }
    ensures each { OnOk result (length course.new.lanes.items ≡ length net.now.links) }
    ensures heard { let lanes = course.old.lanes.items in
        let link = slice_get (links_into net.now actor) choice in
        OnOk result (Hears L.heard net.now listener.old listener.new
        (pairs_told net.now entry link lanes) (counts_told net.now entry actor link lanes)) }
{
    match net.links_into(actor).get(choice as usize) {
        Some(link) => follow_take(course, listener, net, routes, entry, actor, *link),
        None => {
            follow_action(course, net, entry, actor)?;
            Ok(())
        }
    }
}
