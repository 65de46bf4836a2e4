// The findings of a finished world of nodes.
ghost use Rattle.std.specs.Prelude.{◌≡◌, ◌<◌, ◌^◌, [], ◌∷◌, ◌++◌, length, cond, IfOk, OnOk, Some};
ghost use Rattle.std.specs.Prelude.{option_map, slice_get};
ghost use Rattle.sl_layout.specs.Net.{same_sort, link_of};
ghost use Rattle.sl_net.specs.Input.{Input};
ghost use Rattle.sl_wire.specs.declared.message.Msg.{Msg};
ghost use Rattle.sl_observe.specs.Observer.{ObserverState};
ghost use Rattle.sl_model.specs.Words.{listed, numbers, weigh};
ghost use Rattle.sl_model.specs.History.{Losses};
ghost use Rattle.sl_model.specs.Setup.{setup_of};
ghost use Rattle.sl_model.specs.Books.{schedule_of};
ghost use Rattle.sl_model.specs.End.{IsFinished};
ghost use Rattle.sl_model.specs.Findings.{findings};
ghost use Rattle.sl_simulation.specs.ObserverImage.{IsObserverOf};
ghost use Rattle.sl_world.specs.Scene.{Scene};
ghost use Rattle.sl_world.specs.World.{scene};
ghost use Rattle.sl_proto.specs.Nodes.{NodeState, ObserverNode, node_state};
ghost use Rattle.sl_proto.specs.Standing.{case_of, world_of, StandsFor, StandsSomehow};
ghost use Rattle.sl_proto.specs.Standing.{WhenFinished};
ghost use Rattle.sl_proto.specs.Told.{sent_told, delivered_told, drops_told, all_drops};
ghost use Rattle.sl_proto.specs.Told.{lost_told, all_lost, HasAllRows, CanTell, told};

use crate::node::{Node, Traffic};
use crate::taker::Taker;
use crate::verdicts::finding_list;
use sl_machine::Memory;
use sl_model::{Counts, Drops, FindingList, Findings, Lost, worlds_take_turns};
use sl_net::{Input, Net, Sort, nets_are_wired};
use sl_observe::Observer;
use sl_simulation::{observers_give_findings, observers_tell};
use sl_world::World;
use std::alloc::Global;

/// What a unit dropped. An egress unit drops nothing.
fn drops_at(node: &Node) -> Drops
    ensures { result ≡ drops_told (node_state node.now) }
{
    match node {
        Node::Unit(unit) => {
            let counts = unit.counts();
            Drops {
                bad: counts.bad,
                expired: counts.expired,
                noroute: counts.noroute,
            }
        }
        _ => Drops {
            bad: 0,
            expired: 0,
            noroute: 0,
        },
    }
}

/// Adds what a host sent and took, where there is one.
fn add_traffic(
    sent: &mut Vec<u64>,
    delivered: &mut Vec<u64>,
    told: Option<Traffic>,
) -> Result<(), Memory>
    ensures sent { OnOk result
        (sent.new.items ≡ sent.old.items ++ listed (option_map (λ t. t.sent) told)) }
    ensures delivered { OnOk result
        (delivered.new.items
        ≡ delivered.old.items ++ listed (option_map (λ t. t.delivered) told)) }
{
    if let Some(traffic) = told {
        sent.push(traffic.sent)?;
        delivered.push(traffic.delivered)?;
    }
    Ok(())
}

/// What the hosts sent, and what they took, one count for each in order.
pub fn count_traffic<T: Taker>(
    alloc: Global,
    taker: &T,
    actors: u32,
) -> Result<(Counts, Counts), Memory>
    requires { actors ≡ length (T.scene taker.now).states }
    ensures sent { IfOk result
        (λ counts. counts.0 ≡ numbers sent_told (T.scene taker.now).states) }
    ensures delivered { IfOk result
        (λ counts. counts.1 ≡ numbers delivered_told (T.scene taker.now).states) }
{
    let mut sent = Vec::new(alloc);
    let mut delivered = Vec::new(alloc);
    for actor in 0..actors {
        add_traffic(&mut sent, &mut delivered, taker.traffic(actor))?;
    }
    Ok((Counts { items: sent }, Counts { items: delivered }))
}

/// What the units dropped.
fn drops(world: &World<Node>, actors: u32) -> Drops
    requires actors { actors ≡ length (scene world.now).states }
    requires bad { (all_drops (scene world.now).states).bad < 2 ^ 64 }
    requires expired { (all_drops (scene world.now).states).expired < 2 ^ 64 }
    requires noroute { (all_drops (scene world.now).states).noroute < 2 ^ 64 }
    ensures { result ≡ all_drops (scene world.now).states }
{
    let mut bad = 0;
    let mut expired = 0;
    let mut noroute = 0;
    for actor in 0..actors {
        let more = drops_at(world.machine(actor));
        bad += more.bad;
        expired += more.expired;
        noroute += more.noroute;
    }
    Drops {
        bad,
        expired,
        noroute,
    }
}

/// How many puts a link has lost, 0 where it is of another sort.
fn lost_if(net: &Net, world: &World<Node>, link: u32, sort: Sort) -> u64
    requires link { link < length net.now.links }
    requires links { length (scene world.now).plan.links ≡ length net.now.links }
    ensures { result ≡ weigh (lost_told (scene world.now))
        (cond (same_sort (link_of net.now link).sort sort) (link ∷ []) []) }
{
    if net.link(link).sort.is(sort) {
        world.lost(link)
    } else {
        0
    }
}

/// How many puts the links of a sort have lost.
fn lost_of(net: &Net, world: &World<Node>, sort: Sort) -> u64
    requires links { length (scene world.now).plan.links ≡ length net.now.links }
    requires small { all_lost net.now (scene world.now) sort < 2 ^ 64 }
    ensures { result ≡ all_lost net.now (scene world.now) sort }
{
    let mut total = 0;
    for link in 0..net.links().len() as u32 {
        total += lost_if(net, world, link, sort);
    }
    total
}

/// What a world of nodes tells of no snapshot.
fn tell(
    alloc: Global,
    net: &Net,
    world: &World<Node>,
    observer: &Observer,
) -> Result<Findings, Memory>
    requires { CanTell net.now (scene world.now) observer.now.state }
    ensures { IfOk result (λ f. f ≡ told net.now 0 (scene world.now) observer.now.state) }
{
    let actors = net.actors().len() as u32;
    let (sent, delivered) = count_traffic(alloc, world, actors)?;
    Ok(Findings {
        issued: observer.issued(),
        floor: observer.floor(),
        resent: observer.resent(),
        list: FindingList {
            items: Vec::new(alloc),
        },
        sent,
        delivered,
        drops: drops(world, actors),
        lost: Lost {
            cable: lost_of(net, world, Sort::Cable),
            crossbar: lost_of(net, world, Sort::Crossbar),
            init: lost_of(net, world, Sort::Init),
            notice: lost_of(net, world, Sort::Notice),
        },
    })
}

/// The observer of a world of nodes of an input. It has every row that was collected.
pub fn observer_of<'a>(input: &Input, world: &'a World<Node>) -> &'a Observer
    requires { StandsSomehow input.now (scene world.now) }
    ensures observer { slice_get (scene world.now).states 0 ≡ Some (ObserverNode result.now.state) }
    ensures rows { HasAllRows input.now.net result.now.state }
{
    worlds_take_turns();
    nodes_tell_findings();
    world.observer()
}

/// What a finished world of nodes of an input tells, as in `findings`, but for the list of
/// findings, which is empty.
pub fn findings_but_list(
    alloc: Global,
    input: &Input,
    world: &World<Node>,
) -> Result<Findings, Memory>
    requires stands { StandsSomehow input.now (scene world.now) }
    requires book { length (scene world.now).book < 2 ^ 40 }
    ensures { WhenFinished input.now (scene world.now)
        (λ found. IfOk result (λ f. f ≡ record found { list = [] })) }
{
    nets_are_wired();
    worlds_take_turns();
    nodes_tell_findings();
    let _links = input.net.links();
    let observer = observer_of(input, world);
    tell(alloc, &input.net, world, observer)
}

/// What a finished world of nodes of an input tells: the findings of the world of histories that it
/// stands for, by what the observer collected, the units counted and the links lost.
pub fn findings(alloc: Global, input: &Input, world: &World<Node>) -> Result<Findings, Memory>
    requires stands { StandsSomehow input.now (scene world.now) }
    requires book { length (scene world.now).book < 2 ^ 40 }
    ensures { WhenFinished input.now (scene world.now)
        (λ found. IfOk result (λ f. f ≡ found)) }
{
    nodes_tell_findings();
    let observer = observer_of(input, world);
    let list = finding_list(alloc, &input.net, observer, input.snapshot.count)?;
    let mut findings = findings_but_list(alloc, input, world)?;
    findings.list = list;
    Ok(findings)
}

/// In a scene of an input's nodes that stands for the world of its book, the observer's node is
/// that of the world, and has every row that was collected; and where that world is finished, what
/// the scene tells are the findings of its book.
pub fn nodes_tell_findings()
    ensures rows { (i : Input) (lost : Losses) (v : Scene NodeState Msg) (o : ObserverState)
        → StandsFor i.net (case_of i lost) v
        → slice_get v.states 0 ≡ Some (ObserverNode o) → HasAllRows i.net o }
    ensures observed { (i : Input) (lost : Losses) (v : Scene NodeState Msg) (o : ObserverState)
        → StandsFor i.net (case_of i lost) v
        → slice_get v.states 0 ≡ Some (ObserverNode o)
        → IsObserverOf i.net i.snapshot (world_of (case_of i lost) v) o }
    ensures told { (i : Input) (lost : Losses) (v : Scene NodeState Msg) (o : ObserverState)
        → StandsFor i.net (case_of i lost) v
        → slice_get v.states 0 ≡ Some (ObserverNode o) → length v.book < 2 ^ 40
        → IsFinished (setup_of i) lost (world_of (case_of i lost) v)
        → told i.net i.snapshot.count v o ≡ findings (setup_of i) lost (schedule_of v.book) }
{
    nets_are_wired();
    worlds_take_turns();
    observers_tell();
    observers_give_findings()
}
