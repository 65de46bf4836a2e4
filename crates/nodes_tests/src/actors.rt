// The nodes of an input as actors, by turns of one thread.
ghost use Rattle.std.specs.Prelude.{IsTrue, IfOk};
ghost use Rattle.sl_machine.specs.Plan.{HasChoice};
ghost use Rattle.sl_machine.specs.Fit.{HasCounts};
ghost use Rattle.sl_layout.specs.Wiring.{plan_of};
ghost use Rattle.sl_actor.specs.Held.{held};
ghost use Rattle.sl_proto.specs.RunBook.{CanRun};

use crate::calls::runnable;
use sl_actor::{Actor, Moved, make_actors};
use sl_machine::Memory;
use sl_net::{Input, Net};
use sl_proto::{Node, build_nodes, make_losses, pass_of};
use std::alloc::Global;
use std::sync::Wait;
use std::test::Fail;

/// The net of `examples/three_packets.toml`.
pub const THREE_PACKETS: &str = r#"device = [{name = "a", ports = 2}]
host = [{name = "h0", at = "a.0"}, {name = "h1", at = "a.1"}]
flow = [{from = "h0", to = "h1", count = 3, bytes = 100, hops = 8}]
snapshot = {bits = 2, window = 3, ring = 3, count = 1, retries = 0}
"#;

/// What the observer of the first net has issued and collected, and what each of its hosts has sent
/// and taken.
static AT_LAST: [(u64, u64); 3] = [(1, 1), (3, 0), (0, 3)];

fn at_last() -> &'static [(u64, u64)] {
    &AT_LAST
}

/// What an observer has issued and collected, or a host sent and taken.
pub fn counted(node: &Node) -> Option<(u64, u64)> {
    match node {
        Node::Observer(observer) => Some((observer.issued(), observer.floor())),
        Node::Host(host) => Some((host.sent(), host.delivered())),
        _ => None,
    }
}

/// Whether an actor of a net has a choice.
fn has_choice(net: &Net, actor: u32, choice: u32) -> bool
    ensures { IsTrue result → HasChoice (plan_of net.now) actor choice }
{
    let wiring = net.wiring();
    let actor = actor as usize;
    if actor >= wiring.in_counts.len() || actor >= wiring.action_counts.len() {
        return false;
    }
    choice < wiring.in_counts[actor].saturating_add(wiring.action_counts[actor])
}

/// The nodes of an input as actors, whose links hold so many messages.
fn actors_of(alloc: Global, input: &Input, capacity: u32) -> Result<Vec<Actor<Node>>, Fail>
    requires { CanRun input.now }
    ensures { IfOk result (λ v. HasCounts (λ a. (held a).counts) (plan_of input.now.net) v.items) }
{
    let nodes = build_nodes(alloc, input)?;
    let losses = make_losses(alloc, input)?;
    let wiring = input.net.wiring();
    if losses.len() != wiring.links.len() || capacity == 0 || capacity > 1024 {
        return Err("no such links".into());
    }
    Ok(make_actors(alloc, nodes, wiring, losses, capacity)?)
}

/// A turn of an actor. Whether it did something or offered.
fn turn<R: Wait>(
    rt: &R,
    net: &Net,
    actors: &mut Vec<Actor<Node>>,
    actor: u32,
    choice: u32,
) -> Result<bool, Memory>
    requires { HasCounts (λ a. (held a).counts) (plan_of net.now) actors.old.items }
    ensures { HasCounts (λ a. (held a).counts) (plan_of net.now) actors.new.items }
{
    let place = actor as usize;
    if place < actors.len() && has_choice(net, actor, choice) {
        let actor = &mut actors[place];
        Ok(actor.turn(rt, choice)? != Moved::Idle)
    } else {
        Ok(false)
    }
}

/// The turns of a pass. Whether any did something or offered.
fn pass<R: Wait>(
    rt: &R,
    net: &Net,
    actors: &mut Vec<Actor<Node>>,
    entries: &[(u32, u32)],
) -> Result<bool, Memory>
    requires { HasCounts (λ a. (held a).counts) (plan_of net.now) actors.old.items }
    ensures { HasCounts (λ a. (held a).counts) (plan_of net.now) actors.new.items }
{
    let mut moved = false;
    for (actor, choice) in entries {
        if turn(rt, net, actors, *actor, *choice)? {
            moved = true;
        }
    }
    Ok(moved)
}

/// Passes until a whole pass does nothing. Whether one did.
fn settle<R: Wait>(
    rt: &R,
    net: &Net,
    actors: &mut Vec<Actor<Node>>,
    entries: &[(u32, u32)],
) -> Result<bool, Memory>
    requires { HasCounts (λ a. (held a).counts) (plan_of net.now) actors.old.items }
    ensures { HasCounts (λ a. (held a).counts) (plan_of net.now) actors.new.items }
{
    for _ in 0..1000 {
        if !pass(rt, net, actors, entries)? {
            return Ok(true);
        }
    }
    Ok(false)
}

/// Whether these counts are expected at a place.
pub fn is_at(expected: &[(u64, u64)], place: usize, counts: (u64, u64)) -> bool {
    match expected.get(place) {
        Some(at) => *at == counts,
        None => false,
    }
}

/// Whether the observer and the hosts have counted what is expected.
fn are_told(actors: &[Actor<Node>]) -> bool {
    let mut place: usize = 0;
    for actor in actors {
        if let Some(counts) = counted(actor.machine()) {
            if !is_at(at_last(), place, counts) {
                return false;
            }
            place = place.saturating_add(1);
        }
    }
    place == at_last().len()
}

/// Whether actors of a net come to what is expected.
fn rest_right<R: Wait>(
    rt: &R,
    alloc: Global,
    net: &Net,
    actors: &mut Vec<Actor<Node>>,
) -> Result<bool, Fail>
    requires { HasCounts (λ a. (held a).counts) (plan_of net.now) actors.old.items }
{
    let entries = pass_of(alloc, net, true)?;
    let rests = settle(rt, net, actors, entries.as_slice())?;
    Ok(rests && are_told(actors.as_slice()))
}

/// Whether those of an input do.
fn come_to<R: Wait>(rt: &R, alloc: Global, input: &Input, capacity: u32) -> Result<bool, Fail>
    requires { CanRun input.now }
{
    let mut actors = actors_of(alloc, input, capacity)?;
    let right = rest_right(rt, alloc, &input.net, &mut actors);
    drop(actors);
    right
}

/// Whether they do with links that hold one message, two and sixteen.
fn all_come_to<R: Wait>(rt: &R, alloc: Global, input: &Input) -> Result<bool, Fail>
    requires { CanRun input.now }
{
    let one = come_to(rt, alloc, input, 1)?;
    let two = come_to(rt, alloc, input, 2)?;
    let many = come_to(rt, alloc, input, 16)?;
    Ok(one && two && many)
}

/// However much a link holds, all packets are delivered and the snapshot is collected.
#[test]
fn nodes_are_actors(rt: HostRuntime) -> Result<(), Fail> {
    let input = runnable(rt.alloc(), THREE_PACKETS)?;
    let right = all_come_to(&rt, rt.alloc(), &input);
    drop(input);
    assert!(rt; right?);
    Ok(())
}
