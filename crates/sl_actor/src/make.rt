// Making actors: the links of a wiring, and the actors that they join.
ghost use Rattle.std.specs.Prelude.{◌≡◌, ◌<◌, ◌≤◌, ◌^◌, ◌∷◌, [], None, length, map};
ghost use Rattle.std.specs.Prelude.{slice_index_or, IfOk, OnOk, OnErr};
ghost use Rattle.std.specs.List.{All};
ghost use Rattle.std.specs.VecDeque.{deque_len};
ghost use Rattle.sl_machine.specs.Fit.{Fits, ins_of, outs_of};
ghost use Rattle.sl_machine.specs.Plan.{IsSound};
ghost use Rattle.sl_loss.specs.Loss.{IsFresh};
ghost use Rattle.sl_actor.specs.Made.{IsNewEnd, IsNewPart, FitRows, AreJoined, Joins, AreNew};
ghost use Rattle.sl_actor.specs.Made.{ArePlaced, EachFollows, HasEnds, AreTied};
ghost use Rattle.sl_actor.specs.Held.{held};
ghost use Rattle.sl_actor.specs.Rows.{AreSuch, IsFilled};

use crate::actor::Actor;
use crate::part::OutPart;
use crate::rows::{Row, empty_rows, fill_at};
use sl_link::{TakeEnd, make_link};
use sl_loss::Loss;
use sl_machine::{Link, Machine, Memory, Wiring};
use sl_sleep::{Neighbours, Roster};
use std::alloc::Global;
use std::collections::VecDeque;

/// One actor for each machine, with a link of this capacity for each of the wiring. Nothing has
/// happened to any. After want of memory the machines and losses are given up.
pub fn make_actors<A: Machine>(
    alloc: Global,
    machines: Vec<A>,
    wiring: &Wiring,
    losses: Vec<Option<Loss>>,
    capacity: u32,
) -> Result<Vec<Actor<A>>, Memory>
    requires fit { Fits A.counts wiring.now machines.items losses.items }
    requires fresh { All IsFresh losses.items }
    requires capacity { (1 ≤ capacity) × (capacity ≤ 1024) }
    ensures places { IfOk result (λ v. ArePlaced (map held v.items)) }
    ensures states { IfOk result
        (λ v. map (λ a. a.state) (map held v.items) ≡ map A.state machines.items) }
    ensures counts { IfOk result
        (λ v. map (λ a. a.counts) (map held v.items) ≡ map A.counts machines.items) }
    ensures logs { IfOk result (λ v. All (λ a. a.log ≡ []) (map held v.items)) }
    ensures follows { IfOk result
        (λ v. EachFollows A.rules (map A.state machines.items) (map held v.items)) }
    ensures ends { IfOk result (λ v. All HasEnds (map held v.items)) }
    ensures tied { IfOk result
        (λ v. AreTied wiring.now.links losses.items capacity (map held v.items)) }
{
    match joined_rows(alloc, wiring, losses, capacity) {
        Ok((takes, outs)) => assemble(alloc, wiring, machines, takes, outs),
        Err(fault) => {
            drop(machines);
            Err(fault)
        }
    }
}

/// The ends of all links of a wiring, each at its place.
fn joined_rows<M: Drop>(
    alloc: Global,
    wiring: &Wiring,
    losses: Vec<Option<Loss>>,
    capacity: u32,
) -> Result<(Vec<Row<TakeEnd<M>>>, Vec<Row<OutPart<M>>>), Memory>
    requires sound { IsSound wiring.now }
    requires losses { length losses.items ≡ length wiring.now.links }
    requires fresh { All IsFresh losses.items }
    requires capacity { (1 ≤ capacity) × (capacity ≤ 1024) }
    ensures takes { IfOk result (λ r. map length r.0.items ≡ wiring.now.ins) }
    ensures outs { IfOk result (λ r. map length r.1.items ≡ wiring.now.outs) }
    ensures ends { IfOk result (λ r. AreSuch IsNewEnd r.0.items) }
    ensures parts { IfOk result (λ r. AreSuch IsNewPart r.1.items) }
    ensures joined { IfOk result
        (λ r. AreJoined wiring.now.links losses.items capacity (length wiring.now.links)
        r.0.items r.1.items) }
{
    let mut takes = empty_rows(alloc, wiring.in_counts.as_slice())?;
    let mut outs = empty_rows(alloc, wiring.out_counts.as_slice())?;
    let links = wiring.links.as_slice();
    join_all(alloc, links, losses, capacity, &mut takes, &mut outs)?;
    Ok((takes, outs))
}

/// The actors of these machines, whose links have these ends.
fn assemble<A: Machine>(
    alloc: Global,
    wiring: &Wiring,
    machines: Vec<A>,
    takes: Vec<Row<TakeEnd<A::Msg>>>,
    outs: Vec<Row<OutPart<A::Msg>>>,
) -> Result<Vec<Actor<A>>, Memory>
    requires few { length machines.items < 2 ^ 32 }
    requires takes_each { map length takes.items ≡ ins_of A.counts machines.items }
    requires outs_each { map length outs.items ≡ outs_of A.counts machines.items }
    requires takes { All (λ row. All IsFilled row) takes.items }
    requires outs { All (λ row. All IsFilled row) outs.items }
    requires parts { AreSuch IsNewPart outs.items }
    ensures len { IfOk result (λ v. length v.items ≡ length machines.items) }
    ensures new { IfOk result
        (λ v. AreNew A.state A.counts machines.items (length machines.items) takes.items outs.items
        (map held v.items)) }
{
    let mut machines = VecDeque::from(machines);
    let mut takes = VecDeque::from(takes);
    let mut outs = VecDeque::from(outs);
    let actors = assemble_each(alloc, wiring, &mut machines, &mut takes, &mut outs);
    drop(outs);
    drop(takes);
    drop(machines);
    actors
}

/// The same, of what it takes from these one by one.
fn assemble_each<A: Machine>(
    alloc: Global,
    wiring: &Wiring,
    machines: &mut VecDeque<A>,
    takes: &mut VecDeque<Row<TakeEnd<A::Msg>>>,
    outs: &mut VecDeque<Row<OutPart<A::Msg>>>,
) -> Result<Vec<Actor<A>>, Memory>
    requires few { length machines.old.items < 2 ^ 32 }
    requires takes_each { map length takes.old.items ≡ ins_of A.counts machines.old.items }
    requires outs_each { map length outs.old.items ≡ outs_of A.counts machines.old.items }
    requires takes { All (λ row. All IsFilled row) takes.old.items }
    requires outs { All (λ row. All IsFilled row) outs.old.items }
    requires parts { AreSuch IsNewPart outs.old.items }
    ensures len { IfOk result (λ v. length v.items ≡ length machines.old.items) }
    ensures new { IfOk result
        (λ v. AreNew A.state A.counts machines.old.items (length machines.old.items)
        takes.old.items outs.old.items (map held v.items)) }
{
    let roster = Roster::shared(alloc, wiring)?;
    let neighbours = Neighbours::in_wiring(alloc, wiring)?;
    let mut actors = Vec::new(alloc);
    while let Some(machine) = machines.pop_front() {
        let ends = first(takes);
        let parts = first(outs);
        let place = actors.len() as u32;
        let actor = Actor::new(alloc, place, machine, ends, parts, &roster, &neighbours)?;
        actors.push(actor)?;
    }
    Ok(actors)
}

fn first<T: Drop>(list: &mut VecDeque<T>) -> T
    requires { 0 < deque_len list.old }
    ensures { list.old.items ≡ result ∷ list.new.items }
{
    match list.pop_front() {
        Some(x) => x,
        None => unreachable!(),
    }
}

/// Makes the links, and puts the ends of each at its places.
fn join_all<M: Drop>(
    alloc: Global,
    links: &[Link],
    losses: Vec<Option<Loss>>,
    capacity: u32,
    takes: &mut Vec<Row<TakeEnd<M>>>,
    outs: &mut Vec<Row<OutPart<M>>>,
) -> Result<(), Memory>
    requires capacity { (1 ≤ capacity) × (capacity ≤ 1024) }
    requires fit { FitRows links.now (map length takes.old.items) (map length outs.old.items) }
    requires losses { length losses.items ≡ length links.now }
    requires fresh { All IsFresh losses.items }
    requires ends { AreSuch IsNewEnd takes.old.items }
    requires parts { AreSuch IsNewPart outs.old.items }
    ensures takes { map length takes.new.items ≡ map length takes.old.items }
    ensures outs { map length outs.new.items ≡ map length outs.old.items }
    ensures ends { AreSuch IsNewEnd takes.new.items }
    ensures parts { AreSuch IsNewPart outs.new.items }
    ensures joined { OnOk result
        (AreJoined links.now losses.items capacity (length links.now)
        takes.new.items outs.new.items) }
{
    let mut losses = VecDeque::from(losses);
    for link in links {
        match losses.pop_front() {
            None => unreachable!(),
            Some(loss) => join_one(alloc, *link, loss, capacity, takes, outs)?,
        }
    }
    Ok(())
}

/// Makes a link, and puts its ends at their places.
fn join_one<M: Drop>(
    alloc: Global,
    link: Link,
    loss: Option<Loss>,
    capacity: u32,
    takes: &mut Vec<Row<TakeEnd<M>>>,
    outs: &mut Vec<Row<OutPart<M>>>,
) -> Result<(), Memory>
    requires capacity { (1 ≤ capacity) × (capacity ≤ 1024) }
    requires to { link.to < length takes.old.items }
    requires choice { link.choice < length (slice_index_or takes.old.items link.to []) }
    requires from { link.from < length outs.old.items }
    requires out { link.out < length (slice_index_or outs.old.items link.from []) }
    requires loss { IsFresh loss }
    ensures same { OnErr result ((takes.new.items ≡ takes.old.items)
        × (outs.new.items ≡ outs.old.items)) }
    ensures joins { OnOk result
        (Joins link loss capacity takes.old.items takes.new.items outs.old.items outs.new.items) }
{
    let (put, take) = make_link::<M>(alloc, capacity)?;
    let part = OutPart {
        put,
        outbox: VecDeque::new(alloc),
        loss,
        lost: 0,
    };
    fill_at(takes, link.to, link.choice, take);
    fill_at(outs, link.from, link.out, part);
    Ok(())
}
