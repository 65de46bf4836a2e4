// How the actors of a net are joined, for the world that runs them.
ghost use Rattle.std.specs.Prelude.{◌≡◌, ◌≤◌, IfOk, length, map};
ghost use Rattle.sl_parts.specs.Parts.{below};
ghost use Rattle.sl_layout.specs.Ends.{links_at};
ghost use Rattle.sl_layout.specs.Wiring.{actions_of, wired_links, action_counts, plan_of};

use crate::actor::ActorId;
use crate::wires::{End, Wires};
use sl_machine::{Link, Wiring};
use std::alloc::{AllocError, Global};

/// How many actions of its own an actor has: the observer issues and resends, a control plane
/// sweeps, a host injects.
pub fn actions_of(actor: ActorId) -> u32
    ensures actions { result ≡ actions_of actor }
    ensures few { result ≤ 2 }
{
    match actor {
        ActorId::Observer => 2,
        ActorId::Control(_) => 1,
        ActorId::Unit(_) => 0,
        ActorId::Host(_) => 1,
    }
}

fn list_wired(alloc: Global, wires: &Wires) -> Result<Vec<Link>, AllocError>
    ensures { IfOk result (λ links. links.items ≡ wired_links wires.now) }
{
    let outs = wires.outs();
    let choices = wires.choices();
    let mut links = Vec::new(alloc);
    for i in 0..outs.len() {
        let part = wires.link(i as u32);
        links.push(Link {
            from: part.from,
            out: outs[i],
            to: part.to,
            choice: choices[i],
        })?;
    }
    Ok(links)
}

/// How many links each actor has at one of their ends.
fn count_at(alloc: Global, wires: &Wires, end: End) -> Result<Vec<u32>, AllocError>
    ensures { IfOk result
        (λ counts. counts.items ≡ map (λ a. length (links_at wires.now end a))
        (below (length wires.now.actors))) }
{
    let mut counts = Vec::new(alloc);
    for actor in 0..wires.count() {
        counts.push(wires.links_at(actor, end).len() as u32)?;
    }
    Ok(counts)
}

fn count_actions(alloc: Global, actors: &[ActorId]) -> Result<Vec<u32>, AllocError>
    ensures { IfOk result (λ counts. counts.items ≡ map actions_of actors.now) }
{
    actors.iter().map(|actor| actions_of(*actor)).collect(alloc)
}

/// The wiring of the net, as machines ask for it.
pub fn make_wiring(alloc: Global, wires: &Wires) -> Result<Wiring, AllocError>
    ensures { IfOk result (λ wiring. wiring ≡ plan_of wires.now) }
{
    Ok(Wiring {
        links: list_wired(alloc, wires)?,
        in_counts: count_at(alloc, wires, End::Receiver)?,
        out_counts: count_at(alloc, wires, End::Sender)?,
        action_counts: count_actions(alloc, wires.roster().actors())?,
    })
}
