// Actors in a ring, each with a link to the next.
ghost use Rattle.std.specs.Prelude.{◌≡◌, ◌<◌, ◌^◌, length, map, replicate, IfOk, ◌∷◌, []};
ghost use Rattle.std.specs.List.{All};
ghost use Rattle.sl_loss.specs.Loss.{IsFresh};
ghost use Rattle.thread_tests.specs.Ring.{next, AreInRing, IsRing, passer_state};

use crate::passer::Passer;
use sl_actor::{Actor, make_actors};
use sl_loss::Loss;
use sl_machine::{Link, Memory, Wiring};
use std::alloc::{AllocError, Global};

/// How many messages a link of the ring holds.
const CAPACITY: u32 = 4;

fn next(actor: u32, count: u32) -> u32
    requires { actor < count }
    ensures { result ≡ next count actor }
{
    if actor + 1 == count { 0 } else { actor + 1 }
}

fn ring_links(alloc: Global, count: u32) -> Result<Vec<Link>, AllocError>
    ensures { IfOk result (λ v. AreInRing count count v.items) }
{
    let mut links = Vec::new(alloc);
    for actor in 0..count {
        links.push(Link {
            from: actor,
            out: 0,
            to: next(actor, count),
            choice: 0,
        })?;
    }
    Ok(links)
}

pub fn ring_wiring(alloc: Global, count: u32) -> Result<Wiring, AllocError>
    ensures { IfOk result (λ w. IsRing count w) }
{
    Ok(Wiring {
        links: ring_links(alloc, count)?,
        in_counts: vec![in alloc; 1; count as usize]?,
        out_counts: vec![in alloc; 1; count as usize]?,
        action_counts: vec![in alloc; 1; count as usize]?,
    })
}

/// Machines of which the first sends so many tokens, each to all others, twice the same.
pub fn machines(
    alloc: Global,
    count: u32,
    tokens: u32,
) -> Result<(Vec<Passer>, Vec<Passer>), AllocError>
    ensures each { IfOk result (λ v. length v.0.items ≡ count) }
    ensures alike { IfOk result (λ v. map passer_state v.1.items ≡ map passer_state v.0.items) }
{
    let hops = count.saturating_sub(2);
    let mut machines = Vec::new(alloc);
    let mut alike = Vec::new(alloc);
    for actor in 0..count {
        let left = if actor == 0 { tokens } else { 0 };
        machines.push(Passer::new(hops, left))?;
        alike.push(Passer::new(hops, left))?;
    }
    Ok((machines, alike))
}

/// The losses of a ring's links: the first link loses these puts.
pub fn losses(alloc: Global, count: u32, drops: &[u64]) -> Result<Vec<Option<Loss>>, Memory>
    ensures length { IfOk result (λ v. length v.items ≡ count) }
    ensures fresh { IfOk result (λ v. All IsFresh v.items) }
{
    let mut losses: Vec<Option<Loss>> = Vec::new(alloc);
    for link in 0..count {
        let loss = if link == 0 {
            Some(Loss::new(alloc, 1, 0, 0, drops)?)
        } else {
            None
        };
        losses.push(loss)?;
    }
    Ok(losses)
}

/// Actors in a ring, of which the first sends so many tokens, each to all others.
pub fn ring(alloc: Global, count: u32, tokens: u32) -> Result<Vec<Actor<Passer>>, Memory> {
    let wiring = ring_wiring(alloc, count)?;
    let (machines, _alike) = machines(alloc, count, tokens)?;
    let losses = losses(alloc, count, &[])?;
    make_actors(alloc, machines, &wiring, losses, CAPACITY)
}
