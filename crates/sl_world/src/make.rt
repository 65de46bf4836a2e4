// The parts of a world that are made once.
ghost use Rattle.std.specs.Prelude.{◌≡◌, ◌≤◌, ℕ, length, map, slice_index, IfOk};
ghost use Rattle.sl_world.specs.Scene.{new_line, lines_with};
ghost use Rattle.sl_world.specs.Mesh.{lines_of};
ghost use Rattle.sl_world.specs.Places.{incoming, outgoing};

use crate::line::Line;
use sl_loss::Loss;
use sl_machine::{Link, Memory, Wiring};
use std::alloc::Global;
use std::mem;

/// A link for each loss, with nothing on it.
pub fn make_lines<M: Drop>(alloc: Global, losses: Vec<Option<Loss>>) -> Result<Vec<Line<M>>, Memory>
    ensures { IfOk result (λ lines. lines_of lines.items ≡ map new_line losses.items) }
{
    let mut lines = Vec::new(alloc);
    for loss in losses {
        lines.push(Line::new(alloc, loss))?;
    }
    Ok(lines)
}

/// The links with these losses, numbers of lost puts and messages.
pub fn lines_with<M: Drop>(
    alloc: Global,
    mut losses: Vec<Option<Loss>>,
    lost: &[u64],
    mut rests: Vec<Vec<M>>,
) -> Result<Vec<Line<M>>, Memory>
    requires lost { length lost.now ≡ length losses.items }
    requires rests { length rests.items ≡ length losses.items }
    ensures { IfOk result
        (λ lines. lines_of lines.items ≡ lines_with losses.items lost.now
        (map (λ v. v.items) rests.items)) }
{
    let mut lines = Vec::new(alloc);
    for link in 0..lost.len() {
        let rest = mem::replace(&mut rests[link], Vec::new(alloc));
        let line = Line::with(losses[link].take(), lost[link], rest);
        lines.push(line)?;
    }
    Ok(lines)
}

/// The greatest number, 0 where there is none.
pub fn greatest(numbers: &[u32]) -> u32
    ensures { (k : ℕ) → slice_index numbers.now k ≤ result }
{
    let mut most = 0;
    for n in numbers {
        if *n > most {
            most = *n;
        }
    }
    most
}

/// The pairs by which links come to their receivers: an actor and its choice.
pub fn incoming_pairs(alloc: Global, links: &[Link]) -> Result<Vec<(u32, u32)>, Memory>
    ensures { IfOk result (λ v. v.items ≡ incoming links.now) }
{
    Ok(links.iter().map(|l| (l.to, l.choice)).collect(alloc)?)
}

/// The pairs by which links go from their senders: an actor and its outgoing link's number.
pub fn outgoing_pairs(alloc: Global, links: &[Link]) -> Result<Vec<(u32, u32)>, Memory>
    ensures { IfOk result (λ v. v.items ≡ outgoing links.now) }
{
    Ok(links.iter().map(|l| (l.from, l.out)).collect(alloc)?)
}

/// A copy of a wiring.
pub fn copy_wiring(alloc: Global, wiring: &Wiring) -> Result<Wiring, Memory>
    ensures { IfOk result (λ w. w ≡ wiring.now) }
{
    Ok(Wiring {
        links: Vec::from_slice(alloc, wiring.links.as_slice())?,
        in_counts: Vec::from_slice(alloc, wiring.in_counts.as_slice())?,
        out_counts: Vec::from_slice(alloc, wiring.out_counts.as_slice())?,
        action_counts: Vec::from_slice(alloc, wiring.action_counts.as_slice())?,
    })
}
