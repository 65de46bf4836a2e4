// How many messages are lost, by kinds of links.
ghost use Rattle.std.specs.Prelude.{◌≡◌, [], ◌∷◌, ◌<◌, length, cond, IfOk};
ghost use Rattle.sl_layout.specs.Net.{link_of, same_sort};
ghost use Rattle.sl_model.specs.Findings.{lost_on, lost_of, losses_of};
ghost use Rattle.sl_model.specs.Losses.{losses};
ghost use Rattle.sl_model.specs.Words.{weigh};

use crate::history::World;
use crate::losses::carried;
use crate::tell::put;
use sl_machine::Memory;
use sl_model::Lost;
use sl_net::{Input, Sort};
use std::alloc::Global;

/// How many puts on a link are lost.
#[tactic(auto, using(crate::proofs::ForwardLosses::lost_and_kept))]
fn lost_on(alloc: Global, input: &Input, world: &World, link: u32) -> Result<u64, Memory>
    requires { link < length input.now.net.links }
    ensures { IfOk result
        (λ count. count ≡ lost_on input.now.net (losses input.now) world.now link) }
{
    let steps = world.steps(input.net.link(link).from);
    let messages = put(alloc, link, steps)?;
    let kept = carried(alloc, input, link, steps)?;
    Ok((messages.len() - kept.len()) as u64)
}

/// How many puts on a link are lost, 0 where it is of another sort.
fn lost_if(
    alloc: Global,
    input: &Input,
    world: &World,
    link: u32,
    sort: Sort,
) -> Result<u64, Memory>
    requires { link < length input.now.net.links }
    ensures { IfOk result
        (λ count. count ≡ weigh (lost_on input.now.net (losses input.now) world.now)
        (cond (same_sort (link_of input.now.net link).sort sort) (link ∷ []) [])) }
{
    if input.net.link(link).sort.is(sort) {
        lost_on(alloc, input, world, link)
    } else {
        Ok(0)
    }
}

/// How many puts on links of a sort are lost. A number past the last of a u64 is answered as want
/// of memory: so many messages are nowhere.
fn lost_of(alloc: Global, input: &Input, world: &World, sort: Sort) -> Result<u64, Memory>
    ensures { IfOk result
        (λ count. count ≡ lost_of input.now.net (losses input.now) world.now sort) }
{
    let mut total: u64 = 0;
    for link in 0..input.net.links().len() as u32 {
        let more = lost_if(alloc, input, world, link, sort)?;
        total = total.checked_add(more).ok_or(Memory)?;
    }
    Ok(total)
}

/// The lost puts by kinds of links.
pub fn losses_of(alloc: Global, input: &Input, world: &World) -> Result<Lost, Memory>
    ensures { IfOk result (λ lost. lost ≡ losses_of input.now.net (losses input.now) world.now) }
{
    Ok(Lost {
        cable: lost_of(alloc, input, world, Sort::Cable)?,
        crossbar: lost_of(alloc, input, world, Sort::Crossbar)?,
        init: lost_of(alloc, input, world, Sort::Init)?,
        notice: lost_of(alloc, input, world, Sort::Notice)?,
    })
}
