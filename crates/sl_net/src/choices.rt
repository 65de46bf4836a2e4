// The choices of an actor by the sort of the link that they take from.
ghost use Rattle.std.specs.Prelude.{◌≡◌, ◌≤◌, ◌<◌, length, IfOk};
ghost use Rattle.std.specs.List.{All};
ghost use Rattle.sl_layout.specs.Net.{links_into, choices_of};
ghost use Rattle.sl_layout.specs.Serving.{choice_from};

use crate::net::Net;
use sl_layout::Sort;
use sl_parts::push_if;
use std::alloc::{AllocError, Global};

/// The choices of an actor that take from links of a sort, in order.
pub fn choices_of(alloc: Global, net: &Net, actor: u32, sort: Sort) -> Result<Vec<u32>, AllocError>
    requires { actor < length net.now.actors }
    ensures choices { IfOk result (λ choices. choices.items ≡ choices_of net.now actor sort) }
    ensures each { IfOk result
        (λ choices. All (λ c. c < length (links_into net.now actor)) choices.items) }
    ensures few { IfOk result (λ choices. length choices.items ≤ 77888) }
{
    let links = net.links_into(actor);
    let mut choices = Vec::new(alloc);
    for choice in 0..links.len() as u32 {
        let link = net.link(links[choice as usize]);
        push_if(&mut choices, link.sort.is(sort), choice)?;
    }
    Ok(choices)
}

/// The first choice of an actor that takes from a link of a sort that comes from a unit, or 0.
pub fn choice_from(
    alloc: Global,
    net: &Net,
    actor: u32,
    unit: u32,
    sort: Sort,
) -> Result<u32, AllocError>
    requires { actor < length net.now.actors }
    ensures { IfOk result (λ choice. choice ≡ choice_from net.now actor unit sort) }
{
    let links = net.links_into(actor);
    let choices = choices_of(alloc, net, actor, sort)?;
    let mut found = Vec::new(alloc);
    for choice in &choices {
        let link = net.link(links[*choice as usize]);
        push_if(&mut found, link.from == unit, *choice)?;
    }
    Ok(found.first().copied().unwrap_or(0))
}
