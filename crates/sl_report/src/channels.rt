// The units of a net and their data channels, by number.
ghost use Rattle.std.specs.Prelude.{◌≡◌, ◌++◌, ◌<◌, IfOk, OnOk, length, filter, map};
ghost use Rattle.std.specs.List.{All};
ghost use Rattle.sl_layout.specs.Net.{link_of, same_sort, units};
ghost use Rattle.sl_model.specs.Findings.{channel_links};

use sl_net::{Net, Sort, push_if};
use sl_parts::Numbers;
use std::alloc::{AllocError, Global};

/// Adds those of some links that are of a sort.
#[tactic(auto, using(crate::proofs::TextLemmas::filter_more))]
fn add_of_sort(links: &mut Vec<u32>, net: &Net, from: &[u32], sort: Sort) -> Result<(), AllocError>
    requires { All (λ l. l < length net.now.links) from.now }
    ensures { OnOk result
        (links.new.items ≡ links.old.items ++ filter (λ l. same_sort (link_of net.now l).sort sort)
        from.now) }
{
    for link in from {
        push_if(links, net.link(*link).sort.is(sort), *link)?;
    }
    Ok(())
}

/// The data channels of a unit, by its actor's number, as links: its cables, then its crossbars.
pub fn channel_links(alloc: Global, net: &Net, unit: u32) -> Result<Vec<u32>, AllocError>
    requires { unit < length net.now.actors }
    ensures { IfOk result (λ links. links.items ≡ channel_links net.now unit) }
{
    let from = net.links_into(unit);
    let mut links = Vec::new(alloc);
    add_of_sort(&mut links, net, from, Sort::Cable)?;
    add_of_sort(&mut links, net, from, Sort::Crossbar)?;
    Ok(links)
}

/// The data channels of each unit, units in order.
pub fn list_channels(alloc: Global, net: &Net) -> Result<Vec<Numbers>, AllocError>
    ensures { IfOk result (λ lists. lists.items ≡ map (channel_links net.now) (units net.now)) }
{
    let mut lists = Vec::new(alloc);
    for unit in net.unit_actors() {
        let items = channel_links(alloc, net, *unit)?;
        lists.push(Numbers { items })?;
    }
    Ok(lists)
}
