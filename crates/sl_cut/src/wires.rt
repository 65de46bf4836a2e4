// The links and choices of an actor, and the hosts, by the definitions.
ghost use Rattle.std.specs.Prelude.{◌≡◌, ◌≤◌, ◌<◌, length, IfOk};
ghost use Rattle.std.specs.List.{All};
ghost use Rattle.sl_layout.specs.Net.{is_host, links_into, links_out, choices_of, hosts};
ghost use Rattle.sl_layout.specs.Net.{data_channels, action_choice};

use sl_machine::Memory;
use sl_net::{ActorId, Net, Sort, choices_of, push_if};
use std::alloc::Global;

/// The observer's number.
#[tactic(auto, using(crate::proofs::Observed::observer_there))]
pub fn observer(net: &Net) -> u32
    ensures number { result ≡ 0 }
    ensures within { result < length net.now.actors }
{
    // A net is that of its parts, and the observer is its first actor.
    let _parts = net.parts();
    0
}

/// The links of a sort on which an actor puts.
pub fn links_out(alloc: Global, net: &Net, actor: u32, sort: Sort) -> Result<Vec<u32>, Memory>
    requires { actor < length net.now.actors }
    ensures links { IfOk result (λ links. links.items ≡ links_out net.now actor sort) }
    ensures each { IfOk result (λ links. All (λ l. l < length net.now.links) links.items) }
{
    let mut links = Vec::new(alloc);
    for link in net.links_from(actor) {
        push_if(&mut links, net.link(*link).sort.is(sort), *link)?;
    }
    Ok(links)
}

/// The data channels of a unit, as choices.
pub fn data_channels(alloc: Global, net: &Net, unit: u32) -> Result<Vec<u32>, Memory>
    requires { unit < length net.now.actors }
    ensures channels { IfOk result (λ choices. choices.items ≡ data_channels net.now unit) }
    ensures each { IfOk result
        (λ choices. All (λ c. c < length (links_into net.now unit)) choices.items) }
    ensures few { IfOk result (λ choices. length choices.items ≤ 155776) }
{
    let mut choices = choices_of(alloc, net, unit, Sort::Cable)?;
    choices.extend_from_slice(&choices_of(alloc, net, unit, Sort::Crossbar)?)?;
    Ok(choices)
}

/// The choice of an actor's first own action.
pub fn action_choice(net: &Net, actor: u32) -> usize
    requires { actor < length net.now.actors }
    ensures value { result ≡ action_choice net.now actor }
    ensures bound { result ≤ 77888 }
{
    net.links_into(actor).len()
}

fn is_host(actor: ActorId) -> bool
    ensures { result ≡ is_host actor }
{
    matches!(actor, ActorId::Host(_))
}

/// The hosts, in order.
pub fn hosts(alloc: Global, net: &Net) -> Result<Vec<u32>, Memory>
    ensures hosts { IfOk result (λ list. list.items ≡ hosts net.now) }
    ensures each { IfOk result (λ list. All (λ a. a < length net.now.actors) list.items) }
{
    let mut hosts = Vec::new(alloc);
    for actor in 0..net.actors().len() as u32 {
        push_if(&mut hosts, is_host(net.actor(actor)), actor)?;
    }
    Ok(hosts)
}
