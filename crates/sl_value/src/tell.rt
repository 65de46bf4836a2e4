// What a world of nodes that keep values tells.
ghost use Rattle.std.specs.Prelude.{◌≡◌, ◌<◌, ◌≤◌, IfOk, Some, length, map, slice_index};
ghost use Rattle.std.specs.List.{range_with_len};
ghost use Rattle.sl_layout.specs.Net.{actor_of, units};
ghost use Rattle.sl_model.specs.History.{history};
ghost use Rattle.sl_value.specs.declared.verdict.ValueVerdict.{ValueVerdict};
ghost use Rattle.sl_value.specs.Counted.{counted};
ghost use Rattle.sl_value.specs.Verdicts.{values_for, value_finding};
ghost use Rattle.sl_value.specs.Outcome.{control_for, world_after, HasValues, CanList};

use crate::verdict::{ValueFinding, ValueList, ValueVerdict, Values};
use crate::whole::Whole;
use crate::world::ValueWorld;
use sl_control::control_of;
use sl_machine::Memory;
use sl_net::{ActorId, Net};
use sl_observe::Observer;
use sl_proto::verdict;
use std::alloc::Global;

/// The number of the control plane of a unit.
pub fn control_for(net: &Net, unit: u32) -> u32
    requires { unit < length (units net.now) }
    ensures number { result ≡ control_for net.now
        (actor_of net.now (slice_index (units net.now) unit)) }
    ensures within { result < length net.now.actors }
{
    match net.actor(net.unit_actor(unit)) {
        ActorId::Unit(id) => control_of(net, id.device),
        _ => 0,
    }
}

/// The values of all units for a number, in order.
fn values(alloc: Global, world: &ValueWorld, k: u64) -> Result<Values, Memory>
    requires each { length world.now.scene.states ≡ length world.now.input.net.actors }
    requires told { HasValues world.now k }
    ensures { IfOk result
        (λ v. v ≡ map (λ u. counted k (history (world_after world.now) u))
        (units world.now.input.net)) }
{
    let mut items = Vec::new(alloc);
    for unit in 0..world.net().unit_count() {
        match world.value(unit, k) {
            Some(value) => items.push(value)?,
            None => unreachable!(),
        }
    }
    Ok(Values { items })
}

/// A value for each unit where this verdict on `k` is whole.
fn values_for(
    alloc: Global,
    world: &ValueWorld,
    k: u64,
    verdict: ValueVerdict,
) -> Result<Values, Memory>
    requires each { length world.now.scene.states ≡ length world.now.input.net.actors }
    requires told { verdict ≡ ValueVerdict.Whole → HasValues world.now k }
    ensures { IfOk result
        (λ v. v ≡ values_for world.now.input.net (world_after world.now) k verdict) }
{
    match verdict {
        ValueVerdict::Whole => values(alloc, world, k),
        _ => Ok(Values {
            items: Vec::new(alloc),
        }),
    }
}

/// The finding of a number.
fn finding(
    alloc: Global,
    world: &ValueWorld,
    observer: &Observer,
    count: u64,
    k: u64,
) -> Result<ValueFinding, Memory>
    requires list { CanList world.now observer.now.state count }
    requires first { 1 ≤ k }
    requires last { k ≤ count }
    ensures { IfOk result (λ f. f ≡ value_finding world.now.input.net (world_after world.now) k) }
{
    let verdict = ValueVerdict::of(verdict(world.net(), observer, k));
    let values = values_for(alloc, world, k, verdict)?;
    Ok(ValueFinding { k, verdict, values })
}

/// The findings of the first numbers, in order.
pub fn list(
    alloc: Global,
    world: &ValueWorld,
    observer: &Observer,
    count: u64,
) -> Result<ValueList, Memory>
    requires { CanList world.now observer.now.state count }
    ensures { IfOk result
        (λ l. l ≡ map (value_finding world.now.input.net (world_after world.now))
        (range_with_len 1 count)) }
{
    let mut items = Vec::new(alloc);
    for done in 0..count {
        let one = finding(alloc, world, observer, count, done + 1)?;
        items.push(one)?;
    }
    Ok(ValueList { items })
}
