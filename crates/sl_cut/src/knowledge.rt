// What the observer knows.
ghost use Rattle.std.specs.Prelude.{◌≡◌, ◌+◌, ◌<◌, ◌^◌, length, reverse, map, IfOk, None};
ghost use Rattle.std.specs.List.{All};
ghost use Rattle.sl_route.specs.Least.{least_in};
ghost use Rattle.sl_model.specs.Setup.{setup_of};
ghost use Rattle.sl_model.specs.Knowledge.{floor_of, unit_floor, floor, issued, resent};
ghost use Rattle.sl_model.specs.Knowledge.{can_issue, can_resend};

use crate::history::{World, first_steps};
use crate::tell::{id, known, least_last, taken};
use crate::wires::{action_choice, data_channels, observer};
use sl_machine::Memory;
use sl_model::Step;
use sl_net::{Input, Net, Sort, choices_of};
use std::alloc::Global;

/// The least of a unit's id, the last-seen numbers of its data channels and, for an ingress unit,
/// the last-seen number of its initiations.
pub fn floor_of(alloc: Global, net: &Net, unit: u32, steps: &[Step]) -> Result<u64, Memory>
    requires { unit < length net.now.actors }
    ensures { IfOk result (λ floor. floor ≡ floor_of net.now unit (reverse steps.now)) }
{
    let channels = data_channels(alloc, net, unit)?;
    let inits = choices_of(alloc, net, unit, Sort::Init)?;
    let upto = least_last(id(steps), &channels, steps);
    Ok(least_last(upto, &inits, steps))
}

/// The floor of a unit as the observer knows it.
pub fn unit_floor(alloc: Global, net: &Net, world: &World, unit: u32) -> Result<u64, Memory>
    requires { unit < length net.now.actors }
    ensures { IfOk result (λ number. number ≡ unit_floor net.now world.now unit) }
{
    let count = known(net.unit_place(unit), world.steps(0));
    floor_of(alloc, net, unit, first_steps(world.steps(unit), count))
}

/// The least floor of some units, if there is one.
fn least_floor(
    alloc: Global,
    net: &Net,
    world: &World,
    units: &[u32],
) -> Result<Option<u64>, Memory>
    requires { All (λ u. u < length net.now.actors) units.now }
    ensures { IfOk result
        (λ least. least ≡ least_in None (map (unit_floor net.now world.now) units.now)) }
{
    let mut least = None;
    for unit in units {
        let number = unit_floor(alloc, net, world, *unit)?;
        least = Some(least.unwrap_or(number).min(number));
    }
    Ok(least)
}

/// How many snapshots the observer issued, by its steps.
pub fn issued(net: &Net, steps: &[Step]) -> u64
    ensures value { result ≡ issued net.now (reverse steps.now) }
    ensures bound { result < 2 ^ 63 }
{
    taken(action_choice(net, observer(net)), steps) as u64
}

/// How often the observer resent, by its steps.
pub fn resent(net: &Net, steps: &[Step]) -> u64
    ensures { result ≡ resent net.now (reverse steps.now) }
{
    taken(action_choice(net, observer(net)) + 1, steps) as u64
}

/// The number up to which all units are collected.
pub fn floor(alloc: Global, net: &Net, world: &World) -> Result<u64, Memory>
    ensures { IfOk result (λ number. number ≡ floor net.now world.now) }
{
    let least = least_floor(alloc, net, world, net.unit_actors())?;
    Ok(least.unwrap_or(issued(net, world.steps(0))))
}

/// The guard of issue at a floor.
pub fn can_issue(input: &Input, floor: u64, steps: &[Step]) -> bool
    ensures { result ≡ can_issue (setup_of input.now) floor (reverse steps.now) }
{
    let number = issued(&input.net, steps);
    number < input.snapshot.count
        && number as u128 + 1 <= floor as u128 + input.snapshot.window as u128
}

/// The guard of resend at a floor.
pub fn can_resend(input: &Input, floor: u64, steps: &[Step]) -> bool
    ensures { result ≡ can_resend (setup_of input.now) floor (reverse steps.now) }
{
    let retries = resent(&input.net, steps);
    let number = issued(&input.net, steps);
    retries < input.snapshot.retries && floor < number
}
