// Verdicts on snapshots, from whole histories.
ghost use Rattle.std.specs.Prelude.{◌≡◌, ◌+◌, ◌-◌, ◌<◌, ◌^◌, ◌∷◌, ◌&&◌, length, reverse};
ghost use Rattle.std.specs.Prelude.{slice_index_or, nat_lt, min, unwrap_or, if◌then◌else◌, IfOk};
ghost use Rattle.std.specs.Prelude.{Some};
ghost use Rattle.std.specs.List.{All};
ghost use Rattle.sl_layout.specs.Net.{units};
ghost use Rattle.sl_model.specs.Words.{first_told};
ghost use Rattle.sl_route.specs.Least.{least};
ghost use Rattle.sl_model.specs.History.{history};
ghost use Rattle.sl_model.specs.Knowledge.{floor, unit_floor};
ghost use Rattle.sl_model.specs.Verdict.{skipped_to, is_old_data, miscredits, cause, channel_lag};
ghost use Rattle.sl_model.specs.Verdict.{lag, holds_floor, floor_holder, place_or_zero, verdict};

use crate::history::World;
use crate::knowledge::{floor, issued, unit_floor};
use crate::tell::{id, last, stamp_taken};
use crate::wires::data_channels;
use sl_machine::Memory;
use sl_model::{Cause, Lag, Message, Step, Verdict};
use sl_net::Net;
use std::alloc::Global;

/// The number to which a unit skipped a snapshot, if it did.
fn skipped_to(snapshot: u64, steps: &[Step]) -> Option<u64>
    ensures { result ≡ skipped_to snapshot (reverse steps.now) }
{
    let mut skipped = None;
    let mut id = 0;
    for step in steps {
        let next = stamp_taken(step).unwrap_or(0).max(id);
        if id < snapshot && snapshot < next {
            skipped = Some(next);
        }
        id = next;
    }
    skipped
}

fn is_old_data(snapshot: u64, step: &Step) -> bool
    ensures { result ≡ is_old_data snapshot step.now.taken }
{
    match &step.taken {
        Some(Message::Data(stamp, _)) => *stamp < snapshot,
        _ => false,
    }
}

/// The n-th of some numbers, from 1, or 0 where there are fewer.
fn nth_of(n: u8, numbers: &[u64]) -> u64
    ensures { result ≡ slice_index_or numbers.now (n - 1) 0 }
{
    match numbers.get(n.saturating_sub(1) as usize) {
        Some(number) => *number,
        None => 0,
    }
}

/// Puts a number before others where it is above an id.
fn adopt(adopted: &mut Vec<u64>, id: u64, next: u64) -> Result<(), Memory>
    ensures { IfOk result
        (λ _. adopted.new.items
        ≡ (if nat_lt id next then next ∷ adopted.old.items else adopted.old.items)) }
{
    if id < next {
        adopted.insert(0, next)?;
    }
    Ok(())
}

/// The lesser of two numbers, where the second counts.
fn least_with(by: Option<u64>, counts: bool, number: u64) -> Option<u64>
    ensures { result ≡ (if counts then Some (min (unwrap_or by number) number) else by) }
{
    if counts {
        Some(by.unwrap_or(number).min(number))
    } else {
        by
    }
}

/// The least number by which a unit miscredited a snapshot, if it did.
fn miscredited_by(
    alloc: Global,
    credits: u8,
    snapshot: u64,
    steps: &[Step],
) -> Result<Option<u64>, Memory>
    ensures { IfOk result (λ by. by ≡ least (miscredits credits snapshot (reverse steps.now))) }
{
    let mut by: Option<u64> = None;
    let mut id = 0;
    let mut adopted = Vec::new(alloc);
    for step in steps {
        let next = stamp_taken(step).unwrap_or(0).max(id);
        adopt(&mut adopted, id, next)?;
        id = next;
        let nth = nth_of(credits, &adopted);
        let counts = is_old_data(snapshot, step) && snapshot < nth;
        by = least_with(by, counts, nth);
    }
    Ok(by)
}

/// Why a snapshot is inconsistent at a unit, if it is: skipped before miscredited.
fn cause(alloc: Global, credits: u8, snapshot: u64, steps: &[Step]) -> Result<Option<Cause>, Memory>
    ensures { IfOk result (λ why. why ≡ cause credits snapshot (reverse steps.now)) }
{
    let by = miscredited_by(alloc, credits, snapshot, steps)?;
    Ok(match (skipped_to(snapshot, steps), by) {
        (Some(to), _) => Some(Cause::Skipped { to }),
        (None, Some(by)) => Some(Cause::Miscredited { by }),
        (None, None) => None,
    })
}

/// The first of some channels whose last-seen number is below a snapshot, by its place.
fn lagging_channel(snapshot: u64, channels: &[u32], steps: &[Step]) -> Option<(u32, u64)>
    requires { length channels.now < 2 ^ 32 }
    ensures { result ≡ first_told (channel_lag snapshot (reverse steps.now)) channels.now }
{
    let mut place = 0;
    for channel in channels {
        let seen = last(*channel, steps);
        if seen < snapshot {
            return Some((place, seen));
        }
        place += 1;
    }
    None
}

/// What of a unit lags behind a snapshot, if something does.
fn lag(
    alloc: Global,
    net: &Net,
    snapshot: u64,
    unit: u32,
    steps: &[Step],
) -> Result<Option<Lag>, Memory>
    requires { unit < length net.now.actors }
    ensures { IfOk result (λ answer. answer ≡ lag net.now snapshot unit (reverse steps.now)) }
{
    let id = id(steps);
    if id < snapshot {
        return Ok(Some(Lag::Id(id)));
    }
    match lagging_channel(snapshot, &data_channels(alloc, net, unit)?, steps) {
        Some((place, seen)) => Ok(Some(Lag::Channel {
            channel: place,
            seen,
        })),
        None => Ok(None),
    }
}

/// The first of some units that lags, by its place.
fn first_lag(
    alloc: Global,
    net: &Net,
    world: &World,
    snapshot: u64,
    units: &[u32],
) -> Result<Option<(u32, Lag)>, Memory>
    requires each { All (λ u. u < length net.now.actors) units.now }
    requires few { length units.now < 2 ^ 32 }
    ensures { IfOk result
        (λ first. first ≡ first_told (λ u. lag net.now snapshot u (history world.now u))
        units.now) }
{
    let mut place = 0;
    for unit in units {
        if let Some(lag) = lag(alloc, net, snapshot, *unit, world.steps(*unit))? {
            return Ok(Some((place, lag)));
        }
        place += 1;
    }
    Ok(None)
}

/// The first of some units with a cause, by its place.
fn first_with_cause(
    alloc: Global,
    credits: u8,
    world: &World,
    snapshot: u64,
    units: &[u32],
) -> Result<Option<(u32, Cause)>, Memory>
    requires { length units.now < 2 ^ 32 }
    ensures { IfOk result
        (λ first. first ≡ first_told (λ u. cause credits snapshot (history world.now u))
        units.now) }
{
    let mut place = 0;
    for unit in units {
        if let Some(cause) = cause(alloc, credits, snapshot, world.steps(*unit))? {
            return Ok(Some((place, cause)));
        }
        place += 1;
    }
    Ok(None)
}

/// The units of a net, by their actors' numbers; a net has few actors.
#[tactic(auto, using(crate::proofs::Judging::few_units))]
fn units_of(net: &Net) -> &[u32]
    ensures units { result.now ≡ units net.now }
    ensures each { All (λ u. u < length net.now.actors) result.now }
    ensures few { length result.now < 2 ^ 32 }
{
    let _actors = net.actors();
    net.unit_actors()
}

/// The first of some units at the floor, by its place, 0 where there is none.
fn holder_of(
    alloc: Global,
    net: &Net,
    world: &World,
    lowest: u64,
    units: &[u32],
) -> Result<u32, Memory>
    requires floor { lowest ≡ floor net.now world.now }
    requires each { All (λ u. u < length net.now.actors) units.now }
    requires few { length units.now < 2 ^ 32 }
    ensures { IfOk result
        (λ place. place ≡ place_or_zero (first_told (holds_floor net.now world.now) units.now)) }
{
    let mut place = 0;
    for unit in units {
        if unit_floor(alloc, net, world, *unit)? == lowest {
            return Ok(place);
        }
        place += 1;
    }
    Ok(0)
}

/// The verdict on a snapshot that is not issued: at which unit the floor is.
fn not_issued(alloc: Global, net: &Net, world: &World) -> Result<Verdict, Memory>
    ensures { IfOk result
        (λ answer. answer
        ≡ Verdict.NotIssued (floor_holder net.now world.now) (floor net.now world.now)) }
{
    let floor = floor(alloc, net, world)?;
    let unit = holder_of(alloc, net, world, floor, units_of(net))?;
    Ok(Verdict::NotIssued { unit, floor })
}

/// The verdict on a snapshot, where a data packet is credited to so many numbers at most.
pub fn verdict(
    alloc: Global,
    credits: u8,
    net: &Net,
    world: &World,
    snapshot: u64,
) -> Result<Verdict, Memory>
    ensures { IfOk result (λ answer. answer ≡ verdict credits net.now world.now snapshot) }
{
    if snapshot > issued(net, world.steps(0)) {
        return not_issued(alloc, net, world);
    }
    let units = units_of(net);
    if let Some((place, lag)) = first_lag(alloc, net, world, snapshot, units)? {
        return Ok(Verdict::Pending { unit: place, lag });
    }
    match first_with_cause(alloc, credits, world, snapshot, units)? {
        Some((place, cause)) => Ok(Verdict::Inconsistent { unit: place, cause }),
        None => Ok(Verdict::Consistent),
    }
}
