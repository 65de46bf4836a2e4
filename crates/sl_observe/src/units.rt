// The units that the observer knows, in order.
ghost use Rattle.std.specs.Prelude.{◌≡◌, ◌<◌, ◌≤◌, ℕ, None, length, map, replicate, slice_set};
ghost use Rattle.std.specs.Prelude.{IfOk, OnOk};
ghost use Rattle.sl_layout.specs.Net.{units};
ghost use Rattle.sl_observe.specs.Observer.{first_unit, floors_of, unit_at, after_done};
ghost use Rattle.sl_observe.specs.Observer.{units_after};
ghost use Rattle.sl_observe.specs.Kept.{states, collected_at, HasRoom, HasRoomBut, HaveRoomBut};
ghost use Rattle.sl_observe.specs.Kept.{HasSpan, HaveSpans};

use crate::floors::Floors;
use crate::spans::Span;
use crate::unit::Collected;
use sl_net::Net;
use sl_wire::Done;
use std::alloc::{AllocError, Global};

/// The units of a net, before the first Done.
#[tactic(auto, using(crate::proofs::UnitLists::units_few))]
pub fn list_units(alloc: Global, net: &Net) -> Result<Vec<Collected>, AllocError>
    ensures { IfOk result
        (λ listed. states listed.items ≡ map (first_unit net.now) (units net.now)) }
{
    // A net has few actors, so the places of its units fit 32 bits.
    let _ = net.actors();
    let ids = net.units();
    let mut listed = Vec::new(alloc);
    for (place, id) in ids.iter().enumerate() {
        let channels = net.upstream(place as u32).len();
        listed.push(Collected::new(alloc, id.device, channels))?;
    }
    Ok(listed)
}

/// For each device the place of the one unit that may lack room; at first none is known.
pub fn no_shorts(alloc: Global, devices: u32) -> Result<Vec<Option<usize>>, AllocError>
    ensures { IfOk result (λ shorts. shorts.items ≡ replicate devices None) }
{
    vec![in alloc; None; devices as usize]
}

/// Takes room for so many rows more, where there are so many snapshots, of the units from `first`
/// on, before `end`.
fn make_rooms(
    units: &mut Vec<Collected>,
    first: usize,
    end: usize,
    ring: u16,
    count: u64,
) -> Result<(), AllocError>
    requires { end ≤ length units.old.items }
    ensures states { states units.new.items ≡ states units.old.items }
    ensures more { (k : ℕ) → (collected_at units.old.items k).room
        ≤ (collected_at units.new.items k).room }
    ensures room { OnOk result ((k : ℕ) → first ≤ k → k < end
        → ring ≤ (collected_at units.new.items k).room) }
{
    for place in first..end {
        make_room_at(units, place, ring, count)?;
    }
    Ok(())
}

#[tactic(auto, using(crate::proofs::UnitLists::states_set_same))]
fn make_room_at(
    units: &mut Vec<Collected>,
    place: usize,
    ring: u16,
    count: u64,
) -> Result<(), AllocError>
    requires { place < length units.old.items }
    ensures states { states units.new.items ≡ states units.old.items }
    ensures size { length units.new.items ≡ length units.old.items }
    ensures room { OnOk result (ring ≤ (collected_at units.new.items place).room) }
    ensures others { (k : ℕ) → (k ≡ place → ⊥) → collected_at units.new.items k
        ≡ collected_at units.old.items k }
    ensures more { (k : ℕ) → (collected_at units.old.items k).room
        ≤ (collected_at units.new.items k).room }
{
    let unit = &mut units[place];
    unit.make_room(ring, count)
}

/// Takes room for a ring of rows of each unit that a device has, where at most this one of them may
/// lack it.
#[inline(never)]
fn prepare_at(
    units: &mut Vec<Collected>,
    place: usize,
    ring: u16,
    count: u64,
) -> Result<(), AllocError>
    ensures states { states units.new.items ≡ states units.old.items }
    ensures room { OnOk result ((device : ℕ) → HasRoomBut ring device place units.old.items
        → HasRoom ring device units.new.items) }
    ensures more { (k : ℕ) → (collected_at units.old.items k).room
        ≤ (collected_at units.new.items k).room }
{
    if place < units.len() {
        make_room_at(units, place, ring, count)?;
    }
    Ok(())
}

/// Takes room for a ring of rows of each unit that a device has.
#[inline(never)]
fn prepare_all(
    units: &mut Vec<Collected>,
    shorts: &mut Vec<Option<usize>>,
    span: Span,
    device: u32,
    ring: u16,
    count: u64,
) -> Result<(), AllocError>
    requires span { HasSpan (states units.old.items) device span }
    requires device { device < length shorts.old.items }
    requires shorts { HaveRoomBut ring shorts.old.items units.old.items }
    ensures states { states units.new.items ≡ states units.old.items }
    ensures room { OnOk result (HasRoom ring device units.new.items) }
    ensures shorts { HaveRoomBut ring shorts.new.items units.new.items }
    ensures size { length shorts.new.items ≡ length shorts.old.items }
{
    make_rooms(units, span.first, span.end, ring, count)?;
    shorts[device as usize] = Some(span.first);
    Ok(())
}

/// Takes the room that a Done from a device may need: a ring of rows for each of its units.
pub fn prepare(
    units: &mut Vec<Collected>,
    shorts: &mut Vec<Option<usize>>,
    spans: &[Span],
    ins: u32,
    link: u32,
    ring: u16,
    count: u64,
) -> Result<(), AllocError>
    requires spans { HaveSpans (states units.old.items) ins spans.now }
    requires size { length shorts.old.items ≡ ins }
    requires shorts { HaveRoomBut ring shorts.old.items units.old.items }
    ensures states { states units.new.items ≡ states units.old.items }
    ensures room { OnOk result (link < ins → HasRoom ring link units.new.items) }
    ensures size { length shorts.new.items ≡ ins }
    ensures shorts { HaveRoomBut ring shorts.new.items units.new.items }
{
    if link >= ins {
        return Ok(());
    }
    match shorts[link as usize] {
        Some(place) => prepare_at(units, place, ring, count),
        None => {
            let span = spans[link as usize];
            prepare_all(units, shorts, span, link, ring, count)
        }
    }
}

fn collect_at(units: &mut Vec<Collected>, place: usize, ring: u16, link: u32, done: &Done)
    requires place { place < length units.old.items }
    requires room { HasRoom ring link units.old.items }
    ensures set { states units.new.items ≡ slice_set (states units.old.items) place
        (after_done ring link done.now (unit_at (states units.old.items) place)) }
    ensures size { length units.new.items ≡ length units.old.items }
    ensures others { (k : ℕ) → (k ≡ place → ⊥) → collected_at units.new.items k
        ≡ collected_at units.old.items k }
    ensures same { (k : ℕ) → ((collected_at units.new.items k).state.device ≡ link → ⊥)
        → collected_at units.new.items k ≡ collected_at units.old.items k }
{
    let unit = &mut units[place];
    unit.collect(ring, link, done);
}

fn floor_at(units: &[Collected], place: usize) -> u64
    requires { place < length units.now }
    ensures { result ≡ (unit_at (states units.now) place).floor }
{
    let unit = &units[place];
    unit.seen().floor
}

/// Takes a Done that came from a device, keeps the floors of the units, and notes which unit of
/// the device may lack room from then on.
pub fn take_done(
    units: &mut Vec<Collected>,
    floors: &mut Floors,
    shorts: &mut Vec<Option<usize>>,
    ring: u16,
    link: u32,
    done: &Done,
)
    requires floors { floors.old ≡ floors_of (states units.old.items) }
    requires room { HasRoom ring link units.old.items }
    requires link { link < length shorts.old.items }
    requires shorts { HaveRoomBut ring shorts.old.items units.old.items }
    ensures states { states units.new.items ≡ units_after ring link done.now
        (states units.old.items) }
    ensures floors { floors.new ≡ floors_of (states units.new.items) }
    ensures size { length shorts.new.items ≡ length shorts.old.items }
    ensures shorts { HaveRoomBut ring shorts.new.items units.new.items }
{
    let place = done.unit as usize;
    if place < units.len() {
        collect_at(units, place, ring, link, done);
        floors.set(place, floor_at(units.as_slice(), place));
        shorts[link as usize] = Some(place);
    }
}
