// The units upstream of each unit.
ghost use Rattle.std.specs.Prelude.{◌≡◌, ◌<◌, ◌++◌, OnOk, IfOk, length, map};
ghost use Rattle.sl_layout.specs.Net.{choices_of, units};
ghost use Rattle.sl_layout.specs.Wiring.{sender_by, upstream_of};

use crate::actor::Sort;
use crate::units::Units;
use sl_parts::{Numbers, push_if};
use std::alloc::{AllocError, Global};

/// Adds the senders of a unit's channels of a sort, as places among the units.
fn add_senders(
    senders: &mut Vec<u32>,
    listed: &Units,
    unit: u32,
    sort: Sort,
) -> Result<(), AllocError>
    requires { unit < length listed.now.actors }
    ensures { OnOk result
        (senders.new.items ≡ senders.old.items ++ map (sender_by listed.now unit)
        (choices_of listed.now unit sort)) }
{
    let wires = listed.wires();
    for link in wires.links_into(unit) {
        let part = wires.link(*link);
        push_if(senders, part.sort.is(sort), listed.place_of(part.from))?;
    }
    Ok(())
}

fn unit_upstream(alloc: Global, listed: &Units, unit: u32) -> Result<Numbers, AllocError>
    requires { unit < length listed.now.actors }
    ensures { IfOk result (λ senders. senders ≡ upstream_of listed.now unit) }
{
    let mut items = Vec::new(alloc);
    add_senders(&mut items, listed, unit, Sort::Cable)?;
    add_senders(&mut items, listed, unit, Sort::Crossbar)?;
    Ok(Numbers { items })
}

/// The senders of each unit's data channels, as places among the units.
pub fn list_upstream(alloc: Global, listed: &Units) -> Result<Vec<Numbers>, AllocError>
    ensures { IfOk result
        (λ upstream. upstream.items ≡ map (upstream_of listed.now) (units listed.now)) }
{
    let mut upstream = Vec::new(alloc);
    for unit in listed.actors() {
        upstream.push(unit_upstream(alloc, listed, *unit)?)?;
    }
    Ok(upstream)
}
