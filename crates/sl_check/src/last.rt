// Whether the last step of each unit took a poll.
ghost use Rattle.std.specs.Prelude.{◌≡◌, ◌<◌, None, IfOk, length, slice_index_or};
ghost use Rattle.std.specs.List.{list_all};
ghost use Rattle.sl_layout.specs.Net.{units};
ghost use Rattle.sl_check.specs.Polled.{is_polled, last_choices};

use sl_machine::Memory;
use sl_net::{Net, Sort};
use std::alloc::Global;

/// Of each of so many actors the choice of its last entry.
pub fn last_choices(
    alloc: Global,
    actors: usize,
    schedule: &[(u32, u32)],
) -> Result<Vec<Option<u32>>, Memory>
    ensures { IfOk result (λ last. last.items ≡ last_choices actors schedule.now) }
{
    let none: Option<u32> = None;
    let mut last = vec![in alloc; none; actors]?;
    for (actor, choice) in schedule {
        let place = *actor as usize;
        if place < last.len() {
            last[place] = Some(*choice);
        }
    }
    Ok(last)
}

/// Whether a unit's last step, by this choice, took a poll, or it made none.
fn is_polled(net: &Net, unit: u32, last: Option<u32>) -> bool
    requires { unit < length net.now.actors }
    ensures { result ≡ is_polled net.now unit last }
{
    let Some(choice) = last else {
        return true;
    };
    match net.links_into(unit).get(choice as usize) {
        Some(link) => net.link(*link).sort.is(Sort::Poll),
        None => false,
    }
}

/// Whether the last step of each unit took a poll, or it made none.
pub fn all_polled(net: &Net, last: &[Option<u32>]) -> bool
    requires { length last.now ≡ length net.now.actors }
    ensures { result ≡ list_all (λ u. is_polled net.now u (slice_index_or last.now u None))
        (units net.now) }
{
    for unit in net.unit_actors() {
        if !is_polled(net, *unit, last[*unit as usize]) {
            return false;
        }
    }
    true
}
