// The trail of a run and the reading of it, from the schedule alone.
ghost use Rattle.std.specs.Prelude.{◌≡◌, ◌<◌, ◌≤◌, [], IfOk, IfSome, length, take};
ghost use Rattle.sl_flow.specs.Flow.{HaveAddresses};
ghost use Rattle.sl_model.specs.Losses.{losses};
ghost use Rattle.sl_model.specs.Setup.{setup_of};
ghost use Rattle.sl_model.specs.World.{IsLegal};
ghost use Rattle.sl_poll.specs.Trail.{pairs, all_counted};
ghost use Rattle.sl_poll.specs.Reading.{reads, broken_by};

use crate::poll::Polling;
use crate::reading::Polled;
use crate::sums::{Pace, last_read};
use crate::trail::Trail;
use crate::walk::walk;
use sl_machine::{Listed, Memory};
use sl_model::worlds_take_turns;
use sl_net::{Input, nets_have_ways};
use std::alloc::Global;

fn no_trail(alloc: Global) -> Trail
    ensures pairs { result.pairs ≡ [] }
    ensures counted { result.counted ≡ [] }
{
    let pairs = Listed {
        items: Vec::new(alloc),
    };
    let counted = Listed {
        items: Vec::new(alloc),
    };
    Trail { pairs, counted }
}

/// What the run of a legal schedule does with data packets. Each entry is looked at once, in a time
/// that does not grow with the links of the net.
pub fn trail_of(alloc: Global, input: &Input, schedule: &[(u32, u32)]) -> Result<Trail, Memory>
    requires addresses { HaveAddresses input.now.flows }
    requires legal { IsLegal (setup_of input.now) (losses input.now) schedule.now }
    ensures pairs { IfOk result
        (λ t. t.pairs ≡ pairs (setup_of input.now) (losses input.now) schedule.now) }
    ensures counted { IfOk result
        (λ t. t.counted ≡ all_counted (setup_of input.now) (losses input.now) schedule.now) }
{
    let mut trail = no_trail(alloc);
    walk(alloc, input, schedule, &mut trail)?;
    Ok(trail)
}

fn first_entries(schedule: &[(u32, u32)], count: u64) -> &[(u32, u32)]
    requires { count ≤ length schedule.now }
    ensures { result.now ≡ take count schedule.now }
{
    &schedule[..count as usize]
}

/// The reading of the run of a legal schedule: the first unit is read after `start` entries, and
/// each further one after `gap` more, or after all. The entries after the last reading are not looked
/// at, and no trail is kept.
pub fn poll_of(
    alloc: Global,
    input: &Input,
    schedule: &[(u32, u32)],
    start: u64,
    gap: u64,
) -> Result<Polled, Memory>
    requires addresses { HaveAddresses input.now.flows }
    requires legal { IsLegal (setup_of input.now) (losses input.now) schedule.now }
    ensures reads { IfOk result
        (λ polled. polled.reads ≡ reads (setup_of input.now)
        (losses input.now) schedule.now start gap) }
    ensures broken { IfOk result
        (λ polled. polled.broken ≡ broken_by (setup_of input.now)
        (losses input.now) schedule.now start gap) }
    ensures link { IfOk result
        (λ polled. IfSome polled.broken (λ p. p.link < length input.now.net.links)) }
{
    worlds_take_turns();
    nets_have_ways();
    let count = schedule.len() as u64;
    let pace = Pace { count, start, gap };
    let last = last_read(&input.net, pace);
    let read = first_entries(schedule, last);
    let mut polling = Polling::new(alloc, &input.net, pace)?;
    walk(alloc, input, read, &mut polling)?;
    let polled = polling.finish(alloc, &input.net)?;
    Ok(polled)
}
