// A walk along a schedule, entry by entry.
ghost use Rattle.std.specs.Prelude.{[], OnOk};
ghost use Rattle.sl_flow.specs.Flow.{HaveAddresses};
ghost use Rattle.sl_model.specs.Losses.{losses};
ghost use Rattle.sl_model.specs.Setup.{setup_of};
ghost use Rattle.sl_model.specs.World.{IsLegal};
ghost use Rattle.sl_poll.specs.Trail.{pairs, all_counted};

use crate::course::{first_course, follow};
use crate::listener::Listener;
use sl_input::losses_answer_in_order;
use sl_machine::Memory;
use sl_model::worlds_take_turns;
use sl_net::{Input, nets_are_wired};
use sl_route::Routes;
use std::alloc::Global;

/// Tells a listener what the run of a legal schedule does with data packets. Each entry is looked at
/// once, in a time that does not grow with the links of the net, and what is kept grows with what is
/// on its way alone.
pub fn walk<L: Listener>(
    alloc: Global,
    input: &Input,
    schedule: &[(u32, u32)],
    listener: &mut L,
) -> Result<(), Memory>
    requires addresses { HaveAddresses input.now.flows }
    requires legal { IsLegal (setup_of input.now) (losses input.now) schedule.now }
    requires first { L.heard input.now.net listener.old listener.old [] [] }
    ensures { let s = setup_of input.now in let lost = losses input.now in
        OnOk result (L.heard input.now.net listener.old listener.new (pairs s lost schedule.now)
        (all_counted s lost schedule.now)) }
{
    worlds_take_turns();
    losses_answer_in_order();
    nets_are_wired();
    let net = &input.net;
    let _parts = net.parts();
    let routes = Routes::make(alloc, net)?;
    let mut course = first_course(alloc, input)?;
    let mut entry = 0;
    for (actor, choice) in schedule {
        entry += 1;
        follow(&mut course, listener, net, &routes, entry, *actor, *choice)?;
    }
    Ok(())
}
