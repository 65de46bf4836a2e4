// Follows schedules on worlds of whole histories.
ghost use Rattle.std.specs.Prelude.{◌≡◌, ◌≤◌, length, take, OnOk, IfOk, Some, None, is_some};
ghost use Rattle.std.specs.Prelude.{slice_get};
ghost use Rattle.sl_route.specs.Routes.{IsRoutesOf};
ghost use Rattle.sl_model.specs.Setup.{setup_of};
ghost use Rattle.sl_model.specs.World.{Entry, start, next_step, turn, world, IsLegal};
ghost use Rattle.sl_model.specs.History.{steps_in};
ghost use Rattle.sl_model.specs.Losses.{losses};
ghost use Rattle.sl_flow.specs.Flow.{HaveAddresses};

use crate::history::World;
use crate::step::next_step;
use sl_machine::Memory;
use sl_model::worlds_take_turns;
use sl_net::{Input, Net};
use sl_route::Routes;
use std::alloc::Global;

/// The world where nothing has happened.
#[tactic(auto, using(sl_model::proofs::Worlds::Trails::start_replicate))]
fn first_world(alloc: Global, net: &Net) -> Result<World, Memory>
    ensures start { IfOk result (λ w. w ≡ start net.now) }
    ensures actors { IfOk result (λ w. length w ≡ length net.now.actors) }
{
    World::start(alloc, net.actors().len())
}

/// Takes one turn, which changes nothing where it is idle, and tells whether it did something.
fn take_turn(
    alloc: Global,
    input: &Input,
    routes: &Routes,
    world: &mut World,
    actor: u32,
    choice: u32,
) -> Result<bool, Memory>
    requires addresses { HaveAddresses input.now.flows }
    requires routes { IsRoutesOf input.now.net routes.now }
    requires actors { length world.old ≡ length input.now.net.actors }
    ensures did { IfOk result
        (λ did. did ≡ is_some
        (next_step (setup_of input.now) (losses input.now) world.old (actor, choice))) }
    ensures after { OnOk result
        (world.new ≡ turn (setup_of input.now) (losses input.now) world.old (actor, choice)) }
    ensures actors { OnOk result (length world.new ≡ length input.now.net.actors) }
{
    match next_step(alloc, input, routes, world, actor, choice)? {
        None => Ok(false),
        Some(step) => {
            world.add(actor as usize, step)?;
            Ok(true)
        }
    }
}

/// The world that a schedule reaches.
pub fn follow(alloc: Global, input: &Input, schedule: &[(u32, u32)]) -> Result<World, Memory>
    requires { HaveAddresses input.now.flows }
    ensures world { IfOk result
        (λ w. w ≡ world (setup_of input.now) (losses input.now) schedule.now) }
    ensures actors { IfOk result (λ w. length w ≡ length input.now.net.actors) }
    ensures size { IfOk result (λ w. steps_in w ≤ length schedule.now) }
{
    worlds_take_turns();
    let routes = Routes::make(alloc, &input.net)?;
    let mut world = first_world(alloc, &input.net)?;
    for (actor, choice) in schedule {
        take_turn(alloc, input, &routes, &mut world, *actor, *choice)?;
    }
    Ok(world)
}

/// The world that the entries of a schedule before the first idle one reach, and how many they are.
pub fn follow_legal(
    alloc: Global,
    input: &Input,
    schedule: &[(u32, u32)],
) -> Result<(World, usize), Memory>
    requires { HaveAddresses input.now.flows }
    ensures legal { IfOk result
        (λ r. IsLegal (setup_of input.now) (losses input.now) (take r.1 schedule.now)) }
    ensures world { IfOk result
        (λ r. r.0 ≡ world (setup_of input.now) (losses input.now) (take r.1 schedule.now)) }
    ensures actors { IfOk result (λ r. length r.0 ≡ length input.now.net.actors) }
    ensures within { IfOk result (λ r. r.1 ≤ length schedule.now) }
    ensures idle { IfOk result (λ r. (e : Entry) → slice_get schedule.now r.1 ≡ Some e
        → next_step (setup_of input.now) (losses input.now) r.0 e ≡ None) }
{
    worlds_take_turns();
    let routes = Routes::make(alloc, &input.net)?;
    let mut world = first_world(alloc, &input.net)?;
    for (i, (actor, choice)) in schedule.iter().enumerate() {
        if !take_turn(alloc, input, &routes, &mut world, *actor, *choice)? {
            return Ok((world, i));
        }
    }
    Ok((world, schedule.len()))
}
