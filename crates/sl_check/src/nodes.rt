// How the nodes of an input take the turns of a schedule.
ghost use Rattle.std.specs.Prelude.{◌≡◌, [], IfOk, IfSome, IfNone, All};
ghost use Rattle.sl_machine.specs.Plan.{HasChoice};
ghost use Rattle.sl_layout.specs.Wiring.{plan_of};
ghost use Rattle.sl_world.specs.World.{scene};
ghost use Rattle.sl_proto.specs.Standing.{HasObserver};
ghost use Rattle.sl_proto.specs.Calls.{KeepsStanding};
ghost use Rattle.sl_check.specs.Driven.{Turns, FirstIdle, TakesAll, IsIdle};

use crate::laws::settled_worlds_are_idle;
use sl_machine::Memory;
use sl_model::idle_passes_settle;
use sl_net::{Net, nets_are_wired};
use sl_proto::{Node, Taker, books_grow_by_turns, drive, pass_of, passes_are_choices};
use sl_world::World;
use std::alloc::Global;

/// Takes one turn, and answers whether it did something.
fn take_turn(net: &Net, world: &mut World<Node>, entry: (u32, u32)) -> Result<bool, Memory>
    requires plan { (scene world.old).plan ≡ plan_of net.now }
    requires choice { HasChoice (plan_of net.now) entry.0 entry.1 }
    ensures plan { (scene world.new).plan ≡ plan_of net.now }
    ensures observer { HasObserver (scene world.old) → HasObserver (scene world.new) }
    ensures stands { KeepsStanding net.now (scene world.old) (scene world.new) }
    ensures turn { IfOk result
        (λ did. Turns net.now (scene world.old) entry did (scene world.new)) }
{
    books_grow_by_turns();
    let before = world.entries();
    drive(net, world, &[entry], None)?;
    Ok(world.entries() != before)
}

/// Takes the turns of a schedule up to its first idle entry, and answers the number of that one,
/// from 1, or none where no entry is idle.
pub fn follow(
    net: &Net,
    world: &mut World<Node>,
    schedule: &[(u32, u32)],
) -> Result<Option<u64>, Memory>
    requires plan { (scene world.old).plan ≡ plan_of net.now }
    requires empty { (scene world.old).book ≡ [] }
    requires choices { All (λ e. HasChoice (plan_of net.now) e.0 e.1) schedule.now }
    ensures plan { (scene world.new).plan ≡ plan_of net.now }
    ensures observer { HasObserver (scene world.old) → HasObserver (scene world.new) }
    ensures stands { KeepsStanding net.now (scene world.old) (scene world.new) }
    ensures idle { IfOk result
        (λ first. IfSome first (FirstIdle net.now (scene world.old) schedule.now)) }
    ensures all { IfOk result
        (λ first. IfNone first
        (TakesAll net.now (scene world.old) schedule.now (scene world.new))) }
{
    for (i, entry) in schedule.iter().enumerate() {
        if !take_turn(net, world, *entry)? {
            return Ok(Some(i as u64 + 1));
        }
    }
    Ok(None)
}

/// Takes a settling pass, and answers whether it did nothing.
pub fn take_pass(alloc: Global, net: &Net, world: &mut World<Node>) -> Result<bool, Memory>
    requires plan { (scene world.old).plan ≡ plan_of net.now }
    ensures observer { HasObserver (scene world.old) → HasObserver (scene world.new) }
    ensures stands { KeepsStanding net.now (scene world.old) (scene world.new) }
    ensures idle { IfOk result (λ idle. IsIdle net.now (scene world.old) idle (scene world.new)) }
{
    // A net is that of its parts, so the entries of a pass are its choices.
    let _parts = net.parts();
    nets_are_wired();
    passes_are_choices();
    books_grow_by_turns();
    idle_passes_settle();
    settled_worlds_are_idle();
    let pass = pass_of(alloc, net, true)?;
    let before = world.entries();
    drive(net, world, pass.as_slice(), None)?;
    Ok(world.entries() == before)
}
