// The run of an input's script on its nodes, by whoever takes turns of them.
ghost use Rattle.std.specs.Prelude.{◌≡◌, ◌<◌, ◌^◌, [], IfOk, length};
ghost use Rattle.sl_layout.specs.Wiring.{plan_of};
ghost use Rattle.sl_wire.specs.declared.message.Msg.{Msg};
ghost use Rattle.sl_model.specs.Losses.{losses};
ghost use Rattle.sl_world.specs.Scene.{Scene};
ghost use Rattle.sl_world.specs.World.{scene};
ghost use Rattle.sl_proto.specs.Nodes.{NodeState};
ghost use Rattle.sl_proto.specs.Standing.{case_of, StandsFor, HasObserver};
ghost use Rattle.sl_proto.specs.RunBook.{CanRun, IsFirstScene, IsRunBook};

use crate::build::build_world;
use crate::finishing::end_run;
use crate::laws::books_grow_by_turns;
use crate::losses::make_losses;
use crate::node::Node;
use crate::nodes::nodes_stand_at_first;
use crate::script::drive_script;
use crate::taker::Taker;
use sl_machine::Memory;
use sl_model::{
    cuts_are_consistent, inputs_are_bounded, inputs_spare_reliable_links, worlds_take_turns,
};
use sl_net::Input;
use sl_world::World;
use std::alloc::Global;

/// The scene where nothing has happened to the nodes of an input stands for the world of the empty
/// book.
fn first_nodes_stand(input: &Input)
    requires { CanRun input.now }
    ensures { (v : Scene NodeState Msg) → IsFirstScene input.now v
        → StandsFor input.now.net (case_of input.now (losses input.now)) v }
{
    nodes_stand_at_first();
    inputs_spare_reliable_links();
    let _wiring = input.net.wiring();
}

/// The world of an input's nodes before the first turn. It stands for that of the empty book.
pub fn first_world(alloc: Global, input: &Input) -> Result<World<Node>, Memory>
    requires { CanRun input.now }
    ensures first { IfOk result (λ w. IsFirstScene input.now (scene w)) }
    ensures stands { IfOk result
        (λ w. StandsFor input.now.net (case_of input.now (losses input.now)) (scene w)) }
    ensures observer { IfOk result (λ w. HasObserver (scene w)) }
    ensures plan { IfOk result (λ w. (scene w).plan ≡ plan_of input.now.net) }
    ensures book { IfOk result (λ w. (scene w).book ≡ []) }
{
    nodes_stand_at_first();
    first_nodes_stand(input);
    let losses = make_losses(alloc, input)?;
    build_world(alloc, input, losses)
}

/// Takes the turns of an input's script on its nodes, where nothing has happened yet, and finishes.
/// The answer is how many turns were taken before finishing. The nodes stand for the world of their
/// book, also after want of memory.
pub fn run_script<T: Taker>(alloc: Global, input: &Input, taker: &mut T) -> Result<u64, Memory>
    requires can { CanRun input.now }
    requires first { IsFirstScene input.now (T.scene taker.old) }
    ensures book { IfOk result
        (λ front. IsRunBook input.now (losses input.now) (T.scene taker.new).book front) }
    ensures stands { StandsFor input.now.net (case_of input.now (losses input.now))
        (T.scene taker.new) }
    ensures observer { IfOk result (λ front. HasObserver (T.scene taker.new)) }
    ensures few { IfOk result (λ front. length (T.scene taker.new).book < 2 ^ 40) }
    ensures fixed { T.fixed taker.new ≡ T.fixed taker.old }
{
    nodes_stand_at_first();
    first_nodes_stand(input);
    inputs_are_bounded();
    cuts_are_consistent();
    worlds_take_turns();
    books_grow_by_turns();
    drive_script(alloc, &input.net, taker, input.script.as_slice())?;
    let front = end_run(alloc, &input.net, taker)?;
    Ok(front)
}
