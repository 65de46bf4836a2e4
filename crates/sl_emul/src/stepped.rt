// The run of an input, one turn after the other.
ghost use Rattle.std.specs.Prelude.{IfOk, map};
ghost use Rattle.sl_model.specs.Losses.{losses};
ghost use Rattle.sl_world.specs.World.{scene};
ghost use Rattle.sl_proto.specs.Nodes.{node_state};
ghost use Rattle.sl_proto.specs.RunBook.{CanRun, IsRunBook};
ghost use Rattle.sl_emul.specs.Run.{HasEnded, IsOutcome};

use crate::run::{FinishedRun, Run, tell_run};
use sl_machine::Memory;
use sl_net::Input;
use sl_proto::{first_world, run_script};
use std::alloc::Global;

/// Runs an input on the nodes of its net to its end: takes the turns of its script, and finishes.
pub fn finish_stepped(alloc: Global, input: &Input) -> Result<FinishedRun, Memory>
    requires { CanRun input.now }
    ensures { IfOk result
        (λ r. HasEnded IsRunBook input.now (losses input.now) (scene r.world) r.front) }
{
    let mut world = first_world(alloc, input)?;
    match run_script(alloc, input, &mut world) {
        Ok(front) => Ok(FinishedRun { world, front }),
        Err(fault) => {
            drop(world);
            Err(fault)
        }
    }
}

/// Runs an input as `finish_stepped` does, and tells what the run came to.
pub fn run_stepped(alloc: Global, input: &Input) -> Result<Run, Memory>
    requires { CanRun input.now }
    ensures { IfOk result
        (λ r. IsOutcome input.now (losses input.now) r.book.entries r.front r.findings
        (map node_state r.nodes.items)) }
{
    let ran = finish_stepped(alloc, input)?;
    tell_run(alloc, input, ran)
}
