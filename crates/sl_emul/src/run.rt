// What a run leaves, and the end of any run.
ghost use Rattle.std.specs.Prelude.{◌≡◌, ◌<◌, ◌^◌, IfOk, length, map};
ghost use Rattle.sl_layout.specs.Wiring.{plan_of};
ghost use Rattle.sl_model.specs.Losses.{losses};
ghost use Rattle.sl_model.specs.Setup.{setup_of};
ghost use Rattle.sl_model.specs.End.{IsFinished};
ghost use Rattle.sl_world.specs.World.{scene};
ghost use Rattle.sl_proto.specs.Nodes.{node_state};
ghost use Rattle.sl_proto.specs.Standing.{case_of, world_of, StandsFor, HasObserver};
ghost use Rattle.sl_emul.specs.Finishing.{IsFinishedFrom, IsToldOf};

use sl_machine::{Book, Memory};
use sl_model::Findings;
use sl_net::Input;
use sl_proto::{Node, end_run, findings};
use sl_world::World;
use std::alloc::Global;

/// What a run leaves: its book, how many of its entries come before finishing, the findings, and
/// the nodes, one per actor in order.
#[derive(Drop)]
pub struct Run {
    pub book: Book,
    pub front: u64,
    pub findings: Findings,
    pub nodes: Vec<Node>,
}

/// A run that ended, before anything is told of it: the world that it came to, and how many entries
/// of its book come before finishing.
#[derive(Drop)]
pub struct FinishedRun {
    pub world: World<Node>,
    pub front: u64,
}

/// Finishes. What the book has before is the front.
pub fn finish_run(
    alloc: Global,
    input: &Input,
    mut world: World<Node>,
) -> Result<FinishedRun, Memory>
    requires window { 0 < input.now.snapshot.window }
    requires stands { StandsFor input.now.net (case_of input.now (losses input.now)) (scene world) }
    requires observer { HasObserver (scene world) }
    requires plan { (scene world).plan ≡ plan_of input.now.net }
    ensures { IfOk result
        (λ r. IsFinishedFrom input.now (losses input.now) (scene world) (scene r.world) r.front) }
{
    match end_run(alloc, &input.net, &mut world) {
        Ok(front) => Ok(FinishedRun { world, front }),
        Err(fault) => {
            drop(world);
            Err(fault)
        }
    }
}

/// Tells what a run came to.
pub fn tell_run(alloc: Global, input: &Input, ran: FinishedRun) -> Result<Run, Memory>
    requires stands { StandsFor input.now.net (case_of input.now (losses input.now))
        (scene ran.world) }
    requires few { length (scene ran.world).book < 2 ^ 40 }
    requires finished { IsFinished (setup_of input.now) (losses input.now)
        (world_of (case_of input.now (losses input.now)) (scene ran.world)) }
    ensures { IfOk result
        (λ r. IsToldOf input.now (losses input.now) (scene ran.world)
        ran.front r.book.entries r.front r.findings (map node_state r.nodes.items)) }
{
    let findings = match findings(alloc, input, &ran.world) {
        Ok(findings) => findings,
        Err(fault) => {
            drop(ran);
            return Err(fault);
        }
    };
    let (nodes, book) = ran.world.into_book();
    Ok(Run {
        book,
        front: ran.front,
        findings,
        nodes,
    })
}
