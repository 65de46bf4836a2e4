// The check of a stream: an input, a line `---`, and a claim of a run of this input.
ghost use Rattle.std.specs.Prelude.{◌≡◌, IfOk};
ghost use Rattle.std.specs.Bool.{Decides};
ghost use Rattle.sl_read.specs.Accepted.{IsAccepted};
ghost use Rattle.sl_model.specs.Losses.{losses};
ghost use Rattle.sl_model.specs.Setup.{setup_of};
ghost use Rattle.sl_model.specs.Books.{schedule_of};
ghost use Rattle.sl_model.specs.End.{IsFinished};
ghost use Rattle.sl_world.specs.World.{scene};
ghost use Rattle.sl_proto.specs.Standing.{case_of, world_of};
ghost use Rattle.sl_check.specs.Answer.{report_of, IsAnswer, IsChecked};
ghost use Rattle.sl_check.specs.Driven.{StandsIn};

use crate::answer::{CheckFault, Checked};
use crate::claim::read_claim;
use crate::end::end_of;
use crate::laws::accepted_inputs_can_run;
use crate::lines::part_at;
use sl_machine::Memory;
use sl_model::Ending;
use sl_net::Input;
use sl_proto::{Node, Taker, findings, first_world, passes_are_choices};
use sl_read::read_input;
use sl_report::report_bytes;
use sl_world::World;
use std::alloc::Global;

/// How many bytes a stream has at most.
const MOST_BYTES: usize = 4_194_304;

/// Whether a text is the report of a finished world of nodes.
fn is_report(alloc: Global, input: &Input, world: &World<Node>, text: &[u8]) -> Result<bool, Memory>
    requires stands { StandsIn input.now (scene world.now) }
    requires finished { IsFinished (setup_of input.now) (losses input.now)
        (world_of (case_of input.now (losses input.now)) (scene world.now)) }
    ensures { IfOk result
        (λ same. Decides same
        (text.now ≡ report_of input.now (schedule_of (scene world.now).book))) }
{
    // A book of 2^40 entries would fill any memory.
    if world.entries() >= 1 << 40 {
        return Err(Memory);
    }
    let found = findings(alloc, input, world)?;
    let report = report_bytes(alloc, input, &found);
    drop(found);
    let report = report?;
    Ok(report.as_slice() == text)
}

/// The answer for a claim of a run of an input.
fn check_claim(alloc: Global, input: &Input, text: &[u8]) -> Result<Checked, Memory>
    requires { IsAccepted input.now }
    ensures { IfOk result (IsAnswer input.now text.now) }
{
    passes_are_choices();
    accepted_inputs_can_run();
    let Some(claim) = read_claim(alloc, &input.net, text)? else {
        return Ok(Checked::NoTrace);
    };
    let mut world = first_world(alloc, input)?;
    match end_of(alloc, input, &mut world, claim.schedule.as_slice())? {
        Ending::Idle(entry) => Ok(Checked::NoLegal(entry)),
        Ending::Unfinished => Ok(Checked::NoFinished),
        Ending::Finished => {
            if is_report(alloc, input, &world, claim.report)? {
                Ok(Checked::Yes)
            } else {
                Ok(Checked::NoReport)
            }
        }
    }
}

/// Checks a stream: an input, a line `---`, and a claim of a run of this input, its report and its
/// trace.
pub fn check_bytes(alloc: Global, bytes: &[u8]) -> Result<Checked, CheckFault>
    ensures { IsChecked bytes.now result }
{
    if bytes.len() > MOST_BYTES {
        return Err(CheckFault::TooLong);
    }
    let Some((front, claim)) = part_at(bytes, b"---") else {
        return Err(CheckFault::NoMark);
    };
    let input = read_input(alloc, front)?;
    let checked = check_claim(alloc, &input, claim);
    drop(input);
    Ok(checked?)
}
