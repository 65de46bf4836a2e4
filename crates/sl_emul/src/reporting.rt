// The report of a finished world of nodes. What was found of a snapshot is written once it is
// found, so that no two findings are kept.
ghost use Rattle.std.specs.Prelude.{◌≡◌, ◌++◌, ◌<◌, ◌^◌, IfOk, OnOk, flat_map, length, map};
ghost use Rattle.std.specs.Prelude.{string_bytes};
ghost use Rattle.std.specs.List.{range_with_len};
ghost use Rattle.sl_model.specs.Accounts.{finding_by};
ghost use Rattle.sl_model.specs.History.{Losses};
ghost use Rattle.sl_model.specs.Setup.{setup_of};
ghost use Rattle.sl_model.specs.Books.{schedule_of};
ghost use Rattle.sl_model.specs.End.{IsFinished};
ghost use Rattle.sl_model.specs.Findings.{findings};
ghost use Rattle.sl_report.specs.Report.{finding_text, report_front, report_back, report_text};
ghost use Rattle.sl_world.specs.World.{scene};
ghost use Rattle.sl_proto.specs.Standing.{case_of, world_of, StandsFor};
ghost use Rattle.sl_proto.specs.Told.{HasAllRows, accounts_of};

use sl_machine::Memory;
use sl_model::Findings;
use sl_net::{Input, Net};
use sl_observe::Observer;
use sl_proto::{Node, finding, findings_but_list, nodes_tell_findings, observer_of};
use sl_report::{list_channels, push_back, push_finding, report_front};
use sl_world::World;
use std::alloc::Global;

/// Writes what was found of the first numbers, in order.
fn push_snapshots(
    alloc: Global,
    out: &mut String,
    net: &Net,
    observer: &Observer,
    count: u64,
) -> Result<(), Memory>
    requires { HasAllRows net.now observer.now.state }
    ensures { OnOk result (string_bytes out.new ≡ string_bytes out.old
        ++ flat_map (finding_text net.now)
        (map (finding_by observer.now.state.issued (accounts_of observer.now.state))
        (range_with_len 1 count))) }
{
    let channels = list_channels(alloc, net)?;
    for done in 0..count {
        let finding = finding(alloc, net, observer, done + 1)?;
        push_finding(out, net, channels.as_slice(), &finding)?;
    }
    Ok(())
}

/// The text of a report by what was found but of the snapshots, of which the observer tells.
fn report_by(
    alloc: Global,
    input: &Input,
    observer: &Observer,
    rest: &Findings,
) -> Result<Vec<u8>, Memory>
    requires { HasAllRows input.now.net observer.now.state }
    ensures { IfOk result
        (λ bytes. bytes.items ≡ (report_front input.now.net input.now.snapshot.count rest.now
        ++ flat_map (finding_text input.now.net)
        (map (finding_by observer.now.state.issued (accounts_of observer.now.state))
        (range_with_len 1 input.now.snapshot.count))) ++ report_back input.now.net rest.now) }
{
    let mut out = report_front(alloc, input, rest)?;
    push_snapshots(alloc, &mut out, &input.net, observer, input.snapshot.count)?;
    push_back(&mut out, &input.net, rest)?;
    Ok(out.into_bytes())
}

/// The text of the report of a finished world of nodes of an input: of the findings of the world of
/// histories that it stands for.
pub fn report_of(alloc: Global, input: &Input, world: &World<Node>) -> Result<Vec<u8>, Memory>
    requires stands { (lost : Losses) × StandsFor input.now.net (case_of input.now lost)
        (scene world.now) }
    requires book { length (scene world.now).book < 2 ^ 40 }
    ensures { (lost : Losses) → StandsFor input.now.net (case_of input.now lost) (scene world.now)
        → IsFinished (setup_of input.now) lost (world_of (case_of input.now lost) (scene world.now))
        → IfOk result
        (λ bytes. bytes.items ≡ report_text input.now.net input.now.snapshot.count
        (findings (setup_of input.now) lost (schedule_of (scene world.now).book))) }
{
    nodes_tell_findings();
    let rest = findings_but_list(alloc, input, world)?;
    let observer = observer_of(input, world);
    let text = report_by(alloc, input, observer, &rest);
    drop(rest);
    text
}
