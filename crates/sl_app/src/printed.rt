// What is printed of a run tells what was found. The function calls other laws: its contract is the
// law, and the proof is in proofs/.
ghost use Rattle.std.specs.Prelude.{◌≡◌, ℕ, List};
ghost use Rattle.sl_machine.specs.declared.wiring.Entry.{Entry};
ghost use Rattle.sl_proto.specs.Nodes.{NodeState};
ghost use Rattle.sl_app.specs.Ends.{SourceChange, IsStepped, IsThreaded};
ghost use Rattle.sl_app.specs.PrintedFindings.{TellsFindings};

use sl_check::accepted_inputs_can_run;
use sl_net::Input;
use sl_read::inputs_are_accepted;
use sl_report::{findings_are_sayable, reports_tell_findings};

/// What the top call prints of a run of this input, the report and with `--trace` the trace of the
/// book that it returns, is printed of no other sayable findings on as many snapshots of the net. All
/// that is asked is what the contract of the top call says.
pub fn printed_reports_tell_findings(input: &Input)
    ensures stepped { (r : SourceChange) (book : List Entry) (front : ℕ)
        (nodes : List NodeState) (text : List ℕ)
        → (run : IsStepped r book front nodes text) → run.input ≡ input.now
        → TellsFindings input.now book run.trace text }
    ensures threaded { (r : SourceChange) (book : List Entry) (front : ℕ)
        (nodes : List NodeState) (text : List ℕ)
        → (run : IsThreaded r book front nodes text) → run.input ≡ input.now
        → TellsFindings input.now book run.trace text }
{
    inputs_are_accepted();
    accepted_inputs_can_run();
    findings_are_sayable(&input.net);
    reports_tell_findings(&input.net);
}
