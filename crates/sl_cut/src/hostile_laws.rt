// Laws of what hostile hosts send. The functions do nothing, or call other laws: their contracts are
// the laws, and the proofs are in proofs/. i and j are inputs that differ in bad raw frames alone.
// What is bad depends on the bytes alone: a plain frame has version 1 in every run, whatever version
// the input names for frames between devices.
ghost use Rattle.std.specs.Prelude.{◌≡◌, ℕ, List, is_some};
ghost use Rattle.sl_machine.specs.declared.wiring.Entry.{Entry as BookEntry};
ghost use Rattle.sl_net.specs.Input.{Input};
ghost use Rattle.sl_net.specs.Wired.{IsNet};
ghost use Rattle.sl_model.specs.declared.ending.Ending.{Ending};
ghost use Rattle.sl_model.specs.History.{Losses, history};
ghost use Rattle.sl_model.specs.Losses.{losses};
ghost use Rattle.sl_model.specs.Setup.{Setup, setup_of};
ghost use Rattle.sl_model.specs.World.{Entry, IsLossTable, next_step, world, kept, IsLegal};
ghost use Rattle.sl_model.specs.Findings.{findings};
ghost use Rattle.sl_model.specs.End.{finish};
ghost use Rattle.sl_model.specs.Ending.{HasEnding};
ghost use Rattle.sl_model.specs.Finished.{IsBookOfRun};
ghost use Rattle.sl_poll.specs.Reading.{reads, broken_by};
ghost use Rattle.sl_report.specs.Report.{report_text};
ghost use Rattle.sl_report.specs.TraceText.{trace_text};
ghost use Rattle.sl_cut.specs.Hostile.{IsAlike, blank_world};
ghost use Rattle.sl_cut.specs.Honest.{
  honest,
  choices_made,
  honest_setup,
  honest_entries,
  AreSameButSent,
};

use sl_model::{
    channel_values_are_late_data, known_steps_are_made, links_pass_messages, runs_have_one_book,
    worlds_take_turns,
};
use sl_net::nets_are_wired;
use sl_simulation::forged_frames_change_nothing;

/// Whatever bytes a bad frame has, each run is the same but for these bytes, under any losses and
/// by any schedule: its worlds, which entries are idle, which schedules are legal, what finishing
/// takes, and how schedules end.
pub fn bad_frames_change_no_turn()
    ensures worlds { (i j : Input) → IsAlike i j → (lost : Losses) (es : List Entry)
        → blank_world (world (setup_of i) lost es) ≡ blank_world (world (setup_of j) lost es) }
    ensures idle { (i j : Input) → IsAlike i j → (lost : Losses) (es : List Entry) (e : Entry)
        → is_some (next_step (setup_of i) lost (world (setup_of i) lost es) e)
        ≡ is_some (next_step (setup_of j) lost (world (setup_of j) lost es) e) }
    ensures legal { (i j : Input) → IsAlike i j → (lost : Losses) (es : List Entry)
        → IsLegal (setup_of i) lost es → IsLegal (setup_of j) lost es }
    ensures kept { (i j : Input) → IsAlike i j → (lost : Losses) (es : List Entry)
        → kept (setup_of i) lost es ≡ kept (setup_of j) lost es }
    ensures finishing { (i j : Input) → IsAlike i j → (fuel : ℕ) (lost : Losses) (es : List Entry)
        → finish fuel (setup_of i) lost (world (setup_of i) lost es)
        ≡ finish fuel (setup_of j) lost (world (setup_of j) lost es) }
    ensures ending { (i j : Input) → IsAlike i j → (lost : Losses) (es : List Entry) (x : Ending)
        → HasEnding (setup_of i) lost es x → HasEnding (setup_of j) lost es x }
{}

/// And so are its findings, and each reading of its units.
pub fn bad_frames_change_no_finding()
    ensures findings { (i j : Input) → IsAlike i j → (lost : Losses) (es : List Entry)
        → findings (setup_of i) lost es ≡ findings (setup_of j) lost es }
    ensures reads { (i j : Input) → IsAlike i j → (lost : Losses) (es : List Entry) (start gap : ℕ)
        → reads (setup_of i) lost es start gap ≡ reads (setup_of j) lost es start gap }
    ensures broken { (i j : Input) → IsAlike i j → (lost : Losses) (es : List Entry) (start gap : ℕ)
        → broken_by (setup_of i) lost es start gap ≡ broken_by (setup_of j) lost es start gap }
{}

/// The run of an input has the book of the other's run, with the losses of the input, and its report
/// and trace are the same bytes.
pub fn bad_frames_change_no_text()
    ensures losses { (i j : Input) → IsAlike i j → losses i ≡ losses j }
    ensures books { (i j : Input) (book other : List BookEntry) (front end : ℕ) → IsAlike i j
        → IsBookOfRun i (losses i) book front → IsBookOfRun j (losses j) other end
        → (book ≡ other) × (front ≡ end) }
    ensures report { (i j : Input) → IsAlike i j → (es : List Entry)
        → report_text i.net i.snapshot.count (findings (setup_of i) (losses i) es)
        ≡ report_text j.net j.snapshot.count (findings (setup_of j) (losses j) es) }
    ensures trace { (i j : Input) → IsAlike i j → (book : List BookEntry)
        → trace_text i.net book ≡ trace_text j.net book }
{
    runs_have_one_book()
}

/// In every run of a net, by any schedule and under any losses that spare the reliable links: the
/// run of the same turns without the hostile ones, of hosts that send no bad frame, has of each
/// actor the same steps but the hostile ones, and the same findings, verdicts and values among them,
/// but for what hosts sent and the count of bad frames, which is 0. Where the turns are legal, so are
/// those of the other run.
pub fn hostile_turns_change_no_finding()
    ensures steps { (s : Setup) (lost : Losses) (es : List Entry) (a : ℕ)
        → IsNet s.net → IsLossTable s.net lost
        → choices_made
        (history (world (honest_setup s) lost (honest_entries s lost es)) a)
        ≡ choices_made (honest (history (world s lost es) a)) }
    ensures findings { (s : Setup) (lost : Losses) (es : List Entry)
        → IsNet s.net → IsLossTable s.net lost → AreSameButSent (findings s lost es)
        (findings (honest_setup s) lost (honest_entries s lost es)) }
    ensures legal { (s : Setup) (lost : Losses) (es : List Entry)
        → IsNet s.net → IsLossTable s.net lost → IsLegal s lost es
        → IsLegal (honest_setup s) lost (honest_entries s lost es) }
{
    nets_are_wired();
    links_pass_messages();
    worlds_take_turns();
    known_steps_are_made();
    channel_values_are_late_data();
    forged_frames_change_nothing()
}
