// Laws of claims. The functions do nothing, or call other laws: their contracts are the laws, and
// the proofs are in proofs/.
ghost use Rattle.std.specs.Prelude.{◌≡◌, ◌≤◌, ℕ, List, [], length, Result, Ok, true};
ghost use Rattle.sl_machine.specs.declared.wiring.Entry.{Entry as BookEntry};
ghost use Rattle.sl_read.specs.Accepted.{IsAccepted};
ghost use Rattle.sl_read.specs.Inputs.{input_of};
ghost use Rattle.sl_net.specs.Input.{Input};
ghost use Rattle.sl_net.specs.Wired.{IsNet};
ghost use Rattle.sl_model.specs.History.{Losses};
ghost use Rattle.sl_model.specs.Setup.{Setup, setup_of};
ghost use Rattle.sl_model.specs.Losses.{losses};
ghost use Rattle.sl_model.specs.Books.{schedule_of};
ghost use Rattle.sl_model.specs.World.{Entry, IsLossTable, world, kept_from};
ghost use Rattle.sl_model.specs.End.{AllTaken, KnowsAll, Settled, IsFinished};
ghost use Rattle.sl_model.specs.Schedule.{settling_pass};
ghost use Rattle.sl_proto.specs.RunBook.{CanRun};
ghost use Rattle.sl_check.specs.Spellings.{SpellsLines};
ghost use Rattle.sl_model.specs.Ending.{HasEnding};
ghost use Rattle.sl_check.specs.Polled.{all_polled, ends_well};
ghost use Rattle.sl_check.specs.Answer.{IsAnswer, IsChecked, IsGiven, ReadsNoOther, IsInputText};
ghost use Rattle.sl_check.specs.Answer.{stream_of};

use crate::answer::{CheckFault, Checked};
use sl_model::{
    Ending, dones_tell_dumps, endings_are_one, known_steps_are_made, links_pass_messages,
    worlds_are_runs,
};
use sl_net::{Input, Net, nets_are_wired, nets_have_names, one_spelling};
use sl_proto::passes_are_choices;
use sl_report::legal_books_are_choices;

/// An input that is read can be run.
pub fn accepted_inputs_can_run()
    ensures { (i : Input) → IsAccepted i → CanRun i }
{
    passes_are_choices()
}

/// No spelling has a newline.
pub fn spellings_are_lines(net: &Net)
    ensures { SpellsLines net.now }
{
    nets_have_names(net)
}

/// Where all links are empty, the observer knows of each unit its whole history exactly where each
/// unit's last step took a poll, or it made none.
pub fn polled_units_are_known()
    ensures known { (s : Setup) (lost : Losses) (es : List Entry)
        → IsNet s.net → IsLossTable s.net lost → AllTaken s.net lost (world s lost es)
        → all_polled s.net (world s lost es) ≡ true → KnowsAll s.net (world s lost es) }
    ensures only { (s : Setup) (lost : Losses) (es : List Entry) → IsNet s.net
        → IsLossTable s.net lost → AllTaken s.net lost (world s lost es)
        → KnowsAll s.net (world s lost es) → all_polled s.net (world s lost es) ≡ true }
{
    nets_are_wired();
    worlds_are_runs();
    known_steps_are_made();
    links_pass_messages();
    dones_tell_dumps()
}

/// In a settled world a settling pass does nothing.
pub fn settled_worlds_are_idle()
    ensures { (s : Setup) (lost : Losses) (es : List Entry) → IsNet s.net
        → Settled s lost (world s lost es)
        → kept_from s lost (world s lost es) (settling_pass s.net) ≡ [] }
{
    nets_are_wired()
}

/// A world is finished exactly where it is settled, and all is collected, or no retry is left and
/// each unit's last step took a poll.
pub fn worlds_finish_well()
    ensures finished { (s : Setup) (lost : Losses) (es : List Entry)
        → IsNet s.net → IsLossTable s.net lost → Settled s lost (world s lost es)
        → ends_well s (world s lost es) ≡ true → IsFinished s lost (world s lost es) }
    ensures only { (s : Setup) (lost : Losses) (es : List Entry) → IsNet s.net
        → IsLossTable s.net lost → IsFinished s lost (world s lost es)
        → ends_well s (world s lost es) ≡ true }
{
    polled_units_are_known()
}

/// A claim has at most one answer.
pub fn claims_have_one_answer(input: &Input)
    ensures { (claim : List ℕ) (a b : Checked) → IsAnswer input.now claim a
        → IsAnswer input.now claim b → a ≡ b }
{
    one_spelling(&input.net);
    spellings_are_lines(&input.net);
    endings_are_one()
}

/// A stream has at most one answer or refusal, want of memory aside: any stream of this input, and
/// any that is refused.
pub fn streams_have_one_answer(input: &Input)
    ensures { (bytes : List ℕ) (a b : Result Checked CheckFault) → ReadsNoOther bytes input.now
        → IsChecked bytes a → IsChecked bytes b → IsGiven a → IsGiven b → a ≡ b }
{
    claims_have_one_answer(input)
}

/// What is printed of a whole legal run, its report and its trace, is checked with yes, after an
/// input whose last line ends and in which no line is `---`.
pub fn printed_runs_are_right(input: &Input)
    ensures { (bytes : List ℕ) (book : List BookEntry) → IsInputText bytes
        → input_of bytes ≡ Ok input.now
        → HasEnding (setup_of input.now) (losses input.now) (schedule_of book) Ending.Finished
        → length (stream_of bytes input.now book) ≤ 4194304
        → IsChecked (stream_of bytes input.now book) (Ok Checked.Yes) }
{
    nets_have_names(&input.net);
    legal_books_are_choices()
}
