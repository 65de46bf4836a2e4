// Laws of the reader. Each function does nothing, or calls another law: its contract is the law, and
// the proof is in proofs/.
ghost use Rattle.std.specs.Prelude.{◌≡◌, ℕ, List, Ok};
ghost use Rattle.sl_net.specs.Input.{Input};
ghost use Rattle.sl_read.specs.Accepted.{IsAccepted};
ghost use Rattle.sl_read.specs.Choices.{NamesChoices};
ghost use Rattle.sl_read.specs.Inputs.{input_of};

use sl_net::{Net, one_spelling};

/// The spelling of a choice, looked up in the net, names this choice.
pub fn spellings_name_choices(net: &Net)
    ensures { NamesChoices net.now }
{
    one_spelling(net);
}

/// Each input that bytes are is accepted: its net has no fault, and its numbers and places are within
/// their ranges.
pub fn inputs_are_accepted()
    ensures { (bytes : List ℕ) (input : Input) → input_of bytes ≡ Ok input → IsAccepted input }
{}
