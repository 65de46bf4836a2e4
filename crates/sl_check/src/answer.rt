// Trusted types: Checked, CheckFault.
// What a check answers, and its text.
ghost use Rattle.std.specs.Prelude.{◌≡◌, IfOk, string_bytes};
ghost use Rattle.sl_check.specs.declared.answer.CheckFault.TheVariants as fault;
ghost use Rattle.sl_check.specs.Faults.{fault_of};
ghost use Rattle.sl_check.specs.AnswerText.{answer_text};

use sl_machine::Memory;
use sl_read::InputFault;
use std::alloc::{AllocError, Global};

/// The answer for a claim of a run: the first of these that applies.
#[derive(Clone, Copy, Debug, PartialEq, Eq)]
pub enum Checked {
    /// The trace is that of a whole legal run of the input, and the report is its report.
    Yes,
    /// No trace of a schedule follows the first line `end`.
    NoTrace,
    /// An entry of the trace is idle; the number of the first one, from 1.
    NoLegal(u64),
    /// The world that the trace leads to isn't finished.
    NoFinished,
    /// The report isn't that of the run.
    NoReport,
}

/// Why a stream isn't checked.
#[derive(Debug, Drop)]
pub enum CheckFault {
    /// There are more than 4,194,304 bytes.
    TooLong,
    /// No line is `---`.
    NoMark,
    /// What stands before it is no input.
    Input(InputFault),
    /// Want of memory.
    Memory,
}

impl From<Memory> for CheckFault {
    ghost from_gives = { λ _ e. e ≡ fault.Memory };

    fn from(_: Memory) -> CheckFault {
        CheckFault::Memory
    }
}

impl From<InputFault> for CheckFault {
    ghost from_gives = { λ f e. e ≡ fault_of f };

    fn from(fault: InputFault) -> CheckFault {
        match fault {
            InputFault::Memory => CheckFault::Memory,
            refusal => CheckFault::Input(refusal),
        }
    }
}

#[tactic(auto, unfolding(crate::specs::AnswerText::answer_text))]
fn answer_line(alloc: Global, answer: Checked) -> Result<String, AllocError>
    ensures { IfOk result (λ line. string_bytes line ≡ answer_text answer) }
{
    match answer {
        Checked::Yes => String::from_str(alloc, "check yes\n"),
        Checked::NoTrace => String::from_str(alloc, "check no trace\n"),
        Checked::NoLegal(entry) => format!(in alloc; "check no legal {entry}\n"),
        Checked::NoFinished => String::from_str(alloc, "check no finished\n"),
        Checked::NoReport => String::from_str(alloc, "check no report\n"),
    }
}

/// The text of an answer: one line.
pub fn answer_bytes(alloc: Global, answer: Checked) -> Result<Vec<u8>, Memory>
    ensures { IfOk result (λ bytes. bytes.items ≡ answer_text answer) }
{
    Ok(answer_line(alloc, answer)?.into_bytes())
}
