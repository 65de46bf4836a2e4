// What is served for a stream: the answer of its check, or why it isn't checked.
ghost use Rattle.std.specs.Prelude.{◌≡◌, None, IfOk};
ghost use Rattle.sl_check.specs.AnswerText.{answer_text};
ghost use Rattle.sl_app.specs.Served.{states_of};
ghost use Rattle.sl_app.specs.Texts.{answer_status, stream_fault_text};
ghost use Rattle.sl_app.specs.Ends.{TellsStreamFault};

use crate::ended::Refusal;
use crate::run::{Served, only_text};
use sl_check::{CheckFault, Checked, answer_bytes};
use sl_machine::Memory;
use sl_report::fault_bytes;
use std::alloc::Global;

/// The exit status of an answer that was written.
fn status_of(answer: Checked) -> u8
    ensures { result ≡ answer_status answer }
{
    match answer {
        Checked::Yes => 0,
        Checked::NoTrace => 8,
        Checked::NoLegal(_) => 8,
        Checked::NoFinished => 8,
        Checked::NoReport => 8,
    }
}

/// The text of an answer, with the status that it has.
pub fn serve_answer(alloc: Global, answer: Checked) -> Result<Served, Memory>
    ensures text { IfOk result (λ s. s.text.items ≡ answer_text answer) }
    ensures status { IfOk result (λ s. s.status ≡ answer_status answer) }
    ensures book { IfOk result (λ s. s.book ≡ None) }
    ensures front { IfOk result (λ s. s.front ≡ 0) }
    ensures nodes { IfOk result (λ s. states_of s.nodes ≡ None) }
{
    let text = answer_bytes(alloc, answer)?;
    Ok(only_text(status_of(answer), text))
}

/// The line for a stream that isn't checked.
#[tactic(auto, unfolding(crate::specs::Texts::stream_fault_text))]
fn fault_line(alloc: Global, fault: &CheckFault) -> Result<Vec<u8>, Memory>
    ensures { IfOk result (λ line. line.items ≡ stream_fault_text fault.now) }
{
    match fault {
        CheckFault::TooLong => Ok(Vec::from_slice(alloc, b"speedlight: C1\n")?),
        CheckFault::NoMark => Ok(Vec::from_slice(alloc, b"speedlight: C2\n")?),
        CheckFault::Input(fault) => fault_bytes(alloc, fault),
        CheckFault::Memory => Ok(Vec::new(alloc)),
    }
}

/// The refusal of a stream.
pub fn refused_stream(alloc: Global, fault: &CheckFault) -> Refusal
    ensures { TellsStreamFault fault.now result }
{
    if let CheckFault::Memory = fault {
        return Refusal::Memory;
    }
    match fault_line(alloc, fault) {
        Ok(line) => Refusal::Stream(line),
        Err(_) => Refusal::Memory,
    }
}
