// A claim of a run: its report, and the schedule of its trace.
ghost use Rattle.std.specs.Prelude.{◌≡◌, ◌++◌, ℕ, List, IfOk, IfSome, IfNone, codes, decimal};
ghost use Rattle.sl_model.specs.World.{Entry};
ghost use Rattle.sl_check.specs.Claim.{IsClaim, IsTrace};

use crate::laws::spellings_are_lines;
use crate::lines::{part_at, split_line};
use crate::script::read_script;
use crate::spellings::places_of;
use sl_machine::Memory;
use sl_net::Net;
use sl_report::all_spelled;
use std::alloc::{AllocError, Global};

/// A report, and a schedule whose trace follows it.
#[derive(Drop)]
pub struct Claim<'a> {
    pub report: &'a [u8],
    pub schedule: Vec<(u32, u32)>,
}

/// The first line of the trace of so many turns.
fn count_words(alloc: Global, count: usize) -> Result<Vec<u8>, AllocError>
    ensures { IfOk result (λ line. line.items ≡ codes "trace " ++ decimal count) }
{
    Ok(format!(in alloc; "trace {count}")?.into_bytes())
}

/// The schedule whose trace a text is, or none.
fn read_trace(alloc: Global, net: &Net, text: &[u8]) -> Result<Option<Vec<(u32, u32)>>, Memory>
    ensures read { IfOk result (λ read. IfSome read (λ es. IsTrace net.now text.now es.items)) }
    ensures none { IfOk result
        (λ read. IfNone read ((es : List Entry) → IsTrace net.now text.now es → ⊥)) }
{
    spellings_are_lines(net);
    let Some((count, script)) = split_line(text) else {
        return Ok(None);
    };
    let spelled = all_spelled(alloc, net)?;
    let places = places_of(alloc, spelled.as_slice())?;
    let Some(schedule) = read_script(alloc, net, spelled.as_slice(), &places, script)? else {
        return Ok(None);
    };
    let words = count_words(alloc, schedule.len())?;
    if words.as_slice() == count {
        Ok(Some(schedule))
    } else {
        Ok(None)
    }
}

/// The report and the schedule that a text claims, or none.
pub fn read_claim<'a>(alloc: Global, net: &Net, text: &'a [u8]) -> Result<Option<Claim<'a>>, Memory>
    ensures read { IfOk result
        (λ read. IfSome read
        (λ claim. IsClaim net.now text.now claim.report.now claim.schedule.items)) }
    ensures none { IfOk result
        (λ read. IfNone read ((report : List ℕ) (es : List Entry)
        → IsClaim net.now text.now report es → ⊥)) }
{
    let Some((front, trace)) = part_at(text, b"end") else {
        return Ok(None);
    };
    let Some(schedule) = read_trace(alloc, net, trace)? else {
        return Ok(None);
    };
    let report = &text[..front.len() + 4];
    Ok(Some(Claim { report, schedule }))
}
