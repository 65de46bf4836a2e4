// The text of a trace.
ghost use Rattle.std.specs.Prelude.{◌≡◌, ◌++◌, IfOk, OnOk, flat_map, codes};
ghost use Rattle.std.specs.List.{All};
ghost use Rattle.sl_report.specs.Spelled.{IsSpelled};
ghost use Rattle.sl_report.specs.TraceText.{IsEntryOf, count_line, entry_line, trace_text};

use crate::spelled::{Spelled, all_spelled, first_places, spelling_at};
use sl_machine::{Book, Entry, Memory};
use sl_net::{Line, Net, choice_text};
use std::alloc::{AllocError, Global};

fn push_line(out: &mut Vec<u8>, line: &Line) -> Result<(), AllocError>
    ensures { OnOk result (out.new.items ≡ out.old.items ++ (line.now ++ codes "\n")) }
{
    out.extend_from_slice(line.items.as_slice())?;
    out.extend_from_slice(b"\n")
}

/// Adds the spelling of an entry that no list has.
#[tactic(auto, unfolding(crate::specs::TraceText::entry_line))]
fn spell_entry(alloc: Global, out: &mut Vec<u8>, net: &Net, entry: Entry) -> Result<(), AllocError>
    requires { IsEntryOf net.now entry }
    ensures { OnOk result (out.new.items ≡ out.old.items ++ entry_line net.now entry) }
{
    match choice_text(alloc, net, entry.actor, entry.choice) {
        Ok(line) => push_line(out, &line),
        Err(_) => Err(AllocError),
    }
}

/// Adds the spelling of an entry.
#[tactic(auto, unfolding(crate::specs::TraceText::entry_line))]
fn push_entry(
    alloc: Global,
    out: &mut Vec<u8>,
    net: &Net,
    spelled: &[Spelled],
    firsts: &[usize],
    entry: Entry,
) -> Result<(), AllocError>
    requires entry { IsEntryOf net.now entry }
    requires spelled { All (IsSpelled net.now) spelled.now }
    ensures { OnOk result (out.new.items ≡ out.old.items ++ entry_line net.now entry) }
{
    match spelling_at(spelled, firsts, entry.actor, entry.choice) {
        Some(line) => push_line(out, line),
        None => spell_entry(alloc, out, net, entry),
    }
}

#[tactic(auto, using(crate::proofs::TextLemmas::entries_more))]
fn push_entries(
    alloc: Global,
    out: &mut Vec<u8>,
    net: &Net,
    spelled: &[Spelled],
    firsts: &[usize],
    entries: &[Entry],
) -> Result<(), AllocError>
    requires entries { All (IsEntryOf net.now) entries.now }
    requires spelled { All (IsSpelled net.now) spelled.now }
    ensures { OnOk result
        (out.new.items ≡ out.old.items ++ flat_map (entry_line net.now) entries.now) }
{
    for entry in entries {
        push_entry(alloc, out, net, spelled, firsts, *entry)?;
    }
    Ok(())
}

#[tactic(auto, unfolding(crate::specs::TraceText::count_line))]
fn count_line(alloc: Global, count: usize) -> Result<Vec<u8>, AllocError>
    ensures { IfOk result (λ line. line.items ≡ count_line count) }
{
    Ok(format!(in alloc; "trace {count}\n")?.into_bytes())
}

fn push_count(alloc: Global, out: &mut Vec<u8>, count: usize) -> Result<(), AllocError>
    ensures { OnOk result (out.new.items ≡ out.old.items ++ count_line count) }
{
    let line = count_line(alloc, count)?;
    out.extend_from_slice(line.as_slice())
}

/// The choices of a net with their spellings, or none of them where the trace has fewer entries than
/// the net has links: then each entry is spelled for itself.
fn spelled_for(alloc: Global, net: &Net, entries: usize) -> Result<Vec<Spelled>, Memory>
    ensures { IfOk result (λ spelled. All (IsSpelled net.now) spelled.items) }
{
    if entries < net.links().len() {
        Ok(Vec::new(alloc))
    } else {
        all_spelled(alloc, net)
    }
}

/// Adds the text of the trace of a run's book: the number of its entries, then their spellings, a
/// line each. Without the first line it is a script. Beside the text no more is held than the
/// spellings of a net's choices.
pub fn add_trace(alloc: Global, text: &mut Vec<u8>, net: &Net, book: &Book) -> Result<(), Memory>
    requires { All (IsEntryOf net.now) book.now.entries }
    ensures { OnOk result (text.new.items ≡ text.old.items ++ trace_text net.now book.now.entries) }
{
    let entries = book.entries.as_slice();
    push_count(alloc, text, entries.len())?;
    let spelled = spelled_for(alloc, net, entries.len())?;
    let firsts = first_places(alloc, spelled.as_slice())?;
    let added = push_entries(
        alloc,
        text,
        net,
        spelled.as_slice(),
        firsts.as_slice(),
        entries,
    );
    drop(spelled);
    Ok(added?)
}

/// The text of the trace of a run's book alone.
pub fn trace_bytes(alloc: Global, net: &Net, book: &Book) -> Result<Vec<u8>, Memory>
    requires { All (IsEntryOf net.now) book.now.entries }
    ensures { IfOk result (λ bytes. bytes.items ≡ trace_text net.now book.now.entries) }
{
    let mut text = Vec::new(alloc);
    add_trace(alloc, &mut text, net, book)?;
    Ok(text)
}
