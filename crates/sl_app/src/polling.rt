// What is served of a run as a reading of its units, one after the other.
ghost use Rattle.std.specs.Prelude.{◌≡◌, IfOk};
ghost use Rattle.sl_model.specs.Books.{schedule_of};
ghost use Rattle.sl_model.specs.Losses.{losses};
ghost use Rattle.sl_proto.specs.RunBook.{CanRun};
ghost use Rattle.sl_app.specs.Served.{IsReading, states_of};

use crate::run::{Served, text_of_run};
use sl_emul::finish_stepped;
use sl_machine::{Entry, Memory};
use sl_net::Input;
use sl_poll::{poll_of, polled_bytes};
use std::alloc::{AllocError, Global};

/// The turns of a book, without their numbers.
fn schedule_of(alloc: Global, entries: &[Entry]) -> Result<Vec<(u32, u32)>, AllocError>
    ensures { IfOk result (λ schedule. schedule.items ≡ schedule_of entries.now) }
{
    let mut schedule = Vec::with_capacity(alloc, entries.len())?;
    for entry in entries {
        schedule.push((entry.actor, entry.choice))?;
    }
    Ok(schedule)
}

/// Runs an input, and shows what reading its units one after the other would have shown: the first
/// after `start` entries, each further one after `gap` more.
pub fn serve_poll(alloc: Global, input: &Input, start: u64, gap: u64) -> Result<Served, Memory>
    requires { CanRun input.now }
    ensures reading { IfOk result
        (λ s. IsReading input.now (losses input.now) s.book s.front
        (states_of s.nodes) start gap s.text.items) }
    ensures status { IfOk result (λ s. s.status ≡ 0) }
{
    let ran = finish_stepped(alloc, input)?;
    let (nodes, book) = ran.world.into_book();
    drop(nodes);
    let schedule = schedule_of(alloc, book.entries.as_slice())?;
    let polled = poll_of(alloc, input, schedule.as_slice(), start, gap);
    drop(schedule);
    let polled = polled?;
    let text = polled_bytes(alloc, &input.net, &polled);
    drop(polled);
    Ok(text_of_run(book, ran.front, text?))
}
