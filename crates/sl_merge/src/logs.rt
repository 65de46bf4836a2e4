// Logs that are merged a window of numbers at a time.
ghost use Rattle.std.specs.Prelude.{◌≡◌, ◌+◌, ◌<◌, ◌≤◌, ◌^◌, ℕ, List, length, map, IfOk, OnOk};
ghost use Rattle.std.specs.List.{All};
ghost use Rattle.sl_machine.specs.declared.wiring.Entry.{Entry};
ghost use Rattle.sl_merge.specs.Merging.{IsMerge, IsAscending, IsLog, entries_by, all_entries};
ghost use Rattle.sl_merge.specs.Windows.{up_to, AreEmpty, HaveNumbered, HaveMore, IsAt, AreAt};

use sl_machine::{Book, Entry, Memory};
use std::alloc::Global;

/// How many numbers a window has.
const WINDOW: usize = 256;

/// The book of logs, one of each actor in order: their entries, in the order of number and actor.
pub fn merge_logs(alloc: Global, logs: &[Vec<(u64, u32)>]) -> Result<Book, Memory>
    requires few { length logs.now < 2 ^ 32 }
    requires logs { All IsLog (map (λ log. log.items) logs.now) }
    ensures merge { IfOk result
        (λ b. IsMerge (all_entries (map (λ log. log.items) logs.now)) b.entries) }
    ensures ascending { IfOk result (λ b. IsAscending b.entries) }
{
    let mut entries = Vec::with_capacity(alloc, count_in(logs))?;
    let mut buckets = empty_buckets(alloc)?;
    let mut places = vec![in alloc; 0usize; logs.len()]?;
    let windows = last_in(logs) / WINDOW as u64 + 1;
    for window in 0..windows {
        gather(&mut buckets, window * WINDOW as u64, logs, &mut places)?;
        pour(&mut buckets, &mut entries)?;
    }
    Ok(Book { entries })
}

/// How many entries logs have, or as many as can be told.
fn count_in(logs: &[Vec<(u64, u32)>]) -> usize {
    let mut count = 0usize;
    for log in logs {
        count = count.saturating_add(log.len());
    }
    count
}

/// A number that no entry is above.
fn last_in(logs: &[Vec<(u64, u32)>]) -> u64
    requires { All IsLog (map (λ log. log.items) logs.now) }
    ensures { All (λ log. All (λ p. p.0 ≤ result) log.items) logs.now }
{
    let mut last = 0;
    for log in logs {
        if let Some((number, _)) = log.last() {
            last = u64::max(last, *number);
        }
    }
    last
}

/// A bucket for each number of a window.
fn empty_buckets(alloc: Global) -> Result<Vec<Vec<Entry>>, Memory>
    ensures { IfOk result (λ buckets. AreEmpty (map (λ bucket. bucket.items) buckets.items)) }
{
    let mut buckets = Vec::with_capacity(alloc, WINDOW)?;
    for _ in 0..WINDOW {
        buckets.push(Vec::new(alloc))?;
    }
    Ok(buckets)
}

/// Puts the entries of a window, which begins at `low`, into the buckets of their numbers.
fn gather(
    buckets: &mut Vec<Vec<Entry>>,
    low: u64,
    logs: &[Vec<(u64, u32)>],
    places: &mut Vec<usize>,
) -> Result<(), Memory>
    requires few { length logs.now < 2 ^ 32 }
    requires logs { All IsLog (map (λ log. log.items) logs.now) }
    requires buckets { AreEmpty (map (λ bucket. bucket.items) buckets.old.items) }
    requires places { AreAt low (map (λ log. log.items) logs.now) places.old.items }
    ensures buckets { OnOk result
        (HaveNumbered low (all_entries (map (λ log. log.items) logs.now))
        (map (λ bucket. bucket.items) buckets.new.items)) }
    ensures places { OnOk result
        (AreAt (low + 256) (map (λ log. log.items) logs.now) places.new.items) }
{
    for i in 0..logs.len() {
        places[i] = gather_log(buckets, low, i as u32, logs[i].as_slice(), places[i])?;
    }
    Ok(())
}

/// Puts the entries of a log that are of a window, which begins at `low`, into the buckets of their
/// numbers. `place` is that of the first of them, and the answer that of the first after them.
fn gather_log(
    buckets: &mut Vec<Vec<Entry>>,
    low: u64,
    actor: u32,
    log: &[(u64, u32)],
    place: usize,
) -> Result<usize, Memory>
    requires each { length buckets.old.items ≡ 256 }
    requires log { IsLog log.now }
    requires place { IsAt low log.now place }
    ensures buckets { OnOk result
        (HaveMore low (entries_by actor log.now) (map (λ bucket. bucket.items) buckets.old.items)
        (map (λ bucket. bucket.items) buckets.new.items)) }
    ensures place { IfOk result (λ next. IsAt (low + 256) log.now next) }
{
    for i in place..log.len() {
        let (number, choice) = log[i];
        let after = number - low;
        if after >= WINDOW as u64 {
            return Ok(i);
        }
        buckets[after as usize].push(Entry {
            number,
            actor,
            choice,
        })?;
    }
    Ok(log.len())
}

/// Adds what the buckets of a window hold to the entries, bucket by bucket.
fn pour(buckets: &mut Vec<Vec<Entry>>, entries: &mut Vec<Entry>) -> Result<(), Memory>
    requires { length buckets.old.items ≡ 256 }
    ensures empty { OnOk result (AreEmpty (map (λ bucket. bucket.items) buckets.new.items)) }
    ensures entries { OnOk result ((low : ℕ) (es : List Entry)
        → HaveNumbered low es (map (λ bucket. bucket.items) buckets.old.items)
        → entries.old.items ≡ up_to low es → entries.new.items ≡ up_to (low + 256) es) }
{
    for i in 0..buckets.len() {
        entries.append(&mut buckets[i])?;
    }
    Ok(())
}
