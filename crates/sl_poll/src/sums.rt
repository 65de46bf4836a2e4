// What units counted until they were read.
ghost use Rattle.std.specs.Prelude.{◌≡◌, ◌≤◌, IfOk, OnOk, length, map, replicate};
ghost use Rattle.sl_parts.specs.Parts.{below};
ghost use Rattle.sl_layout.specs.Net.{units};
ghost use Rattle.sl_poll.specs.Reading.{read_after};
ghost use Rattle.sl_poll.specs.Sums.{no_sum, with_one, add_one, read_of_sum};

use crate::reading::Read1;
use crate::trail::Counted;
use sl_machine::Memory;
use sl_net::Net;
use std::alloc::{AllocError, Global};

/// When units are read: the first after `start` entries, each further one after `gap` more, and all
/// after at most `count`.
#[derive(Clone, Copy)]
pub struct Pace {
    pub count: u64,
    pub start: u64,
    pub gap: u64,
}

/// The data packets that a unit counted so far, and their bytes.
#[derive(Clone, Copy)]
pub struct Sum {
    pub packets: u64,
    pub bytes: u64,
}

/// After how many entries the unit at a place is read.
pub fn read_after(pace: Pace, place: u32) -> u64
    ensures { result ≡ read_after pace.count pace.start pace.gap place }
{
    let wait = (place as u64).saturating_mul(pace.gap);
    pace.start.saturating_add(wait).min(pace.count)
}

fn with_one(sum: Sum, counted: Counted) -> Result<Sum, Memory>
    ensures { IfOk result (λ more. more ≡ with_one counted sum) }
{
    match (
        sum.packets.checked_add(1),
        sum.bytes.checked_add(counted.bytes),
    ) {
        (Some(packets), Some(bytes)) => Ok(Sum { packets, bytes }),
        _ => Err(Memory),
    }
}

/// Adds a step to the sum of its unit, where it comes before this is read.
pub fn add_one(sums: &mut Vec<Sum>, pace: Pace, counted: Counted) -> Result<(), Memory>
    ensures { OnOk result
        (sums.new.items ≡ add_one (read_after pace.count pace.start pace.gap)
        counted sums.old.items) }
{
    let place = counted.unit as usize;
    if counted.entry <= read_after(pace, counted.unit) && place < sums.len() {
        sums[place] = with_one(sums[place], counted)?;
    }
    Ok(())
}

/// The sums of so many units of which nothing was counted.
pub fn no_sums(alloc: Global, count: u32) -> Result<Vec<Sum>, Memory>
    ensures { IfOk result (λ sums. sums.items ≡ replicate count no_sum) }
{
    let none = Sum {
        packets: 0,
        bytes: 0,
    };
    Ok(vec![in alloc; none; count as usize]?)
}

fn read_of_sum(pace: Pace, sums: &[Sum], place: u32) -> Read1
    ensures { result ≡ read_of_sum (read_after pace.count pace.start pace.gap) sums.now place }
{
    let at = read_after(pace, place);
    match sums.get(place as usize) {
        Some(sum) => Read1 {
            unit: place,
            at,
            packets: sum.packets,
            bytes: sum.bytes,
        },
        None => Read1 {
            unit: place,
            at,
            packets: 0,
            bytes: 0,
        },
    }
}

/// What is read of so many units.
pub fn list_reads(
    alloc: Global,
    pace: Pace,
    sums: &[Sum],
    count: u32,
) -> Result<Vec<Read1>, AllocError>
    ensures { IfOk result
        (λ reads. reads.items
        ≡ map (read_of_sum (read_after pace.count pace.start pace.gap) sums.now)
        (below count)) }
{
    let mut reads = Vec::new(alloc);
    for place in 0..count {
        reads.push(read_of_sum(pace, sums, place))?;
    }
    Ok(reads)
}

/// After how many entries all units are read.
pub fn last_read(net: &Net, pace: Pace) -> u64
    ensures last { result ≡ read_after pace.count pace.start pace.gap (length (units net.now)) }
    ensures within { result ≤ pace.count }
{
    read_after(pace, net.unit_count())
}
