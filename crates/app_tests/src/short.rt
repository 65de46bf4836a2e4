// The program over a source and sinks that move one byte at each call.
ghost use Rattle.std.specs.Prelude.{◌<◌};

use crate::inputs::input_of;
use crate::streams::{Streams, call, streams_of};
use sl_actor::FreeGate;
use sl_io::{MemorySink, MemorySource, Short};
use std::alloc::{AllocError, Global};
use std::sync::Wait;
use std::test::Fail;
use std::thread::Threads;

/// Streams of which each call moves at most so many bytes.
#[derive(Drop)]
struct ShortStreams {
    input: Short<MemorySource>,
    out: Short<MemorySink>,
    err: Short<MemorySink>,
}

/// Those of `step`, of which this write fails.
fn short_streams(alloc: Global, most: usize, fail: u8) -> Result<ShortStreams, Fail>
    requires { 0 < most }
{
    let Streams { input, out, err } = streams_of(alloc, input_of("packets"), (0, fail, 0))?;
    Ok(ShortStreams {
        input: Short { inner: input, most },
        out: Short { inner: out, most },
        err: Short { inner: err, most },
    })
}

/// What `step` leaves on such streams.
fn step_on<R: Threads + Wait + Sync>(
    rt: &R,
    alloc: Global,
    streams: &mut ShortStreams,
) -> Result<(u8, bool), AllocError> {
    call(
        rt,
        alloc,
        "step",
        &mut streams.input,
        &mut streams.out,
        &mut streams.err,
        &FreeGate,
    )
}

/// Whether a call left this status and a book, and wrote so many bytes of a report.
fn is_right(
    streams: &ShortStreams,
    left: (u8, bool),
    status: u8,
    report: &[u8],
    written: usize,
) -> bool {
    let out = streams.out.inner.bytes();
    left == (status, true) && out.len() == written && report.starts_with(out)
}

/// Whether `step` on such streams does.
fn leaves_on<R: Threads + Wait + Sync>(
    rt: &R,
    alloc: Global,
    streams: &mut ShortStreams,
    status: u8,
    report: &[u8],
    written: usize,
) -> Result<bool, Fail> {
    let left = step_on(rt, alloc, streams)?;
    Ok(is_right(streams, left, status, report, written))
}

/// Whether `step` does, where each call moves one byte and this write fails.
fn leaves<R: Threads + Wait + Sync>(
    rt: &R,
    alloc: Global,
    fail: u8,
    status: u8,
    report: &[u8],
    written: usize,
) -> Result<bool, Fail> {
    let mut streams = short_streams(alloc, 1, fail)?;
    let right = leaves_on(rt, alloc, &mut streams, status, report, written);
    drop(streams);
    right
}

/// Whether a report that is written byte by byte is this one, and of one whose hundredth byte fails
/// the first ninety-nine stand.
fn leave_bytes<R: Threads + Wait + Sync>(
    rt: &R,
    alloc: Global,
    report: &[u8],
) -> Result<bool, Fail> {
    let whole = leaves(rt, alloc, 0, 0, report, report.len())?;
    let front = leaves(rt, alloc, 100, 5, report, 99)?;
    Ok(whole && front)
}

/// The same of the report that is written at once, on these streams.
fn leave_bytes_on<R: Threads + Wait + Sync>(
    rt: &R,
    alloc: Global,
    streams: &mut ShortStreams,
) -> Result<bool, Fail> {
    step_on(rt, alloc, streams)?;
    leave_bytes(rt, alloc, streams.out.inner.bytes())
}

#[test]
fn one_byte_at_a_time(rt: HostRuntime) -> Result<(), Fail> {
    let mut streams = short_streams(rt.alloc(), 4096, 0)?;
    let right = leave_bytes_on(&rt, rt.alloc(), &mut streams);
    drop(streams);
    assert!(rt; right?);
    Ok(())
}
