// Calls over sources and sinks in memory, with faults at each.
use crate::inputs::input_of;
use crate::streams::{Streams, call_on, left_by, streams_of};
use sl_actor::FreeGate;
use sl_app::one_thread;
use std::alloc::Global;
use std::sync::Wait;
use std::test::Fail;
use std::thread::Threads;

const USAGE: &str =
    "speedlight: usage: speedlight step [--trace] | run [--trace] | routes | sample N [--input] | values | check | balance | poll S G\n";

/// A line for each call: the read, the write and the write of errors that fail, 0 where none does; the
/// status; what is on the error sink; the input; whether there is a book; and after `=>` the words. A
/// source of one piece is read twice. A read that fails is told, whatever the words of the input.
fn table() -> &'static str {
    r#"100 2 usage packets none =>
100 2 usage packets none => walk
100 2 usage packets none => -h
100 4 read packets none => run --trace
010 5 write packets book => run
100 2 usage packets none => sample 65
100 2 usage packets none => routes x
100 2 usage packets none => check --trace
100 4 read packets none => check
200 4 read packets none => check
000 3 mark packets none => check --
001 5 write packets none => check
100 2 usage packets none => balance --trace
100 2 usage packets none => poll 03 2
100 2 usage packets none => poll 3
100 2 usage packets none => step --trace --trace
100 4 read packets none => step --trace
100 4 read packets none => step
200 4 read packets none => step
100 4 read packets none => routes
010 5 write packets none => routes
200 4 read packets none => balance
010 5 write packets book => balance --
011 5 nothing packets book => balance
200 4 read packets none => poll 3 2
100 2 usage packets none => values --trace
100 4 read packets none => values
010 5 write packets book => values --
011 5 nothing packets book => values
010 5 write packets book => poll 3 -- 2
010 5 write packets book => step
110 5 write packets none => sample 8
001 5 write packets none => walk
101 5 write packets none => step
011 5 nothing packets book => step
010 5 write claim none => check
000 3 toml cut none => step
000 0 nothing packets book => step
000 0 nothing packets book => run
000 0 nothing packets book => balance
000 0 nothing packets book => poll 3 2
000 0 nothing packets book => values
000 0 nothing packets none => routes
000 0 nothing packets none => sample 8
000 0 nothing claim none => check
000 8 nothing other_claim none => check
"#
}

/// What is on the error sink, by its name.
fn error_of(name: &str) -> &'static str {
    match name {
        "usage" => USAGE,
        "read" => "speedlight: read fault\n",
        "write" => "speedlight: write fault\n",
        "mark" => "speedlight: C2\n",
        "toml" => "speedlight: I2\n",
        _ => "",
    }
}

/// The digit at a place of a text.
fn digit(text: &str, place: usize) -> u8 {
    match text.as_bytes().get(place) {
        Some(byte) => byte.saturating_sub(b'0'),
        None => 0,
    }
}

/// Whether bytes are those of a text.
pub fn is_text(bytes: &[u8], text: &str) -> bool {
    bytes == text.as_bytes()
}

/// Whether a call left the status and the book that it should, and this on the error sink, and wrote
/// where it was served.
pub fn is_told(streams: &Streams, left: (u8, bool), wanted: (u8, bool), error: &str) -> bool {
    let is_written = !streams.out.bytes().is_empty();
    let is_error = is_text(streams.err.bytes(), error);
    left == wanted && is_error && is_written == matches!(wanted.0, 0 | 8)
}

/// The text at a place of a line.
fn column(line: &str, place: usize) -> &str {
    line.split(" ").nth(place).unwrap_or("")
}

/// The words of a line.
fn words_of(line: &str) -> &str {
    match line.split_once(" =>") {
        Some((_, words)) => words,
        None => "",
    }
}

/// Whether the call of a line on such streams leaves what is told of it.
fn leaves_on<R: Threads + Wait + Sync>(
    rt: &R,
    alloc: Global,
    line: &str,
    streams: &mut Streams,
) -> Result<bool, Fail> {
    let left = call_on(rt, alloc, words_of(line), streams, &FreeGate)?;
    let wanted = (digit(line, 4), column(line, 4) == "book");
    Ok(is_told(streams, left, wanted, error_of(column(line, 2))))
}

/// Whether the call of a line leaves what is told of it.
fn leaves<R: Threads + Wait + Sync>(rt: &R, alloc: Global, line: &str) -> Result<bool, Fail> {
    let fails = (digit(line, 0), digit(line, 1), digit(line, 2));
    let mut streams = streams_of(alloc, input_of(column(line, 3)), fails)?;
    let left = leaves_on(rt, alloc, line, &mut streams);
    drop(streams);
    left
}

/// Words, faults at each call, and where there is a book.
#[test]
fn words_and_faults(rt: HostRuntime) -> Result<(), Fail> {
    for line in table().lines() {
        assert!(rt; leaves(&rt, rt.alloc(), line)?, "{line}");
    }
    Ok(())
}

/// The call that takes no handle, without a word, tells how the program is used.
#[test]
fn no_words(rt: HostRuntime) -> Result<(), Fail> {
    let mut streams = streams_of(rt.alloc(), "", (0, 0, 0))?;
    let left = left_by(one_thread(
        rt.alloc(),
        &[],
        &mut streams.input,
        &mut streams.out,
        &mut streams.err,
    ));
    let told = is_told(&streams, left, (2, false), USAGE);
    drop(streams);
    assert!(rt; told);
    Ok(())
}
