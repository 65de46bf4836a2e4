// The words and the streams of a call, and the call.
use sl_actor::Gate;
use sl_app::{Ended, speedlight};
use sl_io::{MemorySink, MemorySource, Sink, Source};
use std::alloc::{AllocError, Global};
use std::sync::Wait;
use std::test::Fail;
use std::thread::Threads;

/// The streams of a call.
#[derive(Drop)]
pub struct Streams {
    pub input: MemorySource,
    pub out: MemorySink,
    pub err: MemorySink,
}

/// The calls that fail: the one of this number.
fn failing(alloc: Global, fail: u8) -> Result<Vec<u64>, AllocError> {
    Vec::from_slice(alloc, &[u64::from(fail)])
}

fn source(alloc: Global, text: &str, fail: u8) -> Result<MemorySource, AllocError> {
    let bytes = Vec::from_slice(alloc, text.as_bytes())?;
    let fails = failing(alloc, fail)?;
    Ok(MemorySource::new(bytes, fails))
}

fn sink(alloc: Global, fail: u8) -> Result<MemorySink, Fail> {
    let fails = failing(alloc, fail)?;
    Ok(MemorySink::new(alloc, 4096, fails)?)
}

/// The streams of a call with this input, where the read, the write and the write of errors of these
/// numbers fail; none does at 0.
pub fn streams_of(alloc: Global, text: &str, fails: (u8, u8, u8)) -> Result<Streams, Fail> {
    let input = source(alloc, text, fails.0)?;
    let out = match sink(alloc, fails.1) {
        Ok(out) => out,
        Err(fault) => {
            drop(input);
            return Err(fault);
        }
    };
    match sink(alloc, fails.2) {
        Ok(err) => Ok(Streams { input, out, err }),
        Err(fault) => {
            drop(input);
            drop(out);
            Err(fault)
        }
    }
}

/// Adds the words of a line, of which `''` is the empty one.
fn add_words(alloc: Global, words: &mut Vec<String>, line: &str) -> Result<(), AllocError> {
    for word in line.split_whitespace() {
        let word = if word == "''" { "" } else { word };
        words.push(String::from_str(alloc, word)?)?;
    }
    Ok(())
}

/// The words of a line.
pub fn words_in(alloc: Global, line: &str) -> Result<Vec<String>, AllocError> {
    let mut words = Vec::new(alloc);
    match add_words(alloc, &mut words, line) {
        Ok(()) => Ok(words),
        Err(fault) => {
            drop(words);
            Err(fault)
        }
    }
}

/// What a call left: the status, and whether there is a book.
pub fn left_by(ended: Ended) -> (u8, bool) {
    let left = (ended.status, ended.book.is_some());
    drop(ended);
    left
}

/// Calls the program with the words of a line: the status, and whether there is a book.
pub fn call<R: Threads + Wait + Sync, I: Source, O: Sink, E: Sink, G: Gate + Sync>(
    rt: &R,
    alloc: Global,
    line: &str,
    input: &mut I,
    out: &mut O,
    err: &mut E,
    gate: &G,
) -> Result<(u8, bool), AllocError> {
    let words = words_in(alloc, line)?;
    let left = left_by(speedlight(rt, alloc, words.as_slice(), input, out, err, gate));
    drop(words);
    Ok(left)
}

/// The same on streams in memory.
pub fn call_on<R: Threads + Wait + Sync, G: Gate + Sync>(
    rt: &R,
    alloc: Global,
    line: &str,
    streams: &mut Streams,
    gate: &G,
) -> Result<(u8, bool), AllocError> {
    call(
        rt,
        alloc,
        line,
        &mut streams.input,
        &mut streams.out,
        &mut streams.err,
        gate,
    )
}
