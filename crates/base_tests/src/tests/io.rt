// Sources and sinks: faults at each call in turn, and each constructor once.
use sl_io::{
    Failed, MemorySink, MemorySource, ReadFault, Sink, Source, StdSink, StdSource, read_all,
    write_all,
};
use std::alloc::{AllocError, Global};
use std::io::Write;
use std::test::Fail;

/// More bytes than two reads give.
const LENGTH: usize = 10_000;

/// Whether a source gives these bytes where it is read to its end.
fn is_left(alloc: Global, source: &mut MemorySource, rest: &[u8]) -> bool {
    match read_all(alloc, source, LENGTH) {
        Ok(left) => left.as_slice() == rest,
        Err(_) => true,
    }
}

/// The call that fails, the limit, how many bytes were taken, and whether that is the answer.
type ReadRow = (u64, usize, usize, bool);

static READS: [ReadRow; 9] = [
    (0, LENGTH + 1, LENGTH, true),
    (1, LENGTH + 1, 0, false),
    (2, LENGTH + 1, 4096, false),
    (3, LENGTH + 1, 8192, false),
    (4, LENGTH + 1, LENGTH, false),
    (5, LENGTH + 1, LENGTH, true),
    (4, LENGTH, LENGTH, true),
    (3, 5000, 5000, true),
    (1, 0, 0, true),
];

fn reads() -> &'static [ReadRow] {
    &READS
}

/// Whether reading a text is as a row says.
fn is_read(
    alloc: Global,
    text: &[u8],
    (call, limit, taken, whole): ReadRow,
) -> Result<bool, AllocError> {
    let fail = Vec::from_slice(alloc, &[call])?;
    let mut source = MemorySource::new(Vec::from_slice(alloc, text)?, fail);
    let (front, rest) = text.split_at(taken.min(text.len()));
    let right = match read_all(alloc, &mut source, limit) {
        Ok(bytes) => whole && bytes.as_slice() == front,
        Err(fault) => !whole && fault == ReadFault::Failed,
    };
    Ok(right && is_left(alloc, &mut source, rest))
}

fn long_text(alloc: Global) -> Result<Vec<u8>, AllocError> {
    let mut text = Vec::with_capacity(alloc, LENGTH)?;
    for i in 0..LENGTH {
        text.push((i % 251) as u8)?;
    }
    Ok(text)
}

#[test]
fn read_faults(rt: HostRuntime) -> Result<(), Fail> {
    let text = long_text(rt.alloc())?;
    for row in reads() {
        assert!(rt; is_read(rt.alloc(), text.as_slice(), *row)?, "{}", row.0);
    }
    Ok(())
}

/// Whether each of three pieces is written.
fn writes(sink: &mut MemorySink) -> bool {
    write_all(sink, b"ab").is_ok()
        && write_all(sink, b"cd").is_ok()
        && write_all(sink, b"ef").is_ok()
}

/// The call that fails, the room, what three pieces leave, and whether they were all written.
type WriteRow = (u64, usize, &'static str, bool);

static WRITES: [WriteRow; 9] = [
    (0, 8, "abcdef", true),
    (1, 8, "", false),
    (2, 8, "ab", false),
    (3, 8, "abcd", false),
    (4, 8, "abcdef", true),
    (4, 5, "abcde", false),
    (0, 5, "abcde", false),
    (0, 2, "ab", false),
    (0, 0, "", false),
];

fn pieces() -> &'static [WriteRow] {
    &WRITES
}

/// Whether three pieces are written to a sink as a row says.
fn is_written(alloc: Global, (call, room, left, whole): WriteRow) -> Result<bool, Fail> {
    let fail = Vec::from_slice(alloc, &[call])?;
    let Ok(mut sink) = MemorySink::new(alloc, room, fail) else {
        return Err("memory".into());
    };
    let right = writes(&mut sink) == whole;
    Ok(right && sink.bytes() == left.as_bytes())
}

#[test]
fn write_faults(rt: HostRuntime) -> Result<(), Fail> {
    for row in pieces() {
        assert!(rt; is_written(rt.alloc(), *row)?, "{} {}", row.0, row.1);
    }
    Ok(())
}

/// The first five bytes that are read.
fn read_five(alloc: Global) -> Result<Vec<u8>, Fail> {
    let mut source = StdSource::new(&b"three packets"[..]);
    Ok(read_all(alloc, &mut source, 5).ok().ok_or("no bytes")?)
}

/// What is written to a list of bytes.
fn written(alloc: Global, bytes: &[u8]) -> Vec<u8> {
    let mut sink = StdSink::new(Vec::new(alloc));
    let _ = write_all(&mut sink, bytes);
    sink.output
}

/// What a read at the end answers, and how many faults are counted.
fn read_at_end() -> (Result<usize, Failed>, u64) {
    let mut rest = [0; 4];
    let mut ended = StdSource::new(&b""[..]);
    (ended.read(&mut rest), ended.faults)
}

/// The same of a write of nothing.
fn write_nothing<W: Write + Drop>(output: W) -> (Result<usize, Failed>, u64) {
    let mut sink = StdSink::new(output);
    (sink.write(b""), sink.faults)
}

fn is_taken<W: Write + Drop>(output: W, bytes: &[u8]) -> bool {
    write_all(&mut StdSink::new(output), bytes).is_ok()
}

#[test]
fn standard_streams(rt: HostRuntime) -> Result<(), Fail> {
    let five = read_five(rt.alloc())?;
    assert!(rt; five.as_slice() == b"three".as_slice());
    assert!(rt; written(rt.alloc(), b"three").as_slice() == b"three".as_slice());
    assert!(rt; is_taken(rt.stdout(), b"to standard output\n"));
    assert!(rt; is_taken(rt.stderr(), b"to standard error\n"));
    Ok(())
}

/// The end of what is read is no fault, nor is a write of nothing.
#[test]
fn no_faults(rt: HostRuntime) {
    assert_eq!(rt; read_at_end(), (Ok(0), 0));
    assert_eq!(rt; write_nothing(rt.stdout()), (Ok(0), 0));
}
