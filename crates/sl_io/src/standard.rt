// The standard streams as a source and as sinks: the trusted edge.
ghost use Rattle.std.specs.Prelude.{◌≡◌, ◌<◌, ◌≤◌, length, None, IfOk, OnErr, is_err};
ghost use Rattle.std.specs.Prelude.{if◌then◌else◌};
ghost use Rattle.std.specs.Io.{ReadsAtMost, WritesAtMost};
ghost use Rattle.std.specs.Io.KnownBytes.{ReadConsumes, WriteAppends};
ghost use Rattle.sl_machine.specs.Counting.{one_more};
ghost use Rattle.sl_io.specs.Faults.{Rose};
ghost use Rattle.sl_io.specs.Pieces.{TellsAsBefore};

use crate::streams::{Failed, Sink, Source};
use std::io::{Read, Stdin, Stdout, Write};

/// A reader as a source, by default over standard input. It tells no bytes. Each read is one read
/// of the reader, and each error of the reader is one fault.
#[derive(Drop)]
pub struct StdSource<R: Drop = Stdin> {
    /// The reader.
    pub input: R,
    /// How many faults there were.
    pub faults: u64,
}

impl<R: Read + Drop> StdSource<R> {
    /// A source over `input`, with no fault so far.
    pub fn new(input: R) -> StdSource<R>
        ensures { result ≡ record { input = input; faults = 0 } }
    {
        StdSource { input, faults: 0 }
    }
}

impl<R: Read + Drop> Source for StdSource<R> {
    ghost left = { λ _. None };

    ghost faults = { λ s. s.faults };

    fn read(&mut self, buf: &mut [u8]) -> Result<usize, Failed>
        ensures bound { ReadsAtMost result buf.new }
        ensures next { ReadConsumes None None result buf.new }
        ensures tells { TellsAsBefore None None }
        ensures never_falls { self.old.faults ≤ self.new.faults }
        ensures fault { OnErr result (Rose self.old.faults self.new.faults) }

        // It is one read of the input, and counts just its error.
        ensures once { ReadConsumes (R.remaining self.old.input)
            (R.remaining self.new.input) result buf.new }
        ensures faults { self.new.faults
            ≡ (if is_err result then one_more self.old.faults else self.old.faults) }
    {
        match self.input.read(buf) {
            Ok(n) => Ok(n),
            Err(_) => {
                self.faults = self.faults.saturating_add(1);
                Err(Failed)
            }
        }
    }
}

/// A writer as a sink, by default over standard output. It tells no bytes. Each write is one write
/// of the writer, with no buffer between. A fault is an error of the writer, or that it takes no
/// byte of a piece that isn't empty.
#[derive(Drop)]
pub struct StdSink<W: Drop = Stdout> {
    /// The writer.
    pub output: W,
    /// How many faults there were.
    pub faults: u64,
}

impl<W: Write + Drop> StdSink<W> {
    /// A sink over `output`, with no fault so far.
    pub fn new(output: W) -> StdSink<W>
        ensures { result ≡ record { output = output; faults = 0 } }
    {
        StdSink { output, faults: 0 }
    }
}

impl<W: Write + Drop> Sink for StdSink<W> {
    ghost written = { λ _. None };

    ghost faults = { λ s. s.faults };

    fn write(&mut self, buf: &[u8]) -> Result<usize, Failed>
        ensures bound { WritesAtMost result buf.now }
        ensures some { 0 < length buf.now → IfOk result (λ n. 0 < n) }
        ensures appended { WriteAppends None None result buf.now }
        ensures tells { TellsAsBefore None None }
        ensures never_falls { self.old.faults ≤ self.new.faults }
        ensures fault { OnErr result (Rose self.old.faults self.new.faults) }

        // It is one write of the output, and counts just its failure.
        ensures once { WriteAppends (W.contents self.old.output)
            (W.contents self.new.output) result buf.now }
        ensures faults { self.new.faults
            ≡ (if is_err result then one_more self.old.faults else self.old.faults) }
    {
        match self.output.write(buf) {
            Ok(n) if n > 0 || buf.is_empty() => Ok(n),
            _ => {
                self.faults = self.faults.saturating_add(1);
                Err(Failed)
            }
        }
    }
}
