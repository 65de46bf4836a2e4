// A source or a sink that moves few bytes at each call.
ghost use Rattle.std.specs.Prelude.{◌≡◌, ◌<◌, ◌≤◌, length, IfOk, OnErr};
ghost use Rattle.std.specs.Io.{ReadsAtMost, WritesAtMost};
ghost use Rattle.std.specs.Io.KnownBytes.{ReadConsumes, WriteAppends};
ghost use Rattle.sl_io.specs.Faults.{Rose};
ghost use Rattle.sl_io.specs.Pieces.{TellsAsBefore};

use crate::streams::{Failed, Sink, Source};

/// A source or a sink that hands on at most `most` bytes at each call, as a terminal or a pipe
/// may. All else is as its inner object has it.
#[derive(Drop)]
pub struct Short<T: Drop> {
    /// The source or the sink.
    pub inner: T,
    /// The most bytes that a call moves, at least 1.
    pub most: usize,

    ghost some: { 0 < most },
}

impl<T: Source + Drop> Source for Short<T> {
    ghost left = { λ s. T.left s.inner };

    ghost faults = { λ s. T.faults s.inner };

    fn read(&mut self, buf: &mut [u8]) -> Result<usize, Failed>
        ensures bound { ReadsAtMost result buf.new }
        ensures next { ReadConsumes (T.left self.old.inner) (T.left self.new.inner) result buf.new }
        ensures tells { TellsAsBefore (T.left self.old.inner) (T.left self.new.inner) }
        ensures never_falls { T.faults self.old.inner ≤ T.faults self.new.inner }
        ensures fault { OnErr result (Rose (T.faults self.old.inner) (T.faults self.new.inner)) }

        // It moves no more than it may.
        ensures few { IfOk result (λ n. n ≤ self.old.most) }
        ensures most { self.new.most ≡ self.old.most }
    {
        let end = buf.len().min(self.most);
        self.inner.read(&mut buf[..end])
    }
}

impl<T: Sink + Drop> Sink for Short<T> {
    ghost written = { λ s. T.written s.inner };

    ghost faults = { λ s. T.faults s.inner };

    fn write(&mut self, buf: &[u8]) -> Result<usize, Failed>
        ensures bound { WritesAtMost result buf.now }
        ensures some { 0 < length buf.now → IfOk result (λ n. 0 < n) }
        ensures appended { WriteAppends (T.written self.old.inner)
            (T.written self.new.inner) result buf.now }
        ensures tells { TellsAsBefore (T.written self.old.inner) (T.written self.new.inner) }
        ensures never_falls { T.faults self.old.inner ≤ T.faults self.new.inner }
        ensures fault { OnErr result (Rose (T.faults self.old.inner) (T.faults self.new.inner)) }

        // It moves no more than it may.
        ensures few { IfOk result (λ n. n ≤ self.old.most) }
        ensures most { self.new.most ≡ self.old.most }
    {
        let end = buf.len().min(self.most);
        self.inner.write(&buf[..end])
    }
}
