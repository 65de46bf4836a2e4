// A source and a sink in memory, with calls that fail by their number.
ghost use Rattle.std.specs.Prelude.{◌≡◌, ◌+◌, ◌<◌, ◌≤◌, ◌⊎◌, ◌↔◌, [], length, drop, min, Some};
ghost use Rattle.std.specs.Prelude.{IfOk, OnErr, IsOk, IsErr, IsTrue, is_err, if◌then◌else◌};
ghost use Rattle.std.specs.Prelude.{Contains};
ghost use Rattle.std.specs.Io.{ReadsAtMost, WritesAtMost};
ghost use Rattle.std.specs.Io.KnownBytes.{ReadConsumes, WriteAppends};
ghost use Rattle.sl_machine.specs.Counting.{one_more};
ghost use Rattle.sl_io.specs.Faults.{Rose};
ghost use Rattle.sl_io.specs.Pieces.{TellsAsBefore};

use crate::streams::{Failed, Sink, Source};
use sl_machine::Memory;
use std::alloc::Global;
use std::marker::Model;

/// The calls of an object in memory: the numbers, from 1, of those that fail, how many were made,
/// and how many failed. The two counts stay at the last value of a `u64`.
#[derive(Drop)]
struct Calls {
    fail: Vec<u64>,
    made: u64,
    faults: u64,
}

impl Calls {
    fn new(fail: Vec<u64>) -> Calls
        ensures { result ≡ record { fail = fail; made = 0; faults = 0 } }
    {
        Calls {
            fail,
            made: 0,
            faults: 0,
        }
    }

    /// Counts a call, and says whether its number is among those that fail.
    fn count(&mut self) -> bool
        ensures planned { IsTrue result ↔ Contains self.old.fail.items (self.old.made + 1) }
        ensures counted { self.new ≡ record self.old { made = one_more self.old.made } }
    {
        let number = u128::from(self.made) + 1;
        self.made = self.made.saturating_add(1);
        self.fail.iter().any(|fails| u128::from(*fails) == number)
    }

    /// Counts a call that failed.
    fn fault(&mut self)
        ensures { self.new ≡ record self.old { faults = one_more self.old.faults } }
    {
        self.faults = self.faults.saturating_add(1);
    }
}

/// A source over bytes in memory. Contracts see what it has left and its calls.
#[derive(Drop)]
pub struct MemorySource {
    bytes: Vec<u8>,
    at: usize,
    calls: Calls,
}

impl Model for MemorySource {
    ghost use Rattle.std.specs.Prelude.{◌≤◌, length, drop};
    ghost use Rattle.sl_io.specs.InMemory.{Supply};

    ghost Value = { Supply };

    ghost view = { λ s.
        record {
          left = drop s.at s.bytes.items;
          fail = s.calls.fail.items;
          calls = s.calls.made;
          faults = s.calls.faults;
        } };

    ghost invariant = { λ s. s.at ≤ length s.bytes.items };
}

impl MemorySource {
    /// A source of `bytes` whose calls fail where their number, from 1, is in `fail`.
    pub fn new(bytes: Vec<u8>, fail: Vec<u64>) -> MemorySource
        ensures { result ≡ record { left = bytes.items; fail = fail.items; calls = 0; faults = 0 } }
    {
        MemorySource {
            bytes,
            at: 0,
            calls: Calls::new(fail),
        }
    }
}

impl Source for MemorySource {
    ghost left = { λ s. Some s.left };

    ghost faults = { λ s. s.faults };

    fn read(&mut self, buf: &mut [u8]) -> Result<usize, Failed>
        ensures bound { ReadsAtMost result buf.new }
        ensures next { ReadConsumes (Some self.old.left) (Some self.new.left) result buf.new }
        ensures tells { TellsAsBefore (Some self.old.left) (Some self.new.left) }
        ensures never_falls { self.old.faults ≤ self.new.faults }
        ensures fault { OnErr result (Rose self.old.faults self.new.faults) }

        // It fails exactly where the call's number is listed, and counts just that.
        ensures fails { IsErr result ↔ Contains self.old.fail (self.old.calls + 1) }
        ensures calls { self.new.calls ≡ one_more self.old.calls }
        ensures faults { self.new.faults
            ≡ (if is_err result then one_more self.old.faults else self.old.faults) }
        ensures plan { self.new.fail ≡ self.old.fail }

        // It gives as many bytes as there is room for, and leaves the rest of the buffer alone.
        ensures most { IfOk result (λ n. n ≡ min (length buf.new) (length self.old.left)) }
        ensures rest { IfOk result (λ n. drop n buf.new ≡ drop n buf.old) }
        ensures untouched { OnErr result (buf.new ≡ buf.old) }
    {
        if self.calls.count() {
            self.calls.fault();
            return Err(Failed);
        }
        let n = buf.len().min(self.bytes.len() - self.at);
        let end = self.at + n;
        buf[..n].copy_from_slice(&self.bytes[self.at..end]);
        self.at = end;
        Ok(n)
    }
}

/// A sink into memory with room for so many bytes. Contracts see what was written, the room left
/// and its calls.
#[derive(Drop)]
pub struct MemorySink {
    bytes: Vec<u8>,
    room: usize,
    calls: Calls,
}

impl Model for MemorySink {
    ghost use Rattle.std.specs.Prelude.{◌+◌, ◌≤◌, vec_len, vec_capacity};
    ghost use Rattle.sl_io.specs.InMemory.{Store};

    ghost Value = { Store };

    ghost view = { λ s.
        record {
          written = s.bytes.items;
          room = s.room;
          fail = s.calls.fail.items;
          calls = s.calls.made;
          faults = s.calls.faults;
        } };

    ghost invariant = { λ s. vec_len s.bytes + s.room ≤ vec_capacity s.bytes };
}

impl MemorySink {
    /// A sink with room for `room` bytes whose calls fail where their number, from 1, is in `fail`,
    /// or where no byte fits of a piece that isn't empty.
    pub fn new(alloc: Global, room: usize, fail: Vec<u64>) -> Result<MemorySink, Memory>
        ensures made { IfOk result
            (λ sink. sink
            ≡ record { written = []; room = room; fail = fail.items; calls = 0; faults = 0 }) }
        ensures no_room { room ≡ 0 → IsOk result }
    {
        let bytes = Vec::with_capacity(alloc, room)?;
        Ok(MemorySink {
            bytes,
            room,
            calls: Calls::new(fail),
        })
    }

    /// The bytes written so far.
    pub fn bytes(&self) -> &[u8]
        ensures { result.now ≡ self.now.written }
    {
        &self.bytes
    }
}

impl Sink for MemorySink {
    ghost written = { λ s. Some s.written };

    ghost faults = { λ s. s.faults };

    fn write(&mut self, buf: &[u8]) -> Result<usize, Failed>
        ensures bound { WritesAtMost result buf.now }
        ensures some { 0 < length buf.now → IfOk result (λ n. 0 < n) }
        ensures appended { WriteAppends (Some self.old.written)
            (Some self.new.written) result buf.now }
        ensures tells { TellsAsBefore (Some self.old.written) (Some self.new.written) }
        ensures never_falls { self.old.faults ≤ self.new.faults }
        ensures fault { OnErr result (Rose self.old.faults self.new.faults) }

        // It fails exactly where the call's number is listed or nothing fits, and counts just that.
        ensures fails { IsErr result ↔ (Contains self.old.fail (self.old.calls + 1)
            ⊎ ((0 < length buf.now) × (self.old.room ≡ 0))) }
        ensures calls { self.new.calls ≡ one_more self.old.calls }
        ensures faults { self.new.faults
            ≡ (if is_err result then one_more self.old.faults else self.old.faults) }
        ensures plan { self.new.fail ≡ self.old.fail }

        // It takes as many bytes as fit.
        ensures most { IfOk result (λ n. n ≡ min (length buf.now) self.old.room) }
        ensures room { self.new.room + length self.new.written
            ≡ self.old.room + length self.old.written }
    {
        let planned = self.calls.count();
        if planned || (self.room == 0 && !buf.is_empty()) {
            self.calls.fault();
            return Err(Failed);
        }
        let n = buf.len().min(self.room);
        // `new` took the memory, so this takes none and does not fail.
        let _ = self.bytes.extend_from_slice(&buf[..n]);
        self.room -= n;
        Ok(n)
    }
}
