// Reading to the end, and writing a whole piece.
ghost use Rattle.std.specs.Prelude.{◌≡◌, ◌≤◌, IfOk, IsOk, OnOk, OnErr};
ghost use Rattle.std.specs.Io.KnownBytes.{Appends};
ghost use Rattle.sl_io.specs.declared.transfer.ReadFault.TheVariants as fault;
ghost use Rattle.sl_io.specs.Faults.{Rose};
ghost use Rattle.sl_io.specs.Pieces.{TellsAsBefore, IsReadUpTo, TakesUpTo, AppendsPart};

use crate::streams::{Failed, Sink, Source};
use std::alloc::{AllocError, Global};

/// The most bytes that one read asks for.
const CHUNK: usize = 4096;

/// Why a source could not be read to its end.
#[derive(Clone, Copy, Debug, PartialEq, Eq)]
pub enum ReadFault {
    /// A read failed.
    Failed,
    /// There is no memory for the bytes.
    Memory,
}

impl From<Failed> for ReadFault {
    ghost from_gives = { λ _ gives. gives ≡ fault.Failed };

    fn from(_: Failed) -> ReadFault {
        ReadFault::Failed
    }
}

impl From<AllocError> for ReadFault {
    ghost from_gives = { λ _ gives. gives ≡ fault.Memory };

    fn from(_: AllocError) -> ReadFault {
        ReadFault::Memory
    }
}

/// Reads to the end, or until `limit` bytes are read. At a fault the bytes read so far, at most
/// `limit` of them, are lost to the source.
pub fn read_all<S: Source>(
    alloc: Global,
    source: &mut S,
    limit: usize,
) -> Result<Vec<u8>, ReadFault>
    ensures read { IfOk result
        (λ bytes. IsReadUpTo limit (S.left source.old) (S.left source.new) bytes.items) }
    ensures nothing_to_read { limit ≡ 0 → IsOk result }
    ensures lost { OnErr result (TakesUpTo limit (S.left source.old) (S.left source.new)) }
    ensures tells { TellsAsBefore (S.left source.old) (S.left source.new) }
    ensures never_falls { S.faults source.old ≤ S.faults source.new }
    ensures fault { result ≡ Err ReadFault.Failed
        → Rose (S.faults source.old) (S.faults source.new) }
{
    let mut bytes = Vec::new(alloc);
    let mut chunk = [0u8; CHUNK];
    while bytes.len() < limit {
        let room = (limit - bytes.len()).min(CHUNK);
        let n = source.read(&mut chunk[..room])?;
        if n == 0 {
            break;
        }
        bytes.extend_from_slice(&chunk[..n])?;
    }
    Ok(bytes)
}

/// Writes the whole of `piece`. It takes no memory. At `Failed` a first part of the piece was
/// appended, never the whole of it.
pub fn write_all<S: Sink>(sink: &mut S, piece: &[u8]) -> Result<(), Failed>
    ensures whole { OnOk result (Appends (S.written sink.old) (S.written sink.new) piece.now) }
    ensures part { OnErr result (AppendsPart (S.written sink.old) (S.written sink.new) piece.now) }
    ensures tells { TellsAsBefore (S.written sink.old) (S.written sink.new) }
    ensures never_falls { S.faults sink.old ≤ S.faults sink.new }
    ensures fault { OnErr result (Rose (S.faults sink.old) (S.faults sink.new)) }
{
    let mut start = 0;
    while start < piece.len() {
        start += sink.write(&piece[start..])?;
    }
    Ok(())
}
