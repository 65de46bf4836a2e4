// Trusted types: Refusal.
// Why an input is refused, and where.
use crate::path::{Path, TableName};
use sl_net::NetFault;
use std::alloc::{AllocError, AllocFailed};

/// The first thing that is wrong with an input.
#[derive(Clone, Copy, Debug)]
pub enum Refusal {
    /// There are too many bytes.
    TooLong,
    /// The bytes are no TOML document.
    NotToml,
    /// A required key is absent.
    Absent(Path),
    /// A table has a key that isn't listed.
    Unlisted(TableName),
    /// A value is of another kind, or a text not of its form.
    Form(Path),
    /// A number, or the length of a list, is out of its range.
    Range(Path, i64),
    /// A name isn't there.
    Unknown(Path),
    /// A script entry is no spelling, or its pass is one too many.
    Entry(u64),
    /// The parts are no net.
    Net(NetFault),
    /// There are too many packets and raw frames.
    TooMany(u64),
    /// Frames of a version can't carry ids of so many bits.
    TooWide(Path),
    /// There are too many snapshots of so many units.
    TooManyValues(u64),
}

/// A refusal, or want of memory.
#[derive(Clone, Copy, Debug)]
pub enum ReadError {
    Memory,
    Refused(Refusal),
}

impl From<Refusal> for ReadError {
    ghost use Rattle.std.specs.Prelude.{◌≡◌};
    ghost use Rattle.sl_form.specs.declared.refusal.ReadError.TheVariants.{Refused};

    ghost from_gives = { λ r e. e ≡ Refused r };

    fn from(refusal: Refusal) -> ReadError {
        ReadError::Refused(refusal)
    }
}

impl From<AllocError> for ReadError {
    ghost use Rattle.std.specs.Prelude.{◌≡◌};
    ghost use Rattle.sl_form.specs.declared.refusal.ReadError.TheVariants.{Memory};

    ghost from_gives = { λ _ e. e ≡ Memory };

    fn from(_: AllocError) -> ReadError {
        ReadError::Memory
    }
}

impl<T: Drop> From<AllocFailed<T>> for ReadError {
    ghost use Rattle.std.specs.Prelude.{◌≡◌};
    ghost use Rattle.sl_form.specs.declared.refusal.ReadError.TheVariants.{Memory};

    ghost from_gives = { λ _ e. e ≡ Memory };

    fn from(_: AllocFailed<T>) -> ReadError {
        ReadError::Memory
    }
}

impl From<sl_machine::Memory> for ReadError {
    ghost use Rattle.std.specs.Prelude.{◌≡◌};
    ghost use Rattle.sl_form.specs.declared.refusal.ReadError.TheVariants.{Memory};

    ghost from_gives = { λ _ e. e ≡ Memory };

    fn from(_: sl_machine::Memory) -> ReadError {
        ReadError::Memory
    }
}
