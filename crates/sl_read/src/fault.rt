// Trusted types: InputFault.
// Why an input is refused, as callers see it.
ghost use Rattle.std.specs.Prelude.{◌≡◌, ◌≢◌, IfOk};
ghost use Rattle.sl_read.specs.declared.fault.InputFault.TheVariants.{Memory};
ghost use Rattle.sl_form.specs.Paths.{path_text, table_text};
ghost use Rattle.sl_read.specs.Inputs.{fault};

use sl_form::{Path, Refusal, TableName};
use sl_net::{Line, NetFault};
use std::alloc::{AllocError, Global};

/// The first thing that is wrong with an input. A path is the names of keys from the top table on,
/// joined by points, with the place in a list, from 0, as a part of its own.
#[derive(Debug, Drop)]
pub enum InputFault {
    /// There are more than 1,048,576 bytes.
    I1,
    /// The bytes are no TOML document.
    I2,
    /// A required key is absent; its path.
    I3(Line),
    /// A table has a key that isn't listed; the table's path, `top` for the top table.
    I4(Line),
    /// A value is of another kind, or a text not of its form; its path.
    I5(Line),
    /// A number, or the length of a list, is out of its range; its path, and the number.
    I6(Line, i64),
    /// A name isn't there; the path of the value that names it.
    I7(Line),
    /// A script entry is no spelling, or brings the passes above 10,000; its place, from 0.
    I8(u64),
    /// The devices, cables and hosts are no net.
    I9(NetFault),
    /// There are more than 200,000 packets and raw frames; their number.
    I10(u64),
    /// Ids have more than 8 bits, and frames of version 1 can't carry them; the path of the version.
    I11(Line),
    /// There are more than 1,024,000 values, one for each unit and snapshot; their number.
    I12(u64),
    /// Want of memory.
    Memory,
}

impl From<AllocError> for InputFault {
    ghost from_gives = { λ _ e. e ≡ Memory };

    fn from(_: AllocError) -> InputFault {
        InputFault::Memory
    }
}

fn path_line(alloc: Global, path: Path) -> Result<Line, AllocError>
    ensures { IfOk result (λ line. line ≡ path_text path) }
{
    let text = format!(in alloc; "{path}")?;
    Ok(Line {
        items: text.into_bytes(),
    })
}

fn table_line(alloc: Global, table: TableName) -> Result<Line, AllocError>
    ensures { IfOk result (λ line. line ≡ table_text table) }
{
    let text = format!(in alloc; "{table}")?;
    Ok(Line {
        items: text.into_bytes(),
    })
}

fn fault(alloc: Global, refusal: Refusal) -> Result<InputFault, AllocError>
    ensures { IfOk result (λ e. e ≡ fault refusal) }
{
    Ok(match refusal {
        Refusal::TooLong => InputFault::I1,
        Refusal::NotToml => InputFault::I2,
        Refusal::Absent(path) => InputFault::I3(path_line(alloc, path)?),
        Refusal::Unlisted(table) => InputFault::I4(table_line(alloc, table)?),
        Refusal::Form(path) => InputFault::I5(path_line(alloc, path)?),
        Refusal::Range(path, value) => InputFault::I6(path_line(alloc, path)?, value),
        Refusal::Unknown(path) => InputFault::I7(path_line(alloc, path)?),
        Refusal::Entry(index) => InputFault::I8(index),
        Refusal::Net(fault) => InputFault::I9(fault),
        Refusal::TooMany(count) => InputFault::I10(count),
        Refusal::TooWide(path) => InputFault::I11(path_line(alloc, path)?),
        Refusal::TooManyValues(count) => InputFault::I12(count),
    })
}

/// The fault of a refusal, or want of memory.
pub fn fault_of(alloc: Global, refusal: Refusal) -> InputFault
    ensures { result ≢ Memory → result ≡ fault refusal }
{
    match fault(alloc, refusal) {
        Ok(fault) => fault,
        Err(_) => InputFault::Memory,
    }
}
