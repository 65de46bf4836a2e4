// Trusted types: CableRow.
// Cables, by the names of the devices at their ends.
ghost use Rattle.std.specs.Prelude.{◌≡◌};
ghost use Rattle.toml.specs.View.{table_view};
ghost use Rattle.sl_form.specs.declared.path.Key.TheVariants.{Version};
ghost use Rattle.sl_form.specs.Fields.{given_number};

use crate::rows::Row;
use sl_form::{Key, PortText, ReadError, Refusal, TableName, given_number, only, required};
use std::alloc::Global;
use toml::Table;

/// A cable between two ports, and the version of the frames on it where it is given.
#[derive(Drop)]
pub struct CableRow {
    pub a: PortText,
    pub b: PortText,
    pub version: Option<u8>,
}

fn given_version(table: &Table, at: TableName) -> Result<Option<u8>, Refusal>
    ensures { result ≡ given_number at Version 1 2 (table_view table.now) }
{
    match given_number(table, at, Key::Version, 1, 2)? {
        Some(version) => Ok(Some(version as u8)),
        None => Ok(None),
    }
}

impl Row for CableRow {
    ghost use Rattle.sl_read.specs.Tables.{cable_of};

    ghost row_of = { cable_of };

    fn read(alloc: Global, index: u64, table: &Table) -> Result<CableRow, ReadError> {
        let at = TableName::Cable(index);
        only(at, &[Key::A, Key::B, Key::Version], table)?;
        let a = required::<PortText>(alloc, table, at, Key::A)?;
        let b = required::<PortText>(alloc, table, at, Key::B)?;
        let version = given_version(table, at)?;
        Ok(CableRow { a, b, version })
    }
}
