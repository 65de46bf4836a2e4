// Trusted types: RawRow.
// Raw frames, by the names of their hosts.
use crate::rows::Row;
use sl_form::{Key, ReadError, TableName, only, required};
use sl_net::{Bytes, Name};
use std::alloc::Global;
use toml::Table;

/// A frame that a host sends as it stands.
#[derive(Drop)]
pub struct RawRow {
    pub from: Name,
    pub bytes: Bytes,
}

impl Row for RawRow {
    ghost use Rattle.sl_read.specs.Tables.{raw_of};

    ghost row_of = { raw_of };

    fn read(alloc: Global, index: u64, table: &Table) -> Result<RawRow, ReadError> {
        let at = TableName::Raw(index);
        only(at, &[Key::From, Key::Hex], table)?;
        let from = required::<Name>(alloc, table, at, Key::From)?;
        let bytes = required::<Bytes>(alloc, table, at, Key::Hex)?;
        Ok(RawRow { from, bytes })
    }
}
