// Trusted types: FlowRow.
// Flows, by the names of their hosts.
use crate::rows::Row;
use sl_form::{Key, ReadError, TableName, only, required, required_number};
use sl_net::Name;
use std::alloc::Global;
use toml::Table;

/// A flow between two hosts.
#[derive(Drop)]
pub struct FlowRow {
    pub from: Name,
    pub to: Name,
    pub count: u32,
    pub bytes: u16,
    pub hops: u8,
}

impl Row for FlowRow {
    ghost use Rattle.sl_read.specs.Tables.{flow_of};

    ghost row_of = { flow_of };

    fn read(alloc: Global, index: u64, table: &Table) -> Result<FlowRow, ReadError> {
        let at = TableName::Flow(index);
        only(
            at,
            &[Key::From, Key::To, Key::Count, Key::Bytes, Key::Hops],
            table,
        )?;
        let from = required::<Name>(alloc, table, at, Key::From)?;
        let to = required::<Name>(alloc, table, at, Key::To)?;
        let count = required_number(table, at, Key::Count, 0, 20_000)?;
        let bytes = required_number(table, at, Key::Bytes, 0, 65_535)?;
        let hops = required_number(table, at, Key::Hops, 0, 255)?;
        Ok(FlowRow {
            from,
            to,
            count: count as u32,
            bytes: bytes as u16,
            hops: hops as u8,
        })
    }
}
