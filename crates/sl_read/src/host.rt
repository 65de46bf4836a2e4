// Trusted types: HostRow.
// Hosts, and the ports that they stand at.
use crate::rows::Row;
use sl_form::{Key, PortText, ReadError, TableName, only, required};
use sl_net::Name;
use std::alloc::Global;
use toml::Table;

/// A host at a port.
#[derive(Drop)]
pub struct HostRow {
    pub name: Name,
    pub at: PortText,
}

impl Row for HostRow {
    ghost use Rattle.sl_read.specs.Tables.{host_of};

    ghost row_of = { host_of };

    fn read(alloc: Global, index: u64, table: &Table) -> Result<HostRow, ReadError> {
        let table_name = TableName::Host(index);
        only(table_name, &[Key::Name, Key::At], table)?;
        let name = required::<Name>(alloc, table, table_name, Key::Name)?;
        let at = required::<PortText>(alloc, table, table_name, Key::At)?;
        Ok(HostRow { name, at })
    }
}
