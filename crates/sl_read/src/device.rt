// Devices.
use crate::rows::Row;
use sl_form::{Key, ReadError, TableName, only, required, required_number};
use sl_net::{DevicePart, Name};
use std::alloc::Global;
use toml::Table;

impl Row for DevicePart {
    ghost use Rattle.sl_read.specs.Tables.{device_of};

    ghost row_of = { device_of };

    fn read(alloc: Global, index: u64, table: &Table) -> Result<DevicePart, ReadError> {
        let at = TableName::Device(index);
        only(at, &[Key::Name, Key::Ports], table)?;
        let name = required::<Name>(alloc, table, at, Key::Name)?;
        let ports = required_number(table, at, Key::Ports, 0, 65_535)?;
        Ok(DevicePart {
            name,
            ports: ports as u32,
        })
    }
}
