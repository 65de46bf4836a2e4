// The table of the snapshots.
ghost use Rattle.std.specs.Prelude.{◌≡◌, ◌^◌, ◌≤◌};
ghost use Rattle.toml.specs.View.{table_view};
ghost use Rattle.sl_read.specs.Tables.{snapshot_of};

use sl_form::{Key, Refusal, TableName, only, optional_number, required_number};
use sl_net::Snapshot;
use toml::Table;

/// How long a window and a ring may be at most.
const MOST_SLOTS: u64 = 1024;

/// How many wrapped ids there are.
fn modulus(bits: u64) -> u64
    requires { bits ≤ 16 }
    ensures value { result ≡ 2 ^ bits }
    ensures most { result ≤ 65536 }
    ensures some { 1 ≤ result }
{
    1u64 << bits
}

/// Reads the table of the snapshots.
pub fn read_snapshot(table: &Table) -> Result<Snapshot, Refusal>
    ensures { result ≡ snapshot_of (table_view table.now) }
{
    let at = TableName::Snapshot;
    only(
        at,
        &[
            Key::Bits,
            Key::Window,
            Key::Ring,
            Key::Count,
            Key::Retries,
            Key::Credits,
            Key::Version,
        ],
        table,
    )?;
    let bits = required_number(table, at, Key::Bits, 1, 16)?;
    let ids = modulus(bits);
    let window = required_number(table, at, Key::Window, 1, (ids - 1).min(MOST_SLOTS))?;
    let ring = required_number(table, at, Key::Ring, window, ids.min(MOST_SLOTS))?;
    let count = required_number(table, at, Key::Count, 0, 100_000)?;
    let retries = optional_number(table, at, Key::Retries, 0, 100)?;
    let credits = optional_number(table, at, Key::Credits, 1, 4)?;
    let version = optional_number(table, at, Key::Version, 1, 2)?;
    Ok(Snapshot {
        width: bits as u8,
        window: window as u16,
        ring: ring as u16,
        count,
        retries,
        credits: credits as u8,
        version: version as u8,
    })
}
