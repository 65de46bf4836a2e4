// The top table.
ghost use Rattle.std.specs.Prelude.{option_map};
ghost use Rattle.toml.specs.View.{table_view};
ghost use Rattle.sl_form.specs.Refusals.{Shows};
ghost use Rattle.sl_read.specs.Rows.{optional_table};
ghost use Rattle.sl_read.specs.Sections.{sections_view, sections_of};

use crate::rows::{optional_tables, required_table, required_tables, table_at};
use sl_form::{Key, Path, Refusal, TableName, find, only};
use toml::{Table, Value};

/// The values of the top table, each of the kind that it has to be.
#[derive(Clone, Copy)]
pub struct Sections<'a> {
    pub devices: &'a [Value],
    pub cables: &'a [Value],
    pub hosts: &'a [Value],
    pub snapshot: &'a Table,
    pub loss: Option<&'a Table>,
    pub flows: &'a [Value],
    pub raws: &'a [Value],
    pub script: Option<&'a Table>,
}

fn optional_table(table: &Table, at: TableName, key: Key) -> Result<Option<&Table>, Refusal>
    ensures { Shows (λ o. option_map (λ t. table_view t.now) o) result
        (optional_table at key (table_view table.now)) }
{
    match find(table, key) {
        Some(value) => match table_at(Path::at(at, key), value) {
            Ok(inner) => Ok(Some(inner)),
            Err(refusal) => Err(refusal),
        },
        None => Ok(None),
    }
}

/// Reads the top table.
#[tactic(auto, unfolding(crate::specs::Sections::sections_of))]
pub fn read_top(table: &Table) -> Result<Sections<'_>, Refusal>
    ensures { Shows sections_view result (sections_of (table_view table.now)) }
{
    let at = TableName::Top;
    only(
        at,
        &[
            Key::Device,
            Key::Cable,
            Key::Host,
            Key::Snapshot,
            Key::Loss,
            Key::Flow,
            Key::Raw,
            Key::Script,
        ],
        table,
    )?;
    let devices = required_tables(table, at, Key::Device)?;
    let cables = optional_tables(table, at, Key::Cable)?;
    let hosts = optional_tables(table, at, Key::Host)?;
    let snapshot = required_table(table, at, Key::Snapshot)?;
    let loss = optional_table(table, at, Key::Loss)?;
    let flows = optional_tables(table, at, Key::Flow)?;
    let raws = optional_tables(table, at, Key::Raw)?;
    let script = optional_table(table, at, Key::Script)?;
    Ok(Sections {
        devices,
        cables,
        hosts,
        snapshot,
        loss,
        flows,
        raws,
        script,
    })
}
