// Lists of tables.
ghost use Rattle.std.specs.Prelude.{◌≡◌, ℕ, Result};
ghost use Rattle.toml.specs.Data.{Members};
ghost use Rattle.toml.specs.View.{view, items_view, table_view};
ghost use Rattle.sl_form.specs.declared.refusal.Refusal.{Refusal};
ghost use Rattle.sl_form.specs.Refusals.{Answers, Shows};
ghost use Rattle.sl_read.specs.Rows.{table_at, items_at, all_tables, tables_at, required_tables};
ghost use Rattle.sl_read.specs.Rows.{optional_tables, required_table, rows, row};

use sl_form::{Key, Path, ReadError, Refusal, TableName, find};
use sl_machine::Listed;
use std::alloc::Global;
use toml::{Table, Value};

/// What a table of a list is read as.
pub trait Row: Sized + Drop {
    ghost row_of: { ℕ → Members → Result Self Refusal };

    /// The table with this place in its list.
    fn read(alloc: Global, index: u64, table: &Table) -> Result<Self, ReadError>
        ensures { Answers result (row_of index (table_view table.now)) };
}

/// A value that has to be a table.
pub fn table_at(path: Path, value: &Value) -> Result<&Table, Refusal>
    ensures { Shows (λ t. table_view t.now) result (table_at path (view value.now)) }
{
    match value {
        Value::Table(table) => Ok(table),
        _ => Err(Refusal::Form(path)),
    }
}

fn read_row<R: Row>(
    alloc: Global,
    at: TableName,
    key: Key,
    index: u64,
    value: &Value,
) -> Result<R, ReadError>
    ensures { Answers result (row at key R.row_of index (view value.now)) }
{
    let table = table_at(Path::element(at, key, index), value)?;
    R::read(alloc, index, table)
}

/// Reads each table of the list at a key.
pub fn rows<R: Row>(
    alloc: Global,
    at: TableName,
    key: Key,
    values: &[Value],
) -> Result<Listed<R>, ReadError>
    ensures { Answers result (rows at key R.row_of 0 (items_view values.now)) }
{
    let mut found = Vec::new(alloc);
    for (index, value) in values.iter().enumerate() {
        found.push(read_row::<R>(alloc, at, key, index as u64, value)?)?;
    }
    Ok(Listed { items: found })
}

/// A value that has to be a list.
pub fn items_at(path: Path, value: &Value) -> Result<&[Value], Refusal>
    ensures { Shows (λ vs. items_view vs.now) result (items_at path (view value.now)) }
{
    match value {
        Value::Array(values) => Ok(values.as_slice()),
        _ => Err(Refusal::Form(path)),
    }
}

fn all_tables(at: TableName, key: Key, values: &[Value]) -> Result<(), Refusal>
    ensures { result ≡ all_tables at key 0 (items_view values.now) }
{
    for (index, value) in values.iter().enumerate() {
        table_at(Path::element(at, key, index as u64), value)?;
    }
    Ok(())
}

fn tables_at(at: TableName, key: Key, value: &Value) -> Result<&[Value], Refusal>
    ensures { Shows (λ vs. items_view vs.now) result (tables_at at key (view value.now)) }
{
    let values = items_at(Path::at(at, key), value)?;
    all_tables(at, key, values)?;
    Ok(values)
}

/// The tables of the list at a key that has to be there.
pub fn required_tables(table: &Table, at: TableName, key: Key) -> Result<&[Value], Refusal>
    ensures { Shows (λ vs. items_view vs.now) result
        (required_tables at key (table_view table.now)) }
{
    match find(table, key) {
        Some(value) => tables_at(at, key, value),
        None => Err(Refusal::Absent(Path::at(at, key))),
    }
}

/// The tables of the list at a key, or none where the key is absent.
pub fn optional_tables(table: &Table, at: TableName, key: Key) -> Result<&[Value], Refusal>
    ensures { Shows (λ vs. items_view vs.now) result
        (optional_tables at key (table_view table.now)) }
{
    match find(table, key) {
        Some(value) => tables_at(at, key, value),
        None => Ok(&[]),
    }
}

/// The table at a key that has to be there.
pub fn required_table(table: &Table, at: TableName, key: Key) -> Result<&Table, Refusal>
    ensures { Shows (λ t. table_view t.now) result (required_table at key (table_view table.now)) }
{
    let path = Path::at(at, key);
    match find(table, key) {
        Some(value) => table_at(path, value),
        None => Err(Refusal::Absent(path)),
    }
}
