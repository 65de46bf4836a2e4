// The table of the script: the texts of its entries.
ghost use Rattle.std.specs.Prelude.{option_map};
ghost use Rattle.toml.specs.View.{view, items_view, table_view};
ghost use Rattle.sl_form.specs.Refusals.{Answers, Shows};
ghost use Rattle.sl_form.specs.declared.path.TableName.TheVariants.{Script};
ghost use Rattle.sl_form.specs.declared.path.Key.TheVariants.{Entries};
ghost use Rattle.sl_form.specs.Paths.{element};
ghost use Rattle.sl_form.specs.Fields.{text_at};
ghost use Rattle.sl_read.specs.Tables.{script_of, entries_at, texts_of, any_script_of};

use crate::rows::items_at;
use sl_form::{Key, Path, ReadError, Refusal, TableName, Text, find, only, text_at};
use sl_machine::Listed;
use std::alloc::Global;
use toml::{Table, Value};

fn entries_at(table: &Table) -> Result<&[Value], Refusal>
    ensures { Shows (λ vs. items_view vs.now) result (entries_at (table_view table.now)) }
{
    let path = Path::at(TableName::Script, Key::Entries);
    match find(table, Key::Entries) {
        Some(value) => items_at(path, value),
        None => Err(Refusal::Absent(path)),
    }
}

fn text_of(alloc: Global, index: u64, value: &Value) -> Result<Text, ReadError>
    ensures { Answers result (text_at (element Script Entries index) (view value.now)) }
{
    let text = text_at(Path::element(TableName::Script, Key::Entries, index), value)?;
    Ok(Text::new(alloc, text)?)
}

fn texts_of(alloc: Global, values: &[Value]) -> Result<Listed<Text>, ReadError>
    ensures { Answers result (texts_of 0 (items_view values.now)) }
{
    let mut found = Vec::new(alloc);
    for (index, value) in values.iter().enumerate() {
        found.push(text_of(alloc, index as u64, value)?)?;
    }
    Ok(Listed { items: found })
}

fn script_of(alloc: Global, table: &Table) -> Result<Listed<Text>, ReadError>
    ensures { Answers result (script_of (table_view table.now)) }
{
    only(TableName::Script, &[Key::Entries], table)?;
    let values = entries_at(table)?;
    texts_of(alloc, values)
}

/// Reads the texts of the script's entries, none where the table is absent.
pub fn read_script(alloc: Global, table: Option<&Table>) -> Result<Listed<Text>, ReadError>
    ensures { Answers result (any_script_of (option_map (λ t. table_view t.now) table.entry)) }
{
    match table {
        Some(table) => script_of(alloc, table),
        None => Ok(Listed {
            items: Vec::new(alloc),
        }),
    }
}
