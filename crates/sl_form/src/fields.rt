// Tables and their keys.
ghost use Rattle.std.specs.Prelude.{◌≡◌, ◌≤◌, option_map, IfOk, IfSome};
ghost use Rattle.toml.specs.Data.{get_member};
ghost use Rattle.toml.specs.View.{view, table_view};
ghost use Rattle.sl_form.specs.Refusals.{Shows};
ghost use Rattle.sl_form.specs.Fields.{get_key, has_only, only, is_listed, number, in_range};
ghost use Rattle.sl_form.specs.Fields.{text_at, required_number, optional_number, given_number};
ghost use Rattle.sl_form.specs.Fields.{required_text};

use crate::path::{Key, Path, TableName};
use crate::refusal::Refusal;
use toml::{Table, Value};

fn is_listed(keys: &[Key], name: &str) -> bool
    ensures { result ≡ is_listed keys.now name.now }
{
    for key in keys {
        if key.text() == name {
            return true;
        }
    }
    false
}

#[tactic(auto, using(crate::proofs::FieldLemmas::has_only_keys))]
fn has_only(keys: &[Key], table: &Table) -> bool
    ensures { result ≡ has_only keys.now (table_view table.now) }
{
    for name in table.keys() {
        if !is_listed(keys, name.as_str()) {
            return false;
        }
    }
    true
}

/// Whether the table has no other keys.
pub fn only(at: TableName, keys: &[Key], table: &Table) -> Result<(), Refusal>
    ensures { result ≡ only at keys.now (table_view table.now) }
{
    if has_only(keys, table) {
        Ok(())
    } else {
        Err(Refusal::Unlisted(at))
    }
}

#[tactic(auto, using(toml::proofs::Views::table_get))]
fn find_name<'a>(table: &'a Table, name: &str) -> Option<&'a Value>
    ensures { option_map (λ v. view v.now) result ≡ get_member name.now (table_view table.now) }
{
    table.get(name)
}

/// The value at a key.
pub fn find(table: &Table, key: Key) -> Option<&Value>
    ensures { option_map (λ v. view v.now) result ≡ get_key key (table_view table.now) }
{
    find_name(table, key.text())
}

fn in_range(path: Path, low: u64, high: u64, number: i64) -> Result<u64, Refusal>
    ensures exact { result ≡ in_range path low high number }
    ensures low { IfOk result (λ n. low ≤ n) }
    ensures high { IfOk result (λ n. n ≤ high) }
{
    match u64::try_from(number) {
        Ok(n) if low <= n && n <= high => Ok(n),
        _ => Err(Refusal::Range(path, number)),
    }
}

fn number(path: Path, low: u64, high: u64, value: &Value) -> Result<u64, Refusal>
    ensures exact { result ≡ number path low high (view value.now) }
    ensures low { IfOk result (λ n. low ≤ n) }
    ensures high { IfOk result (λ n. n ≤ high) }
{
    match value {
        Value::Integer(n) => in_range(path, low, high, *n),
        _ => Err(Refusal::Form(path)),
    }
}

/// The number at a key that has to be there.
pub fn required_number(
    table: &Table,
    at: TableName,
    key: Key,
    low: u64,
    high: u64,
) -> Result<u64, Refusal>
    ensures exact { result ≡ required_number at key low high (table_view table.now) }
    ensures low { IfOk result (λ n. low ≤ n) }
    ensures high { IfOk result (λ n. n ≤ high) }
{
    let path = Path::at(at, key);
    match find(table, key) {
        Some(value) => number(path, low, high, value),
        None => Err(Refusal::Absent(path)),
    }
}

/// The number at a key, or the least that may stand there where the key is absent.
pub fn optional_number(
    table: &Table,
    at: TableName,
    key: Key,
    low: u64,
    high: u64,
) -> Result<u64, Refusal>
    ensures exact { result ≡ optional_number at key low high (table_view table.now) }
    ensures low { IfOk result (λ n. low ≤ n) }
    ensures high { low ≤ high → IfOk result (λ n. n ≤ high) }
{
    match find(table, key) {
        Some(value) => number(Path::at(at, key), low, high, value),
        None => Ok(low),
    }
}

/// The number at a key, where it is given.
pub fn given_number(
    table: &Table,
    at: TableName,
    key: Key,
    low: u64,
    high: u64,
) -> Result<Option<u64>, Refusal>
    ensures exact { result ≡ given_number at key low high (table_view table.now) }
    ensures high { IfOk result (λ given. IfSome given (λ n. n ≤ high)) }
{
    match find(table, key) {
        Some(value) => Ok(Some(number(Path::at(at, key), low, high, value)?)),
        None => Ok(None),
    }
}

/// A value that has to be a text.
pub fn text_at(path: Path, value: &Value) -> Result<&str, Refusal>
    ensures { Shows (λ s. s.now) result (text_at path (view value.now)) }
{
    match value {
        Value::String(text) => Ok(text.as_str()),
        _ => Err(Refusal::Form(path)),
    }
}

/// The text at a key that has to be there.
pub fn required_text<'a>(table: &'a Table, at: TableName, key: Key) -> Result<&'a str, Refusal>
    ensures { Shows (λ s. s.now) result (required_text at key (table_view table.now)) }
{
    let path = Path::at(at, key);
    match find(table, key) {
        Some(value) => text_at(path, value),
        None => Err(Refusal::Absent(path)),
    }
}
