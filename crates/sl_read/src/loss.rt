// Trusted types: LossRow, DropRow.
// The table of the losses, and the losses listed one by one.
ghost use Rattle.std.specs.Prelude.{Option, option_map};
ghost use Rattle.toml.specs.View.{items_view, table_view};
ghost use Rattle.sl_form.specs.Refusals.{Answers, Shows};
ghost use Rattle.sl_read.specs.Tables.{loss_of, drops_at, any_loss_of};

use crate::rows::{Row, optional_tables, rows};
use sl_form::{
    Key, Path, ReadError, Refusal, TableName, Text, only, optional_number, required_number,
    required_text,
};
use sl_machine::Listed;
use std::alloc::Global;
use toml::{Table, Value};

/// The losses: a seed, the rates in thousandths, and the losses listed one by one.
#[derive(Drop)]
pub struct LossRow {
    pub seed: u64,
    pub cable: u16,
    pub crossbar: u16,
    pub init: u16,
    pub notice: u16,
    pub drops: Listed<DropRow>,
}

/// One loss: the n-th put on the link of a spelling.
#[derive(Drop)]
pub struct DropRow {
    pub link: Text,
    pub n: u64,
}

impl Row for DropRow {
    ghost use Rattle.sl_read.specs.Tables.{drop_of};

    ghost row_of = { drop_of };

    fn read(alloc: Global, index: u64, table: &Table) -> Result<DropRow, ReadError> {
        let at = TableName::Drop(index);
        only(at, &[Key::Link, Key::N], table)?;
        let link = required_text(table, at, Key::Link)?;
        let n = required_number(table, at, Key::N, 1, 1_000_000_000)?;
        Ok(DropRow {
            link: Text::new(alloc, link)?,
            n,
        })
    }
}

/// The tables of the listed losses, at most 1000.
#[tactic(auto, using(crate::proofs::RowLemmas::count_view))]
fn drops_at(table: &Table) -> Result<&[Value], Refusal>
    ensures { Shows (λ vs. items_view vs.now) result (drops_at (table_view table.now)) }
{
    let values = optional_tables(table, TableName::Loss, Key::Drop)?;
    if values.len() > 1000 {
        let path = Path::at(TableName::Loss, Key::Drop);
        return Err(Refusal::Range(path, values.len() as i64));
    }
    Ok(values)
}

/// Reads the table of the losses.
fn loss_of(alloc: Global, table: &Table) -> Result<LossRow, ReadError>
    ensures { Answers result (loss_of (table_view table.now)) }
{
    let at = TableName::Loss;
    only(
        at,
        &[
            Key::Seed,
            Key::Cable,
            Key::Crossbar,
            Key::Init,
            Key::Notice,
            Key::Drop,
        ],
        table,
    )?;
    let seed = optional_number(table, at, Key::Seed, 0, 9_223_372_036_854_775_807)?;
    let cable = optional_number(table, at, Key::Cable, 0, 1000)?;
    let crossbar = optional_number(table, at, Key::Crossbar, 0, 1000)?;
    let init = optional_number(table, at, Key::Init, 0, 1000)?;
    let notice = optional_number(table, at, Key::Notice, 0, 1000)?;
    let values = drops_at(table)?;
    let drops = rows::<DropRow>(alloc, at, Key::Drop, values)?;
    Ok(LossRow {
        seed,
        cable: cable as u16,
        crossbar: crossbar as u16,
        init: init as u16,
        notice: notice as u16,
        drops,
    })
}

/// Reads the losses, none where the table is absent.
pub fn read_loss(alloc: Global, table: Option<&Table>) -> Result<LossRow, ReadError>
    ensures { Answers result (any_loss_of (option_map (λ t. table_view t.now) table.entry)) }
{
    match table {
        Some(table) => loss_of(alloc, table),
        None => Ok(LossRow {
            seed: 0,
            cable: 0,
            crossbar: 0,
            init: 0,
            notice: 0,
            drops: Listed {
                items: Vec::new(alloc),
            },
        }),
    }
}
