// The values that a control plane keeps of its units.
ghost use Rattle.std.specs.Prelude.{◌≡◌, ◌<◌, ◌++◌, length, map, option_map, OnOk};
ghost use Rattle.std.specs.List.{AllByRecursion};
ghost use Rattle.sl_value.specs.Valued.{done_in, first_done, values_by, kept_of, value_of};
ghost use Rattle.sl_value.specs.Valued.{value_in, kept_view, HasRoom, CanRead, CanReadAll};

use crate::read::read_value;
use crate::whole::Whole;
use sl_machine::Memory;
use sl_saves::View;
use sl_wire::{Done, Msg};

/// The values of a unit, by its place among the units, of the numbers from 1 on.
#[derive(Drop)]
pub struct Kept {
    pub unit: u32,
    pub values: Vec<Whole>,
}

impl Kept {
    /// Makes room for so many values.
    fn make_room(&mut self, room: u16) -> Result<(), Memory>
        ensures same { kept_view self.new ≡ kept_view self.old }
        ensures room { OnOk result (HasRoom room self.new) }
    {
        Ok(self.values.reserve(room as usize)?)
    }

    /// Adds the values of the numbers that a Done brings.
    fn add(&mut self, view: &View, done: &Done)
        requires room { HasRoom (length done.now.rows) self.old }
        requires at { view.now.at < length view.now.slots }
        requires rows { AllByRecursion (λ r. CanRead view.now done.now.id r.0) done.now.rows }
        ensures unit { self.new.unit ≡ self.old.unit }
        ensures values { self.new.values.items ≡ self.old.values.items
            ++ values_by view.now done.now }
    {
        for row in done.rows.items.as_slice() {
            self.values.push_reserved(read_value(view, done.id, row.0));
        }
    }

    /// Keeps the values of the numbers that a Done brings, where it is one of this unit.
    fn take_values(&mut self, view: &View, done: &Done)
        requires room { HasRoom (length done.now.rows) self.old }
        requires at { view.now.at < length view.now.slots }
        requires rows { AllByRecursion (λ r. CanRead view.now done.now.id r.0) done.now.rows }
        ensures { kept_view self.new ≡ kept_of view.now done.now (kept_view self.old) }
    {
        if self.unit == done.unit {
            self.add(view, done);
        }
    }

    /// The value of a number.
    fn value(&self, k: u64) -> Option<Whole>
        ensures { result ≡ value_of self.now.values.items k }
    {
        if k == 0 {
            return None;
        }
        self.values.get((k - 1) as usize).copied()
    }
}

/// The Done that a message is.
fn done_in(m: &Msg) -> Option<&Done>
    ensures { option_map (λ d. d.now) result ≡ done_in m.now }
{
    match m {
        Msg::Done(done) => Some(done.get()),
        _ => None,
    }
}

/// The first report among some puts.
pub fn first_done(puts: &[(u32, Msg)]) -> Option<&Done>
    ensures { option_map (λ d. d.now) result ≡ first_done puts.now }
{
    for put in puts {
        if let Some(done) = done_in(&put.1) {
            return Some(done);
        }
    }
    None
}

/// Makes room for so many values of each unit.
pub fn make_room(kept: &mut Vec<Kept>, room: u16) -> Result<(), Memory>
    ensures same { map kept_view kept.new.items ≡ map kept_view kept.old.items }
    ensures room { OnOk result (AllByRecursion (HasRoom room) kept.new.items) }
{
    for i in 0..kept.len() {
        kept[i].make_room(room)?;
    }
    Ok(())
}

/// Keeps the values of the numbers that a Done brings.
pub fn keep(kept: &mut Vec<Kept>, ring: u16, view: &View, done: &Done)
    requires room { AllByRecursion (HasRoom ring) kept.old.items }
    requires read { CanReadAll ring view.now done.now }
    ensures { map kept_view kept.new.items ≡ map (kept_of view.now done.now)
        (map kept_view kept.old.items) }
{
    for i in 0..kept.len() {
        kept[i].take_values(view, done);
    }
}

/// The value of a unit for a number, where it is kept.
pub fn value_in(kept: &[Kept], unit: u32, k: u64) -> Option<Whole>
    ensures { result ≡ value_in (map kept_view kept.now) unit k }
{
    for u in kept {
        if u.unit == unit {
            return u.value(k);
        }
    }
    None
}
