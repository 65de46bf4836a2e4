// What is made ready for a Done.
ghost use Rattle.std.specs.Prelude.{◌≡◌, ◌≤◌, [], ◌∷◌, OnOk, IsSome, IfOk, IfSome, IfNone};
ghost use Rattle.std.specs.Vec.{vec_capacity};

use sl_machine::Memory;
use sl_saves::Saved;
use sl_wire::{Boxed, Done, Dump, Rows, Spare};
use std::alloc::{AllocError, Global};
use std::mem;

/// So many dumps for each unit are given up before the first is kept, whichever units they are of.
const EARLY: usize = 32;

/// Room for one row.
#[derive(Drop)]
struct OneRow {
    rows: Vec<(u64, Saved)>,
    ghost empty: { rows.items ≡ [] },
    ghost room: { 1 ≤ vec_capacity rows },
}

impl OneRow {
    fn new(alloc: Global) -> Result<OneRow, AllocError> {
        Ok(OneRow {
            rows: Vec::with_capacity(alloc, 1)?,
        })
    }

    fn holding(self, row: (u64, Saved)) -> Vec<(u64, Saved)>
        ensures { result.items ≡ row ∷ [] }
    {
        let mut rows = self.rows;
        rows.push_reserved(row);
        rows
    }
}

/// Room for the rows of a Done, the Done to be filled in, and dumps that were read, which go back
/// with polls. A Done of one row takes along no more room than that.
#[derive(Drop)]
pub struct Blanks {
    pub rows: Vec<(u64, Saved)>,
    one: Option<OneRow>,
    pub done: Option<Boxed<Done>>,
    pub spares: Vec<Spare>,
    // how many dumps more are given up before the first is kept
    early: usize,
}

/// A Done of nothing.
fn blank_done(alloc: Global) -> Result<Boxed<Done>, Memory> {
    let rows = Rows {
        items: Vec::new(alloc),
    };
    let blank = Done {
        unit: 0,
        id: 0,
        last: [0; 8],
        floor: 0,
        rows,
    };
    Ok(Boxed::new(alloc, blank)?)
}

impl Blanks {
    /// Nothing is ready. So many dumps that were read are kept at most.
    pub fn new(alloc: Global, spares: usize) -> Result<Blanks, AllocError>
        ensures { IfOk result (λ blanks. blanks.rows.items ≡ []) }
    {
        Ok(Blanks {
            rows: Vec::new(alloc),
            one: None,
            done: None,
            spares: Vec::with_capacity(alloc, spares)?,
            early: spares.saturating_mul(EARLY),
        })
    }

    /// Keeps a dump that was read, where there is room for it, unless it is an early one: where units
    /// are polled a few times only, no memory waits for more polls.
    pub fn keep(&mut self, dump: Boxed<Dump>)
        ensures rows { self.new.rows ≡ self.old.rows }
        ensures done { self.new.done ≡ self.old.done }
    {
        if self.early > 0 {
            self.early -= 1;
        } else if self.spares.len() < self.spares.capacity() {
            self.spares.push_reserved(Spare::new(Some(dump)));
        }
    }

    /// Makes room for so many rows and for a Done.
    pub fn ready(&mut self, ring: u16) -> Result<(), Memory>
        requires { self.old.rows.items ≡ [] }
        ensures rows { self.new.rows.items ≡ [] }
        ensures room { OnOk result (ring ≤ vec_capacity self.new.rows) }
        ensures done { OnOk result (IsSome self.new.done) }
    {
        let alloc = *self.rows.allocator();
        self.rows.reserve(ring as usize)?;
        if self.one.is_none() {
            self.one = Some(OneRow::new(alloc)?);
        }
        if self.done.is_none() {
            self.done = Some(blank_done(alloc)?);
        }
        Ok(())
    }

    /// The one row that was read, in room of its size where that is ready.
    fn take_one(&mut self) -> Option<Vec<(u64, Saved)>>
        ensures taken { IfSome result (λ rows. rows.items ≡ self.old.rows.items) }
        ensures left { IfSome result (λ rows. self.new.rows.items ≡ []) }
        ensures kept { IfNone result (self.new.rows ≡ self.old.rows) }
    {
        if self.rows.len() != 1 {
            return None;
        }
        let one = self.one.take()?;
        let row = self.rows.pop()?;
        Some(one.holding(row))
    }

    /// The rows that were read.
    pub fn take_rows(&mut self) -> Vec<(u64, Saved)>
        ensures rows { result.items ≡ self.old.rows.items }
        ensures left { self.new.rows.items ≡ [] }
    {
        let empty = Vec::new(*self.rows.allocator());
        if self.rows.is_empty() {
            return empty;
        }
        match self.take_one() {
            Some(rows) => rows,
            None => mem::replace(&mut self.rows, empty),
        }
    }
}
