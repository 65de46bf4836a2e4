// Reading a dump.
ghost use Rattle.std.specs.Prelude.{◌≡◌, ◌≤◌, ◌<◌, ◌+◌, length, map, [], is_some, IfSome};
ghost use Rattle.std.specs.List.{list_all};
ghost use Rattle.std.specs.Bool.{OnTrue};
ghost use Rattle.std.specs.Vec.{vec_capacity};
ghost use Rattle.sl_saves.specs.Views.{read};
ghost use Rattle.sl_control.specs.Rows.{span, is_sized, is_readable, row};

use sl_saves::{Saved, View, try_read_saved};

/// Whether a view has the size of a ring, and its place lies in it.
pub fn is_sized(ring: u16, view: &View) -> bool
    ensures { result ≡ is_sized ring view.now }
{
    let size = view.slots.len();
    (view.at as usize) < size && size == ring as usize
}

/// What a view of the number `id` says was saved for the number `k`, if it can be read.
fn read_one(view: &View, id: u64, k: u64) -> Option<Saved>
    requires least { 1 ≤ k }
    requires most { k ≤ id }
    requires at { view.now.at < length view.now.slots }
    ensures some { is_some result ≡ is_readable view.now id k }
    ensures value { IfSome result (λ saved. saved ≡ read view.now id k) }
{
    if id - k < view.slots.len() as u64 {
        try_read_saved(view, id, k)
    } else {
        None
    }
}

/// Reads the rows of the numbers above `from`, up to `to`, and answers whether each can be read.
pub fn read_rows(rows: &mut Vec<(u64, Saved)>, view: &View, id: u64, from: u64, to: u64) -> bool
    requires empty { rows.old.items ≡ [] }
    requires room { length view.now.slots ≤ vec_capacity rows.old }
    requires most { to ≤ id }
    requires at { view.now.at < length view.now.slots }
    ensures readable { result ≡ list_all (is_readable view.now id) (span from to) }
    ensures rows { OnTrue result (rows.new.items ≡ map (row view.now id) (span from to)) }
{
    for k in from..to {
        match read_one(view, id, k + 1) {
            None => return false,
            Some(saved) => rows.push_reserved((k + 1, saved)),
        }
    }
    true
}
