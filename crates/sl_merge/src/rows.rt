// Rows of places from which things are taken.
ghost use Rattle.std.specs.Prelude.{◌≡◌, None, Some, map, slice_index_or, slice_set, IfOk};
ghost use Rattle.sl_actor.specs.Rows.{IsFilled, place_at};
ghost use Rattle.sl_merge.specs.Parted.{empty_at};

use sl_machine::Memory;
use std::alloc::Global;
use std::collections::VecDeque;
use std::marker::Model;

/// Places, each filled until what is there is taken.
#[derive(Drop)]
pub struct Row<T> {
    places: Vec<Option<T>>,
}

impl<T> Model for Row<T> {
    ghost use Rattle.std.specs.Prelude.{List, Option};

    ghost Value = { List (Option T) };

    ghost view = { λ r. r.places.items };
}

impl<T: Drop> Row<T> {
    /// Places that are filled with these.
    pub fn new(alloc: Global, list: Vec<T>) -> Result<Row<T>, Memory>
        ensures { IfOk result (λ r. r ≡ map Some list.items) }
    {
        let mut rest = VecDeque::from(list);
        let mut places = Vec::new(alloc);
        while let Some(x) = rest.pop_front() {
            places.push(Some(x))?;
        }
        Ok(Row { places })
    }

    /// Takes what is at a place.
    pub fn take(&mut self, place: usize) -> T
        requires { IsFilled (slice_index_or self.old place None) }
        ensures what { slice_index_or self.old place None ≡ Some result }
        ensures rest { self.new ≡ slice_set self.old place None }
    {
        match self.places[place].take() {
            Some(x) => x,
            None => unreachable!(),
        }
    }
}

/// Takes what is at a place of a row.
pub fn take_at<T: Drop>(rows: &mut Vec<Row<T>>, row: u32, place: u32) -> T
    requires { IsFilled (place_at rows.old.items row place) }
    ensures what { place_at rows.old.items row place ≡ Some result }
    ensures rest { rows.new.items ≡ empty_at row place rows.old.items }
{
    rows[row as usize].take(place as usize)
}
