// Numbers grouped by keys.
ghost use Rattle.std.specs.Prelude.{◌≡◌, ◌<◌, ◌++◌, ◌∷◌, ◌^◌, [], OnOk, IfOk, length, map};
ghost use Rattle.std.specs.Prelude.{slice_index_or, slice_set};
ghost use Rattle.std.specs.List.{All};
ghost use Rattle.sl_parts.specs.Parts.{below};
ghost use Rattle.sl_layout.specs.Groups.{grouped, places_in_groups};

use sl_parts::{Numbers, empty_lists, row};
use std::alloc::{AllocError, Global};
use std::marker::Model;

/// For each key the places at which it stands, ascending, and for each place its place among
/// those of its key.
#[derive(Drop)]
pub struct Groups {
    lists: Vec<Numbers>,
    places: Vec<u32>,
}

impl Model for Groups {
    ghost use Rattle.sl_layout.specs.Groups.{Sorted};

    ghost Value = { Sorted };

    ghost view = { λ g. record { lists = g.lists.items; places = g.places.items } };
}

impl Groups {
    /// The places at which a key stands.
    pub fn list(&self, key: u32) -> &[u32]
        requires { key < length self.now.lists }
        ensures { result.now ≡ slice_index_or self.now.lists key [] }
    {
        row(self.lists.as_slice(), key as usize)
    }

    /// The place of each element in the list that it stands in.
    pub fn places(&self) -> &[u32]
        ensures { result.now ≡ self.now.places }
    {
        self.places.as_slice()
    }
}

/// Adds a number to one of the lists, and answers how many were in it.
fn add_to(lists: &mut Vec<Numbers>, key: u32, number: u32) -> Result<u32, AllocError>
    requires key { key < length lists.old.items }
    requires few { length (slice_index_or lists.old.items key []) < 2 ^ 32 }
    ensures place { IfOk result (λ place. place ≡ length (slice_index_or lists.old.items key [])) }
    ensures added { OnOk result
        (lists.new.items ≡ slice_set lists.old.items key
        (slice_index_or lists.old.items key [] ++ number ∷ [])) }
{
    let list = &mut lists[key as usize];
    let place = list.items.len() as u32;
    list.items.push(number)?;
    Ok(place)
}

/// Groups the places of a list by the keys that stand there.
pub fn group(alloc: Global, keys: &[u32], count: usize) -> Result<Groups, AllocError>
    requires keys { All (λ k. k < count) keys.now }
    requires few { length keys.now < 2 ^ 32 }
    ensures lists { IfOk result
        (λ groups. groups.lists ≡ map (grouped keys.now (length keys.now)) (below count)) }
    ensures places { IfOk result
        (λ groups. groups.places ≡ map (places_in_groups keys.now) (below (length keys.now))) }
{
    let mut lists = empty_lists(alloc, count)?;
    let mut places = Vec::new(alloc);
    for i in 0..keys.len() {
        places.push(add_to(&mut lists, keys[i], i as u32)?)?;
    }
    Ok(Groups { lists, places })
}
