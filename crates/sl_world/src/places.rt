// Look-up tables of links: where an actor's links stand among all.
ghost use Rattle.std.specs.Prelude.{◌≡◌, ◌+◌, ◌<◌, IfOk, length, slice_index, slice_set};
ghost use Rattle.sl_world.specs.Places.{place_of, IsLaidOut, IsNumbering, IsTableOf};

use sl_machine::Memory;
use std::alloc::Global;

/// For each actor, the places of its links by their numbers. The parts of the actors stand one
/// after another in one table.
#[derive(Drop)]
pub struct Places {
    starts: Vec<usize>,
    places: Vec<u32>,
}

impl Places {
    /// Makes the table in which looking up a pair (actor, number) of the list gives the pair's
    /// place in the list.
    pub fn make(alloc: Global, counts: &[u32], pairs: &[(u32, u32)]) -> Result<Places, Memory>
        requires { IsNumbering counts.now pairs.now }
        ensures { IfOk result (λ t. IsTableOf t counts.now pairs.now) }
    {
        let mut table = Places::blank(alloc, counts)?;
        for place in 0..pairs.len() {
            let (actor, number) = pairs[place];
            table.set(actor as usize, number, place as u32);
        }
        Ok(table)
    }

    /// The place of an actor's link.
    pub fn place(&self, actor: usize, number: u32) -> usize
        requires actor { actor < length self.now.starts.items }
        requires number { slice_index self.now.starts.items actor + number
            < length self.now.places.items }
        ensures { result ≡ place_of self.now actor number }
    {
        place_in(
            self.starts.as_slice(),
            self.places.as_slice(),
            actor,
            number,
        )
    }

    /// Where each actor's part begins.
    pub fn starts(&self) -> &[usize]
        ensures { result.now ≡ self.now.starts.items }
    {
        self.starts.as_slice()
    }

    /// The places, part after part.
    pub fn places(&self) -> &[u32]
        ensures { result.now ≡ self.now.places.items }
    {
        self.places.as_slice()
    }

    fn set(&mut self, actor: usize, number: u32, place: u32)
        requires actor { actor < length self.old.starts.items }
        requires number { slice_index self.old.starts.items actor + number
            < length self.old.places.items }
        ensures starts { self.new.starts.items ≡ self.old.starts.items }
        ensures places { self.new.places.items ≡ slice_set self.old.places.items
            (slice_index self.old.starts.items actor + number) place }
    {
        let at = self.starts[actor] + number as usize;
        self.places[at] = place;
    }

    /// A table of this layout with no places in it yet.
    fn blank(alloc: Global, counts: &[u32]) -> Result<Places, Memory>
        ensures { IfOk result (λ t. IsLaidOut t counts.now) }
    {
        let mut starts = Vec::new(alloc);
        let mut end: usize = 0;
        for count in counts {
            starts.push(end)?;
            // no memory holds a table that is longer
            let Some(next) = end.checked_add(*count as usize) else {
                return Err(Memory);
            };
            end = next;
        }
        let places = vec![in alloc; 0; end]?;
        Ok(Places { starts, places })
    }
}

/// The place of an actor's link, of where the parts begin and of the places.
#[inline(always)]
pub fn place_in(starts: &[usize], places: &[u32], actor: usize, number: u32) -> usize
    requires actor { actor < length starts.now }
    requires number { slice_index starts.now actor + number < length places.now }
    ensures { result ≡ slice_index places.now (slice_index starts.now actor + number) }
{
    places[starts[actor] + number as usize] as usize
}
