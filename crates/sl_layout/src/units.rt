// The units of a net, with tables to look them up.
ghost use Rattle.std.specs.Prelude.{◌≡◌, ◌<◌, ◌^◌, ◌++◌, ◌∷◌, [], OnOk, IfOk, length, cond, map};
ghost use Rattle.std.specs.Prelude.{filter, slice_index_or};
ghost use Rattle.std.specs.List.{All};
ghost use Rattle.sl_parts.specs.Parts.{below};
ghost use Rattle.sl_layout.specs.Net.{is_unit, units, unit_place, nobody};
ghost use Rattle.sl_layout.specs.Units.{AreUnits, HasPlaces};

use crate::actor::{ActorId, UnitId};
use crate::wires::Wires;
use sl_parts::filled;
use std::alloc::{AllocError, Global};
use std::marker::Model;

/// The units of a net in order, their actors' numbers, and each actor's place among them.
#[derive(Drop)]
pub struct Units {
    wires: Wires,
    ids: Vec<UnitId>,
    actors: Vec<u32>,
    places: Vec<u32>,
}

impl Model for Units {
    ghost use Rattle.sl_layout.specs.Net.{Net};

    ghost Value = { Net };

    ghost use Rattle.sl_layout.specs.Units.{AreListed};

    ghost view = { λ u. u.wires };

    ghost invariant = { λ u. AreListed u.wires u.ids.items u.actors.items u.places.items };
}

/// Notes the actor where it is a unit.
fn add_unit(
    ids: &mut Vec<UnitId>,
    numbers: &mut Vec<u32>,
    actor: ActorId,
    number: u32,
) -> Result<(), AllocError>
    ensures numbers { OnOk result
        (numbers.new.items ≡ numbers.old.items ++ cond (is_unit actor) (number ∷ []) []) }
    ensures ids { OnOk result
        (map ActorId.Unit ids.new.items ≡ map ActorId.Unit ids.old.items
        ++ cond (is_unit actor) (actor ∷ []) []) }
{
    if let ActorId::Unit(unit) = actor {
        ids.push(unit)?;
        numbers.push(number)?;
    }
    Ok(())
}

/// Notes the places of numbers, from the last on.
fn place_numbers(alloc: Global, numbers: &[u32], count: usize) -> Result<Vec<u32>, AllocError>
    requires numbers { All (λ n. n < count) numbers.now }
    requires few { length numbers.now < 2 ^ 32 }
    ensures { IfOk result (λ places. HasPlaces 0 count numbers.now places.items) }
{
    let total = numbers.len();
    let mut places = filled(alloc, total as u32, count)?;
    for i in 0..total {
        let place = total - 1 - i;
        places[numbers[place] as usize] = place as u32;
    }
    Ok(places)
}

/// The units among actors, and their numbers there.
fn list_units(alloc: Global, actors: &[ActorId]) -> Result<(Vec<UnitId>, Vec<u32>), AllocError>
    requires { length actors.now < 2 ^ 32 }
    ensures numbers { IfOk result
        (λ list. list.1.items ≡ filter (λ a. is_unit (slice_index_or actors.now a nobody))
        (below (length actors.now))) }
    ensures ids { IfOk result
        (λ list. map ActorId.Unit list.0.items
        ≡ map (λ a. slice_index_or actors.now a nobody) list.1.items) }
{
    let mut ids = Vec::new(alloc);
    let mut numbers = Vec::new(alloc);
    for i in 0..actors.len() {
        add_unit(&mut ids, &mut numbers, actors[i], i as u32)?;
    }
    Ok((ids, numbers))
}

impl Units {
    /// Lists and numbers the units among the actors.
    pub fn new(alloc: Global, wires: Wires) -> Result<Units, AllocError>
        ensures { IfOk result (λ units. units ≡ wires) }
    {
        let all = wires.roster().actors();
        let (ids, actors) = list_units(alloc, all)?;
        let places = place_numbers(alloc, actors.as_slice(), all.len())?;
        Ok(Units {
            wires,
            ids,
            actors,
            places,
        })
    }

    /// The links, with their tables.
    pub fn wires(&self) -> &Wires
        ensures { result.now ≡ self.now }
    {
        &self.wires
    }

    /// The units in order.
    pub fn ids(&self) -> &[UnitId]
        ensures units { AreUnits self.now (units self.now) result.now }
        ensures len { length result.now ≡ length (units self.now) }
    {
        self.ids.as_slice()
    }

    /// The actors' numbers of the units.
    pub fn actors(&self) -> &[u32]
        ensures now { result.now ≡ units self.now }
        ensures each { All (λ a. a < length self.now.actors) result.now }
    {
        self.actors.as_slice()
    }

    /// The place of an actor among the units, or how many units there are where it is none.
    pub fn place_of(&self, actor: u32) -> u32
        requires { actor < length self.now.actors }
        ensures { result ≡ unit_place self.now actor }
    {
        self.places[actor as usize]
    }
}
