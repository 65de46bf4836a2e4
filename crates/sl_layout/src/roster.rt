// The actors of a net, with their numbers.
ghost use Rattle.std.specs.Prelude.{ℕ, ◌≡◌, ◌+◌, ◌^◌, ◌<◌, ◌≤◌, ◌++◌, ◌∷◌, [], OnOk, IfOk};
ghost use Rattle.std.specs.Prelude.{length, slice_index_or};
ghost use Rattle.std.specs.List.{All};
ghost use Rattle.sl_layout.specs.declared.actor.ActorId.{ActorId};
ghost use Rattle.sl_parts.specs.Parts.{Parts, used_ports};
ghost use Rattle.sl_layout.specs.Net.{actors_of, units_of, ingress, egress, place_of};
ghost use Rattle.sl_parts.specs.Valid.{IsValid};
ghost use Rattle.sl_layout.specs.Roster.{IsFew, IsActor, seat_of, side_number, HasNumbers};

use crate::actor::{ActorId, Side, UnitId};
use crate::layout::Layout;
use sl_parts::filled;
use std::alloc::{AllocError, Global};
use std::marker::Model;

fn unit_at(device: u32, port: u32, side: Side) -> ActorId
    ensures { result ≡ ActorId.Unit (record { device = device; port = port; side = side }) }
{
    ActorId::Unit(UnitId { device, port, side })
}

/// The ingress unit of a port.
pub fn ingress(device: u32, port: u32) -> ActorId
    ensures { result ≡ ingress device port }
{
    unit_at(device, port, Side::Ingress)
}

/// The egress unit of a port.
pub fn egress(device: u32, port: u32) -> ActorId
    ensures { result ≡ egress device port }
{
    unit_at(device, port, Side::Egress)
}

fn side_number(side: Side) -> usize
    ensures { result ≡ side_number side }
{
    match side {
        Side::Ingress => 0,
        Side::Egress => 1,
    }
}

/// The place of an actor in a table by actors.
fn seat_of(actor: ActorId) -> usize
    requires { IsFew actor }
    ensures seat { result ≡ seat_of actor }
    ensures within { result < 1217 }
{
    match actor {
        ActorId::Observer => 0,
        ActorId::Control(device) => 1 + device as usize,
        ActorId::Unit(unit) => 65
            + 16 * unit.device as usize
            + 2 * unit.port as usize
            + side_number(unit.side),
        ActorId::Host(host) => 1089 + host as usize,
    }
}

fn add_units(actors: &mut Vec<ActorId>, device: u32, port: u32) -> Result<(), AllocError>
    ensures { OnOk result
        (actors.new.items ≡ actors.old.items ++ ingress device port ∷ egress device port ∷ []) }
{
    actors.push(ingress(device, port))?;
    actors.push(egress(device, port))?;
    Ok(())
}

fn add_ports(actors: &mut Vec<ActorId>, layout: &Layout, device: u32) -> Result<(), AllocError>
    requires { device < length layout.now.devices }
    ensures { OnOk result (actors.new.items ≡ actors.old.items ++ units_of layout.now device) }
{
    for port in layout.used_ports(device) {
        add_units(actors, device, *port)?;
    }
    Ok(())
}

fn add_control(actors: &mut Vec<ActorId>, device: u32) -> Result<(), AllocError>
    ensures { OnOk result (actors.new.items ≡ actors.old.items ++ ActorId.Control device ∷ []) }
{
    actors.push(ActorId::Control(device))?;
    Ok(())
}

fn add_device(actors: &mut Vec<ActorId>, layout: &Layout, device: u32) -> Result<(), AllocError>
    requires { device < length layout.now.devices }
    ensures { OnOk result
        (actors.new.items ≡ actors.old.items ++ ActorId.Control device ∷ units_of
        layout.now device) }
{
    add_control(actors, device)?;
    add_ports(actors, layout, device)
}

/// The actors in order: the observer, each device's control plane and units, the hosts.
fn list_actors(alloc: Global, layout: &Layout) -> Result<Vec<ActorId>, AllocError>
    ensures { IfOk result (λ actors. actors.items ≡ actors_of layout.now) }
{
    let parts = layout.parts();
    let mut actors = Vec::new(alloc);
    actors.push(ActorId::Observer)?;
    for device in 0..parts.devices.len() as u32 {
        add_device(&mut actors, layout, device)?;
    }
    for host in 0..parts.hosts.len() as u32 {
        actors.push(ActorId::Host(host))?;
    }
    Ok(actors)
}

/// Notes the actors' numbers, from the last on, so that the first of two equal ones counts.
fn number_actors(alloc: Global, actors: &[ActorId]) -> Result<Vec<u32>, AllocError>
    requires few { All IsFew actors.now }
    requires count { length actors.now < 2 ^ 32 }
    ensures { IfOk result (λ numbers. HasNumbers 0 actors.now numbers.items) }
{
    let count = actors.len();
    let mut numbers = filled(alloc, count as u32, 1217)?;
    for i in 0..count {
        let number = count - 1 - i;
        numbers[seat_of(actors[number])] = number as u32;
    }
    Ok(numbers)
}

/// The actors of a net in order, with their numbers.
#[derive(Drop)]
pub struct Roster {
    layout: Layout,
    actors: Vec<ActorId>,
    numbers: Vec<u32>,
}

impl Model for Roster {
    ghost use Rattle.sl_parts.specs.Parts.{Parts};

    ghost Value = { Parts };

    ghost use Rattle.sl_layout.specs.Roster.{IsRoster};

    ghost view = { λ r. r.layout };

    ghost invariant = { λ r. IsRoster r.layout r.actors.items r.numbers.items };
}

impl Roster {
    /// Lists and numbers the actors of the layout.
    pub fn new(alloc: Global, layout: Layout) -> Result<Roster, AllocError>
        ensures { IfOk result (λ roster. roster ≡ layout) }
    {
        let actors = list_actors(alloc, &layout)?;
        let numbers = number_actors(alloc, actors.as_slice())?;
        Ok(Roster {
            layout,
            actors,
            numbers,
        })
    }

    /// The layout that the actors are of.
    pub fn layout(&self) -> &Layout
        ensures { result.now ≡ self.now }
    {
        &self.layout
    }

    /// The actors in order.
    pub fn actors(&self) -> &[ActorId]
        ensures now { result.now ≡ actors_of self.now }
        ensures few { length result.now ≤ 1217 }
        ensures valid { IsValid self.now }
        ensures each { All (IsActor self.now) result.now }
        ensures placed { (i : ℕ) (d : ActorId) → i < length result.now
            → place_of (slice_index_or result.now i d) (actors_of self.now) ≡ i }
    {
        self.actors.as_slice()
    }

    /// The number of an actor, or how many there are where it is none of them.
    pub fn number_of(&self, actor: ActorId) -> u32
        requires { IsFew actor }
        ensures { result ≡ place_of actor (actors_of self.now) }
    {
        self.numbers[seat_of(actor)]
    }
}
