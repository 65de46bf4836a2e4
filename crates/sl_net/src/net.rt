// A net: its parts with the actors and links that they give.
ghost use Rattle.std.specs.Prelude.{◌≡◌, ◌≢◌, ◌<◌, ◌≤◌, None, Some, IfOk, IfErr, OnOk, length};
ghost use Rattle.std.specs.Prelude.{slice_index};
ghost use Rattle.std.specs.List.{All};
ghost use Rattle.sl_machine.specs.Plan.{IsSound};
ghost use Rattle.sl_parts.specs.Fault.{fault_of};
ghost use Rattle.sl_parts.specs.Valid.{AreVersioned, IsValid};
ghost use Rattle.sl_layout.specs.Net.{net_of, actor_of, link_of, links_into, links_from, units};
ghost use Rattle.sl_layout.specs.Net.{unit_place};
ghost use Rattle.sl_layout.specs.Roster.{IsActor};
ghost use Rattle.sl_layout.specs.Wires.{HasEnds};
ghost use Rattle.sl_net.specs.Spelling.{choice_count};
ghost use Rattle.sl_layout.specs.Units.{AreUnits};
ghost use Rattle.sl_layout.specs.Wiring.{kind_of, upstream_of, wired_link, plan_of};

use sl_layout::{
    ActorId, Layout, LinkKind, LinkPart, Roster, Sort, UnitId, Units, Wires, actions_of,
    list_upstream, make_wiring,
};
use sl_machine::{Link, Wiring};
use sl_parts::{NetFault, Numbers, Parts, row};
use std::alloc::{AllocError, Global};
use std::marker::Model;

/// A net whose parts are valid, with its actors and links in order.
#[derive(Drop)]
pub struct Net {
    units: Units,
    wiring: Wiring,
    upstream: Vec<Numbers>,
}

impl Model for Net {
    ghost use Rattle.sl_layout.specs.Net.{Net};

    ghost Value = { Net };

    ghost use Rattle.sl_net.specs.Tables.{HasTables};

    ghost view = { λ n. n.units };

    ghost invariant = { λ n. HasTables n.units n.wiring n.upstream.items };
}

/// The kind of the links of a sort, for losses.
fn kind_of(sort: Sort) -> LinkKind
    ensures { result ≡ kind_of sort }
{
    match sort {
        Sort::Cable => LinkKind::Cable,
        Sort::Crossbar => LinkKind::Crossbar,
        Sort::Init => LinkKind::Init,
        Sort::Notice => LinkKind::Notice,
        _ => LinkKind::Reliable,
    }
}

fn assemble(alloc: Global, layout: Layout) -> Result<Net, AllocError>
    ensures { IfOk result (λ net. net ≡ net_of layout) }
{
    let roster = Roster::new(alloc, layout)?;
    let wires = Wires::new(alloc, roster)?;
    let wiring = make_wiring(alloc, &wires)?;
    let units = Units::new(alloc, wires)?;
    let upstream = list_upstream(alloc, &units)?;
    Ok(Net {
        units,
        wiring,
        upstream,
    })
}

impl Net {
    /// The net of these parts, or the first reason why they are none.
    pub fn build(alloc: Global, parts: Parts) -> Result<Net, NetFault>
        requires versions { AreVersioned parts.cables }
        ensures net { IfOk result (λ net. net ≡ net_of parts) }
        ensures right { OnOk result (fault_of parts ≡ None) }
        ensures fault { IfErr result (λ e. e ≢ NetFault.Memory → fault_of parts ≡ Some e) }
    {
        let layout = Layout::new(alloc, parts)?;
        Ok(assemble(alloc, layout)?)
    }

    /// The parts that the net was built from.
    pub fn parts(&self) -> &Parts
        ensures now { result.now ≡ self.now.parts }
        ensures net { self.now ≡ net_of self.now.parts }
        ensures right { fault_of self.now.parts ≡ None }
        ensures valid { IsValid self.now.parts }
    {
        self.units.wires().roster().layout().parts()
    }

    /// How many devices there are.
    pub fn device_count(&self) -> u32
        ensures { result ≡ length self.now.parts.devices }
    {
        self.parts().devices.len() as u32
    }

    /// How many hosts there are.
    pub fn host_count(&self) -> u32
        ensures { result ≡ length self.now.parts.hosts }
    {
        self.parts().hosts.len() as u32
    }

    /// How many units there are.
    pub fn unit_count(&self) -> u32
        ensures count { result ≡ length (units self.now) }
        ensures few { result ≤ 1217 }
    {
        // There are no more than actors.
        let _actors = self.actors();
        self.unit_actors().len() as u32
    }

    /// The actors in order.
    pub fn actors(&self) -> &[ActorId]
        ensures now { result.now ≡ self.now.actors }
        ensures few { length result.now ≤ 1217 }
        ensures each { All (IsActor self.now.parts) result.now }
    {
        self.units.wires().roster().actors()
    }

    /// The actor of a number.
    pub fn actor(&self, actor: u32) -> ActorId
        requires { actor < length self.now.actors }
        ensures actor { result ≡ actor_of self.now actor }
        ensures part { IsActor self.now.parts result }
    {
        self.actors()[actor as usize]
    }

    /// How many choices an actor has: its incoming links and its actions.
    pub fn choice_count(&self, actor: u32) -> u32
        requires { actor < length self.now.actors }
        ensures count { result ≡ choice_count self.now actor }
        ensures few { result ≤ 77890 }
    {
        self.links_into(actor).len() as u32 + actions_of(self.actor(actor))
    }

    /// The links in order.
    pub fn links(&self) -> &[LinkPart]
        ensures now { result.now ≡ self.now.links }
        ensures few { length result.now ≤ 77888 }
        ensures ends { All (HasEnds self.now) result.now }
    {
        self.units.wires().links()
    }

    /// The link of a number.
    pub fn link(&self, link: u32) -> LinkPart
        requires { link < length self.now.links }
        ensures link { result ≡ link_of self.now link }
        ensures ends { HasEnds self.now result }
    {
        self.units.wires().link(link)
    }

    /// The links that an actor takes from, in the order of its choices.
    pub fn links_into(&self, actor: u32) -> &[u32]
        requires { actor < length self.now.actors }
        ensures links { result.now ≡ links_into self.now actor }
        ensures each { All (λ l. l < length self.now.links) result.now }
        ensures few { length result.now ≤ 77888 }
    {
        self.units.wires().links_into(actor)
    }

    /// The links on which an actor puts, ascending.
    pub fn links_from(&self, actor: u32) -> &[u32]
        requires { actor < length self.now.actors }
        ensures links { result.now ≡ links_from self.now actor }
        ensures each { All (λ l. l < length self.now.links) result.now }
        ensures few { length result.now ≤ 77888 }
    {
        self.units.wires().links_from(actor)
    }

    /// The kind of a link, for losses.
    pub fn kind(&self, link: u32) -> LinkKind
        requires { link < length self.now.links }
        ensures { result ≡ kind_of (link_of self.now link).sort }
    {
        kind_of(self.link(link).sort)
    }

    /// The units in order.
    pub fn units(&self) -> &[UnitId]
        ensures units { AreUnits self.now (units self.now) result.now }
        ensures len { length result.now ≡ length (units self.now) }
    {
        self.units.ids()
    }

    /// The actors' numbers of the units, in order.
    pub fn unit_actors(&self) -> &[u32]
        ensures actors { result.now ≡ units self.now }
        ensures each { All (λ a. a < length self.now.actors) result.now }
    {
        self.units.actors()
    }

    /// The number of the actor that is a unit, by its place among the units.
    pub fn unit_actor(&self, unit: u32) -> u32
        requires { unit < length (units self.now) }
        ensures actor { result ≡ slice_index (units self.now) unit }
        ensures within { result < length self.now.actors }
    {
        self.units.actors()[unit as usize]
    }

    /// The place of an actor among the units, or how many units there are where it is none.
    pub fn unit_place(&self, actor: u32) -> u32
        requires { actor < length self.now.actors }
        ensures { result ≡ unit_place self.now actor }
    {
        self.units.place_of(actor)
    }

    /// How the actors are joined. Each link has a place of its own at both its ends, and none is
    /// left out.
    pub fn wiring(&self) -> &Wiring
        ensures now { result.now ≡ plan_of self.now }
        ensures sound { IsSound result.now }
    {
        &self.wiring
    }

    /// How a link is joined to its ends.
    pub fn wire(&self, link: u32) -> Link
        requires { link < length self.now.links }
        ensures { result ≡ wired_link self.now link }
    {
        let wired = self.wiring();
        wired.links[link as usize]
    }

    /// The senders of a unit's data channels in order. The unit is a place among the units, and
    /// so are its senders.
    pub fn upstream(&self, unit: u32) -> &[u32]
        requires { unit < length (units self.now) }
        ensures { result.now ≡ upstream_of self.now (slice_index (units self.now) unit) }
    {
        row(self.upstream.as_slice(), unit as usize)
    }
}
