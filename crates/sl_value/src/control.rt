// The machine of a control plane that keeps values.
ghost use Rattle.std.specs.Prelude.{◌≡◌, ◌<◌, ◌≤◌, ◌++◌, ◌∷◌, [], None, Some, true, IfOk, OnOk};
ghost use Rattle.std.specs.Prelude.{cond, length, map};
ghost use Rattle.sl_ids.specs.Ids.{most_bits};
ghost use Rattle.sl_machine.specs.Machine.{is_fitting};
ghost use Rattle.sl_layout.specs.Net.{link_of, unit_place};
ghost use Rattle.sl_wire.specs.Sizes.{sizes_of};
ghost use Rattle.sl_control.specs.Wires.{control_of, control_counts};
ghost use Rattle.sl_value.specs.Valued.{kept_view, no_values, first_kept, first_value};
ghost use Rattle.sl_value.specs.Valued.{value_take, value_in};

use crate::kept::{Kept, first_done, keep, make_room, value_in};
use crate::whole::Whole;
use sl_control::{Control, control_of};
use sl_machine::{Machine, Memory, Outputs};
use sl_net::{Net, Snapshot, Sort};
use sl_proto::{ControlPlane, Node};
use sl_wire::{Dump, Msg};
use std::alloc::Global;
use std::marker::Model;

/// A control plane that keeps, of each unit of its device, the values of the numbers that it
/// collected. It takes the same turns as the control plane inside, and puts the same.
#[derive(Drop)]
pub struct ValueControl {
    control: Control,
    kept: Vec<Kept>,
    prepared: Option<u32>,
}

impl Model for ValueControl {
    ghost use Rattle.std.specs.Prelude.{map};
    ghost use Rattle.sl_value.specs.Valued.{ValueView, kept_view};
    ghost use Rattle.sl_value.specs.Prepared.{IsPrepared};

    ghost Value = { ValueView };

    ghost view = { λ a. record {
      state = record { control = a.control.state; kept = map kept_view a.kept.items };
      counts = a.control.counts;
      ready = a.prepared;
    } };

    ghost invariant = { λ a. IsPrepared a.control a.kept.items a.prepared };
}

/// Adds the unit to which a poll link leads where it passes, with no value.
fn add_unit(
    alloc: Global,
    kept: &mut Vec<Kept>,
    net: &Net,
    link: u32,
    passes: bool,
) -> Result<(), Memory>
    requires { link < length net.now.links }
    ensures { OnOk result
        (map kept_view kept.new.items ≡ map kept_view kept.old.items
        ++ cond passes (no_values (unit_place net.now (link_of net.now link).to) ∷ []) []) }
{
    if passes {
        let unit = net.unit_place(net.link(link).to);
        kept.push(Kept {
            unit,
            values: Vec::new(alloc),
        })?;
    }
    Ok(())
}

/// The units that a control plane serves, with no values.
fn kept_units(alloc: Global, net: &Net, actor: u32) -> Result<Vec<Kept>, Memory>
    requires { actor < length net.now.actors }
    ensures { IfOk result (λ kept. map kept_view kept.items ≡ first_kept net.now actor) }
{
    let mut kept = Vec::new(alloc);
    for link in net.links_from(actor) {
        add_unit(
            alloc,
            &mut kept,
            net,
            *link,
            net.link(*link).sort.is(Sort::Poll),
        )?;
    }
    Ok(kept)
}

impl ValueControl {
    /// The control plane of a device, by its place in the net. It has no value yet.
    pub fn new(
        alloc: Global,
        net: &Net,
        device: u32,
        snapshot: &Snapshot,
    ) -> Result<ValueControl, Memory>
        requires device { device < length net.now.parts.devices }
        requires some_bits { 1 ≤ snapshot.now.width }
        requires few_bits { snapshot.now.width ≤ most_bits }
        ensures state { IfOk result
            (λ c. c.state ≡ first_value net.now (control_of net.now device)
            (sizes_of snapshot.now)) }
        ensures counts { IfOk result
            (λ c. c.counts ≡ control_counts net.now (control_of net.now device)) }
        ensures ready { IfOk result (λ c. c.ready ≡ None) }
    {
        let control = Control::new(alloc, net, device, snapshot)?;
        match kept_units(alloc, net, control_of(net, device)) {
            Ok(kept) => Ok(ValueControl {
                control,
                kept,
                prepared: None,
            }),
            Err(fault) => {
                drop(control);
                Err(fault)
            }
        }
    }

    /// The value that is kept of a unit, by its place among the units, for a number. None where the
    /// number is 0, where the unit is not of this device, and where the number is above the one up
    /// to which the unit's rows are collected: `values_are_none_exactly` says so of each control
    /// plane from its first state on, whatever turns it took, and `values_are_those_collected`
    /// which value there is of one that stands for its history.
    pub fn value(&self, unit: u32, k: u64) -> Option<Whole>
        ensures { result ≡ value_in self.now.state.kept unit k }
    {
        value_in(self.kept.as_slice(), unit, k)
    }

    /// Takes a dump, and keeps the values of the numbers that it brings.
    fn take_dump(&mut self, link: u32, dump: &Dump, out: &mut Outputs<Msg>)
        requires ready { self.old.ready ≡ Some link }
        requires empty { out.old.items ≡ [] }
        requires room { self.old.counts.outs ≤ out.old.room }
        ensures state { self.new.state
            ≡ (value_take self.old.state link (Msg.Dump dump.now)).state }
        ensures puts { out.new.items ≡ (value_take self.old.state link (Msg.Dump dump.now)).puts }
        ensures fitting { is_fitting self.old.counts.outs out.new.items ≡ true }
        ensures room { out.new.room ≡ out.old.room }
        ensures counts { self.new.counts ≡ self.old.counts }
        ensures spent { self.new.ready ≡ None }
    {
        self.prepared = None;
        self.control.take_dump(link, dump, out);
        if let Some(done) = first_done(out.items()) {
            keep(&mut self.kept, self.control.ring(), &dump.view, done);
        }
    }
}

/// A node of a net whose control planes keep values.
pub type ValueNode = Node<ValueControl>;

impl ControlPlane for ValueControl {
    ghost use Rattle.sl_value.specs.Valued.{ValueState, first_value};

    ghost State = { ValueState };

    ghost state = { λ c. c.state };

    ghost counts = { λ c. c.counts };

    ghost ready_for = { λ c. c.ready };

    ghost first = { first_value };

    fn make(
        alloc: Global,
        net: &Net,
        device: u32,
        snapshot: &Snapshot,
    ) -> Result<ValueControl, Memory> {
        ValueControl::new(alloc, net, device, snapshot)
    }
}

impl Machine for ValueControl {
    ghost use Rattle.sl_value.specs.Valued.{ValueState, value_rules};

    type Msg = Msg;

    ghost State = { ValueState };

    ghost state = { λ c. c.state };

    ghost rules = { value_rules };

    ghost counts = { λ c. c.counts };

    ghost ready_for = { λ c. c.ready };

    /// Takes room for the values of a ring besides what the control plane inside takes.
    fn ready(&mut self, choice: u32) -> Result<(), Memory> {
        self.prepared = None;
        make_room(&mut self.kept, self.control.ring())?;
        self.control.ready(choice)?;
        self.prepared = Some(choice);
        Ok(())
    }

    fn take(&mut self, link: u32, m: Msg, out: &mut Outputs<Msg>) {
        match m {
            Msg::Dump(dump) => {
                self.take_dump(link, dump.get(), out);
                self.control.keep(dump);
            }
            other => {
                self.prepared = None;
                self.control.take(link, other, out);
            }
        }
    }

    fn act(&mut self, action: u32, out: &mut Outputs<Msg>) -> bool {
        self.prepared = None;
        self.control.act(action, out)
    }
}
