// The machine of a control plane.
ghost use Rattle.std.specs.Prelude.{◌≡◌, ◌<◌, ◌≤◌, [], None, Some, true, IfOk, length};
ghost use Rattle.sl_ids.specs.Ids.{most_bits};
ghost use Rattle.sl_machine.specs.Machine.{is_fitting};
ghost use Rattle.sl_wire.specs.Sizes.{sizes_of};
ghost use Rattle.sl_control.specs.Wires.{control_of, first_control, control_counts};

use crate::blanks::Blanks;
use crate::known::Known;
use crate::units::{answer_dump, ask_all, ask_one, initiation, is_swept, put_inits};
use crate::wires::{control_of, done_of, inits_of, units_of};
use sl_ids::Width;
use sl_machine::{Machine, Memory, Outputs};
use sl_net::{Net, Snapshot, nets_are_wired};
use sl_wire::{Boxed, Dump, Msg};
use std::alloc::Global;
use std::marker::Model;

/// The choice by which a control plane takes Begins.
const BEGIN: u32 = 0;

/// A control plane. It passes each Begin on to the ingress units of its device, polls a unit that
/// has news, and reports to the observer what the unit's registers tell.
#[derive(Drop)]
pub struct Control {
    links: u32,
    outs: u32,
    inits: Vec<u32>,
    done: u32,
    width: Width,
    version: u8,
    ring: u16,
    units: Vec<Known>,
    blanks: Blanks,
    prepared: Option<u32>,
}

impl Model for Control {
    ghost use Rattle.std.specs.Prelude.{◌≡◌, Option, Some};
    ghost use Rattle.std.specs.Vec.{vec_capacity};
    ghost use Rattle.sl_control.specs.Control.{ControlView};
    ghost use Rattle.sl_control.specs.Joined.{IsJoined, HasRoom};

    ghost Value = { ControlView };

    ghost view = { λ a. record {
      state = record {
        wires = record {
          begin = 0;
          sweep = a.links;
          inits = a.inits.items;
          done = a.done;
          sizes = record { bits = a.width.bits; ring = a.ring };
          version = a.version;
        };
        units = a.units.items;
      };
      counts = record { ins = a.links; outs = a.outs; actions = 1 };
      ready = a.prepared;
    } };

    ghost invariant = { λ a. IsJoined a.outs a.inits.items a.done a.units.items
        × HasRoom a.ring a.prepared a.blanks.rows.items (vec_capacity a.blanks.rows)
        a.blanks.done };
}

impl Control {
    ghost use Rattle.sl_control.specs.Control.{control_take};

    /// The control plane of a device, by its place in the net.
    pub fn new(
        alloc: Global,
        net: &Net,
        device: u32,
        snapshot: &Snapshot,
    ) -> Result<Control, Memory>
        requires device { device < length net.now.parts.devices }
        requires some_bits { 1 ≤ snapshot.now.width }
        requires few_bits { snapshot.now.width ≤ most_bits }
        ensures state { IfOk result
            (λ c. c.state ≡ first_control net.now (control_of net.now device)
            (sizes_of snapshot.now)) }
        ensures counts { IfOk result
            (λ c. c.counts ≡ control_counts net.now (control_of net.now device)) }
        ensures ready { IfOk result (λ c. c.ready ≡ None) }
    {
        Control::make(alloc, net, control_of(net, device), snapshot)
    }

    /// The control plane that an actor is.
    fn make(alloc: Global, net: &Net, actor: u32, snapshot: &Snapshot) -> Result<Control, Memory>
        requires actor { actor < length net.now.actors }
        requires some_bits { 1 ≤ snapshot.now.width }
        requires few_bits { snapshot.now.width ≤ most_bits }
        ensures state { IfOk result
            (λ c. c.state ≡ first_control net.now actor (sizes_of snapshot.now)) }
        ensures counts { IfOk result (λ c. c.counts ≡ control_counts net.now actor) }
        ensures ready { IfOk result (λ c. c.ready ≡ None) }
    {
        // A net is that of its parts, so it is wired as such nets are.
        let _parts = net.parts();
        nets_are_wired();
        let width = Width {
            bits: snapshot.width,
        };
        let units = units_of(alloc, net, actor)?;
        let inits = inits_of(alloc, net, actor)?;
        let done = done_of(alloc, net, actor)?;
        let blanks = Blanks::new(alloc, units.len())?;
        Ok(Control {
            links: net.links_into(actor).len() as u32,
            outs: net.links_from(actor).len() as u32,
            inits,
            done,
            width,
            version: snapshot.version,
            ring: snapshot.ring,
            units,
            blanks,
            prepared: None,
        })
    }

    /// How many slots the rings of its units have.
    pub fn ring(&self) -> u16
        ensures { result ≡ self.now.state.wires.sizes.ring }
    {
        self.ring
    }

    /// Keeps a dump that was read, so that a unit uses its memory again.
    pub fn keep(&mut self, dump: Boxed<Dump>)
        ensures { self.new ≡ self.old }
    {
        self.blanks.keep(dump);
    }

    /// Takes a dump as its machine takes a message that is one, and leaves it with the caller.
    pub fn take_dump(&mut self, link: u32, dump: &Dump, out: &mut Outputs<Msg>)
        requires ready { self.old.ready ≡ Some link }
        requires empty { out.old.items ≡ [] }
        requires room { self.old.counts.outs ≤ out.old.room }
        ensures state { self.new.state
            ≡ (control_take self.old.state link (Msg.Dump dump.now)).state }
        ensures puts { out.new.items ≡ (control_take self.old.state link (Msg.Dump dump.now)).puts }
        ensures fitting { is_fitting self.old.counts.outs out.new.items ≡ true }
        ensures room { out.new.room ≡ out.old.room }
        ensures counts { self.new.counts ≡ self.old.counts }
        ensures spent { self.new.ready ≡ None }
    {
        self.prepared = None;
        answer_dump(
            &mut self.units,
            self.width,
            self.ring,
            self.done,
            link,
            dump,
            &mut self.blanks,
            out,
        );
    }
}

impl Machine for Control {
    ghost use Rattle.sl_control.specs.Control.{ControlState, control_rules};

    type Msg = Msg;

    ghost State = { ControlState };

    ghost state = { λ c. c.state };

    ghost rules = { control_rules };

    ghost counts = { λ c. c.counts };

    ghost ready_for = { λ c. c.ready };

    /// Makes room for the Done on a dump.
    fn ready(&mut self, choice: u32) -> Result<(), Memory> {
        self.prepared = None;
        self.blanks.ready(self.ring)?;
        self.prepared = Some(choice);
        Ok(())
    }

    fn take(&mut self, link: u32, m: Msg, out: &mut Outputs<Msg>) {
        match m {
            Msg::Dump(dump) => {
                self.take_dump(link, dump.get(), out);
                self.keep(dump);
            }
            Msg::Begin(number) => {
                self.prepared = None;
                let frame = initiation(self.width, self.version, number);
                put_inits(&self.inits, link == BEGIN, &frame, out);
            }
            Msg::Notice => {
                self.prepared = None;
                ask_one(&mut self.units, link, &mut self.blanks.spares, out);
            }
            other => {
                self.prepared = None;
                drop(other);
            }
        }
    }

    fn act(&mut self, action: u32, out: &mut Outputs<Msg>) -> bool {
        self.prepared = None;
        if action != self.links || is_swept(&self.units) {
            return false;
        }
        ask_all(&mut self.units, &mut self.blanks.spares, out);
        true
    }
}
