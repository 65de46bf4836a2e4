// The machine of the observer.
ghost use Rattle.std.specs.Prelude.{◌≡◌, ◌≤◌, ◌<◌, [], Option, None, Some, IfOk, length, true};
ghost use Rattle.std.specs.Option.{option_copied};
ghost use Rattle.sl_machine.specs.Machine.{is_fitting};
ghost use Rattle.sl_observe.specs.Observer.{ObserverState, unit_at, seen_of, saved_of};
ghost use Rattle.sl_observe.specs.Observer.{register_floor, begins_out, issue, resend};
ghost use Rattle.sl_observe.specs.Observer.{observer_rules, observer_counts, first_state};
ghost use Rattle.sl_observe.specs.Kept.{Acted};

use crate::floors::Floors;
use crate::spans::Span;
use crate::unit::{Collected, Seen};
use crate::units::{list_units, no_shorts, prepare, take_done};
use sl_machine::{Machine, Memory, Outputs};
use sl_net::{Net, Snapshot};
use sl_saves::Saved;
use sl_wire::Msg;
use std::alloc::Global;
use std::marker::Model;

/// Issues snapshots within a window, and collects what the units saved for them.
#[derive(Drop)]
pub struct Observer {
    ins: u32,
    outs: u32,
    snapshot: Snapshot,
    issued: u64,
    resent: u64,
    units: Vec<Collected>,
    floors: Floors,
    spans: Vec<Span>,
    shorts: Vec<Option<usize>>,
    prepared: Option<u32>,
}

impl Model for Observer {
    ghost use Rattle.sl_observe.specs.Kept as kept;

    ghost Value = { kept.Observer };

    ghost view = { λ o.
        record {
          state = kept.state_of o.ins o.outs o.snapshot o.issued o.resent o.units.items;
          ready = o.prepared;
        } };

    ghost invariant = { λ o. kept.IsKept o.ins o.snapshot.ring o.units.items
        o.floors o.spans.items o.shorts.items o.prepared };
}

/// Puts the begin of a snapshot on each outgoing link.
#[tactic(auto, using(crate::proofs::Begins::begins_more, crate::proofs::Begins::length_begins, crate::proofs::Begins::begins_fit))]
fn begin_all(out: &mut Outputs<Msg>, outs: u32, number: u64)
    requires empty { out.old.items ≡ [] }
    requires room { outs ≤ out.old.room }
    ensures items { out.new.items ≡ begins_out outs number }
    ensures fitting { is_fitting outs out.new.items ≡ true }
    ensures room { out.new.room ≡ out.old.room }
{
    for link in 0..outs {
        out.put(link, Msg::Begin(number));
    }
}

impl Observer {
    /// The observer of a net, before its first turn.
    #[tactic(auto, using(crate::proofs::UnitLists::has_actors, crate::proofs::UnitLists::first_kept))]
    pub fn new(alloc: Global, net: &Net, snapshot: &Snapshot) -> Result<Observer, Memory>
        ensures state { IfOk result (λ o. o.state ≡ first_state net.now snapshot.now) }
        ensures ready { IfOk result (λ o. o.ready ≡ None) }
    {
        // A net is that of its parts, so it has an observer.
        let _ = net.parts();
        let ins = net.links_into(0).len() as u32;
        let outs = net.links_from(0).len() as u32;
        let shorts = no_shorts(alloc, ins)?;
        let units = list_units(alloc, net)?;
        let floors = Floors::zeros(alloc, units.len())?;
        let spans = Span::list(alloc, units.as_slice(), ins)?;
        Ok(Observer {
            ins,
            outs,
            snapshot: *snapshot,
            issued: 0,
            resent: 0,
            units,
            floors,
            spans,
            shorts,
            prepared: None,
        })
    }

    /// The number up to which all units are collected, or the greatest issued where there is no
    /// unit.
    pub fn floor(&self) -> u64
        ensures { result ≡ register_floor self.now.state }
    {
        self.floors.least().unwrap_or(self.issued)
    }

    /// The greatest number issued, 0 at first.
    pub fn issued(&self) -> u64
        ensures { result ≡ self.now.state.issued }
    {
        self.issued
    }

    /// How often it resent.
    pub fn resent(&self) -> u64
        ensures { result ≡ self.now.state.resent }
    {
        self.resent
    }

    /// What a unit saved for a number, or none where no Done with the row of that number was
    /// taken. The unit is a place among the units.
    pub fn saved(&self, unit: u32, k: u64) -> Option<&Saved>
        requires { unit < length self.now.state.units }
        ensures { option_copied result ≡ saved_of (unit_at self.now.state.units unit) k }
    {
        let unit = &self.units[unit as usize];
        unit.saved(k)
    }

    /// What the last Done on a unit said, zeros before the first. The unit is a place among the
    /// units.
    pub fn seen(&self, unit: u32) -> Seen
        requires { unit < length self.now.state.units }
        ensures { result ≡ seen_of (unit_at self.now.state.units unit) }
    {
        let unit = &self.units[unit as usize];
        unit.seen()
    }

    /// Issues the next snapshot, where one is left and the window has room for it.
    fn issue(&mut self, out: &mut Outputs<Msg>) -> bool
        requires empty { out.old.items ≡ [] }
        requires room { self.old.state.outs ≤ out.old.room }
        ensures { Acted issue result self.old self.new out.old out.new }
    {
        let most = self.floor().saturating_add(u64::from(self.snapshot.window));
        if self.issued >= self.snapshot.count || self.issued >= most {
            return false;
        }
        let next = self.issued + 1;
        self.issued = next;
        begin_all(out, self.outs, next);
        true
    }

    /// Begins the last snapshot again, where a retry is left and a snapshot isn't collected.
    fn resend(&mut self, out: &mut Outputs<Msg>) -> bool
        requires empty { out.old.items ≡ [] }
        requires room { self.old.state.outs ≤ out.old.room }
        ensures { Acted resend result self.old self.new out.old out.new }
    {
        if self.resent >= self.snapshot.retries || self.floor() >= self.issued {
            return false;
        }
        self.resent += 1;
        begin_all(out, self.outs, self.issued);
        true
    }
}

impl Machine for Observer {
    type Msg = Msg;

    ghost State = { ObserverState };

    ghost state = { λ o. o.state };

    ghost rules = { observer_rules };

    ghost counts = { λ o. observer_counts o.state };

    ghost ready_for = { λ o. o.ready };

    #[tactic(auto, using(crate::proofs::UnitLists::kept_ready, crate::proofs::UnitLists::kept_spent))]
    fn ready(&mut self, choice: u32) -> Result<(), Memory> {
        self.prepared = None;
        prepare(
            &mut self.units,
            &mut self.shorts,
            self.spans.as_slice(),
            self.ins,
            choice,
            self.snapshot.ring,
            self.snapshot.count,
        )?;
        self.prepared = Some(choice);
        Ok(())
    }

    fn take(&mut self, link: u32, m: Msg, _out: &mut Outputs<Msg>) {
        self.prepared = None;
        match m {
            Msg::Done(done) => {
                take_done(
                    &mut self.units,
                    &mut self.floors,
                    &mut self.shorts,
                    self.snapshot.ring,
                    link,
                    done.get(),
                );
                drop(done);
            }
            other => drop(other),
        }
    }

    fn act(&mut self, action: u32, out: &mut Outputs<Msg>) -> bool {
        self.prepared = None;
        if action == self.ins {
            self.issue(out)
        } else {
            self.resend(out)
        }
    }
}
