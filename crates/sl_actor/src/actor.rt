// An actor: a machine with its log, the ends from which it takes and the links on which it puts.
ghost use Rattle.std.specs.Prelude.{◌≡◌, ◌+◌, ◌<◌, ◌≤◌, ◌++◌, ◌∷◌, [], Some, Ok, length, IfOk};
ghost use Rattle.std.specs.Prelude.{List, map, IfSome, OnOk, OnErr};
ghost use Rattle.std.specs.Bool.{OnTrue, OnFalse};
ghost use Rattle.std.specs.List.{All};
ghost use Rattle.std.specs.Vec.{vec_capacity, vec_len};
ghost use Rattle.sl_machine.specs.Machine.{IsChoice};
ghost use Rattle.sl_actor.specs.declared.part.OutPart.{OutPart};
ghost use Rattle.sl_actor.specs.Made.{IsNewPart};
ghost use Rattle.sl_actor.specs.Outs.{AreOffered, SomePut};
ghost use Rattle.sl_actor.specs.Rows.{IsFilled};
ghost use Rattle.sl_actor.specs.Waiting.{AreSpare, views};

use crate::moved::Moved;
use crate::outs::Outs;
use crate::part::OutPart;
use crate::rows::Row;
use crate::steps::{moved, next_number, note};
use sl_link::TakeEnd;
use sl_machine::{Machine, Memory, Outputs};
use sl_sleep::{Neighbours, Roster, Sleeper};
use std::alloc::Global;
use std::sync::{Arc, Wait};

/// A machine with its log, its incoming links and its outgoing links.
#[derive(Drop)]
pub struct Actor<A: Machine> {
    pub(crate) place: u32,
    machine: A,
    number: u64,
    log: Vec<(u64, u32)>,
    takes: Vec<TakeEnd<A::Msg>>,
    pub(crate) outs: Outs<A::Msg>,
    out: Outputs<A::Msg>,
    pub(crate) sleeper: Sleeper,
    ghost takes_each: { (A.counts machine).ins ≡ length takes.items },
    ghost outs_each: { (A.counts machine).outs ≡ length outs.parts.items },
    ghost clear: { length out.items ≡ 0 },
    ghost space: { (A.counts machine).outs ≤ out.room },
}

/// What an actor holds.
#[derive(Drop)]
pub struct ActorParts<A: Machine> {
    /// Its machine.
    pub machine: A,
    /// The number and the choice of each turn in which the machine made a step, in order.
    pub log: Vec<(u64, u32)>,
    /// The ends of its incoming links, in order of choice.
    pub takes: Vec<TakeEnd<A::Msg>>,
    /// Its outgoing links in order.
    pub outs: Vec<OutPart<A::Msg>>,
}

/// The ends that fill these rows, and room for what a step puts on the outgoing links.
fn new_ends<M: Drop>(
    alloc: Global,
    takes: Row<TakeEnd<M>>,
    outs: Row<OutPart<M>>,
) -> Result<(Vec<TakeEnd<M>>, Outs<M>, Outputs<M>), Memory>
    requires takes { All IsFilled takes }
    requires outs { All IsFilled outs }
    requires empty { All (λ p. IfSome p IsNewPart) outs }
    ensures takes { IfOk result (λ e. map Some e.0.items ≡ takes) }
    ensures outs { IfOk result
        (λ e. (parts : List (OutPart M)) × (map Some parts ≡ outs)
        × (views e.1.parts.items ≡ views parts)) }
    ensures clear { IfOk result (λ e. length e.2.items ≡ 0) }
    ensures room { IfOk result (λ e. length outs ≤ e.2.room) }
{
    let count = outs.len();
    let parts = outs.into_list(alloc)?;
    let outs = Outs::new(alloc, parts)?;
    let takes = takes.into_list(alloc)?;
    let out = Outputs::with_room(alloc, count)?;
    Ok((takes, outs, out))
}

impl<A: Machine> Actor<A> {
    ghost use Rattle.sl_actor.specs.Held.{held};
    ghost use Rattle.sl_actor.specs.Follows.{Follows};
    ghost use Rattle.sl_actor.specs.Turns.{KeepsEnds, NothingDone, Stepped};
    ghost use Rattle.sl_actor.specs.declared.moved.Moved.{Moved};
    ghost use Rattle.sl_actor.specs.Made.{IsNew, IsNewPart};

    /// An actor of a machine whose links have these ends.
    pub(crate) fn new(
        alloc: Global,
        place: u32,
        machine: A,
        takes: Row<TakeEnd<A::Msg>>,
        outs: Row<OutPart<A::Msg>>,
        roster: &Arc<Roster, Global>,
        neighbours: &Neighbours,
    ) -> Result<Actor<A>, Memory>
        requires takes { All IsFilled takes }
        requires outs { All IsFilled outs }
        requires ins { length takes ≡ (A.counts machine).ins }
        requires outs_each { length outs ≡ (A.counts machine).outs }
        requires empty { All (λ p. IfSome p IsNewPart) outs }
        ensures { IfOk result
            (λ a. IsNew place (A.state machine) (A.counts machine) takes outs (held a)) }
    {
        match new_ends(alloc, takes, outs) {
            Err(fault) => {
                drop(machine);
                Err(fault)
            }
            Ok((takes, outs, out)) => match Sleeper::of(alloc, roster, neighbours, place) {
                Err(fault) => {
                    drop(machine);
                    drop(takes);
                    drop(outs);
                    drop(out);
                    Err(fault)
                }
                Ok(sleeper) => Ok(Actor {
                    place,
                    machine,
                    number: 0,
                    log: Vec::new(alloc),
                    takes,
                    outs,
                    out,
                    sleeper,
                }),
            },
        }
    }

    /// The actor's machine.
    pub fn machine(&self) -> &A
        ensures state { A.state result.now ≡ (held self.now).state }
        ensures counts { A.counts result.now ≡ (held self.now).counts }
    {
        &self.machine
    }

    /// The turns in which the machine made a step, in order: the number of each and its choice.
    pub fn log(&self) -> &[(u64, u32)]
        ensures { result.now ≡ (held self.now).log }
    {
        self.log.as_slice()
    }

    /// What the actor holds.
    pub fn into_parts(self) -> ActorParts<A>
        ensures state { A.state result.machine ≡ (held self).state }
        ensures counts { A.counts result.machine ≡ (held self).counts }
        ensures log { result.log.items ≡ (held self).log }
        ensures takes { result.takes.items ≡ (held self).takes }
        ensures outs { views result.outs.items ≡ (held self).outs }
    {
        let Actor {
            machine,
            log,
            takes,
            outs,
            ..
        } = self;
        let Outs { parts, .. } = outs;
        ActorParts {
            machine,
            log,
            takes,
            outs: parts,
        }
    }

    /// One turn by a choice. First it takes all memory that it can need; a turn that is refused it has
    /// changed nothing. Then it offers what waits in the outboxes, and the machine takes the next message
    /// of the chosen link or acts. What it puts is offered at once, but on a link where messages wait it
    /// waits behind them.
    pub fn turn<R: Wait>(&mut self, rt: &R, choice: u32) -> Result<Moved, Memory>
        requires { IsChoice (held self.old).counts choice }
        ensures follows { (first : A.State) → Follows A.rules first (held self.old)
            → Follows A.rules first (held self.new) }
        ensures did { result ≡ Ok Moved.Did → (held self.new).log
            ≡ (held self.old).log ++ ((held self.new).number, choice) ∷ [] }
        ensures offered { result ≡ Ok Moved.Offered
            → NothingDone A.rules choice (held self.old) (held self.new) }
        ensures put { result ≡ Ok Moved.Offered
            → SomePut (held self.old).outs (held self.new).outs }
        ensures idle { result ≡ Ok Moved.Idle
            → NothingDone A.rules choice (held self.old) (held self.new) }
        ensures still { result ≡ Ok Moved.Idle → (held self.new).outs ≡ (held self.old).outs }
        ensures fronts { OnOk result (AreOffered (held self.new).outs) }
        ensures err { OnErr result (held self.new ≡ held self.old) }
        ensures ends { KeepsEnds (held self.old) (held self.new) }
        ensures counts { (held self.new).counts ≡ (held self.old).counts }
        ensures place { (held self.new).place ≡ (held self.old).place }
    {
        self.make_ready(choice)?;
        let offered = self.outs.offer(rt, &mut self.sleeper);
        let did = self.step(rt, choice);
        self.sleeper.turned(choice, did);
        let has_moved = offered || did;
        self.sleeper.wake_full(has_moved, &self.outs.waiting);
        Ok(moved(did, offered))
    }

    /// Takes the memory that a step by a choice can need.
    fn make_ready(&mut self, choice: u32) -> Result<(), Memory>
        requires { IsChoice (held self.old).counts choice }
        ensures same { held self.new ≡ held self.old }
        ensures log { OnOk result (vec_len self.new.log < vec_capacity self.new.log) }
        ensures spare { OnOk result (AreSpare self.new.outs.parts.items) }
        ensures ready { OnOk result (A.ready_for self.new.machine ≡ Some choice) }
    {
        self.log.reserve(1)?;
        self.outs.make_room()?;
        self.machine.ready(choice)
    }

    /// The step of the machine by a choice, for which it is ready. Whether it made one.
    fn step<R: Wait>(&mut self, rt: &R, choice: u32) -> bool
        requires choice { IsChoice (held self.old).counts choice }
        requires log { vec_len self.old.log < vec_capacity self.old.log }
        requires spare { AreSpare self.old.outs.parts.items }
        requires fronts { AreOffered (held self.old).outs }
        requires ready { A.ready_for self.old.machine ≡ Some choice }
        ensures did { OnTrue result (Stepped A.rules choice (held self.old) (held self.new)) }
        ensures idle { OnFalse result (NothingDone A.rules choice (held self.old) (held self.new)) }
        ensures outs { OnFalse result ((held self.new).outs ≡ (held self.old).outs) }
        ensures fronts { AreOffered (held self.new).outs }
        ensures ends { KeepsEnds (held self.old) (held self.new) }
        ensures counts { (held self.new).counts ≡ (held self.old).counts }
        ensures place { (held self.new).place ≡ (held self.old).place }
    {
        // the number of the message that it takes, 0 where it acts
        let taken = if (choice as usize) < self.takes.len() {
            let end = &mut self.takes[choice as usize];
            let s = match end.take(rt) {
                None => {
                    self.sleeper.found_empty(choice);
                    return false;
                }
                Some(s) => s,
            };
            let taken = s.number;
            self.machine.take(choice, s.m, &mut self.out);
            taken
        } else {
            if !self.machine.act(choice, &mut self.out) {
                return false;
            }
            0
        };
        let number = next_number(rt, self.number, taken);
        self.number = number;
        note(
            rt,
            number,
            choice,
            &mut self.log,
            &mut self.outs,
            &mut self.out,
            &mut self.sleeper,
        );
        true
    }
}
