// Trusted types: Gate.
// Runs of an actor: rounds of turns until nothing moves any more.
ghost use Rattle.std.specs.Prelude.{ℕ, ⊤, ◌≡◌, ◌+◌, ◌<◌, ◌≤◌, Ok, length, OnOk, OnErr, IfOk};
ghost use Rattle.std.specs.Bool.{OnTrue};
ghost use Rattle.std.specs.List.{All, Contains};
ghost use Rattle.sl_machine.specs.Machine.{IsChoice};
ghost use Rattle.sl_actor.specs.Outs.{AreOffered};

use crate::actor::Actor;
use crate::moved::Moved;
use crossbeam_utils::Backoff;
use sl_machine::{Machine, Memory};
use std::sync::Wait;

/// What an actor passes at the start of each round of a run. Where nothing moves at an actor, its next
/// round may come only seconds later.
pub trait Gate {
    /// What is known once an actor has passed before a round. A run knows it by its passes alone.
    ghost passed: { Self → ℕ → ℕ → Type 0 };

    /// The actor of this number begins a round of its run. `round` counts from 0.
    fn pass(&self, actor: u32, round: u64)
        ensures { passed self.now actor round };
}

/// A gate at which nothing happens.
#[derive(Clone, Copy, Debug)]
pub struct FreeGate;

impl Gate for FreeGate {
    ghost passed = { λ gate actor round. ⊤ };

    fn pass(&self, _actor: u32, _round: u64) {}
}

/// How a run ends.
#[derive(Clone, Copy, Debug, PartialEq, Eq)]
pub enum Rest {
    /// Nothing moved any more.
    Rested,
    /// All its steps were made.
    Spent,
}

/// How a round ends: all steps were made; or not all, but something moved; or nothing.
#[derive(Clone, Copy)]
enum Round {
    Full,
    Busy,
    Calm,
}

impl<A: Machine> Actor<A> {
    ghost use Rattle.sl_actor.specs.Held.{held};
    ghost use Rattle.sl_actor.specs.Follows.{Follows};
    ghost use Rattle.sl_actor.specs.Turns.{KeepsEnds, NothingDone};
    ghost use Rattle.sl_actor.specs.Runs.{HasPassed, HasRounds, Advances, LogGoesOn};
    ghost use Rattle.sl_actor.specs.Runs.{IsQuiet, Settled};
    ghost use Rattle.sl_actor.specs.Runs.{MatchMoved, MatchRound};

    /// Rounds of turns by the choices of the plan, until the log has grown by `steps` entries (`Spent`),
    /// or for `quiet` rounds in a row no turn did or moved anything (`Rested`). The last of these has one
    /// turn by each choice. The others leave out each link on which nothing was put since the round
    /// before and nothing was found in it. A run that is refused for memory stands after the turns that
    /// it took. The actor passes the gate before each round, by its place and the round's number from 0;
    /// `rounds` says it of as many rounds as the entries take, one at least. Between rounds in which
    /// nothing moved it sleeps while others run or are to begin, until a neighbour puts something on one of
    /// its links or makes room.
    pub fn run<R: Wait, G: Gate>(
        &mut self,
        rt: &R,
        plan: &[u32],
        steps: u64,
        quiet: u64,
        gate: &G,
    ) -> Result<Rest, Memory>
        requires plan { All (λ choice. IsChoice (held self.old).counts choice) plan.now }
        requires quiet { 1 ≤ quiet }
        ensures follows { (first : A.State) → Follows A.rules first (held self.old)
            → Follows A.rules first (held self.new) }
        ensures log { LogGoesOn plan.now (held self.old).log (held self.new).log }
        ensures spent { result ≡ Ok Rest.Spent → length (held self.new).log
            ≡ length (held self.old).log + steps }
        ensures rested { result ≡ Ok Rest.Rested
            → length (held self.new).log < length (held self.old).log + steps }
        ensures settled { result ≡ Ok Rest.Rested
            → All (λ choice. Settled A.rules choice (held self.new)) plan.now }
        ensures fronts { result ≡ Ok Rest.Rested → 0 < length plan.now
            → AreOffered (held self.new).outs }
        ensures rounds { 0 < steps
            → HasRounds G.passed gate.now plan.now (held self.old) (held self.new) }
        ensures passed { result ≡ Ok Rest.Rested
            → HasPassed G.passed gate.now (held self.old).place quiet }
        ensures ends { KeepsEnds (held self.old) (held self.new) }
        ensures counts { (held self.new).counts ≡ (held self.old).counts }
        ensures place { (held self.new).place ≡ (held self.old).place }
    {
        if steps == 0 {
            return Ok(Rest::Spent);
        }
        self.sleeper.begin();
        let rest = self.rounds(rt, plan, steps, quiet, gate);
        self.sleeper.end();
        rest
    }

    /// The rounds of a run.
    fn rounds<R: Wait, G: Gate>(
        &mut self,
        rt: &R,
        plan: &[u32],
        steps: u64,
        quiet: u64,
        gate: &G,
    ) -> Result<Rest, Memory>
        requires plan { All (λ choice. IsChoice (held self.old).counts choice) plan.now }
        requires steps { 0 < steps }
        requires quiet { 1 ≤ quiet }
        ensures advances { Advances A.rules plan.now (held self.old) (held self.new) }
        ensures spent { result ≡ Ok Rest.Spent → length (held self.new).log
            ≡ length (held self.old).log + steps }
        ensures rested { result ≡ Ok Rest.Rested
            → length (held self.new).log < length (held self.old).log + steps }
        ensures quiet { result ≡ Ok Rest.Rested
            → IsQuiet A.rules plan.now (length plan.now) (held self.new) }
        ensures rounds { HasRounds G.passed gate.now plan.now (held self.old) (held self.new) }
        ensures passed { result ≡ Ok Rest.Rested
            → HasPassed G.passed gate.now (held self.old).place quiet }
    {
        let backoff = Backoff::new();
        let mut done = 0;
        let mut idle = 0;
        let mut round = 0;
        let place = self.place;
        for _ in rt.forever() {
            gate.pass(place, round);
            let is_last = idle + 1 >= quiet;
            let asks_all = self.sleeper.asks_all(idle, &self.outs.waiting);
            let by_all = is_last || asks_all;
            match self.round(rt, plan, by_all, steps, &mut done)? {
                Round::Full => return Ok(Rest::Spent),
                Round::Busy => idle = 0,
                Round::Calm => {
                    if is_last {
                        return Ok(Rest::Rested);
                    }
                    idle += 1;
                }
            }
            self.sleeper.pause(rt, &backoff, idle, &self.outs.waiting);
            round = u64::saturating_add(round, 1);
        }
        unreachable!()
    }

    /// One turn by each choice of the plan of which something may come. Where nothing moved then and it is
    /// asked for, one turn by each choice of the plan. It ends once all steps are made.
    fn round<R: Wait>(
        &mut self,
        rt: &R,
        plan: &[u32],
        by_all: bool,
        steps: u64,
        done: &mut u64,
    ) -> Result<Round, Memory>
        requires plan { All (λ choice. IsChoice (held self.old).counts choice) plan.now }
        requires steps { done.old < steps }
        ensures advances { Advances A.rules plan.now (held self.old) (held self.new) }
        ensures entries { length (held self.new).log
            ≤ length (held self.old).log + length plan.now }
        ensures done { length (held self.new).log + done.old
            ≡ length (held self.old).log + done.new }
        ensures answer { IfOk result
            (λ r. MatchRound r (done.new ≡ steps) (done.new < steps)
            (OnTrue by_all (IsQuiet A.rules plan.now (length plan.now) (held self.new)))) }
    {
        if self.sleeper.has_news() {
            match self.turns(rt, plan, false, steps, done)? {
                Round::Full => return Ok(Round::Full),
                Round::Busy => return Ok(Round::Busy),
                Round::Calm => {}
            }
        }
        if !by_all {
            return Ok(Round::Calm);
        }
        self.turns(rt, plan, true, steps, done)
    }

    /// One turn by each choice of the plan, or by each of which something may come, until all steps are
    /// made.
    fn turns<R: Wait>(
        &mut self,
        rt: &R,
        plan: &[u32],
        by_all: bool,
        steps: u64,
        done: &mut u64,
    ) -> Result<Round, Memory>
        requires plan { All (λ choice. IsChoice (held self.old).counts choice) plan.now }
        requires steps { done.old < steps }
        ensures advances { Advances A.rules plan.now (held self.old) (held self.new) }
        ensures entries { length (held self.new).log
            ≤ length (held self.old).log + length plan.now }
        ensures calm { result ≡ Ok Round.Calm → (held self.new).log ≡ (held self.old).log }
        ensures done { length (held self.new).log + done.old
            ≡ length (held self.old).log + done.new }
        ensures answer { IfOk result
            (λ r. MatchRound r (done.new ≡ steps) (done.new < steps)
            (OnTrue by_all (IsQuiet A.rules plan.now (length plan.now) (held self.new)))) }
    {
        let mut calm = true;
        for choice in plan {
            if !by_all && !self.sleeper.may_find(*choice) {
                continue;
            }
            match self.advance(rt, plan, *choice)? {
                Moved::Did => {
                    calm = false;
                    *done += 1;
                    if *done >= steps {
                        return Ok(Round::Full);
                    }
                }
                Moved::Offered => calm = false,
                Moved::Idle => {}
            }
        }
        if calm {
            Ok(Round::Calm)
        } else {
            Ok(Round::Busy)
        }
    }

    fn advance<R: Wait>(&mut self, rt: &R, plan: &[u32], choice: u32) -> Result<Moved, Memory>
        requires choice { IsChoice (held self.old).counts choice }
        requires plan { Contains plan.now choice }
        ensures advances { Advances A.rules plan.now (held self.old) (held self.new) }
        ensures answer { IfOk result
            (λ m. MatchMoved m (length (held self.new).log ≡ length (held self.old).log + 1)
            (NothingDone A.rules choice (held self.old) (held self.new))) }
        ensures err { OnErr result (length (held self.new).log ≡ length (held self.old).log) }
        ensures fronts { OnOk result (AreOffered (held self.new).outs) }
    {
        self.turn(rt, choice)
    }
}
