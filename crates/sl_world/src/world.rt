// The world: machines, the links between them, and the book of the turns that did something.
ghost use Rattle.std.specs.Prelude.{◌≡◌, ◌≢◌, ◌+◌, ◌<◌, ◌≤◌, ◌^◌, ℕ, [], Some, None, Ok, length};
ghost use Rattle.std.specs.Prelude.{map, slice_get, slice_set, slice_index, slice_index_or, IsTrue};
ghost use Rattle.std.specs.Prelude.{IfOk};
ghost use Rattle.std.specs.Prelude.{IfSome, OnOk, OnErr, All, true, false};
ghost use Rattle.sl_machine.specs.Plan.{HasChoice, IsSound, link_in};
ghost use Rattle.sl_machine.specs.Fit.{ins_of, actions_of, counts_at, HasCounts, Fits};
ghost use Rattle.sl_loss.specs.Loss.{IsFresh};
ghost use Rattle.sl_world.specs.Counts.{SameCounts};
ghost use Rattle.sl_world.specs.Scene.{last_number, line_at, lines_with, links_of};
ghost use Rattle.sl_world.specs.Mesh.{lines_of};
ghost use Rattle.sl_world.specs.Resting.{AreResting};

use crate::book::{make_room, note};
use crate::line::Line;
use crate::links::Links;
use crate::looked::{Looked, Step};
use crate::machines::{act_at, ready_at, take_at};
use crate::make::{greatest, lines_with, make_lines};
use sl_loss::Loss;
use sl_machine::{Book, Machine, Memory, Outputs, Wiring};
use std::alloc::Global;

/// Whether a turn did something.
#[derive(Clone, Copy, Debug, PartialEq, Eq)]
pub enum Turn {
    /// It took a message, or it acted.
    Did,
    /// The chosen link was empty, or the guard of the chosen action was false.
    Idle,
}

/// Machines, the links between them, and the turns that did something.
#[derive(Drop)]
pub struct World<A: Machine> {
    machines: Vec<A>,
    links: Links<A::Msg>,
    book: Book,
    out: Outputs<A::Msg>,
    // for each actor one more than the choice of an action that is known to be idle, or 0
    resting: Vec<u64>,
    ghost machines_fit: { HasCounts A.counts links.plan machines.items },
    ghost clear: { length out.items ≡ 0 },
    ghost space: { (k : ℕ) → slice_index links.plan.outs k ≤ out.room },
    ghost numbered: { last_number book.entries ≤ length book.entries },
    ghost low: { All (λ e. e.number ≤ length book.entries) book.entries },
    ghost rests: { AreResting A.rules (map A.state machines.items) resting.items },
}

impl<A: Machine> World<A> {
    ghost use Rattle.sl_world.specs.World.{scene};
    ghost use Rattle.sl_world.specs.Scene.{turn_of, after_turn, after_all, IsFront, FindsNothing};
    ghost use Rattle.sl_world.specs.Scene.{first_scene};
    ghost use Rattle.sl_world.specs.Turns.{IsTurn, AreTurns};

    /// A world where nothing has happened: nothing is on the links, and the book is empty. After
    /// want of memory the machines and losses are given up.
    pub fn new(
        alloc: Global,
        machines: Vec<A>,
        wiring: &Wiring,
        losses: Vec<Option<Loss>>,
    ) -> Result<World<A>, Memory>
        requires fit { Fits A.counts wiring.now machines.items losses.items }
        requires fresh { All IsFresh losses.items }
        ensures { IfOk result
            (λ w. scene w ≡ first_scene wiring.now (map A.state machines.items) losses.items) }
    {
        let lines = make_lines(alloc, losses)?;
        let book = Book {
            entries: Vec::new(alloc),
        };
        World::with_lines(alloc, machines, wiring, lines, book)
    }

    /// A world that goes on from these machines, losses, numbers of lost puts, messages on the
    /// links and book. After want of memory they are given up.
    pub fn resume(
        alloc: Global,
        machines: Vec<A>,
        wiring: &Wiring,
        losses: Vec<Option<Loss>>,
        lost: Vec<u64>,
        rests: Vec<Vec<A::Msg>>,
        book: Book,
    ) -> Result<World<A>, Memory>
        requires fit { Fits A.counts wiring.now machines.items losses.items }
        requires lost { length lost.items ≡ length wiring.now.links }
        requires rests { length rests.items ≡ length wiring.now.links }
        requires book { length book.entries < 2 ^ 40 }
        requires numbers { All (λ e. e.number ≤ length book.entries) book.entries }
        ensures { IfOk result
            (λ w. scene w
            ≡ record {
              plan = wiring.now;
              states = map A.state machines.items;
              lines = lines_with losses.items lost.items (map (λ v. v.items) rests.items);
              book = book.entries;
            }) }
    {
        let lines = lines_with(alloc, losses, lost.as_slice(), rests)?;
        World::with_lines(alloc, machines, wiring, lines, book)
    }

    fn with_lines(
        alloc: Global,
        machines: Vec<A>,
        wiring: &Wiring,
        lines: Vec<Line<A::Msg>>,
        book: Book,
    ) -> Result<World<A>, Memory>
        requires sound { IsSound wiring.now }
        requires machines { HasCounts A.counts wiring.now machines.items }
        requires lines { length lines.items ≡ length wiring.now.links }
        requires numbers { All (λ e. e.number ≤ length book.entries) book.entries }
        ensures { IfOk result
            (λ w. scene w ≡ record (first_scene wiring.now (map A.state machines.items) [])
            { lines = lines_of lines.items; book = book.entries }) }
    {
        let out = Outputs::with_room(alloc, greatest(wiring.out_counts.as_slice()))?;
        let links = Links::join(alloc, wiring, lines)?;
        let resting = vec![in alloc; 0; machines.len()]?;
        Ok(World {
            machines,
            links,
            book,
            out,
            resting,
        })
    }

    /// The machine of an actor. It has that actor's three numbers.
    pub fn machine(&self, actor: u32) -> &A
        requires { actor < length (scene self.now).states }
        ensures state { slice_get (scene self.now).states actor ≡ Some (A.state result.now) }
        ensures counts { A.counts result.now ≡ counts_at (scene self.now).plan actor }
    {
        &self.machines[actor as usize]
    }

    /// How many puts a link has lost.
    pub fn lost(&self, link: u32) -> u64
        requires { link < length (scene self.now).plan.links }
        ensures { result ≡ (line_at (scene self.now).lines link).lost }
    {
        self.links.lost(link as usize)
    }

    /// The turns that did something, in order.
    pub fn book(&self) -> &Book
        ensures { result.now.entries ≡ (scene self.now).book }
    {
        &self.book
    }

    /// The machines and the book. Each machine has its actor's three numbers, and no number of the
    /// book is above that of its entries: so `resume` can go on from them.
    pub fn into_book(self) -> (Vec<A>, Book)
        ensures machines { map A.state result.0.items ≡ (scene self).states }
        ensures counts { HasCounts A.counts (scene self).plan result.0.items }
        ensures book { result.1.entries ≡ (scene self).book }
        ensures numbers { All (λ e. e.number ≤ length result.1.entries) result.1.entries }
    {
        (self.machines, self.book)
    }

    /// One turn of an actor. A turn that is refused for memory has changed nothing, and a turn on
    /// an empty link is never refused.
    pub fn turn(&mut self, actor: u32, choice: u32) -> Result<Turn, Memory>
        requires choice { HasChoice (scene self.old).plan actor choice }
        requires book { length (scene self.old).book < 2 ^ 40 }
        ensures after { OnOk result
            (scene self.new ≡ after_turn A.rules (scene self.old) (actor, choice)) }
        ensures did { result ≡ Ok Turn.Did → turn_of A.rules (scene self.old) actor choice
            ≡ Some (scene self.new) }
        ensures idle { result ≡ Ok Turn.Idle → turn_of A.rules (scene self.old) actor choice
            ≡ None }
        ensures same { result ≡ Ok Turn.Idle → scene self.new ≡ scene self.old }
        ensures empty { FindsNothing (scene self.old) actor choice → result ≡ Ok Turn.Idle }
        ensures err { OnErr result (scene self.new ≡ scene self.old) }

        // for callers who take many turns
        ensures plan { (scene self.new).plan ≡ (scene self.old).plan }
        ensures book { length (scene self.new).book ≤ length (scene self.old).book + 1 }
    {
        match self.links.incoming(actor, choice) {
            Some(link) => self.take_turn(actor, choice, link),
            None => self.act_turn(actor, choice),
        }
    }

    /// Looks up the link that each entry of a schedule takes from, so that `run` takes the schedule
    /// faster, again and again.
    pub fn look_up(&self, alloc: Global, schedule: &[(u32, u32)]) -> Result<Looked, Memory>
        requires { All (λ e. HasChoice (scene self.now).plan e.0 e.1) schedule.now }
        ensures { IfOk result (λ l. l ≡ links_of (scene self.now).plan schedule.now) }
    {
        self.links.look_up(alloc, schedule)
    }

    /// The turns of a whole schedule; after want of memory, those of a front of it. Where the links
    /// of its entries are given, the next that finds a message is searched for by them alone.
    pub fn run(&mut self, schedule: &[(u32, u32)], links: Option<&Looked>) -> Result<(), Memory>
        requires choices { All (λ e. HasChoice (scene self.old).plan e.0 e.1) schedule.now }
        requires links { IfSome links (λ l. l.now ≡ links_of (scene self.old).plan schedule.now) }
        requires book { length (scene self.old).book + length schedule.now < 2 ^ 40 }
        ensures ok { OnOk result
            (scene self.new ≡ after_all A.rules (scene self.old) schedule.now) }
        ensures front { IsFront A.rules (scene self.old) schedule.now (scene self.new) }
        ensures plan { (scene self.new).plan ≡ (scene self.old).plan }
        ensures book { length (scene self.new).book ≤ length
            (scene self.old).book + length schedule.now }
    {
        match links {
            Some(links) => self.run_by(schedule, links),
            None => self.run_each(schedule),
        }
    }

    /// `run` where the links were looked up.
    fn run_by(&mut self, schedule: &[(u32, u32)], looked: &Looked) -> Result<(), Memory>
        requires choices { All (λ e. HasChoice (scene self.old).plan e.0 e.1) schedule.now }
        requires links { looked.now ≡ links_of (scene self.old).plan schedule.now }
        requires book { length (scene self.old).book + length schedule.now < 2 ^ 40 }
        ensures { AreTurns A.rules schedule.now result (scene self.old) (scene self.new) }
    {
        let steps = looked.steps();
        let mut at = self.links.next_by(steps, 0);
        while at < steps.len() {
            self.turn_by(steps[at])?;
            at = self.links.next_by(steps, at + 1);
        }
        Ok(())
    }

    /// `turn` where the link was looked up, and has a message.
    #[inline(always)]
    fn turn_by(&mut self, step: Step) -> Result<(), Memory>
        requires choice { HasChoice (scene self.old).plan step.actor step.choice }
        requires link { step.link ≡ link_in (scene self.old).plan.links step.actor step.choice }
        requires some { step.link < length (scene self.old).plan.links
            → (line_at (scene self.old).lines step.link).queue ≢ [] }
        requires book { length (scene self.old).book < 2 ^ 40 }
        ensures after { OnOk result
            (scene self.new
            ≡ after_turn A.rules (scene self.old) (step.actor, step.choice)) }
        ensures err { OnErr result (scene self.new ≡ scene self.old) }
    {
        if self.links.is_link(step) {
            return self.take_from(step.actor, step.choice, step.link as usize);
        }
        self.act_turn(step.actor, step.choice)?;
        Ok(())
    }

    /// `run` where the links aren't given: each turn looks up its own.
    fn run_each(&mut self, schedule: &[(u32, u32)]) -> Result<(), Memory>
        requires choices { All (λ e. HasChoice (scene self.old).plan e.0 e.1) schedule.now }
        requires book { length (scene self.old).book + length schedule.now < 2 ^ 40 }
        ensures { AreTurns A.rules schedule.now result (scene self.old) (scene self.new) }
    {
        for at in 0..schedule.len() {
            let (actor, choice) = schedule[at];
            self.turn(actor, choice)?;
        }
        Ok(())
    }

    #[inline(always)]
    fn take_turn(&mut self, actor: u32, choice: u32, link: usize) -> Result<Turn, Memory>
        requires actor { actor < length (scene self.old).plan.ins }
        requires choice { choice < slice_index (scene self.old).plan.ins actor }
        requires book { length (scene self.old).book < 2 ^ 40 }
        requires link { link ≡ link_in (scene self.old).plan.links actor choice }
        requires below { link < length (scene self.old).plan.links }
        ensures turn { IsTurn A.rules actor choice result (scene self.old) (scene self.new) }
        ensures empty { (line_at (scene self.old).lines link).queue ≡ [] → result ≡ Ok Turn.Idle }
    {
        if self.links.is_empty(link) {
            return Ok(Turn::Idle);
        }
        self.take_from(actor, choice, link)?;
        Ok(Turn::Did)
    }

    /// Takes the first message of a link.
    #[inline(always)]
    fn take_from(&mut self, actor: u32, choice: u32, link: usize) -> Result<(), Memory>
        requires actor { actor < length (scene self.old).plan.ins }
        requires choice { choice < slice_index (scene self.old).plan.ins actor }
        requires book { length (scene self.old).book < 2 ^ 40 }
        requires link { link ≡ link_in (scene self.old).plan.links actor choice }
        requires below { link < length (scene self.old).plan.links }
        requires some { (line_at (scene self.old).lines link).queue ≢ [] }
        ensures did { OnOk result
            (turn_of A.rules (scene self.old) actor choice ≡ Some (scene self.new)) }
        ensures err { OnErr result (scene self.new ≡ scene self.old) }
    {
        prepare(&mut self.machines, &mut self.links, actor, choice)?;
        make_room(&mut self.book.entries)?;
        let m = self.links.take(link);
        take_at(&mut self.machines, actor as usize, choice, m, &mut self.out);
        note_rest(&mut self.resting, actor, 0);
        note(&mut self.book.entries, actor, choice);
        self.links.deliver(actor, &mut self.out);
        Ok(())
    }

    #[inline(always)]
    fn act_turn(&mut self, actor: u32, choice: u32) -> Result<Turn, Memory>
        requires choice { HasChoice (scene self.old).plan actor choice }
        requires action { slice_index (scene self.old).plan.ins actor ≤ choice }
        requires book { length (scene self.old).book < 2 ^ 40 }
        requires none { length (scene self.old).plan.links ≤ link_in
            (scene self.old).plan.links actor choice }
        ensures { IsTurn A.rules actor choice result (scene self.old) (scene self.new) }
    {
        let action = u64::from(choice) + 1;
        if self.resting[actor as usize] == action {
            return Ok(Turn::Idle);
        }
        prepare(&mut self.machines, &mut self.links, actor, choice)?;
        make_room(&mut self.book.entries)?;
        if !act_at(&mut self.machines, actor as usize, choice, &mut self.out) {
            note_rest(&mut self.resting, actor, action);
            return Ok(Turn::Idle);
        }
        note_rest(&mut self.resting, actor, 0);
        note(&mut self.book.entries, actor, choice);
        self.links.deliver(actor, &mut self.out);
        Ok(Turn::Did)
    }
}

/// Notes the action of an actor that is known to be idle, or with 0 that none is.
#[inline(always)]
fn note_rest(resting: &mut Vec<u64>, actor: u32, action: u64)
    requires { actor < length resting.old.items }
    ensures { resting.new.items ≡ slice_set resting.old.items actor action }
{
    resting[actor as usize] = action;
}

/// Takes the memory that a turn of an actor can need.
#[inline(always)]
fn prepare<A: Machine>(
    machines: &mut Vec<A>,
    links: &mut Links<A::Msg>,
    actor: u32,
    choice: u32,
) -> Result<(), Memory>
    requires actor { actor < length machines.old.items }
    requires choice { choice < slice_index (ins_of A.counts machines.old.items) actor + slice_index
        (actions_of A.counts machines.old.items) actor }
    requires linked { actor < length links.old.plan.ins }
    ensures states { map A.state machines.new.items ≡ map A.state machines.old.items }
    ensures counts { SameCounts A.counts machines.old.items machines.new.items }
    ensures plan { links.new.plan ≡ links.old.plan }
    ensures lines { links.new.lines ≡ links.old.lines }
    ensures roomy { OnOk result (slice_index_or links.new.roomy actor false ≡ true) }
    ensures ready { OnOk result
        (slice_get (map A.ready_for machines.new.items) actor ≡ Some (Some choice)) }
{
    links.make_room(actor)?;
    ready_at(machines, actor as usize, choice)
}
