// All links of a net: where each goes, and what is on it.
ghost use Rattle.std.specs.Prelude.{◌≡◌, ◌≢◌, ◌+◌, ◌<◌, ◌≤◌, ◌↔◌, ◌∷◌, [], ℕ, true, false};
ghost use Rattle.std.specs.Prelude.{length, drop, slice_index, slice_set, slice_index_or, IsTrue};
ghost use Rattle.std.specs.Prelude.{IfOk, OnOk, Some, All};
ghost use Rattle.sl_machine.specs.Machine.{is_fitting};
ghost use Rattle.sl_machine.specs.Plan.{IsSound, link_in};
ghost use Rattle.sl_world.specs.Scene.{line_at, without_first, put_all, put_each, links_of};
ghost use Rattle.sl_world.specs.Mesh.{lines_of, room_at, KeepsSomeRoom, HasRoomFor, IsElsewhere};
ghost use Rattle.sl_world.specs.Mesh.{IsIncoming};
ghost use Rattle.sl_world.specs.Places.{place_of};
ghost use Rattle.sl_world.specs.Looked.{HasRuns, step_at};

use crate::line::Line;
use crate::looked::{Looked, Step};
use crate::make::{copy_wiring, incoming_pairs, outgoing_pairs};
use crate::marked_lines::MarkedLines;
use crate::places::{Places, place_in};
use sl_machine::{Memory, Outputs, Wiring};
use std::alloc::Global;
use std::marker::Model;

/// The links of a net, with tables by which an actor's links are found.
#[derive(Drop)]
pub struct Links<M> {
    wiring: Wiring,
    ins: Places,
    outs: Places,
    lines: MarkedLines<M>,
    // whether each outgoing link of an actor is known to have room for a message
    roomy: Vec<bool>,
}

impl<M> Model for Links<M> {
    ghost use Rattle.sl_world.specs.Mesh.{Mesh, IsMesh, lines_of};

    ghost Value = { Mesh M };

    ghost view = { λ a.
        record { plan = a.wiring; lines = lines_of a.lines; roomy = a.roomy.items } };

    ghost invariant = { λ a. IsMesh a.wiring a.ins a.outs a.lines a.roomy.items };
}

impl<M: Drop> Links<M> {
    /// Joins these links by this wiring.
    pub fn join(alloc: Global, wiring: &Wiring, lines: Vec<Line<M>>) -> Result<Links<M>, Memory>
        requires sound { IsSound wiring.now }
        requires each { length lines.items ≡ length wiring.now.links }
        ensures plan { IfOk result (λ m. m.plan ≡ wiring.now) }
        ensures lines { IfOk result (λ m. m.lines ≡ lines_of lines.items) }
    {
        let in_pairs = incoming_pairs(alloc, wiring.links.as_slice())?;
        let ins = Places::make(alloc, wiring.in_counts.as_slice(), in_pairs.as_slice())?;
        let out_pairs = outgoing_pairs(alloc, wiring.links.as_slice())?;
        let outs = Places::make(alloc, wiring.out_counts.as_slice(), out_pairs.as_slice())?;
        let wiring = copy_wiring(alloc, wiring)?;
        let lines = MarkedLines::new(alloc, lines)?;
        let roomy = vec![in alloc; false; wiring.in_counts.len()]?;
        Ok(Links {
            wiring,
            ins,
            outs,
            lines,
            roomy,
        })
    }

    /// The link that a choice takes from; None where the choice is an action.
    pub fn incoming(&self, actor: u32, choice: u32) -> Option<usize>
        requires { actor < length self.now.plan.ins }
        ensures { IsIncoming self.now.plan actor choice result }
    {
        let wiring = &self.wiring;
        if choice < wiring.in_counts[actor as usize] {
            Some(self.ins.place(actor as usize, choice))
        } else {
            None
        }
    }

    /// Whether nothing is on a link.
    pub fn is_empty(&self, link: usize) -> bool
        requires { link < length self.now.plan.links }
        ensures { IsTrue result ↔ ((line_at self.now.lines link).queue ≡ []) }
    {
        self.lines.is_empty(link)
    }

    /// The link that a choice takes from, or the number of links where it is an action. No memory
    /// holds so many links that their number doesn't fit 32 bits.
    #[tactic(auto, using(crate::proofs::LookupLemmas::link_in_most))]
    fn look_up_one(&self, actor: u32, choice: u32) -> Result<u32, Memory>
        requires { actor < length self.now.plan.ins }
        ensures { IfOk result (λ l. l ≡ link_in self.now.plan.links actor choice) }
    {
        let link = match self.incoming(actor, choice) {
            Some(link) => link,
            None => self.wiring.links.len(),
        };
        match u32::try_from(link) {
            Ok(number) => Ok(number),
            Err(_) => Err(Memory),
        }
    }

    /// Looks up the link that each entry of a schedule takes from.
    pub fn look_up(&self, alloc: Global, schedule: &[(u32, u32)]) -> Result<Looked, Memory>
        requires { All (λ e. e.0 < length self.now.plan.ins) schedule.now }
        ensures { IfOk result (λ l. l ≡ links_of self.now.plan schedule.now) }
    {
        let mut steps = Vec::with_capacity(alloc, schedule.len())?;
        for (actor, choice) in schedule {
            steps.push(Step {
                actor: *actor,
                choice: *choice,
                link: self.look_up_one(*actor, *choice)?,
                run: 1,
            })?;
        }
        Ok(Looked::join(steps))
    }

    /// Whether a step takes from a link, and is no action.
    #[inline(always)]
    pub fn is_link(&self, step: Step) -> bool
        requires actor { step.actor < length self.now.plan.ins }
        requires link { step.link ≡ link_in self.now.plan.links step.actor step.choice }
        ensures link { result ≡ true → (step.link < length self.now.plan.links)
            × (step.choice < slice_index self.now.plan.ins step.actor) }
        ensures action { result ≡ false → (length self.now.plan.links ≤ step.link)
            × (slice_index self.now.plan.ins step.actor ≤ step.choice) }
    {
        let wiring = &self.wiring;
        (step.link as usize) < wiring.links.len()
    }

    /// The place of the first step, from this one on, whose link has a message or which is an action,
    /// or where there is none the number of steps.
    #[inline(always)]
    pub fn next_by(&self, steps: &[Step], from: usize) -> usize
        requires links { All (λ s. s.link ≤ length self.now.plan.links) steps.now }
        requires runs { HasRuns steps.now }
        requires within { from ≤ length steps.now }
        ensures from { from ≤ result }
        ensures within { result ≤ length steps.now }
        ensures nothing { (k : ℕ) → from ≤ k → k < result → let link = (step_at steps.now k).link in
            (link < length self.now.plan.links) × ((line_at self.now.lines link).queue ≡ []) }
        ensures some { result < length steps.now → let link = (step_at steps.now result).link in
            link < length self.now.plan.links → (line_at self.now.lines link).queue ≢ [] }
    {
        let mut at = from;
        while at < steps.len() {
            let step = &steps[at];
            let link = step.link as usize;
            let end = link + step.run as usize;
            let found = self.lines.next(link, end);
            if found < end {
                return at + (found - link);
            }
            at += step.run as usize;
        }
        at
    }

    /// How many puts a link has lost.
    pub fn lost(&self, link: usize) -> u64
        requires { link < length self.now.plan.links }
        ensures { result ≡ (line_at self.now.lines link).lost }
    {
        self.lines.lost(link)
    }

    /// Makes room for a message on each outgoing link of an actor, unless there is.
    pub fn make_room(&mut self, actor: u32) -> Result<(), Memory>
        requires { actor < length self.old.plan.ins }
        ensures plan { self.new.plan ≡ self.old.plan }
        ensures lines { self.new.lines ≡ self.old.lines }
        ensures roomy { OnOk result (slice_index_or self.new.roomy actor false ≡ true) }
    {
        let actor = actor as usize;
        if self.roomy[actor] {
            return Ok(());
        }
        let wiring = &self.wiring;
        let count = wiring.out_counts[actor];
        make_room_at(&mut self.lines, &self.outs, actor, count)?;
        self.roomy[actor] = true;
        Ok(())
    }

    /// Takes the first message of a link.
    #[inline(always)]
    pub fn take(&mut self, link: usize) -> M
        requires link { link < length self.old.plan.links }
        requires some { (line_at self.old.lines link).queue ≢ [] }
        ensures first { (line_at self.old.lines link).queue
            ≡ result ∷ drop 1 (line_at self.old.lines link).queue }
        ensures rest { let line = line_at self.old.lines link in
            self.new.lines ≡ slice_set self.old.lines link
            (without_first line (drop 1 line.queue)) }
        ensures plan { self.new.plan ≡ self.old.plan }
        ensures roomy { self.new.roomy ≡ self.old.roomy }
    {
        self.lines.take(link)
    }

    /// Puts an actor's messages on its links. Many turns put none.
    #[inline(always)]
    pub fn deliver(&mut self, actor: u32, out: &mut Outputs<M>)
        requires actor { actor < length self.old.plan.ins }
        requires roomy { slice_index_or self.old.roomy actor false ≡ true }
        requires fitting { is_fitting (slice_index self.old.plan.outs actor) out.old.items ≡ true }
        ensures lines { self.new.lines ≡ put_all self.old.plan.links
            actor out.old.items self.old.lines }
        ensures plan { self.new.plan ≡ self.old.plan }
        ensures items { out.new.items ≡ [] }
        ensures room { out.new.room ≡ out.old.room }
    {
        if out.items().is_empty() {
            return;
        }
        let actor = actor as usize;
        let roomy = put_at_places(&mut self.lines, &self.outs, actor, out);
        self.roomy[actor] = roomy;
    }
}

/// Makes room for a message on each of the first links of an actor.
#[cold]
#[inline(never)]
fn make_room_at<M: Drop>(
    lines: &mut MarkedLines<M>,
    outs: &Places,
    actor: usize,
    count: u32,
) -> Result<(), Memory>
    requires actor { actor < length outs.now.starts.items }
    requires within { (o : ℕ) → o < count → slice_index outs.now.starts.items actor + o
        < length outs.now.places.items }
    requires places { (o : ℕ) → o < count → place_of outs.now actor o < length lines.old }
    ensures lines { lines_of lines.new ≡ lines_of lines.old }
    ensures keeps { KeepsSomeRoom lines.old lines.new }
    ensures room { OnOk result
        ((o : ℕ) → o < count → 0 < room_at lines.new (place_of outs.now actor o)) }
{
    for number in 0..count {
        let place = outs.place(actor, number);
        lines.make_room(place)?;
    }
    Ok(())
}

/// Puts each message on the link that the table has for its number, and answers whether each of
/// these links has room for one more. No two go to one link, so their order doesn't matter.
#[inline(always)]
fn put_at_places<M: Drop>(
    lines: &mut MarkedLines<M>,
    outs: &Places,
    actor: usize,
    out: &mut Outputs<M>,
) -> bool
    requires actor { actor < length outs.now.starts.items }
    requires within { All
        (λ p. slice_index outs.now.starts.items actor + p.0 < length outs.now.places.items)
        out.old.items }
    requires room { HasRoomFor (place_of outs.now actor) lines.old out.old.items }
    ensures lines { lines_of lines.new ≡ put_each (place_of outs.now actor) out.old.items
        (lines_of lines.old) }
    ensures others { (k : ℕ) → IsElsewhere (place_of outs.now actor) out.old.items k
        → room_at lines.new k ≡ room_at lines.old k }
    ensures roomy { IsTrue result → KeepsSomeRoom lines.old lines.new }
    ensures items { out.new.items ≡ [] }
    ensures room { out.new.room ≡ out.old.room }
{
    let mut roomy = true;
    while let Some((number, m)) = out.take_last() {
        let place = outs.place(actor, number);
        let some = lines.put(place, m);
        roomy &= some;
    }
    roomy
}
