// Laws of what is reported of units, over all schedules and losses. The functions do nothing: their
// contracts are the laws, and the proofs are in proofs/.
ghost use Rattle.std.specs.Prelude.{◌≡◌, ℕ, ◌<◌, ◌≤◌, List, ◌++◌, length, true, Some};
ghost use Rattle.sl_layout.specs.declared.actor.UnitId.{UnitId};
ghost use Rattle.sl_layout.specs.declared.actor.ActorId.TheVariants.{Control, Unit as OfUnit};
ghost use Rattle.sl_layout.specs.Net.{Net, actor_of, choice_of, unit_place};
ghost use Rattle.sl_layout.specs.Serving.{served};
ghost use Rattle.sl_net.specs.Wired.{IsNet, Reports};
ghost use Rattle.sl_model.specs.declared.message.Message.TheVariants.{Dump as DumpMsg};
ghost use Rattle.sl_model.specs.declared.message.Message.TheVariants.{Done as DoneMsg};
ghost use Rattle.sl_model.specs.declared.message.Step.{Step};
ghost use Rattle.sl_parts.specs.Lists.{Each};
ghost use Rattle.sl_model.specs.Words.{numbers};
ghost use Rattle.sl_saves.specs.declared.entry.View.{View};
ghost use Rattle.sl_saves.specs.Views.{IsShown, IsLive, held_saved, read};
ghost use Rattle.sl_model.specs.History.{History, Losses, history, dump_of, done_of, id, first};
ghost use Rattle.sl_model.specs.History.{takes, put};
ghost use Rattle.sl_model.specs.Setup.{Setup};
ghost use Rattle.sl_model.specs.Knowledge.{observer, dumped, is_outstanding, known, upto_of};
ghost use Rattle.sl_model.specs.World.{Entry, IsLossTable, next_step, world};
ghost use Rattle.sl_model.specs.Window.{on_way};
ghost use Rattle.sl_model.specs.Calls.{calls};
ghost use Rattle.sl_model.specs.Rows.{row};
ghost use Rattle.sl_model.specs.Brought.{IsBrought};
ghost use Rattle.sl_model.specs.Polls.{IsAsked};
ghost use Rattle.sl_model.specs.Reported.{AreReported};

use sl_net::nets_are_wired;
use sl_saves::{shown_is_live, shown_is_read};

/// A control plane takes no more dumps of a unit than it put polls to it, and has at most one poll
/// outstanding. Each dump that it takes next was asked for.
pub fn dumps_answer_polls()
    ensures polls { (s : Setup) (lost : Losses) (es : List Entry) (a d : ℕ)
        → IsNet s.net → actor_of s.net a ≡ Control d
        → Each (λ v. IsAsked v (history (world s lost es) a)) (served s.net a) }
    ensures next { (s : Setup) (lost : Losses) (es : List Entry) (e : Entry) (step : Step)
        → IsNet s.net
        → next_step s lost (world s lost es) e ≡ Some step
        → Each (λ v. step.choice ≡ v.dump → is_outstanding v (history (world s lost es) e.0) ≡ true)
        (served s.net e.0) }
{
    nets_are_wired()
}

/// The Dones that a control plane puts of a unit tell, in order, what the dumps said that it took
/// of it. Where nothing is lost on reliable links, these are the Dones that the observer took, and
/// then those on their way to it.
pub fn dones_tell_dumps()
    ensures put { (s : Setup) (lost : Losses) (es : List Entry) (u : ℕ)
        (i : UnitId) (r : Reports s.net u) → actor_of s.net u ≡ OfUnit i
        → numbers (done_of (unit_place s.net u)) (put r.done (history (world s lost es) r.control))
        ≡ numbers dump_of (takes (choice_of s.net r.dump) (history (world s lost es) r.control)) }
    ensures taken { (s : Setup) (lost : Losses) (es : List Entry)
        (u : ℕ) (i : UnitId) (r : Reports s.net u)
        → IsLossTable s.net lost → actor_of s.net u ≡ OfUnit i
        → numbers (done_of (unit_place s.net u))
        (takes (choice_of s.net r.done) (observer (world s lost es))
        ++ on_way s.net lost (world s lost es) r.done)
        ≡ numbers dump_of (takes (choice_of s.net r.dump) (history (world s lost es) r.control)) }
{}

/// What the observer and a control plane know of a unit is how many steps it made at some time.
pub fn known_steps_are_made()
    ensures { (s : Setup) → IsNet s.net → AreReported s }
{
    nets_are_wired()
}

/// What the next dump that a control plane takes from a unit brings it, over what it knows.
pub fn dumps_bring_rows()
    ensures { (s : Setup) (lost : Losses) (es : List Entry) (e : Entry) (n : ℕ) (step : Step)
        → IsNet s.net
        → next_step s lost (world s lost es) e ≡ Some step → step.taken ≡ Some (DumpMsg n)
        → Each (λ v. step.choice ≡ v.dump
        → IsBrought s.net s.window v.unit (history (world s lost es) v.unit)
        (dumped v.dump (history (world s lost es) e.0)) n) (served s.net e.0) }
{
    nets_are_wired()
}

/// What the next Done that the observer takes of a unit brings it, over what it knows.
pub fn dones_bring_rows()
    ensures { (s : Setup) (lost : Losses) (es : List Entry) (c u n : ℕ) (i : UnitId) (step : Step)
        → IsNet s.net
        → next_step s lost (world s lost es) (0, c) ≡ Some step → actor_of s.net u ≡ OfUnit i
        → step.taken ≡ Some (DoneMsg (unit_place s.net u) n)
        → IsBrought s.net s.window u (history (world s lost es) u)
        (known (unit_place s.net u) (observer (world s lost es))) n }
{
    nets_are_wired()
}

/// A view that shows the calls of the steps that news of a unit tells, with as many slots as the
/// window or more, is read as the rows of the numbers that the news brings.
pub fn brought_rows_are_read()
    ensures live { (net : Net) (window u : ℕ) (h : History) (m n credits : ℕ)
        (cs : List ℕ) (view : View) (k : ℕ) → IsBrought net window u h m n
        → IsShown credits view (calls cs (first n h)) → window ≤ length view.slots
        → upto_of net u (first m h) < k → k ≤ upto_of net u (first n h)
        → IsLive view (id (first n h)) k }
    ensures read { (net : Net) (window u : ℕ) (h : History) (m n credits : ℕ)
        (cs : List ℕ) (view : View) (k : ℕ) → IsBrought net window u h m n
        → 1 ≤ credits → IsShown credits view (calls cs (first n h))
        → window ≤ length view.slots → upto_of net u (first m h) < k → k ≤ upto_of net u (first n h)
        → read view (id (first n h)) k ≡ held_saved (row credits cs k (first n h)) }
{
    shown_is_live();
    shown_is_read()
}
