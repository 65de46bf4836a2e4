// Laws of histories, over all schedules and losses. The functions do nothing: their contracts are
// the laws, and the proofs are in proofs/. Most call the law that nets are wired.
ghost use Rattle.std.specs.Prelude.{◌≡◌, ℕ, ◌+◌, ◌<◌, ◌≤◌, List, ◌++◌, length, true, None, IsTrue};
ghost use Rattle.sl_layout.specs.declared.actor.UnitId.{UnitId};
ghost use Rattle.sl_layout.specs.declared.actor.ActorId.TheVariants.{Unit as OfUnit};
ghost use Rattle.sl_layout.specs.Net.{actor_of, link_of};
ghost use Rattle.sl_layout.specs.Serving.{served};
ghost use Rattle.sl_net.specs.Wired.{IsNet};
ghost use Rattle.sl_parts.specs.Lists.{Each};
ghost use Rattle.sl_model.specs.History.{Losses, history, id, first, put};
ghost use Rattle.sl_model.specs.Setup.{Setup};
ghost use Rattle.sl_model.specs.Knowledge.{observer, told_of, issued, upto_of, floor};
ghost use Rattle.sl_model.specs.World.{Entry, IsLossTable, world, sender};
ghost use Rattle.sl_model.specs.Losses.{losses};
ghost use Rattle.sl_net.specs.Input.{Input};
ghost use Rattle.sl_model.specs.Made.{IsFifoRun};
ghost use Rattle.sl_model.specs.Cut.{cuts};
ghost use Rattle.sl_model.specs.Matching.{IsDataChannel, IsConsistentCut};
ghost use Rattle.sl_model.specs.Fit.{fits_link, is_stamped};
ghost use Rattle.sl_model.specs.Late.{IsLateData};
ghost use Rattle.sl_model.specs.Window.{IsInWindow, IsNear};
ghost use Rattle.sl_model.specs.Verdict.{lag, verdict};
ghost use Rattle.sl_model.specs.Collected.{IsKept, known_verdict};
ghost use Rattle.sl_model.specs.End.{IsFinished};

use sl_net::nets_are_wired;

/// Each world that a schedule reaches is a run: each step is made from the history before it, and
/// links are first in, first out.
pub fn worlds_are_runs()
    ensures { (s : Setup) (lost : Losses) (es : List Entry) → IsFifoRun s lost (world s lost es) }
{}

/// Each message fits the sort of the link that it is put on.
pub fn messages_fit_links()
    ensures { (s : Setup) (lost : Losses) (es : List Entry) (l : ℕ)
        → Each (λ m. fits_link s.net l m ≡ true) (put l (sender s.net (world s lost es) l)) }
{}

/// In each world that a schedule reaches, whatever is lost, the steps of all actors before their
/// ids reach k are a consistent cut (Chandy, Lamport 1985).
pub fn cuts_are_consistent()
    ensures { (s : Setup) (lost : Losses) (es : List Entry) (k : ℕ) → IsNet s.net
        → IsConsistentCut s.net lost (world s lost es) (cuts (world s lost es) k) }
{
    nets_are_wired()
}

/// The channel value of k is what the receiver took of data packets with stamps below k in the
/// steps outside its cut (Chandy, Lamport 1985: the state of a channel).
pub fn channel_values_are_late_data()
    ensures { (s : Setup) (lost : Losses) (es : List Entry) (k l : ℕ)
        → IsNet s.net → IsDataChannel s.net l
        → IsLateData s.net lost (world s lost es) k l }
{
    nets_are_wired()
}

/// The window law: what is known of each unit never falls on its way to the observer, stamps and
/// Begin numbers never fall on their links, each number is at most K, and K is at most F + W.
pub fn worlds_are_in_window()
    ensures { (s : Setup) (lost : Losses) (es : List Entry) → IsNet s.net
        → IsInWindow s lost (world s lost es) }
{
    nets_are_wired()
}

/// The observer's floor F never falls.
pub fn floor_never_falls()
    ensures { (s : Setup) (lost : Losses) (es fs : List Entry) → IsNet s.net
        → floor s.net (world s lost es) ≤ floor s.net (world s lost (es ++ fs)) }
{
    nets_are_wired()
}

/// The first steps of a history stay what they are in every longer schedule.
pub fn histories_only_grow()
    ensures { (s : Setup) (lost : Losses) (es fs : List Entry) (a n : ℕ)
        → n ≤ length (history (world s lost es) a)
        → first n (history (world s lost (es ++ fs)) a) ≡ first n (history (world s lost es) a) }
{}

/// A unit's id, and each stamp on its way to it, lie at most W above the last-seen number of each
/// stamped link that leads to it.
pub fn numbers_are_near()
    ensures { (s : Setup) (lost : Losses) (es : List Entry) (u l : ℕ) (i : UnitId)
        → IsNet s.net → actor_of s.net u ≡ OfUnit i
        → l < length s.net.links → (link_of s.net l).to ≡ u
        → IsTrue (is_stamped (link_of s.net l).sort) → IsNear s lost (world s lost es) u l }
{
    nets_are_wired()
}

/// An id lies less than W above each number past the floor, so less than the size of a ring of at
/// least W slots.
pub fn numbers_past_floor_are_near()
    ensures { (s : Setup) (lost : Losses) (es : List Entry) (a k ring : ℕ)
        → IsNet s.net → s.window ≤ ring → floor s.net (world s lost es) < k
        → id (history (world s lost es) a) < k + ring }
{
    nets_are_wired()
}

/// A unit's id lies less than W above each number that its control plane has not collected of it,
/// so less than the size of a ring of at least W slots.
pub fn uncollected_numbers_are_near()
    ensures { (s : Setup) (lost : Losses) (es : List Entry) (a ring : ℕ)
        → IsNet s.net → s.window ≤ ring
        → Each (λ v. (k : ℕ)
        → upto_of s.net v.unit
        (told_of (history (world s lost es)) v (history (world s lost es) a)) < k
        → id (history (world s lost es) v.unit) < k + ring) (served s.net a) }
{
    nets_are_wired()
}

/// Once the id and the data last-seen numbers of a unit have reached k, what its history tells of
/// k stays what it is in every longer schedule.
pub fn collected_rows_stay()
    ensures { (s : Setup) (lost : Losses) (es fs : List Entry) (u k n : ℕ)
        → IsNet s.net → n ≤ length (history (world s lost es) u)
        → lag s.net k u (first n (history (world s lost es) u)) ≡ None
        → IsKept s.credits s.net u k (first n (history (world s lost es) u))
        (history (world s lost (es ++ fs)) u) }
{
    nets_are_wired()
}

/// The verdict on a number up to the floor is the one from what the observer knows of the units.
pub fn collected_verdicts_are_known()
    ensures { (s : Setup) (lost : Losses) (es : List Entry) (k : ℕ)
        → IsNet s.net → k ≤ floor s.net (world s lost es)
        → known_verdict s.credits s.net (world s lost es) k
        ≡ verdict s.credits s.net (world s lost es) k }
{
    nets_are_wired()
}

/// The verdict on a number up to the floor stays what it is in every longer schedule.
pub fn collected_verdicts_stay()
    ensures { (s : Setup) (lost : Losses) (es fs : List Entry) (k : ℕ)
        → IsNet s.net → k ≤ floor s.net (world s lost es)
        → verdict s.credits s.net (world s lost (es ++ fs)) k
        ≡ verdict s.credits s.net (world s lost es) k }
{
    nets_are_wired()
}

/// In a finished world the verdict on each number that was issued is the one from what the
/// observer knows of the units.
pub fn finished_verdicts_are_known()
    ensures { (s : Setup) (lost : Losses) (es : List Entry) (k : ℕ)
        → IsNet s.net → IsFinished s lost (world s lost es)
        → k ≤ issued s.net (observer (world s lost es))
        → known_verdict s.credits s.net (world s lost es) k
        ≡ verdict s.credits s.net (world s lost es) k }
{
    nets_are_wired()
}

/// What an input loses is a loss table: on a reliable link nothing is lost.
pub fn inputs_spare_reliable_links()
    ensures { (i : Input) → IsLossTable i.net (losses i) }
{}
