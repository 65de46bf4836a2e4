// Laws of worlds, over all schedules and losses: the calls of units, the rows that are collected
// of them, and the findings that these give. The functions do nothing: their contracts are the
// laws, and the proofs are in proofs/. Most call the law that nets are wired.
ghost use Rattle.std.specs.Prelude.{◌≡◌, ℕ, ◌^◌, ◌<◌, ◌≤◌, List, [], ◌++◌, length, map, Some, None};
ghost use Rattle.std.specs.List.{range_with_len};
ghost use Rattle.sl_layout.specs.declared.actor.UnitId.{UnitId};
ghost use Rattle.sl_layout.specs.declared.actor.ActorId.TheVariants.{Unit as OfUnit};
ghost use Rattle.sl_layout.specs.Net.{actor_of, data_channels};
ghost use Rattle.sl_saves.specs.Views.{held_saved};
ghost use Rattle.sl_net.specs.Wired.{IsNet};
ghost use Rattle.sl_model.specs.declared.message.Step.{Step};
ghost use Rattle.sl_parts.specs.Lists.{Each};
ghost use Rattle.sl_model.specs.Words.{listed};
ghost use Rattle.sl_model.specs.History.{History, Losses, history, put, stamp_taken, first};
ghost use Rattle.sl_model.specs.Counting.{counted};
ghost use Rattle.sl_model.specs.Setup.{Setup};
ghost use Rattle.sl_model.specs.Knowledge.{observer, issued, floor, collected, upto_of};
ghost use Rattle.sl_model.specs.World.{Entry, next_step, world};
ghost use Rattle.sl_model.specs.Verdict.{miscredits, cause, lag};
ghost use Rattle.sl_model.specs.End.{IsFinished};
ghost use Rattle.sl_model.specs.Findings.{finding, findings, row as world_row};
ghost use Rattle.sl_model.specs.Calls.{calls, step_calls};
ghost use Rattle.sl_model.specs.Rows.{row};
ghost use Rattle.sl_model.specs.UnitWindow.{IsWithin, IsTakeable};
ghost use Rattle.sl_model.specs.Short.{TakesShort, SendsShort};
ghost use Rattle.sl_model.specs.Fields.{HasFields, SendsFields, MessageHasFields};
ghost use Rattle.sl_model.specs.Accounts.{accounts, cause_in, value_row, finding_by};

use crate::cut_laws::{collected_verdicts_are_known, finished_verdicts_are_known};
use sl_net::nets_are_wired;

/// The calls of a unit's next step, and those of all its steps, are such as saved entries take:
/// adoptions by 1 to W, and credits of one of eight channels with an age of 1 to W.
pub fn calls_are_in_window()
    ensures next { (s : Setup) (lost : Losses) (es : List Entry) (e : Entry)
        (i : UnitId) (step : Step) → IsNet s.net
        → actor_of s.net e.0 ≡ OfUnit i → next_step s lost (world s lost es) e ≡ Some step
        → Each (IsWithin s.window)
        (step_calls (data_channels s.net e.0) (history (world s lost es) e.0) step) }
    ensures all { (s : Setup) (lost : Losses) (es : List Entry) (u : ℕ) (i : UnitId)
        → IsNet s.net → actor_of s.net u ≡ OfUnit i
        → Each (IsWithin s.window) (calls (data_channels s.net u) (history (world s lost es) u)) }
{
    nets_are_wired()
}

/// The stamp that a unit's next step takes lies from the last-seen number of its link to W above
/// it, and at most W from the id. The id too lies from that number to W above it.
pub fn stamps_are_in_window()
    ensures { (s : Setup) (lost : Losses) (es : List Entry) (e : Entry)
        (i : UnitId) (step : Step) (j : ℕ) → IsNet s.net
        → actor_of s.net e.0 ≡ OfUnit i → next_step s lost (world s lost es) e ≡ Some step
        → stamp_taken step ≡ Some j
        → IsTakeable s.window step.choice (history (world s lost es) e.0) j }
{
    nets_are_wired()
}

/// Where the flows of a setup have packets shorter than 2 ^ 16 bytes and its raw frames are bytes,
/// each data packet that a unit counts is that short.
pub fn packets_are_short()
    ensures { (s : Setup) (lost : Losses) (es : List Entry) (u : ℕ)
        → SendsShort s → TakesShort (history (world s lost es) u) }
{}

/// In a schedule of fewer than 2 ^ 40 entries the totals of each row fit their type, so that a slot
/// holds the row as it is.
pub fn rows_are_held()
    ensures { (s : Setup) (lost : Losses) (es : List Entry) (cs : List ℕ) (u k n : ℕ)
        → SendsShort s → length es < 2 ^ 40
        → held_saved (row s.credits cs k (first n (history (world s lost es) u)))
        ≡ row s.credits cs k (first n (history (world s lost es) u)) }
{}

/// Where a data packet is credited to as many numbers as the window has, no number is miscredited.
pub fn enough_credits_miscredit_nothing()
    ensures { (s : Setup) (lost : Losses) (es : List Entry) (u k : ℕ) (i : UnitId)
        → IsNet s.net → actor_of s.net u ≡ OfUnit i
        → s.window ≤ s.credits → miscredits s.credits k (history (world s lost es) u) ≡ [] }
{
    nets_are_wired()
}

/// Once the id and the data last-seen numbers of a unit have reached k, the row of k stays what it
/// is after more of its steps, and in every longer schedule. So does the row of each number that
/// the observer has collected.
pub fn rows_are_final()
    ensures later { (s : Setup) (lost : Losses) (es : List Entry) (cs : List ℕ) (u k n m : ℕ)
        → IsNet s.net → n ≤ m
        → lag s.net k u (first n (history (world s lost es) u)) ≡ None
        → row s.credits cs k (first m (history (world s lost es) u))
        ≡ row s.credits cs k (first n (history (world s lost es) u)) }
    ensures ahead { (s : Setup) (lost : Losses) (es fs : List Entry) (cs : List ℕ) (u k n : ℕ)
        → IsNet s.net
        → n ≤ length (history (world s lost es) u)
        → lag s.net k u (first n (history (world s lost es) u)) ≡ None
        → row s.credits cs k (history (world s lost (es ++ fs)) u)
        ≡ row s.credits cs k (first n (history (world s lost es) u)) }
    ensures collected { (s : Setup) (lost : Losses) (es : List Entry)
        (cs : List ℕ) (u k : ℕ) (i : UnitId) → IsNet s.net → actor_of s.net u ≡ OfUnit i
        → k ≤ upto_of s.net u (collected s.net (world s lost es) u)
        → row s.credits cs k (collected s.net (world s lost es) u)
        ≡ row s.credits cs k (history (world s lost es) u) }
{
    nets_are_wired()
}

/// A row says why its number is inconsistent, if it is, and else the counts of the unit and the
/// values of its data channels.
pub fn rows_are_of_the_world()
    ensures causes { (n : ℕ) (cs : List ℕ) (k : ℕ) (h : History)
        → cause_in (row n cs k h) ≡ cause n k h }
    ensures values { (s : Setup) (lost : Losses) (es : List Entry) (k u : ℕ)
        → IsNet s.net → 1 ≤ s.credits
        → cause s.credits k (history (world s lost es) u) ≡ None
        → value_row (Some (row s.credits (data_channels s.net u) k (history (world s lost es) u)))
        ≡ world_row s.net lost (world s lost es) k u }
{
    nets_are_wired()
}

/// The findings by what the observer knows of the units, their ids, last-seen numbers, floors and
/// rows, are those of the world: up to the floor at any time, and in a finished world all.
pub fn accounts_give_findings()
    ensures collected { (s : Setup) (lost : Losses) (es : List Entry) (k : ℕ)
        → IsNet s.net → 1 ≤ s.credits → 1 ≤ k → k ≤ floor s.net (world s lost es)
        → finding_by (issued s.net (observer (world s lost es)))
        (accounts s.credits s.net (world s lost es)) k
        ≡ finding s.credits s.net lost (world s lost es) k }
    ensures finished { (s : Setup) (lost : Losses) (es : List Entry) (k : ℕ)
        → IsNet s.net → 1 ≤ s.credits → IsFinished s lost (world s lost es) → 1 ≤ k
        → finding_by (issued s.net (observer (world s lost es)))
        (accounts s.credits s.net (world s lost es)) k
        ≡ finding s.credits s.net lost (world s lost es) k }
    ensures list { (s : Setup) (lost : Losses) (es : List Entry) → IsNet s.net
        → 1 ≤ s.credits → IsFinished s lost (world s lost es)
        → map (finding_by (issued s.net (observer (world s lost es)))
        (accounts s.credits s.net (world s lost es))) (range_with_len 1 s.count)
        ≡ (findings s lost es).list }
{
    nets_are_wired();
    collected_verdicts_are_known();
    finished_verdicts_are_known()
}

/// Where the fields of the packets that hosts send fit the columns of a frame, so do those of each
/// packet that is put, and of each that is counted.
pub fn packets_have_fields()
    ensures put { (s : Setup) (lost : Losses) (es : List Entry) (l a : ℕ)
        → SendsFields s → Each MessageHasFields (put l (history (world s lost es) a)) }
    ensures counted { (s : Setup) (lost : Losses) (es : List Entry) (a : ℕ) → SendsFields s
        → Each (λ step. Each HasFields (listed (counted step))) (history (world s lost es) a) }
    ensures short { (s : Setup) → SendsFields s → SendsShort s }
{}
