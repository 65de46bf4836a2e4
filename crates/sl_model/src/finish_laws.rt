// Laws of finishing, and of how many turns a run has: for each net of valid parts, each setup,
// each schedule and each loss table. The functions do nothing: their contracts are the laws, and
// the proofs are in proofs/.
ghost use Rattle.std.specs.Prelude.{◌≡◌, ℕ, suc, ◌+◌, ◌*◌, ◌^◌, ◌<◌, ◌≤◌, List, [], ◌++◌, map};
ghost use Rattle.std.specs.Prelude.{length, Some, IsSome};
ghost use Rattle.std.specs.List.{sum};
ghost use Rattle.sl_machine.specs.declared.wiring.Entry.{Entry as BookEntry};
ghost use Rattle.sl_layout.specs.Net.{units};
ghost use Rattle.sl_net.specs.Input.{Input};
ghost use Rattle.sl_net.specs.Wired.{IsNet};
ghost use Rattle.sl_model.specs.declared.message.Step.{Step};
ghost use Rattle.sl_model.specs.History.{Losses};
ghost use Rattle.sl_model.specs.Setup.{Setup, setup_of};
ghost use Rattle.sl_model.specs.Knowledge.{observer, issued};
ghost use Rattle.sl_model.specs.World.{Entry, IsLossTable, next_step, turn, run, world, kept};
ghost use Rattle.sl_model.specs.World.{kept_from};
ghost use Rattle.sl_model.specs.Schedule.{settling_pass, expand};
ghost use Rattle.sl_model.specs.End.{finish, Settled, IsFin, IsFinished};
ghost use Rattle.sl_model.specs.Bound.{frame_count, bound_of, input_bound};
ghost use Rattle.sl_model.specs.Potential.{potential, allowed};
ghost use Rattle.sl_model.specs.Sweeps.{sweeps_in};
ghost use Rattle.sl_model.specs.FirstNet.{IsFirstNet};
ghost use Rattle.sl_model.specs.Ended.{IsEnded};
ghost use Rattle.sl_model.specs.Finished.{IsBookOfRun};

/// Where a settling pass does nothing the world is settled: each link is empty, each host has put
/// all its messages, and there is nothing to issue.
pub fn idle_passes_settle()
    ensures { (s : Setup) (lost : Losses) (es : List Entry) → IsNet s.net
        → kept_from s lost (world s lost es) (settling_pass s.net) ≡ []
        → Settled s lost (world s lost es) }
{}

/// No more snapshots are issued than the setup has.
pub fn issues_are_counted()
    ensures { (s : Setup) (lost : Losses) (es : List Entry) → IsNet s.net
        → issued s.net (observer (world s lost es)) ≤ s.count }
{}

/// What finishing takes from the world of any schedule leads to a finished world.
pub fn finishing_finishes()
    ensures { (s : Setup) (lost : Losses) (es fs : List Entry) → IsNet s.net
        → IsLossTable s.net lost → 0 < s.window
        → IsFin s lost (world s lost es) fs → IsFinished s lost (run s lost (world s lost es) fs) }
{}

/// Each turn that does something lowers the potential, sweeps aside: a sweep may add 1, and 3 for
/// each unit that its control plane serves.
pub fn turns_lower_the_potential()
    ensures { (s : Setup) (lost : Losses) (es : List Entry) (e : Entry) (step : Step) → IsNet s.net
        → next_step s lost (world s lost es) e ≡ Some step
        → suc (potential s lost (turn s lost (world s lost es) e))
        ≤ potential s lost (world s lost es) + allowed s.net e }
{}

/// The entries of a schedule that aren't idle, and then what finishing takes, are no more than the
/// bound says for the sweeps of the schedule.
pub fn runs_are_bounded()
    ensures { (s : Setup) (lost : Losses) (es fs : List Entry) → IsNet s.net
        → IsFin s lost (world s lost es) fs
        → length (kept s lost es ++ fs) ≤ bound_of s (sweeps_in s.net es) }
{}

/// Such a run is legal, its world is finished, and it is no longer than the bound says.
pub fn runs_end()
    ensures { (s : Setup) (lost : Losses) (es fs : List Entry) → IsNet s.net
        → IsLossTable s.net lost → 0 < s.window
        → IsFin s lost (world s lost es) fs → IsEnded s lost es (kept s lost es ++ fs) }
{}

/// After every schedule finishing ends within the fuel of the bound.
pub fn bound_is_enough_fuel()
    ensures { (s : Setup) (lost : Losses) (es : List Entry) (fuel : ℕ) → IsNet s.net
        → bound_of s (sweeps_in s.net es) ≤ fuel → IsSome (finish fuel s lost (world s lost es)) }
{}

/// After every schedule finishing ends.
pub fn finishing_ends()
    ensures { (s : Setup) (lost : Losses) (es : List Entry) → IsNet s.net
        → (fs : List Entry) × IsFin s lost (world s lost es) fs }
{}

/// More fuel changes no answer of finishing.
pub fn more_fuel_changes_nothing()
    ensures { (s : Setup) (lost : Losses) (es fs : List Entry) (fuel more : ℕ) → fuel ≤ more
        → finish fuel s lost (world s lost es) ≡ Some fs
        → finish more s lost (world s lost es) ≡ Some fs }
{}

/// So finishing takes one schedule from a world.
pub fn finishing_is_one_schedule()
    ensures { (s : Setup) (lost : Losses) (es fs gs : List Entry)
        → IsFin s lost (world s lost es) fs → IsFin s lost (world s lost es) gs → fs ≡ gs }
{}

/// A run of an input has one book, and so many of its entries come before finishing.
pub fn runs_have_one_book()
    ensures { (i : Input) (lost : Losses) (book other : List BookEntry) (front end : ℕ)
        → IsBookOfRun i lost book front → IsBookOfRun i lost other end
        → (book ≡ other) × (front ≡ end) }
{}

/// The run of an input, its script and then finishing, is no longer than the bound of the input.
pub fn inputs_are_bounded()
    ensures { (i : Input) (lost : Losses) (fs : List Entry) → IsNet i.net
        → IsFin (setup_of i) lost (world (setup_of i) lost (expand i.net i.script)) fs
        → length (kept (setup_of i) lost (expand i.net i.script) ++ fs) ≤ input_bound i }
{}

/// After the script of an input finishing ends within the fuel of its bound.
pub fn input_bound_is_enough_fuel()
    ensures { (i : Input) (lost : Losses) (fuel : ℕ) → IsNet i.net → input_bound i ≤ fuel
        → IsSome (finish fuel (setup_of i) lost (world (setup_of i) lost (expand i.net i.script))) }
{}

/// Within the limits of inputs the bound is below 2^27.
pub fn bounds_are_small()
    ensures { (s : Setup) (sweeps : ℕ) → IsNet s.net → s.count ≤ 100000
        → s.count * length (units s.net) ≤ 1024000
        → s.retries ≤ 100 → frame_count s ≤ 200000 → sweeps ≤ 2 ^ 20 → bound_of s sweeps < 2 ^ 27 }
{}

/// So is the bound of an input with at most 2^20 script entries: no more of them are sweeps.
pub fn input_bounds_are_small()
    ensures { (i : Input) → IsNet i.net → i.snapshot.count ≤ 100000
        → i.snapshot.count * length (units i.net) ≤ 1024000
        → i.snapshot.retries ≤ 100
        → sum (map (λ f. f.count) i.flows) + length i.raws ≤ 200000
        → length i.script ≤ 2 ^ 20 → input_bound i < 2 ^ 27 }
{}

/// The bound on the first net with one snapshot and no retry: 84, 4 for each packet and raw frame,
/// and 49 for each sweep.
pub fn first_net_is_bounded()
    ensures { (s : Setup) (sweeps : ℕ) → IsFirstNet s.net → s.count ≡ 1 → s.retries ≡ 0
        → bound_of s sweeps ≡ 84 + 4 * frame_count s + 49 * sweeps }
{}
