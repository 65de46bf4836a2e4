// Laws of how actors wake one another.
ghost use Rattle.std.specs.Prelude.{◌≡◌, ◌<◌, ℕ, List, true};
ghost use Rattle.sl_sleep.specs.Awake as count;
ghost use Rattle.sl_sleep.specs.Wakes.{Ends, Act, begun, after_all, AreAllowed, LosesNoWakeUp};
ghost use Rattle.sl_sleep.specs.Wakes.{HoldsNothingBack};

/// No wake-up is lost, by whatever acts of any number of actors in any order. Where an actor sleeps that
/// nobody has woken, a link from a sender that sleeps too, or has ended, holds no message for it (`told`); and
/// no sender sleeps so while something waits for room on a link to it (`room`). The acts are those of
/// `roster.rt`. That an actor which was woken gets its turn is no part of it.
pub fn no_wake_up_is_lost()
    ensures told { (e : Ends) (acts : List Act) → AreAllowed e begun acts
        → LosesNoWakeUp e (after_all e begun acts) }
    ensures room { (e : Ends) (acts : List Act) → AreAllowed e begun acts
        → HoldsNothingBack e (after_all e begun acts) }
{}

/// No run sleeps for good, by whatever acts of any number of actors in any order. Where each actor
/// sleeps that nobody has woken, or has ended its run, and nobody is about to wake one or to tell all,
/// all were told to end. The acts are those of `roster.rt` on its count. It says nothing of whether an
/// actor that is awake gets its turn.
pub fn no_run_sleeps_for_good()
    ensures { (n : ℕ) (acts : List count.Act) → 0 < n → count.AreAllowed n (count.begun n) acts
        → count.AreAtRest n (count.after_all (count.begun n) acts)
        → (count.after_all (count.begun n) acts).over ≡ true }
{}
