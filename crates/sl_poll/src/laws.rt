// Laws of readings. The functions do nothing, or call other laws: their contracts are the laws, and
// the proofs are in proofs/.
ghost use Rattle.std.specs.Prelude.{◌≡◌, ℕ, List, None, Some};
ghost use Rattle.sl_model.specs.History.{Losses};
ghost use Rattle.sl_model.specs.Setup.{Setup};
ghost use Rattle.sl_model.specs.World.{Entry, world};
ghost use Rattle.sl_poll.specs.declared.trail.Pair.{Pair};
ghost use Rattle.sl_poll.specs.Reading.{broken_by};
ghost use Rattle.sl_poll.specs.DataCut.{IsDataCut, steps_read};

use sl_model::{histories_only_grow, worlds_take_turns};

/// A reading that no packet breaks is a consistent cut of data packets (Chandy, Lamport 1985),
/// whenever the units were read.
pub fn whole_readings_are_cuts()
    ensures { (s : Setup) (lost : Losses) (es : List Entry) (begin gap : ℕ)
        → broken_by s lost es begin gap ≡ None
        → IsDataCut s.net lost (world s lost es) (steps_read s lost es begin gap) }
{
    worlds_take_turns();
    histories_only_grow()
}

/// A reading that a packet breaks is none.
pub fn broken_readings_are_no_cut()
    ensures { (s : Setup) (lost : Losses) (es : List Entry) (begin gap : ℕ) (p : Pair)
        → broken_by s lost es begin gap ≡ Some p
        → IsDataCut s.net lost (world s lost es) (steps_read s lost es begin gap) → ⊥ }
{
    worlds_take_turns();
    histories_only_grow()
}
