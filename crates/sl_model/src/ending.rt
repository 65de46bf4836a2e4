// Trusted types: Ending.
// How a schedule ends, and that it has one ending.
ghost use Rattle.std.specs.Prelude.{◌≡◌, List};
ghost use Rattle.sl_model.specs.History.{Losses};
ghost use Rattle.sl_model.specs.Setup.{Setup};
ghost use Rattle.sl_model.specs.World.{Entry};
ghost use Rattle.sl_model.specs.Ending.{HasEnding};

/// How a schedule ends.
#[derive(Clone, Copy, Debug, PartialEq, Eq)]
pub enum Ending {
    /// An entry is idle; the number of the first one, from 1.
    Idle(u64),
    /// No entry is idle, and the world that the schedule reaches isn't finished.
    Unfinished,
    /// No entry is idle, and the world is finished.
    Finished,
}

/// A schedule has one ending. The function does nothing: its contract is the law.
pub fn endings_are_one()
    ensures { (s : Setup) (lost : Losses) (es : List Entry) (a b : Ending)
        → HasEnding s lost es a → HasEnding s lost es b → a ≡ b }
{}
