// Laws of the end of a run. The functions do nothing: their contracts are the laws.
ghost use Rattle.std.specs.Prelude.{List};
ghost use Rattle.sl_model.specs.History.{World, Losses};
ghost use Rattle.sl_model.specs.Setup.{Setup};
ghost use Rattle.sl_model.specs.World.{Entry, IsLegalFrom};
ghost use Rattle.sl_model.specs.End.{IsFin};

/// No entry of the schedule that finishing takes from a world is idle.
pub fn finishing_is_legal()
    ensures { (s : Setup) (lost : Losses) (w : World) (es : List Entry)
        → IsFin s lost w es → IsLegalFrom s lost w es }
{}
