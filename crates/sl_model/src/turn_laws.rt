// Laws of turns, over all schedules and losses. The functions do nothing: their contracts are the
// laws, and the proofs are in proofs/.
ghost use Rattle.sl_model.specs.Passing.{PassesMessages};
ghost use Rattle.sl_model.specs.Turns.{TakesTurns};

/// A turn is idle, or one step of its actor, whose history alone grows by it. The step takes the
/// message that its link has next, or acts at the floor of the world, and each world that turns
/// lead to is a run.
pub fn worlds_take_turns()
    ensures { TakesTurns }
{}

/// What is taken from a link, and what is on its way there, was put on it and fits it, and a unit's
/// dumps tell no more steps than it made.
pub fn links_pass_messages()
    ensures { PassesMessages }
{}
