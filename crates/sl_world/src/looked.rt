// A schedule whose links were looked up.
ghost use Rattle.std.specs.Prelude.{◌≡◌, ◌+◌, map, IsTrue};
ghost use Rattle.sl_world.specs.Looked.{entry_of, HasRuns};

use std::marker::Model;

/// An entry of a schedule, with the place of the link that its choice takes from, or the number of
/// links where it is an action; and how many entries, this one among them, take from links that
/// stand one after another.
#[derive(Clone, Copy, Debug)]
pub struct Step {
    pub actor: u32,
    pub choice: u32,
    pub link: u32,
    pub run: u32,
}

/// A schedule whose links were looked up, so that it can be taken again and again.
#[derive(Drop)]
pub struct Looked {
    steps: Vec<Step>,
}

impl Model for Looked {
    ghost use Rattle.std.specs.Prelude.{ℕ, List, map};
    ghost use Rattle.sl_world.specs.Looked.{entry_of, HasRuns};

    ghost Value = { List ((ℕ × ℕ) × ℕ) };

    ghost view = { λ a. map entry_of a.steps.items };

    ghost invariant = { λ a. HasRuns a.steps.items };
}

impl Looked {
    /// Joins steps of which each stands alone.
    pub fn join(steps: Vec<Step>) -> Looked
        requires { HasRuns steps.items }
        ensures { result ≡ map entry_of steps.items }
    {
        let mut steps = steps;
        count_runs(&mut steps);
        Looked { steps }
    }

    /// The entries with their links.
    pub fn steps(&self) -> &[Step]
        ensures entries { map entry_of result.now ≡ self.now }
        ensures runs { HasRuns result.now }
    {
        self.steps.as_slice()
    }
}

/// Tells each step how many links stand one after another from its own on.
fn count_runs(steps: &mut [Step])
    requires { HasRuns steps.old }
    ensures entries { map entry_of steps.new ≡ map entry_of steps.old }
    ensures runs { HasRuns steps.new }
{
    let mut at = steps.len();
    while at > 1 {
        at -= 1;
        let next = steps[at];
        let step = steps[at - 1];
        if is_followed(step, next) {
            steps[at - 1] = Step {
                run: next.run.saturating_add(1),
                ..step
            };
        }
    }
}

/// Whether one step takes from the link before that of another.
fn is_followed(step: Step, next: Step) -> bool
    ensures { IsTrue result → next.link ≡ step.link + 1 }
{
    step.link < next.link && next.link - step.link == 1
}
