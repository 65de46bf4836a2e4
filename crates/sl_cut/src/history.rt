// Histories of actors, and worlds of histories.
ghost use Rattle.std.specs.Prelude.{◌≡◌, ◌<◌, ◌≤◌, List, [], ◌∷◌, length, replicate, reverse};
ghost use Rattle.std.specs.Prelude.{slice_set, IfOk, OnOk};
ghost use Rattle.sl_model.specs.History.{history, first, steps_in};

use sl_machine::Memory;
use sl_model::Step;
use std::alloc::Global;
use std::marker::Model;

/// The steps of an actor. Contracts see them with the newest first.
#[derive(Drop)]
pub struct History {
    items: Vec<Step>,
}

impl Model for History {
    ghost use Rattle.std.specs.Prelude.{List, reverse};
    ghost use Rattle.sl_model.specs.declared.message.Step.{Step};

    ghost Value = { List Step };

    ghost view = { λ h. reverse h.items.items };
}

/// One history per actor, in the order of the actors.
#[derive(Drop)]
pub struct World {
    items: Vec<History>,
}

impl Model for World {
    ghost use Rattle.std.specs.Prelude.{List};
    ghost use Rattle.sl_model.specs.declared.message.Step.{Step};

    ghost Value = { List (List Step) };

    ghost view = { λ w. w.items.items };
}

impl History {
    /// The steps, the oldest first.
    pub fn steps(&self) -> &[Step]
        ensures { reverse result.now ≡ self.now }
    {
        &self.items
    }
}

impl World {
    /// A world of so many actors, none of which has made a step.
    pub fn start(alloc: Global, actors: usize) -> Result<World, Memory>
        ensures { IfOk result (λ world. world ≡ replicate actors []) }
    {
        let mut items = Vec::new(alloc);
        for _actor in 0..actors {
            items.push(History {
                items: Vec::new(alloc),
            })?;
        }
        Ok(World { items })
    }

    /// Adds a step to the history of an actor.
    pub fn add(&mut self, actor: usize, step: Step) -> Result<(), Memory>
        requires { actor < length self.old }
        ensures { OnOk result
            (self.new ≡ slice_set self.old actor (step ∷ history self.old actor)) }
    {
        let history = &mut self.items[actor];
        history.items.push(step)?;
        Ok(())
    }

    /// The steps of an actor, the oldest first; none past the last actor.
    pub fn steps(&self, actor: u32) -> &[Step]
        ensures steps { reverse result.now ≡ history self.now actor }
        ensures size { length result.now ≤ steps_in self.now }
    {
        match self.items.get(actor as usize) {
            Some(history) => history.steps(),
            None => &[],
        }
    }
}

/// The first n steps.
#[tactic(auto, using(crate::proofs::ForwardSteps::first_reverse))]
pub fn first_steps(steps: &[Step], n: u64) -> &[Step]
    ensures { reverse result.now ≡ first n (reverse steps.now) }
{
    &steps[..(n as usize).min(steps.len())]
}
