// Actors: machines with a log, which take from links and put on links. Each may run in a thread of
// its own.
#![tactic(auto)]

mod actor;
mod make;
mod moved;
mod outs;
mod part;
mod rows;
mod run;
mod steps;

pub use actor::{Actor, ActorParts};
pub use make::make_actors;
pub use moved::Moved;
pub use part::OutPart;
pub use run::{FreeGate, Gate, Rest};
pub use sl_sleep::{no_run_sleeps_for_good, no_wake_up_is_lost};
