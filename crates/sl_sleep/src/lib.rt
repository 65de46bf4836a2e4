// Sleep: an actor at which nothing moves sleeps until a neighbour has something for it, and no wake-up
// is lost.
#![tactic(auto)]

mod laws;
mod neighbours;
mod roster;
mod sleeper;

pub use laws::{no_run_sleeps_for_good, no_wake_up_is_lost};
pub use neighbours::Neighbours;
pub use roster::Roster;
pub use sleeper::Sleeper;
