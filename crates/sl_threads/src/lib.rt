// Machines that run, each in a thread of its own.
#![tactic(auto)]

mod jobs;
mod machines;

pub use machines::run_machines;
