// The merge of the actors' logs, which is a run of one thread.
#![tactic(auto)]

mod book;
mod laws;
mod logs;
mod merged;
mod parts;
mod rests;
mod rows;

pub use book::sort_book;
pub use laws::{actors_are_runs, made_actors_are_wired, merges_are_resumed, merges_are_runs};
pub use merged::merge;
