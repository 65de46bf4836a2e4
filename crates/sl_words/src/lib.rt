// The words of the command line: what they ask for.
#![tactic(auto)]

mod command;
mod flags;
mod poll;
mod sample;

pub use command::{Command, words_of};
