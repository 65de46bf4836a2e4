// The input: a TOML document read as a network, its snapshots, losses, traffic and script, or the
// first reason why it is none.
#![tactic(auto)]

mod cable;
mod choices;
mod device;
mod document;
mod fault;
mod flow;
mod host;
mod laws;
mod limits;
mod loss;
mod places;
mod raw;
mod read;
mod rows;
mod script;
mod snapshot;
mod top;

pub use fault::InputFault;
pub use laws::{inputs_are_accepted, spellings_name_choices};
pub use read::read_input;
