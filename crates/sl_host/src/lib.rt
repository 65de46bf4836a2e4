// Hosts as machines: each sends the packets of its flows and its raw frames, and counts what comes.
#![tactic(auto)]

mod frames;
mod host;
mod laws;

pub use host::Host;
pub use laws::frames_are_sent_in_order;
