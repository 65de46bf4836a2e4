// What an input gives to a run: the losses of its links, and the packets of raw frames.
#![tactic(auto)]

mod frames;
mod laws;
mod losses;

pub use frames::packet_of;
pub use laws::losses_answer_in_order;
pub use losses::{loses_next, loss_on, loss_with};
