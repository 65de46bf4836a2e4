// Workloads: the packets that a host sends, and the sample inputs.
#![tactic(auto)]

mod fault;
mod leaf_spine;
mod packets;
mod sample;
mod share;
mod text;

pub use fault::SampleFault;
pub use packets::packets_of;
pub use sample::sample_parts;
pub use share::Share;
pub use text::sample_input;
