// Tests of links and worlds, by what their crates make public, and the machines that they stand on.
#![tactic(auto)]

mod relay;
#[cfg(test)]
mod tests;

pub use relay::{Relay, link, ring_wiring};
