// Units: each handles what comes in or goes out at one port of one device, counts it, and saves
// its counters when a newer snapshot id reaches it (Yaseen, Sonchack and Liu 2018).
#![tactic(auto)]

mod laws;
mod make;
mod puts;
mod registers;
mod room;
mod step;
mod unit;
mod wires;

pub use laws::{unit_side, ways_are_links};
pub use unit::{Unit, UnitCounts};
