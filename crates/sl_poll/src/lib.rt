// The polling baseline: counters read one unit after the other along a run, and whether what was read
// is a consistent cut of data packets.
#![tactic(auto)]

mod course;
mod feed;
mod lane;
mod laws;
mod listener;
mod poll;
mod reading;
mod run;
mod sums;
mod text;
mod trail;
mod walk;
mod way;

pub use laws::{broken_readings_are_no_cut, whole_readings_are_cuts};
pub use poll::reading_of;
pub use reading::{Polled, Read1, Reads};
pub use run::{poll_of, trail_of};
pub use text::polled_bytes;
pub use trail::{Counted, CountedList, Pair, PairList, Trail};
pub use way::{is_own_port, is_this_unit};
