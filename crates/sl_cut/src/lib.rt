// A run computed from whole histories by the definitions: what histories tell, the step that each
// kind of actor makes, what is lost on the way, the world that a schedule reaches, its findings and
// how it ends. Slow by design. Beside it, under one name, the types of findings and the trail of a
// schedule.
#![tactic(auto)]

mod control;
mod counting;
mod ending;
mod flow;
mod frames;
mod gather;
mod history;
mod hostile_laws;
mod judge;
mod knowledge;
mod losses;
mod lost;
mod message;
mod schedule;
mod sends;
mod step;
mod tell;
mod units;
mod values;
mod wires;

pub use counting::{bad, bytes, expired, noroute, packets};
pub use ending::ending_of;
pub use gather::findings_of;
pub use history::{History, World};
pub use hostile_laws::{
    bad_frames_change_no_finding, bad_frames_change_no_text, bad_frames_change_no_turn,
    hostile_turns_change_no_finding,
};
pub use knowledge::{can_issue, floor, issued, resent, unit_floor};
pub use losses::carried;
pub use schedule::{follow, follow_legal};
pub use sl_model::{
    Cause, Counts, Drops, Ending, Finding, FindingList, Findings, Lag, Lost, Message, Put, Puts,
    Row, Rows1, Step, Verdict, endings_are_one,
};
pub use sl_poll::{Counted, CountedList, Pair, PairList, Trail, trail_of};
pub use sl_saves::Total;
pub use tell::{id, known, last, put, stamp_taken, taken};
pub use wires::{action_choice, data_channels, hosts};
