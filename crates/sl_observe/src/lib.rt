// The observer as a machine: it issues snapshots by number, and collects what the units saved.
#![tactic(auto)]

mod floors;
mod laws;
mod observer;
mod spans;
mod unit;
mod units;

pub use laws::{begins_take_all_links, issues_are_bounded, rows_come_in_reports, rows_stay};
pub use observer::Observer;
pub use unit::Seen;
