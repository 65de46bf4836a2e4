// The top call.
#![tactic(auto)]

mod ended;
mod laws;
mod polling;
mod printed;
mod run;
mod sample;
mod stream;
mod table;
mod top;
mod valued;

pub use ended::{Ended, Refusal};
pub use laws::{printed_runs_are_checked, served_worlds_are_in_window};
pub use printed::printed_reports_tell_findings;
pub use top::{one_thread, refuse, speedlight};
