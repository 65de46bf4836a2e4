// A check of claims of runs: whether a trace is that of a whole legal run of an input, and a report
// the report of this run.
#![tactic(auto)]

mod answer;
mod check;
mod claim;
mod end;
mod last;
mod laws;
mod lines;
mod nodes;
mod script;
mod spellings;

pub use answer::{CheckFault, Checked, answer_bytes};
pub use check::check_bytes;
pub use claim::{Claim, read_claim};
pub use laws::{
    accepted_inputs_can_run, claims_have_one_answer, polled_units_are_known,
    printed_runs_are_right, settled_worlds_are_idle, spellings_are_lines, streams_have_one_answer,
    worlds_finish_well,
};
