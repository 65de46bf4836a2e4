// The texts of reports, traces, routes, summaries and refused inputs.
#![tactic(auto)]

mod channels;
mod fault;
mod findings;
mod lines;
mod numbers;
mod report;
mod report_laws;
mod routes;
mod spelled;
mod summary;
mod trace;
mod trace_laws;
mod units;

pub use channels::list_channels;
pub use fault::fault_bytes;
pub use findings::{push_finding, push_verdict_line, unit_at};
pub use lines::push_hosts;
pub use report::{push_back, report_bytes, report_front};
pub use report_laws::{findings_are_sayable, reports_of_runs_tell_findings, reports_tell_findings};
pub use routes::routes_bytes;
pub use spelled::{Spelled, all_spelled};
pub use summary::summary_bytes;
pub use trace::{add_trace, trace_bytes};
pub use trace_laws::{legal_books_are_choices, traces_are_scripts};
pub use units::push_unit;
