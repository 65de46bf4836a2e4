// Runs of an input on the machines of its net, and the report of what they found.
#![tactic(auto)]

mod fault;
mod reporting;
mod run;
mod stepped;
mod threaded;

pub use fault::EmulFault;
pub use reporting::report_of;
pub use run::{FinishedRun, Run};
pub use stepped::{finish_stepped, run_stepped};
pub use threaded::{finish_threaded, plans_of, run_threaded, threaded_world};
