// Control planes: they start snapshots in their devices, poll the units that have news, and
// report to the observer what each unit saved.
#![tactic(auto)]

mod blanks;
mod control;
mod known;
mod laws;
mod rows;
mod units;
mod wires;

pub use control::Control;
pub use known::{Known, Numbers, UnitWires};
pub use laws::dumps_lower_nothing;
pub use wires::control_of;
