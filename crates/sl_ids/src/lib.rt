// Wrapped ids: snapshot numbers are whole numbers, and on the wire they are taken modulo a power
// of two. A wrapped id is read relative to a number that is known.
#![tactic(auto)]

mod laws;
mod wid;
mod width;

pub use laws::{distances_are_differences, distances_lead_back, numbers_near_are_unwrapped};
pub use wid::{Wid, distance, newer, unwrap_from, wrap};
pub use width::Width;
