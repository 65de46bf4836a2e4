// Routes: for each host and each device the next port and the number of cables, and texts of
// these.
#![tactic(auto)]

mod laws;
mod neighbours;
mod pairs;
mod routes;
mod search;
mod ways;

pub use laws::{hops_are_least, routes_lead_nearer};
pub use pairs::{Pair, PairText, push_pairs};
pub use routes::Routes;
