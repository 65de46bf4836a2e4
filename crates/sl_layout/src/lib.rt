// The actors, links and units of a network in their order, and the tables that find them.
#![tactic(auto)]

mod actor;
mod groups;
mod layout;
mod links;
mod roster;
mod units;
mod upstream;
mod wires;
mod wiring;

pub use actor::{ActorId, LinkKind, LinkPart, Side, Sort, UnitId};
pub use layout::Layout;
pub use roster::Roster;
pub use units::Units;
pub use upstream::list_upstream;
pub use wires::Wires;
pub use wiring::{actions_of, make_wiring};
