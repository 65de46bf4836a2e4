// Saved entries of a unit: what it saved at each number, kept as a list of all entries or in a
// ring of slots, and the walk back over a ring that reads what was saved for a number.
#![tactic(auto)]

mod entries;
mod entry;
mod keep;
mod laws;
mod list;
mod place;
mod read;
mod ring;
mod ring_slots;
mod shared;
mod slots;

pub use entry::{Saved, Slot, Total, View};
pub use keep::Saves;
pub use laws::{calls_are_listed, calls_are_shown, shown_is_live, shown_is_read};
pub use list::ListSaves;
pub use place::place_below;
pub use read::{read_saved, try_read_saved};
pub use ring::RingSaves;
pub use slots::Slots;
