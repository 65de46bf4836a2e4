// The table of balance: how evenly the cables of each device are used at consistent cuts, and how
// many equal shortest ways the routes had to choose from.
#![tactic(auto)]

mod cabled;
mod equal;
mod laws;
mod line;
mod lines;
mod spread;
mod text;

pub use equal::equal_ports;
pub use laws::{
    counts_are_few, equal_ports_begin_least_walks, lines_are_of_one_cut, spread_is_of_pairs,
};
pub use line::Line1;
pub use lines::balance_of;
pub use text::balance_bytes;
