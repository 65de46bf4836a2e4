// The world of any machines, in one thread.
#![tactic(auto)]

mod book;
mod laws;
mod line;
mod links;
mod looked;
mod machines;
mod make;
mod marked_lines;
mod marks;
mod places;
mod world;

pub use laws::every_schedule;
pub use looked::Looked;
pub use world::{Turn, World};
