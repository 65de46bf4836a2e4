// The variant without channel state: a number that a unit skipped takes the values of the next
// number that it saved, and no snapshot is called inconsistent.
#![tactic(auto)]

mod control;
mod kept;
mod laws;
mod meaning;
mod read;
mod run;
mod tell;
mod text;
mod verdict;
mod whole;
mod world;

pub use control::{ValueControl, ValueNode};
pub use laws::{values_are_counts, values_are_none_exactly};
pub use meaning::{
    ValueMeaning, values_are_those_collected, values_change_no_turn, values_follow,
    values_stand_for_histories,
};
pub use read::read_value;
pub use run::{ValueRun, run_values};
pub use text::values_bytes;
pub use verdict::{ValueFinding, ValueList, ValueVerdict, Values};
pub use whole::Whole;
pub use world::ValueWorld;
