// Trusted types: Read1.
// Readings of units.
use crate::trail::Pair;
use sl_machine::Listed;

/// What was read of a unit, by its place among the units: after how many entries, and the data
/// packets and bytes that it had counted.
#[derive(Clone, Copy, Debug, PartialEq, Eq)]
pub struct Read1 {
    pub unit: u32,
    pub at: u64,
    pub packets: u64,
    pub bytes: u64,
}

/// What was read of units, in order.
pub type Reads = Listed<Read1>;

/// A reading of all units in order, and the first packet that breaks it, where one does.
#[derive(Debug, Drop)]
pub struct Polled {
    pub reads: Reads,
    pub broken: Option<Pair>,
}
