// Trusted types: Line1.
// A line of the table.

/// How evenly the cables of a device are used at the cut of the snapshot `k`: the number of its
/// egress units with a cable, the least and the greatest of the data packets that they counted, and
/// the sum over all pairs of these units of the square of the difference of their packets.
#[derive(Clone, Copy, Debug, PartialEq, Eq)]
pub struct Line1 {
    pub k: u64,
    pub device: u32,
    pub cables: u32,
    pub least: u64,
    pub greatest: u64,
    pub spread: u128,
}
