// Trusted types: Whole.
// What a unit counted.

/// The data packets that a unit counted before its id reached a number, and their bytes.
#[derive(Clone, Copy, Debug, PartialEq, Eq)]
pub struct Whole {
    /// How many packets.
    pub packets: u64,
    /// How many bytes these have together.
    pub bytes: u64,
}
