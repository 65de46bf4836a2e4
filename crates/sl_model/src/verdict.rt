// Trusted types: Cause, Lag, Verdict.
// Verdicts on snapshots. Units are named by their places among the units, from 0.

/// Why a snapshot is inconsistent.
#[derive(Clone, Copy, Debug, PartialEq, Eq)]
pub enum Cause {
    /// The unit went from a lower number to this one.
    Skipped { to: u64 },
    /// The unit took a data packet from before the snapshot, which was credited to later numbers
    /// alone. This is the least of them.
    Miscredited { by: u64 },
}

/// What of a unit lags behind a snapshot.
#[derive(Clone, Copy, Debug, PartialEq, Eq)]
pub enum Lag {
    /// Its id.
    Id(u64),
    /// The last-seen number of a data channel, by its place among the unit's data channels.
    Channel { channel: u32, seen: u64 },
}

/// The verdict on a snapshot (Yaseen, Sonchack, Liu 2018).
#[derive(Clone, Copy, Debug, PartialEq, Eq)]
pub enum Verdict {
    /// The units' values are counts at a consistent cut (Chandy, Lamport 1985).
    Consistent,
    /// The first unit with a cause.
    Inconsistent { unit: u32, cause: Cause },
    /// The first unit that lags.
    Pending { unit: u32, lag: Lag },
    /// The floor, and the first unit that holds it; unit 0 where the net has no units.
    NotIssued { unit: u32, floor: u64 },
}
