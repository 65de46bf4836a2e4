// Trusted types: Row, Rows1, Finding, FindingList, Counts, Drops, Lost, Findings.
// Findings: what a run showed, as the report prints it.
use crate::verdict::Verdict;
use sl_machine::Listed;
use sl_saves::Total;

/// What a unit saved for a snapshot: the data packets and bytes that it counted before, and for
/// each of its data channels, in order, those in flight. Places past its channels are 0.
#[derive(Clone, Copy, Debug, PartialEq, Eq)]
pub struct Row {
    pub packets: u64,
    pub bytes: u64,
    pub inflight: [Total; 8],
}

/// One row per unit in order, or none.
pub type Rows1 = Listed<Row>;

/// The verdict on snapshot `k`, with a row for each unit where it is consistent.
#[derive(Debug, Drop)]
pub struct Finding {
    pub k: u64,
    pub verdict: Verdict,
    pub rows: Rows1,
}

/// Findings in order.
pub type FindingList = Listed<Finding>;

/// One number per host in order.
pub type Counts = Listed<u64>;

/// What the units dropped: frames that are no plain frames, packets whose hop limit was 0, and
/// packets without a route.
#[derive(Clone, Copy, Debug, PartialEq, Eq)]
pub struct Drops {
    pub bad: u64,
    pub expired: u64,
    pub noroute: u64,
}

/// The messages lost on the links of each kind.
#[derive(Clone, Copy, Debug, PartialEq, Eq)]
pub struct Lost {
    pub cable: u64,
    pub crossbar: u64,
    pub init: u64,
    pub notice: u64,
}

/// The findings of a run: the snapshots issued, the floor (the number up to which all units were
/// collected), the resends, a finding for each snapshot, the messages sent and delivered at each
/// host, the drops and the losses.
#[derive(Debug, Drop)]
pub struct Findings {
    pub issued: u64,
    pub floor: u64,
    pub resent: u64,
    pub list: FindingList,
    pub sent: Counts,
    pub delivered: Counts,
    pub drops: Drops,
    pub lost: Lost,
}
