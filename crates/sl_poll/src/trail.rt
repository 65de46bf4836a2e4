// Trusted types: Pair.
// What a run did with data packets.
use sl_machine::Listed;

/// A data packet that was taken on a data channel: its link, and the entries that put and took it,
/// from 1.
#[derive(Clone, Copy, Debug, PartialEq, Eq)]
pub struct Pair {
    pub link: u32,
    pub put: u64,
    pub take: u64,
}

/// A step that counts a data packet: its unit, by its place among the units, its entry from 1, and
/// the bytes of the packet.
#[derive(Clone, Copy, Debug, PartialEq, Eq)]
pub struct Counted {
    pub unit: u32,
    pub entry: u64,
    pub bytes: u64,
}

/// Pairs in order.
pub type PairList = Listed<Pair>;

/// Steps that count a data packet, in order.
pub type CountedList = Listed<Counted>;

/// What a run did with data packets: those that were taken on data channels, in the order of the
/// taking entries, and the steps that count one.
#[derive(Debug, Drop)]
pub struct Trail {
    pub pairs: PairList,
    pub counted: CountedList,
}
