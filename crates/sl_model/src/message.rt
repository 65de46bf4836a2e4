// Trusted types: Message, Put, Puts, Step.
// Messages, and the steps that actors make with them.
use sl_machine::Listed;
use sl_net::{Bytes, Packet};

/// A message on a link. Stamps are whole numbers, as all numbers of the definitions.
#[derive(Debug, Drop)]
pub enum Message {
    /// The frame of a host.
    Host(Bytes),
    /// A data packet with its stamp.
    Data(u64, Packet),
    /// A probe with its stamp.
    Probe(u64),
    /// An initiation with its stamp.
    Init(u64),
    /// Asks a unit for its registers.
    Poll,
    /// Tells a control plane that a last-seen number of a unit changed.
    Notice,
    /// The registers of a unit after so many steps.
    Dump(u64),
    /// Begins the snapshot of a number.
    Begin(u64),
    /// Reports a unit, by its place among the units, after so many steps.
    Done(u32, u64),
}

/// A message put on a link, by the link's number.
#[derive(Debug, Drop)]
pub struct Put {
    pub link: u32,
    pub message: Message,
}

/// The puts of a step, in order.
pub type Puts = Listed<Put>;

/// A step of an actor: its choice, the message that it took or none, and what it put. An event in
/// the sense of Chandy and Lamport 1985.
#[derive(Debug, Drop)]
pub struct Step {
    pub choice: u32,
    pub taken: Option<Message>,
    pub puts: Puts,
}
