// Trusted types: Refusal, Ended.
// How a call ends, and what a refusal is.
ghost use Rattle.std.specs.Prelude.{◌≡◌};
ghost use Rattle.sl_app.specs.Texts.{status_of, refusal_text};
ghost use Rattle.sl_app.specs.declared.ended.Refusal.TheVariants as refusal;

use sl_machine::{Book, Memory};
use sl_proto::Node;

/// Why nothing is served.
#[derive(Debug, Drop)]
pub enum Refusal {
    /// The words are no command.
    Usage,
    /// The input is refused, with the line that says why.
    Input(Vec<u8>),
    /// The stream can't be checked, with the line that says why.
    Stream(Vec<u8>),
    /// A read of the source failed.
    ReadFault,
    /// The net has more actors than run in threads, with the line that says how many.
    TooMany(Vec<u8>),
    /// Want of memory.
    Memory,
}

impl Refusal {
    /// The exit status.
    pub fn status(&self) -> u8
        ensures { result ≡ status_of self.now }
    {
        match self {
            Refusal::Usage => 2,
            Refusal::Input(_) => 3,
            Refusal::Stream(_) => 3,
            Refusal::ReadFault => 4,
            Refusal::TooMany(_) => 7,
            Refusal::Memory => 6,
        }
    }

    /// The line that is written for it.
    #[tactic(auto, unfolding(crate::specs::Texts::refusal_text))]
    pub fn text(&self) -> &[u8]
        ensures { result.now ≡ refusal_text self.now }
    {
        match self {
            Refusal::Usage => {
                b"speedlight: usage: speedlight step [--trace] | run [--trace] | routes | sample N [--input] | values | check | balance | poll S G\n"
            }
            Refusal::Input(line) => line.as_slice(),
            Refusal::Stream(line) => line.as_slice(),
            Refusal::ReadFault => b"speedlight: read fault\n",
            Refusal::TooMany(line) => line.as_slice(),
            Refusal::Memory => b"speedlight: out of memory\n",
        }
    }
}

impl From<Memory> for Refusal {
    ghost from_gives = { λ _ e. e ≡ refusal.Memory };

    fn from(_: Memory) -> Refusal {
        Refusal::Memory
    }
}

/// How a call ended: the exit status, the book of the run where there is one, how many of its
/// entries come before finishing, and the nodes that the run ended with, one per actor in order.
#[derive(Drop)]
pub struct Ended {
    pub status: u8,
    pub book: Option<Book>,
    pub front: u64,
    pub nodes: Option<Vec<Node>>,
}
