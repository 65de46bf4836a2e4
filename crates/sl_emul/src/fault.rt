// Why an input isn't run in threads.
ghost use Rattle.std.specs.Prelude.{◌≡◌};
ghost use Rattle.sl_emul.specs.declared.fault.EmulFault.TheVariants.{Memory};

use sl_machine::Memory as NoMemory;
use thiserror::Error;

/// Why an input isn't run in threads.
#[derive(Clone, Copy, Debug, PartialEq, Eq, Error)]
pub enum EmulFault {
    /// The net has more actors than run in threads; their number.
    #[error("{0} actors, where at most 256 run in threads")]
    TooMany(u32),
    /// Want of memory.
    #[error("out of memory")]
    Memory,
}

impl From<NoMemory> for EmulFault {
    ghost from_gives = { λ _ e. e ≡ Memory };

    fn from(_: NoMemory) -> EmulFault {
        EmulFault::Memory
    }
}
