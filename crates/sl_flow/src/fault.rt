// Why there is no sample input.
use thiserror::Error;

/// Why there is no sample input of a number.
#[derive(Clone, Copy, Debug, PartialEq, Eq, Error)]
pub enum SampleFault {
    /// The number is 0 or above 64.
    #[error("no number from 1 to 64")]
    OutOfRange,
    /// Want of memory.
    #[error("out of memory")]
    Memory,
}
