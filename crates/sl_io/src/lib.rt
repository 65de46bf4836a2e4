// Sources and sinks of bytes that count their faults: in memory, and over the standard streams.
#![tactic(auto)]

mod in_memory;
mod short;
mod standard;
mod streams;
mod transfer;

pub use in_memory::{MemorySink, MemorySource};
pub use short::Short;
pub use standard::{StdSink, StdSource};
pub use streams::{Failed, Sink, Source};
pub use transfer::{ReadFault, read_all, write_all};
