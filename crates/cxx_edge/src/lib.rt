//! Where bytes come in and go out: a source, a sink, and their forms in memory and over std.
#![tactic(auto)]

mod memory;
mod sink;
mod source;
mod standard;

pub use memory::{MemorySink, MemorySource, OutOfMemory};
pub use sink::{Sink, write_all};
pub use source::{Failed, ReadFault, Source, read_all};
pub use standard::{StdSink, StdSource};
