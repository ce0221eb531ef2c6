//! Sources of bytes and sinks for them, each with a count of its faults.
//!
//! A fault is never an answer that comes from nowhere: a call answers with one only where the
//! count of the object that it was handed rose in that call.
#![tactic(auto)]

mod calls;
mod memory_sink;
mod memory_source;
mod reading;
mod sinks;
mod sources;
mod standard;
#[cfg(test)]
mod tests;
mod writing;

pub use memory_sink::MemorySink;
pub use memory_source::MemorySource;
pub use reading::{READ_LIMIT, ReadEnd, read_all};
pub use sinks::Sink;
pub use sources::{Failed, Source};
pub use standard::{StdSink, StdSource};
pub use writing::{WriteEnd, write_all};
