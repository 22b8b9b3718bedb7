//! Sources and sinks of bytes, which may fail.
#![tactic(auto)]

mod device;
mod memory;
mod standard;

pub use device::{Failed, Sink, Source};
pub use memory::{MemSink, MemSource, SureSink, SureSource};
pub use standard::{StdSink, StdSource};
