//! The outside of a program: sources of bytes, sinks for bytes, and reading and writing as a whole.
//! Each answer that blames the outside has its cause in a count of faults.
#![tactic(auto)]

mod memory;
mod read_write;
mod sink;
mod source;
mod std_streams;
mod sure;

pub use memory::{MemSink, MemSource};
pub use read_write::{ReadRefused, read_whole, write_whole};
pub use sink::{Sink, WriteFailed};
pub use source::{ReadFailed, Source};
pub use std_streams::{StdSink, StdSource};
pub use sure::{SureSink, SureSource};
