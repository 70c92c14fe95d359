//! The streams at the program's edge: bytes that come in and bytes that go out.
//!
//! A `Source` gives bytes and a `Sink` takes them, a piece at a time. Each counts its faults, and fails only where it
//! counts one. In memory they tell their bytes. Over standard input and output they tell nothing: no contract says
//! what comes in or goes out there.
#![tactic(auto)]

mod memory;
mod memory_sink;
mod memory_source;
mod real;
mod sink;
mod source;
mod text;

pub use memory::told_in_memory;
pub use memory_sink::MemorySink;
pub use memory_source::MemorySource;
pub use real::{RealSink, RealSource};
pub use sink::{Sink, write_all};
pub use source::{ReadFault, Source, read_all};
pub use text::Text;

/// A read or a write that failed.
#[derive(Clone, Copy, Debug, PartialEq, Eq)]
pub struct IoFailed;

#[cfg(test)]
mod tests;
