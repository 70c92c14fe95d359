//! A device on a file of the operating system, which tells its content as long as the file answers as an honest one.
//!
//! Each call on the file is noted with its answer, in a record that only clauses read and that takes no memory. What
//! the device holds, and all that it has held, is what an honest file would by those calls (`specs/Honest.antt`). The
//! device tells it as long as the answers agree with that: nothing but a read that gives other bytes ends it.
#![tactic(auto)]

mod calls;
mod device;
mod noted;
mod opening;
mod record;
mod start;

pub use calls::Calls;
pub use device::FileDevice;
pub use noted::NotedFile;
pub use start::{Start, Unknown};

#[cfg(test)]
mod tests;
