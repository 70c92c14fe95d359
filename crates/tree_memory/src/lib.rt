//! A tree of files in memory, for tests and for what a crash leaves.
//!
//! Since it tells all that it has held, it keeps each call that changed it or made something stable. Readings go by the
//! tree as it is now. A call costs what it touches; a rename of a directory, a rollback and a snapshot go through all
//! names.
#![tactic(auto)]

mod event;
mod leave;
mod making;
mod memory;
mod mix;
mod names;
mod node;
mod paths;
mod place;
mod snap;
mod snaps;
mod store;
mod tree;

pub use memory::MemoryTree;

#[cfg(test)]
mod tests;
