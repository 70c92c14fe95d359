//! Guards: marks on files and directories that keep copies and moves from being done twice.
//!
//! An operation that copies or moves leaves its position on what it changed, in an attribute. When the journal is replayed,
//! an operation at or before that position is not done again, and one that was under way goes on.
#![tactic(auto)]

mod calls;
mod guard;
mod laws;

pub use calls::{close_guard, open_guard, read_guard, set_guard};
pub use guard::{Guard, Verdict, check};
pub use laws::guard_law;

#[cfg(test)]
mod tests;
#[cfg(test)]
mod trials;
