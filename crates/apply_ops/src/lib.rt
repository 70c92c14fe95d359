//! The operations of a store's transactions, done on its tree of files.
//!
//! Each is done as the next one of a history: whatever a crash leaves at any moment is past the transactions that it was past,
//! and once the operation is done, what reads is past it. `Editing.antt` has what operations on one object make of its file,
//! `Next.antt` where an operation stands in its history. docs/BRIDGE.md explains it from nothing.
#![tactic(auto)]

mod applying;
mod editing;
mod looking;
mod transaction;

pub use applying::apply;
pub use editing::edit;
pub use transaction::apply_all;
