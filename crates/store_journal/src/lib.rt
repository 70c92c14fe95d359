//! The steps that a store takes on its journal, each with what a crash in it leaves of the history.
//!
//! A transaction is entered and then synced; what a commit covers is given up; and a mount reopens the journal behind the
//! committed number. Each step touches the device alone, so the tree's images are the same before it and after it.
#![tactic(auto)]

mod entering;
mod fault;
mod giving_up;
mod reopening;

pub use entering::{append, enter, sync};
pub use fault::JournalFault;
pub use giving_up::give_up;
pub use reopening::reopen;

#[cfg(test)]
mod tests;
