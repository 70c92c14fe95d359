//! A store of files with its journal: taking transactions, drained, read and closed.
//!
//! `Store.antt` has what contracts see of a store, `Holds.antt` what it holds and what a crash leaves of it.
#![tactic(auto)]

mod closing;
mod fault;
mod reading;
mod store;
mod working;

pub use fault::{First, QueueFault, ReadFault, TurnFault};
pub use store::FileStore;
