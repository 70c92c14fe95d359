//! Making a store: its ring on a device, and its files in a tree.
//!
//! `Making.antt` has what it answers. The ring comes first and the version's file last, so that a crash in between leaves no
//! store, and what is made can be mounted.
#![tactic(auto)]

mod fault;
mod making;

pub use fault::MakeFault;
pub use making::make_store;
