//! Which transactions a store takes: why one isn't queued, and the number of one that is.
#![tactic(auto)]

mod fault;
mod room;

pub use fault::QueueFault;
pub use room::Room;
