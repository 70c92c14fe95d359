//! The turns of a store: its numbers, its eight slots for started transactions, and the commit that runs.
//!
//! A transaction is queued, written to the journal, synced, started (it takes a slot), applied one operation after the
//! other, and committed. Each of these steps is a turn; `Core` has the numbers that say which turns are ready.
#![tactic(auto)]

mod laws;
mod ready;
mod slots;
mod state;
mod step;
mod turn;

pub use laws::{drain_law, turns_law};
pub use slots::{Groups, Slot, Slots};
pub use state::Core;
pub use turn::{NotReady, Phase, Turn};

#[cfg(test)]
mod tests;
