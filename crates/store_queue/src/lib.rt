//! The transactions of a store that wait for a drain: which are taken, and what is known of those that are.
#![tactic(auto)]

mod queue;

pub use queue::Queue;

#[cfg(test)]
mod tests;
