//! A store as a script works on it: what each statement does to it, and what it answers.
#![tactic(auto)]

mod closing;
mod fault;
mod queueing;
mod readings;
mod store;

pub use closing::close;
pub use fault::StepFault;
pub use store::{ScriptStore, Stepped, step};

#[cfg(test)]
mod tests;
