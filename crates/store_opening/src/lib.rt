//! Mounting a store of files: which store a tree is, what its journal makes of it, and the store that takes more.
//!
//! `Mounts.antt` has what a mount gives, and why it is refused.
#![tactic(auto)]

mod fault;
mod mounting;
mod opening;

pub use fault::MountFault;
pub use mounting::mount;

#[cfg(test)]
mod tests;
