//! Collections of a store of files, made and taken away, and the trash.
//!
//! A collection is a directory in `current`, whose name is the collection's text. One that is taken away is renamed to
//! `current/trash`, where its name is the position of the operation, and is swept from there later.
//!
//! What each call does to what a tree shows is said of each image that a crash may leave, in the words of `op_effects`:
//! a collection is there or isn't, empty when it comes, and all others stay. None brings anything in the way of an operation.
#![tactic(auto)]

mod dropping;
mod emptying;
mod looking;
mod making;
mod places;
mod sweeping;

pub use dropping::drop_coll;
pub use emptying::{sweep_first, trash_count};
pub use making::make_coll;
pub use places::trash_path;
pub use sweeping::sweep;

#[cfg(test)]
mod tests;
#[cfg(test)]
mod trials;
