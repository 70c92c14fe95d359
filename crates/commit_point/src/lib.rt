//! The committed number of a store: the file `current/commit_op_seq`.
//!
//! The file is never written in place: a new one is built in `current/aside`, synced and renamed, and the names are synced.
//! So in each image that a crash may leave the number is an old one or the new one.
#![tactic(auto)]

mod number;
mod replacing;
mod spelling;

pub use number::{read_seq, write_seq};

#[cfg(test)]
mod tests;
