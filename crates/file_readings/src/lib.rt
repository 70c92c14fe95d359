//! What is read of the objects of a store of files, over any tree.
//!
//! Each call answers what it reads of the objects that the tree's files are (`Shows` in `tree_shows`), and changes nothing.
//! It answers `Damaged` for what no store leaves there: a file in a collection's place, a directory in an object's, and
//! in a listing an entry that is neither an object's file nor a hashed subdirectory.
#![tactic(auto)]

mod collections;
mod finding;
mod listing;
mod objects;
mod pairs;

pub use collections::colls;
pub use listing::list;
pub use objects::{attrs, omap, read, stat};

#[cfg(test)]
mod tests;
#[cfg(test)]
mod trials;
