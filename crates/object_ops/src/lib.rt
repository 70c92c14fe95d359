//! Operations on one object of a store of files, over any tree.
//!
//! Each begins where `Ready` holds, with the object's collection there. What a crash leaves at any moment of it are images
//! from before in which each cell of the object, with the guard beside it, is as it was, as it read, or as the operation
//! makes it; all else stays, and no directory comes. Once an operation is done the object's file is what it makes of it, and
//! `Ready` holds again. None makes anything stable but what building a long name's file does.
#![tactic(auto)]

mod attributes;
mod bytes;
mod finding;
mod removal;

pub use attributes::{rm_attr, rm_attrs, set_attrs};
pub use bytes::{truncate, write, zero};
pub use finding::touch;
pub use removal::remove;

#[cfg(test)]
mod tests;
#[cfg(test)]
mod trials;
