//! The order in which objects are listed.
#![tactic(auto)]

mod compare;
mod cursor;

pub use compare::{hash_order_law, order};
pub use cursor::{Cursor, at_or_after};

#[cfg(test)]
mod tests;
