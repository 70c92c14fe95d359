//! Looking over a store's tree before it is used, and tidying it.
//!
//! `look_over` tells whether the tree is one that a store leaves: its own directories stand, nothing is in the way of a file
//! that it will write, objects lie directly in their collection's directory, and no tree is too deep to be swept. What it
//! finds to be so is all that the operations of a store start from. `tidy` takes away what files were being built when an
//! earlier run ended, and `sweep_trash` what collections that run had taken away.
#![tactic(auto)]

mod collections;
mod depth;
mod directories;
mod emptying;
mod looking;
mod places;
mod tidying;

pub use emptying::sweep_trash;
pub use looking::look_over;
pub use tidying::tidy;

#[cfg(test)]
mod tests;
#[cfg(test)]
mod trials;
