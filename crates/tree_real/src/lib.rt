//! A tree of files on a real file system.
//!
//! It tells nothing of its content: what is proved is its safety and its counts. Below its root lie the folders `tree`, with
//! each node at its path, `side` with the attributes, and `snap`, which is kept for snapshots. Two files come and go beside
//! them: the mark `dirty` while a process has changes to make, and the note `move` of a node that moves.
//!
//! Each change syncs what it touches, the folders too, before it answers. So a sync has nothing left to do.
#![tactic(auto)]

mod disk;
mod layout;
mod mark;
mod moves;
mod nodes;
mod note;
mod real;
mod side;

pub use real::RealTree;

#[cfg(test)]
mod tests;
