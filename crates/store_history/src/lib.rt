//! What a store's tree and its journal stand for.
//!
//! A store's transactions have numbers, and make one history. Its tree has done them up to somewhere, in whole or in
//! part, and keeps a committed number; its journal holds those behind that number. So each of the two stands somewhere
//! in the history, and together they stand for the objects where the journal ends. `History.antt` has the numbers,
//! `Journal.antt` the journal's side, `Images.antt` what the tree's side owes, and `Pair.antt` what the two stand for.
#![tactic(auto)]

mod laws;
mod stepping;

pub use laws::{TreeImages, journal_law, pair_law, stands_law};
pub use stepping::{SteppingTree, stepping_law};
