//! A tree of files as the tree's side of a store: what `store_turns` and `store_mount` ask of it, met by the operations on
//! files, the committed number's file and the look at each directory.
#![tactic(auto)]

ghost use Rattle.std.specs.Prelude.{◌≡◌};
ghost use Rattle.file_side.specs.Laws.{FitLaw};

mod parts;

pub use parts::Parts;

/// What stands for some objects has only transactions that can be done.
pub fn fit_law()
    ensures { FitLaw }
{}

#[cfg(test)]
mod tests;
