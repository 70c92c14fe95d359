//! The cells of objects, and what each operation does to each of them.
//!
//! A cell is a part of a named object: whether it exists, its length, each byte, each attribute, the omap header and each
//! omap key. An operation leaves a cell, sets it, raises it or copies onto it, and never does more; so replay can be told
//! cell by cell. `Values.antt` has the cells of objects, `Parts.antt` and `Actions.antt` what operations do to them, and
//! `Laws.antt` that this is what operations mean, and that guarded replay of a journal ends in the objects after it.
#![tactic(auto)]

mod actions;
mod cell;
mod laws;

pub use actions::action;
pub use cell::{Act, Cell, Part};
pub use laws::{
    cells_law, keeps_law, reads_law, replay_law, row_law, stands_law, starts_law, unique_law,
};

#[cfg(test)]
mod tests;
