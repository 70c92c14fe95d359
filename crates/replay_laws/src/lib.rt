//! Guarded replay: a journal is applied again over cells of which some hold old effects and some hold later ones.
//!
//! It knows no operation, no object and no disk. Cells and their values are of any two types. An operation does one of
//! four things to a cell: it leaves it, sets it, raises it to a least number, or copies, where the cells of its source
//! decide. A guard of a cell counts the operations that replay leaves out on it.
//!
//! `Replay.antt` has replay and the good starts from which it ends right. A good start alone isn't kept by a further
//! operation; `Settled.antt`, `Keeps.antt` and `Places.antt` have the stronger fact that is kept. `docs/REPLAY.md`
//! explains all of it from nothing.
#![tactic(auto)]

ghost use Rattle.replay_laws.specs.Examples.{ExamplesLaw};
ghost use Rattle.replay_laws.specs.Keeps.{KeepsLaw};
ghost use Rattle.replay_laws.specs.Places.{PlacesLaw};
ghost use Rattle.replay_laws.specs.Replay.{ReplayLaw, UniqueLaw};

/// From a good start guarded replay gives every cell its value in the fold, whatever value a harmless copy gives.
pub fn replay_law<C, V>()
    ensures { ReplayLaw C V }
{}

/// A start is good for one end alone, whatever the cells were before the first operation.
pub fn unique_law<C, V>()
    ensures { UniqueLaw C V }
{}

/// What a store keeps, so that each start that a crash leaves is good, also within a replay.
pub fn keeps_law<C, V>()
    ensures { KeepsLaw C V }
{}

/// The same with a place for each cell, so that several transactions may be open.
pub fn places_law<C, V>()
    ensures { PlacesLaw C V }
{}

/// A clone, a write to its source and a move of the copy: each of their moments is a good start, also those within the
/// move, but a copy without a guard, or a guard that doesn't count its own operation, isn't.
pub fn examples_law()
    ensures { ExamplesLaw }
{}
