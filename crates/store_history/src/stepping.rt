//! A first kind of tree.
ghost use Rattle.std.specs.Prelude.{◌≡◌, ℕ, List};
ghost use Rattle.fs_model.specs.Objects.{Objects};
ghost use Rattle.store_history.specs.Images.{ImageLaws};
ghost use Rattle.store_history.specs.Pair.{Stands};
ghost use Rattle.store_history.specs.Stepping.{Stepping, IsStepping};

use crate::laws::{TreeImages, stands_law};

/// A tree that does whole transactions, each at once, and remembers how many it has done.
pub struct SteppingTree;

impl TreeImages for SteppingTree {
    ghost tree = { Stepping };

    ghost image = { IsStepping };
}

/// Such a tree meets what is asked of one. So what it stands for, together with a journal, is one state.
pub fn stepping_law()
    ensures laws { ImageLaws IsStepping }
    ensures unique { (fsid : List ℕ) (t : Stepping) (c : List ℕ) (o o2 : Objects) → Stands IsStepping fsid t c o → Stands IsStepping fsid t c o2 → o ≡ o2 }
{
    stands_law::<SteppingTree>();
}
