// The whole look.
ghost use Rattle.std.specs.Prelude.{OnOk, IsErrOf};
ghost use Rattle.tree_api.specs.Tree.{Path, IsDir, current};
ghost use Rattle.tree_api.specs.Disk.{Still};
ghost use Rattle.coll_ops.specs.Changes.{Faults};
ghost use Rattle.op_effects.specs.Ready.{trash};
ghost use Rattle.store_walk.specs.Deep.{IsBounded};
ghost use Rattle.store_walk.specs.Walked.{IsWalked, OwnStands, AllPlaced};

use crate::collections::look_places;
use crate::depth::look_below;
use crate::directories::{look_dir, look_files, look_free};
use crate::places::{aside_dir, current_dir, number_file, trash_dir};
use fs_names::Settings;
use index_fault::IndexFault;
use std::alloc::Global;
use tree_api::FileTree;

/// How many levels of directories may stand below the trash: the tops of its trees, and eight below each.
const LEVELS: u32 = 9;

/// The store's own directories stand, and nothing is in the way of its own files.
fn look_own<T: FileTree>(alloc: Global, tree: &mut T) -> Result<(), IndexFault>
    ensures told { T.tells tree.new → T.tells tree.old }
    ensures counts { Faults (IsErrOf result IndexFault.Tree) (T.disk tree.old) (T.disk tree.new) }
    ensures still { T.tells tree.new → Still (T.disk tree.old) (T.disk tree.new) }
    ensures laid { T.tells tree.new → OnOk result (OwnStands (T.disk tree.old).tree) }
    ensures damaged { T.tells tree.new → (p : Path) → IsErrOf result (IndexFault.Damaged p) → OwnStands (T.disk tree.old).tree → ⊥ }
{
    let building = aside_dir(alloc)?;
    look_dir(tree, &building)?;
    let removed = trash_dir(alloc)?;
    look_dir(tree, &removed)?;
    let target = number_file(alloc)?;
    look_free(tree, &target)?;
    look_files(tree, &building)
}

/// What stands in `current` with a collection's name is one without damage.
fn look_current<T: FileTree>(alloc: Global, tree: &mut T, set: &Settings) -> Result<(), IndexFault>
    requires current { T.tells tree.old → IsDir (T.disk tree.old).tree current }
    ensures told { T.tells tree.new → T.tells tree.old }
    ensures counts { Faults (IsErrOf result IndexFault.Tree) (T.disk tree.old) (T.disk tree.new) }
    ensures still { T.tells tree.new → Still (T.disk tree.old) (T.disk tree.new) }
    ensures laid { T.tells tree.new → OnOk result (AllPlaced set.now current (T.disk tree.old).tree) }
    ensures damaged { T.tells tree.new → (p : Path) → IsErrOf result (IndexFault.Damaged p) → AllPlaced set.now current (T.disk tree.old).tree → ⊥ }
{
    let dir = current_dir(alloc)?;
    look_places(alloc, tree, set, &dir)
}

/// No tree in the trash is too deep.
fn look_trash<T: FileTree>(alloc: Global, tree: &mut T) -> Result<(), IndexFault>
    requires trash { T.tells tree.old → IsDir (T.disk tree.old).tree trash }
    ensures told { T.tells tree.new → T.tells tree.old }
    ensures counts { Faults (IsErrOf result IndexFault.Tree) (T.disk tree.old) (T.disk tree.new) }
    ensures still { T.tells tree.new → Still (T.disk tree.old) (T.disk tree.new) }
    ensures laid { T.tells tree.new → OnOk result (IsBounded 10 trash (T.disk tree.old).tree) }
    ensures damaged { T.tells tree.new → (p : Path) → IsErrOf result (IndexFault.Damaged p) → IsBounded 10 trash (T.disk tree.old).tree → ⊥ }
{
    let dir = trash_dir(alloc)?;
    look_below(tree, &dir, LEVELS)
}

/// Looks at each directory of a store once, and changes nothing. `Damaged` names what is in the way: of the store's own
/// directories the one that is missing, a directory where a file is to stand, a file where a collection is, what is no file
/// of an object in a collection, or a directory of the trash that is too deep.
///
/// What has another name in `current` is passed over.
pub fn look_over<T: FileTree>(alloc: Global, tree: &mut T, set: &Settings) -> Result<(), IndexFault>
    ensures told { T.tells tree.new → T.tells tree.old }
    ensures counts { Faults (IsErrOf result IndexFault.Tree) (T.disk tree.old) (T.disk tree.new) }
    ensures still { T.tells tree.new → Still (T.disk tree.old) (T.disk tree.new) }
    ensures laid { T.tells tree.new → OnOk result (IsWalked set.now (T.disk tree.old).tree) }
    ensures damaged { T.tells tree.new → (p : Path) → IsErrOf result (IndexFault.Damaged p) → IsWalked set.now (T.disk tree.old).tree → ⊥ }
{
    look_own(alloc, tree)?;
    look_current(alloc, tree, set)?;
    look_trash(alloc, tree)
}
