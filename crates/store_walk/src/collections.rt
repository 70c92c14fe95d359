// What stands in `current`.
ghost use Rattle.std.specs.Prelude.{◌≡◌, ◌↔◌, Some, IfOk, OnOk, IsTrue, IsErrOf};
ghost use Rattle.tree_api.specs.Tree.{Path, IsDir};
ghost use Rattle.tree_api.specs.Disk.{Still};
ghost use Rattle.lfn_index.specs.Entries.{IsEntry};
ghost use Rattle.coll_ops.specs.Changes.{Faults};
ghost use Rattle.coll_ops.specs.Places.{IsThere};
ghost use Rattle.store_walk.specs.Walked.{IsColl, HoldsObjects, EntryPlaced, AllPlaced};

use fs_names::{Settings, decode_coll};
use index_fault::IndexFault;
use lfn_index::entries;
use std::alloc::{AllocError, Global};
use tree_api::{Entry, FileTree, Kind, TreePath, is_step};

/// Whether a collection has this name.
fn is_coll(step: &[u8]) -> bool
    ensures { IsTrue result ↔ IsColl step.now }
{
    decode_coll(step).is_ok()
}

/// The hashed subdirectory of this digit.
fn subdir_path(alloc: Global, dir: &TreePath, digit: u8) -> Result<TreePath, AllocError> {
    let mut step = Vec::from_slice(alloc, b"DIR_")?;
    step.push(digit)?;
    if !is_step(&step) {
        return dir.copy();
    }
    dir.join(&step)
}

/// In a directory stand only files of objects, one for each. `Damaged` names the first entry that is none, or else the first
/// hashed subdirectory.
fn look_objects<T: FileTree>(
    alloc: Global,
    tree: &mut T,
    set: &Settings,
    dir: &TreePath,
) -> Result<(), IndexFault>
    requires dir { T.tells tree.old → IsDir (T.disk tree.old).tree dir.now }
    ensures told { T.tells tree.new → T.tells tree.old }
    ensures counts { Faults (IsErrOf result IndexFault.Tree) (T.disk tree.old) (T.disk tree.new) }
    ensures still { T.tells tree.new → Still (T.disk tree.old) (T.disk tree.new) }
    ensures laid { T.tells tree.new → OnOk result (HoldsObjects set.now dir.now (T.disk tree.old).tree) }
    ensures damaged { T.tells tree.new → (p : Path) → IsErrOf result (IndexFault.Damaged p) → HoldsObjects set.now dir.now (T.disk tree.old).tree → ⊥ }
{
    let listed = entries(alloc, tree, set, dir)?;
    if listed.subdirs.is_empty() {
        return Ok(());
    }
    let subdir = subdir_path(alloc, dir, listed.subdirs[0])?;
    Err(IndexFault::Damaged { path: subdir })
}

/// The same of what is of this kind.
fn look_coll<T: FileTree>(
    alloc: Global,
    tree: &mut T,
    set: &Settings,
    path: &TreePath,
    kind: Kind,
) -> Result<(), IndexFault>
    requires there { T.tells tree.old → IsThere (T.disk tree.old).tree path.now (Some kind) }
    ensures told { T.tells tree.new → T.tells tree.old }
    ensures counts { Faults (IsErrOf result IndexFault.Tree) (T.disk tree.old) (T.disk tree.new) }
    ensures still { T.tells tree.new → Still (T.disk tree.old) (T.disk tree.new) }
    ensures laid { T.tells tree.new → OnOk result (HoldsObjects set.now path.now (T.disk tree.old).tree) }
    ensures damaged { T.tells tree.new → (p : Path) → IsErrOf result (IndexFault.Damaged p) → HoldsObjects set.now path.now (T.disk tree.old).tree → ⊥ }
{
    match kind {
        Kind::Dir => look_objects(alloc, tree, set, path),
        Kind::File => Err(IndexFault::Damaged { path: path.copy()? }),
    }
}

/// An entry of `current` that has a collection's name is one without damage.
fn look_place<T: FileTree>(
    alloc: Global,
    tree: &mut T,
    set: &Settings,
    dir: &TreePath,
    entry: &Entry,
) -> Result<(), IndexFault>
    requires entry { T.tells tree.old → IsEntry (T.disk tree.old).tree dir.now entry.now }
    ensures told { T.tells tree.new → T.tells tree.old }
    ensures counts { Faults (IsErrOf result IndexFault.Tree) (T.disk tree.old) (T.disk tree.new) }
    ensures still { T.tells tree.new → Still (T.disk tree.old) (T.disk tree.new) }
    ensures laid { T.tells tree.new → OnOk result (EntryPlaced set.now dir.now (T.disk tree.old).tree entry.now) }
    ensures damaged { T.tells tree.new → (p : Path) → IsErrOf result (IndexFault.Damaged p) → EntryPlaced set.now dir.now (T.disk tree.old).tree entry.now → ⊥ }
{
    if entry.step.steps() != 1 {
        return Ok(());
    }
    let step = entry.step.step(0);
    let path = dir.join(step)?;
    if is_coll(step) {
        return look_coll(alloc, tree, set, &path, entry.kind);
    }
    Ok(())
}

/// And so is each.
pub(crate) fn look_places<T: FileTree>(
    alloc: Global,
    tree: &mut T,
    set: &Settings,
    dir: &TreePath,
) -> Result<(), IndexFault>
    requires dir { T.tells tree.old → IsDir (T.disk tree.old).tree dir.now }
    ensures told { T.tells tree.new → T.tells tree.old }
    ensures counts { Faults (IsErrOf result IndexFault.Tree) (T.disk tree.old) (T.disk tree.new) }
    ensures still { T.tells tree.new → Still (T.disk tree.old) (T.disk tree.new) }
    ensures laid { T.tells tree.new → OnOk result (AllPlaced set.now dir.now (T.disk tree.old).tree) }
    ensures damaged { T.tells tree.new → (p : Path) → IsErrOf result (IndexFault.Damaged p) → AllPlaced set.now dir.now (T.disk tree.old).tree → ⊥ }
{
    let entries = tree.list(dir)?;
    for entry in &entries {
        look_place(alloc, tree, set, dir, entry)?;
    }
    Ok(())
}
