// A store made where nothing stands.
ghost use Rattle.std.specs.Prelude.{◌≡◌, OnOk, IfOk, MatchBool, IsErrOf};
ghost use Rattle.tree_api.specs.Counts.{Counts};
ghost use Rattle.tree_api.specs.Disk.{Everywhere, Keeps, Leaves, Still};
ghost use Rattle.store_files.specs.Steps.{Among, AllIn, IsBare, store_items, store_paths, Unfinished};
ghost use Rattle.store_files.specs.News.{IsNew, Fits};

use crate::fault::MakeFault;
use crate::making::make_files;
use fs_names::Settings;
use std::alloc::Global;
use tree_api::{FileTree, TreeError, TreePath};

/// Whether nothing stands but the root, and no snapshot is kept: whether a store can be made there.
pub fn is_new<T: FileTree>(alloc: Global, tree: &mut T) -> Result<bool, TreeError>
    ensures told { T.tells tree.new → T.tells tree.old }
    ensures still { T.tells tree.new → Still (T.disk tree.old) (T.disk tree.new) }
    ensures counts { Counts (IsErrOf result TreeError.Refused) 1 0 (T.disk tree.old) (T.disk tree.new) }
    ensures whether { T.tells tree.new → IfOk result (λ b. MatchBool b (IsNew (T.disk tree.old).tree) (IsNew (T.disk tree.old).tree → ⊥)) }
{
    let root = TreePath::root(alloc);
    let entries = tree.list(&root)?;
    if !entries.is_empty() {
        return Ok(false);
    }
    let kept = tree.snapshots()?;
    if !kept.is_empty() {
        return Ok(false);
    }
    Ok(true)
}

/// Makes a store's files in a new tree, and refuses any other.
///
/// The version is written last, so that at no moment a crash leaves an image with a version that lacks anything else.
pub fn make_store<T: FileTree>(
    alloc: Global,
    tree: &mut T,
    fsid: &[u8; 16],
    set: &Settings,
) -> Result<(), MakeFault>
    ensures told { T.tells tree.new → T.tells tree.old }
    ensures counts { Counts (IsErrOf result MakeFault.Tree) 1 0 (T.disk tree.old) (T.disk tree.new) }
    ensures fits { T.tells tree.new → Fits (T.disk tree.old).tree result }
    ensures refused { T.tells tree.new → (IsNew (T.disk tree.old).tree → ⊥) → Still (T.disk tree.old) (T.disk tree.new) }
    ensures leaves { T.tells tree.new → Leaves (Among store_paths) (T.disk tree.old) (T.disk tree.new) }
    ensures each { T.tells tree.new → Everywhere (T.disk tree.old) IsBare → Keeps (Unfinished fsid.now set.now) (T.disk tree.old) (T.disk tree.new) }
    ensures stand { T.tells tree.new → OnOk result (Everywhere (T.disk tree.new) (AllIn (store_items fsid.now set.now))) }
{
    if !is_new(alloc, tree)? {
        return Err(MakeFault::NotEmpty);
    }
    make_files(alloc, tree, fsid, set)?;
    Ok(())
}
