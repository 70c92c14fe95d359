// How deep the trees of the trash are.
ghost use Rattle.std.specs.Prelude.{◌≡◌, ◌+◌, ◌++◌, OnOk, IsErrOf};
ghost use Rattle.tree_api.specs.Tree.{Path, IsDir};
ghost use Rattle.tree_api.specs.Disk.{Still};
ghost use Rattle.lfn_index.specs.Entries.{IsEntry};
ghost use Rattle.op_effects.specs.Clear.{DirBelow};
ghost use Rattle.coll_ops.specs.Changes.{Faults};
ghost use Rattle.store_walk.specs.Deep.{IsBounded};

use index_fault::IndexFault;
use tree_api::{Entry, FileTree, Kind, TreePath};

/// Below a directory stand no more levels of directories than this. `Damaged` names the first directory that is too deep.
#[cycle(levels)]
pub(crate) fn look_below<T: FileTree>(
    tree: &mut T,
    path: &TreePath,
    levels: u32,
) -> Result<(), IndexFault>
    requires dir { T.tells tree.old → IsDir (T.disk tree.old).tree path.now }
    ensures told { T.tells tree.new → T.tells tree.old }
    ensures counts { Faults (IsErrOf result IndexFault.Tree) (T.disk tree.old) (T.disk tree.new) }
    ensures still { T.tells tree.new → Still (T.disk tree.old) (T.disk tree.new) }
    ensures laid { T.tells tree.new → OnOk result (IsBounded (levels + 1) path.now (T.disk tree.old).tree) }
    ensures damaged { T.tells tree.new → (q : Path) → IsErrOf result (IndexFault.Damaged q) → DirBelow (levels + 1) path.now (T.disk tree.old).tree q }
{
    let entries = tree.list(path)?;
    for entry in &entries {
        look_at_entry(tree, path, entry, levels)?;
    }
    Ok(())
}

/// The same of an entry of the directory.
#[cycle(levels)]
fn look_at_entry<T: FileTree>(
    tree: &mut T,
    dir: &TreePath,
    entry: &Entry,
    levels: u32,
) -> Result<(), IndexFault>
    requires entry { T.tells tree.old → IsEntry (T.disk tree.old).tree dir.now entry.now }
    ensures told { T.tells tree.new → T.tells tree.old }
    ensures counts { Faults (IsErrOf result IndexFault.Tree) (T.disk tree.old) (T.disk tree.new) }
    ensures still { T.tells tree.new → Still (T.disk tree.old) (T.disk tree.new) }
    ensures laid { T.tells tree.new → OnOk result (IsBounded levels (dir.now ++ entry.now.step) (T.disk tree.old).tree) }
    ensures damaged { T.tells tree.new → (q : Path) → IsErrOf result (IndexFault.Damaged q) → DirBelow levels (dir.now ++ entry.now.step) (T.disk tree.old).tree q }
{
    if entry.step.steps() != 1 {
        return Ok(());
    }
    let path = dir.join(entry.step.step(0))?;
    match entry.kind {
        Kind::File => Ok(()),
        Kind::Dir if levels == 0 => Err(IndexFault::Damaged { path }),
        Kind::Dir => look_below(tree, &path, levels - 1),
    }
}
