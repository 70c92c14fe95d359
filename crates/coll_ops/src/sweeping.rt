// Trees in the trash.
ghost use Rattle.std.specs.Prelude.{◌≡◌, ◌≢◌, ◌↔◌, ◌+◌, ◌++◌, [], None, OnOk, IfOk, IsErrOf, IsTrue};
ghost use Rattle.tree_api.specs.Tree.{Path, IsDir};
ghost use Rattle.lfn_index.specs.Entries.{IsEntry};
ghost use Rattle.coll_ops.specs.Changes.{Sweeps, Faults};
ghost use Rattle.op_effects.specs.Clear.{DirBelow};

use crate::looking::kind_at;
use index_fault::IndexFault;
use tree_api::{Entry, FileTree, Kind, TreePath};

/// How many levels of directories may stand below the top of a tree that is swept.
const LEVELS: u32 = 8;

/// What stands at a path goes, with all below it. Answers whether something stood there.
///
/// Answers `Damaged` where directories stand on more than 8 levels below it.
pub fn sweep<T: FileTree>(tree: &mut T, path: &TreePath) -> Result<bool, IndexFault>
    requires named { path.now ≢ [] }
    ensures told { T.tells tree.new → T.tells tree.old }
    ensures counts { Faults (IsErrOf result IndexFault.Tree) (T.disk tree.old) (T.disk tree.new) }
    ensures leaves { T.tells tree.new → Sweeps path.now (T.disk tree.old) (T.disk tree.new) }
    ensures gone { T.tells tree.new → OnOk result ((T.disk tree.new).tree.at path.now ≡ None) }
    ensures stood { T.tells tree.new → IfOk result (λ stood. IsTrue stood ↔ ((T.disk tree.old).tree.at path.now ≢ None)) }
    ensures damaged { T.tells tree.new → (q : Path) → IsErrOf result (IndexFault.Damaged q) → DirBelow 9 path.now (T.disk tree.old).tree q }
{
    match kind_at(tree, path)? {
        None => Ok(false),
        Some(Kind::File) => {
            tree.remove_file(path)?;
            Ok(true)
        }
        Some(Kind::Dir) => {
            sweep_dir(tree, path, LEVELS)?;
            Ok(true)
        }
    }
}

/// A directory goes, with all below it, where no more levels of directories than this stand there.
#[cycle(sweep)]
fn sweep_dir<T: FileTree>(tree: &mut T, path: &TreePath, levels: u32) -> Result<(), IndexFault>
    requires named { path.now ≢ [] }
    requires dir { T.tells tree.old → IsDir (T.disk tree.old).tree path.now }
    ensures told { T.tells tree.new → T.tells tree.old }
    ensures counts { Faults (IsErrOf result IndexFault.Tree) (T.disk tree.old) (T.disk tree.new) }
    ensures leaves { T.tells tree.new → Sweeps path.now (T.disk tree.old) (T.disk tree.new) }
    ensures gone { T.tells tree.new → OnOk result ((T.disk tree.new).tree.at path.now ≡ None) }
    ensures damaged { T.tells tree.new → (q : Path) → IsErrOf result (IndexFault.Damaged q) → DirBelow (levels + 1) path.now (T.disk tree.old).tree q }
{
    let entries = tree.list(path)?;
    for entry in &entries {
        sweep_entry(tree, path, entry, levels)?;
    }
    tree.remove_dir(path)?;
    Ok(())
}

/// An entry of the directory goes, with all below it.
#[cycle(sweep)]
fn sweep_entry<T: FileTree>(
    tree: &mut T,
    dir: &TreePath,
    entry: &Entry,
    levels: u32,
) -> Result<(), IndexFault>
    requires entry { T.tells tree.old → IsEntry (T.disk tree.old).tree dir.now entry.now }
    ensures told { T.tells tree.new → T.tells tree.old }
    ensures counts { Faults (IsErrOf result IndexFault.Tree) (T.disk tree.old) (T.disk tree.new) }
    ensures leaves { T.tells tree.new → Sweeps (dir.now ++ entry.now.step) (T.disk tree.old) (T.disk tree.new) }
    ensures gone { T.tells tree.new → OnOk result ((T.disk tree.new).tree.at (dir.now ++ entry.now.step) ≡ None) }
    ensures damaged { T.tells tree.new → (q : Path) → IsErrOf result (IndexFault.Damaged q) → DirBelow levels (dir.now ++ entry.now.step) (T.disk tree.old).tree q }
{
    if entry.step.steps() != 1 {
        return Ok(());
    }
    let path = dir.join(entry.step.step(0))?;
    match entry.kind {
        Kind::File => {
            tree.remove_file(&path)?;
            Ok(())
        }
        Kind::Dir if levels == 0 => Err(IndexFault::Damaged { path }),
        Kind::Dir => sweep_dir(tree, &path, levels - 1),
    }
}
