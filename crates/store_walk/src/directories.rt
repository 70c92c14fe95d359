// Looks at one path, and at what stands in one directory.
ghost use Rattle.std.specs.Prelude.{◌≡◌, ◌≢◌, ◌∷◌, [], IfOk, OnOk, Err, IsErrOf, length};
ghost use Rattle.tree_api.specs.Tree.{Path, IsDir, IsFree};
ghost use Rattle.tree_api.specs.Counts.{Counts};
ghost use Rattle.tree_api.specs.Disk.{Still};
ghost use Rattle.coll_ops.specs.Changes.{Faults};
ghost use Rattle.coll_ops.specs.Places.{IsThere};
ghost use Rattle.store_walk.specs.Walked.{HoldsFiles};

use index_fault::IndexFault;
use tree_api::{Entry, FileTree, Kind, TreePath};

/// What is of which kind at a path.
fn kind_at<T: FileTree>(tree: &mut T, path: &TreePath) -> Result<Option<Kind>, IndexFault>
    ensures told { T.tells tree.new → T.tells tree.old }
    ensures counts { Faults (IsErrOf result IndexFault.Tree) (T.disk tree.old) (T.disk tree.new) }
    ensures still { T.tells tree.new → Still (T.disk tree.old) (T.disk tree.new) }
    ensures kind { T.tells tree.new → IfOk result (IsThere (T.disk tree.old).tree path.now) }
    ensures undamaged { (p : Path) → result ≢ Err (IndexFault.Damaged p) }
{
    match tree.stat(path)? {
        Some(stat) => Ok(Some(stat.kind)),
        None => Ok(None),
    }
}

/// A directory stands there.
pub(crate) fn look_dir<T: FileTree>(tree: &mut T, path: &TreePath) -> Result<(), IndexFault>
    ensures told { T.tells tree.new → T.tells tree.old }
    ensures counts { Faults (IsErrOf result IndexFault.Tree) (T.disk tree.old) (T.disk tree.new) }
    ensures still { T.tells tree.new → Still (T.disk tree.old) (T.disk tree.new) }
    ensures laid { T.tells tree.new → OnOk result (IsDir (T.disk tree.old).tree path.now) }
    ensures damaged { T.tells tree.new → (p : Path) → IsErrOf result (IndexFault.Damaged p) → IsDir (T.disk tree.old).tree path.now → ⊥ }
{
    match kind_at(tree, path)? {
        Some(Kind::Dir) => Ok(()),
        Some(Kind::File) => Err(IndexFault::Damaged { path: path.copy()? }),
        None => Err(IndexFault::Damaged { path: path.copy()? }),
    }
}

/// No directory stands there.
pub(crate) fn look_free<T: FileTree>(tree: &mut T, path: &TreePath) -> Result<(), IndexFault>
    ensures told { T.tells tree.new → T.tells tree.old }
    ensures counts { Faults (IsErrOf result IndexFault.Tree) (T.disk tree.old) (T.disk tree.new) }
    ensures still { T.tells tree.new → Still (T.disk tree.old) (T.disk tree.new) }
    ensures laid { T.tells tree.new → OnOk result (IsFree (T.disk tree.old).tree path.now) }
    ensures damaged { T.tells tree.new → (p : Path) → IsErrOf result (IndexFault.Damaged p) → IsFree (T.disk tree.old).tree path.now → ⊥ }
{
    match kind_at(tree, path)? {
        Some(Kind::Dir) => Err(IndexFault::Damaged { path: path.copy()? }),
        Some(Kind::File) => Ok(()),
        None => Ok(()),
    }
}

/// An entry of a directory is a file.
fn look_file(dir: &TreePath, entry: &Entry) -> Result<(), IndexFault>
    ensures file { OnOk result (length entry.now.step ≡ 1 → entry.now.kind ≡ Kind.File) }
    ensures damaged { (p : Path) → IsErrOf result (IndexFault.Damaged p) → entry.now.kind ≡ Kind.Dir }
    ensures memory { result ≢ Err IndexFault.Tree }
{
    if entry.step.steps() != 1 {
        return Ok(());
    }
    match entry.kind {
        Kind::File => Ok(()),
        Kind::Dir => {
            let path = dir.join(entry.step.step(0))?;
            Err(IndexFault::Damaged { path })
        }
    }
}

/// Only files stand in a directory.
pub(crate) fn look_files<T: FileTree>(tree: &mut T, dir: &TreePath) -> Result<(), IndexFault>
    requires dir { T.tells tree.old → IsDir (T.disk tree.old).tree dir.now }
    ensures told { T.tells tree.new → T.tells tree.old }
    ensures counts { Faults (IsErrOf result IndexFault.Tree) (T.disk tree.old) (T.disk tree.new) }
    ensures still { T.tells tree.new → Still (T.disk tree.old) (T.disk tree.new) }
    ensures laid { T.tells tree.new → OnOk result (HoldsFiles dir.now (T.disk tree.old).tree) }
    ensures damaged { T.tells tree.new → (p : Path) → IsErrOf result (IndexFault.Damaged p) → HoldsFiles dir.now (T.disk tree.old).tree → ⊥ }
{
    let entries = tree.list(dir)?;
    for entry in &entries {
        look_file(dir, entry)?;
    }
    Ok(())
}
