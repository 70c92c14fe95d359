ghost use Rattle.std.specs.Prelude.{◌≡◌, ◌≢◌, None, true, false, IfOk, IfErr, IsOk, IsErrOf};
ghost use Rattle.index_fault.specs.declared.IndexFault.TheVariants as fault;
ghost use Rattle.tree_api.specs.Tree.{look};
ghost use Rattle.tree_api.specs.Disk.{Still};
ghost use Rattle.tree_api.specs.Counts.{Counts};
ghost use Rattle.replay_guard.specs.Guards.{guard_name};
ghost use Rattle.replay_guard.specs.Standing.{TellsGuard, Blames, IsNoDamage, SetsGuard};

use crate::Guard;
use crate::guard::{guard_in, spell};
use fs_names::Pos;
use index_fault::IndexFault;
use std::alloc::Global;
use tree_api::{FileTree, TreePath};

/// The guard of a file or a directory, or none where it has none.
pub fn read_guard<T: FileTree>(tree: &mut T, path: &TreePath) -> Result<Option<Guard>, IndexFault>
    requires there { T.tells tree.old → (T.disk tree.old).tree.at path.now ≢ None }
    ensures guard { T.tells tree.new → IfOk result (λ guard. TellsGuard (look (T.disk tree.old).tree path.now) guard) }
    ensures damaged { T.tells tree.new → IfErr result (Blames path.now (look (T.disk tree.old).tree path.now)) }
    ensures still { T.tells tree.new → Still (T.disk tree.old) (T.disk tree.new) }
    ensures told { T.tells tree.new → T.tells tree.old }
    ensures counts { Counts (IsErrOf result fault.Tree) 0 0 (T.disk tree.old) (T.disk tree.new) }
{
    let Some(bytes) = tree.attr(path, b"guard")? else {
        return Ok(None);
    };
    match guard_in(&bytes) {
        Some(guard) => Ok(Some(guard)),
        None => Err(IndexFault::Damaged { path: path.copy()? }),
    }
}

/// Sets a guard once all that the node holds is stable, and makes it stable too.
fn write_guard<T: FileTree>(
    alloc: Global,
    tree: &mut T,
    path: &TreePath,
    guard: Guard,
) -> Result<(), IndexFault>
    requires there { T.tells tree.old → (T.disk tree.old).tree.at path.now ≢ None }
    ensures sets { T.tells tree.new → SetsGuard path.now guard (T.disk tree.old) (T.disk tree.new) (IsOk result) }
    ensures told { T.tells tree.new → T.tells tree.old }
    ensures only { IsNoDamage result }
    ensures counts { Counts (IsErrOf result fault.Tree) 0 0 (T.disk tree.old) (T.disk tree.new) }
{
    let bytes = spell(alloc, guard)?;
    tree.sync_file(path)?;
    tree.set_attr(path, b"guard", &bytes)?;
    Ok(tree.sync_file(path)?)
}

/// Marks an operation as begun, once all that the node holds is stable.
pub fn open_guard<T: FileTree>(
    alloc: Global,
    tree: &mut T,
    path: &TreePath,
    pos: Pos,
) -> Result<(), IndexFault>
    requires there { T.tells tree.old → (T.disk tree.old).tree.at path.now ≢ None }
    ensures sets { T.tells tree.new → SetsGuard path.now (record { pos = pos; in_progress = true }) (T.disk tree.old) (T.disk tree.new) (IsOk result) }
    ensures told { T.tells tree.new → T.tells tree.old }
    ensures only { IsNoDamage result }
    ensures counts { Counts (IsErrOf result fault.Tree) 0 0 (T.disk tree.old) (T.disk tree.new) }
{
    let in_progress = true;
    write_guard(alloc, tree, path, Guard { pos, in_progress })
}

/// Marks an operation that was begun as done, once all that the node holds is stable.
pub fn close_guard<T: FileTree>(
    alloc: Global,
    tree: &mut T,
    path: &TreePath,
    pos: Pos,
) -> Result<(), IndexFault>
    requires there { T.tells tree.old → (T.disk tree.old).tree.at path.now ≢ None }
    ensures sets { T.tells tree.new → SetsGuard path.now (record { pos = pos; in_progress = false }) (T.disk tree.old) (T.disk tree.new) (IsOk result) }
    ensures told { T.tells tree.new → T.tells tree.old }
    ensures only { IsNoDamage result }
    ensures counts { Counts (IsErrOf result fault.Tree) 0 0 (T.disk tree.old) (T.disk tree.new) }
{
    let in_progress = false;
    write_guard(alloc, tree, path, Guard { pos, in_progress })
}

/// Marks an operation as done that was done in one step, once all that the node holds is stable.
pub fn set_guard<T: FileTree>(
    alloc: Global,
    tree: &mut T,
    path: &TreePath,
    pos: Pos,
) -> Result<(), IndexFault>
    requires there { T.tells tree.old → (T.disk tree.old).tree.at path.now ≢ None }
    ensures sets { T.tells tree.new → SetsGuard path.now (record { pos = pos; in_progress = false }) (T.disk tree.old) (T.disk tree.new) (IsOk result) }
    ensures told { T.tells tree.new → T.tells tree.old }
    ensures only { IsNoDamage result }
    ensures counts { Counts (IsErrOf result fault.Tree) 0 0 (T.disk tree.old) (T.disk tree.new) }
{
    close_guard(alloc, tree, path, pos)
}
