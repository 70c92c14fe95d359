// The trash as a whole.
ghost use Rattle.std.specs.Prelude.{◌≢◌, ℕ, Err, IfOk, IsErrOf};
ghost use Rattle.fs_names.specs.declared.settings.Settings.{Settings};
ghost use Rattle.tree_api.specs.Tree.{Path, IsDir};
ghost use Rattle.tree_api.specs.Counts.{Counts};
ghost use Rattle.tree_api.specs.Disk.{Still, Leaves};
ghost use Rattle.op_effects.specs.Clear.{KeepsClear};
ghost use Rattle.op_effects.specs.Ready.{Ready, trash};
ghost use Rattle.coll_ops.specs.Places.{Within};
ghost use Rattle.coll_ops.specs.Changes.{Elsewhere, AllStay, Sweeps, Faults};
ghost use Rattle.coll_ops.specs.Trash.{HasTrees, TreesLeft, IsFirst, FirstGoes, FirstTooDeep};

use crate::places::trash_dir;
use crate::sweeping::sweep;
use index_fault::IndexFault;
use std::alloc::Global;
use tree_api::{FileTree, TreePath};

/// How many trees the trash has.
///
/// Never answers `Damaged`.
pub fn trash_count<T: FileTree>(alloc: Global, tree: &mut T) -> Result<usize, IndexFault>
    requires trash { T.tells tree.old → IsDir (T.disk tree.old).tree trash }
    ensures told { T.tells tree.new → T.tells tree.old }
    ensures counts { Counts (IsErrOf result IndexFault.Tree) 1 0 (T.disk tree.old) (T.disk tree.new) }
    ensures still { T.tells tree.new → Still (T.disk tree.old) (T.disk tree.new) }
    ensures count { T.tells tree.new → IfOk result (HasTrees (T.disk tree.old).tree) }
    ensures undamaged { (p : Path) → result ≢ Err (IndexFault.Damaged p) }
{
    let dir = trash_dir(alloc)?;
    let entries = tree.list(&dir)?;
    Ok(entries.len())
}

/// The path of what stands first in a directory.
fn first_in<T: FileTree>(tree: &mut T, dir: &TreePath) -> Result<Option<TreePath>, IndexFault>
    requires dir { T.tells tree.old → IsDir (T.disk tree.old).tree dir.now }
    ensures told { T.tells tree.new → T.tells tree.old }
    ensures counts { Counts (IsErrOf result IndexFault.Tree) 1 0 (T.disk tree.old) (T.disk tree.new) }
    ensures still { T.tells tree.new → Still (T.disk tree.old) (T.disk tree.new) }
    ensures first { T.tells tree.new → IfOk result (IsFirst (T.disk tree.old).tree dir.now) }
    ensures undamaged { (p : Path) → result ≢ Err (IndexFault.Damaged p) }
{
    let entries = tree.list(dir)?;
    if entries.is_empty() {
        return Ok(None);
    }
    let entry = &entries[0];
    if entry.step.steps() != 1 {
        return Ok(None);
    }
    let path = dir.join(entry.step.step(0))?;
    Ok(Some(path))
}

/// It goes, with all below it. Answers whether something stood there.
fn sweep_first_in<T: FileTree>(tree: &mut T, dir: &TreePath) -> Result<bool, IndexFault>
    requires dir { T.tells tree.old → IsDir (T.disk tree.old).tree dir.now }
    ensures told { T.tells tree.new → T.tells tree.old }
    ensures counts { Faults (IsErrOf result IndexFault.Tree) (T.disk tree.old) (T.disk tree.new) }
    ensures sweeps { T.tells tree.new → Sweeps dir.now (T.disk tree.old) (T.disk tree.new) }
    ensures damaged { T.tells tree.new → (q : Path) → IsErrOf result (IndexFault.Damaged q) → FirstTooDeep dir.now (T.disk tree.old).tree q }
    ensures swept { T.tells tree.new → IfOk result (FirstGoes dir.now (T.disk tree.old).tree (T.disk tree.new).tree) }
{
    let Some(path) = first_in(tree, dir)? else {
        return Ok(false);
    };
    if path.steps() == 0 {
        return Ok(false);
    }
    sweep(tree, &path)?;
    Ok(true)
}

/// The first tree of the trash goes. Answers whether there was one. The names aren't synced afterwards.
///
/// Answers `Damaged` where the tree is too deep.
pub fn sweep_first<T: FileTree>(alloc: Global, tree: &mut T) -> Result<bool, IndexFault>
    requires trash { T.tells tree.old → IsDir (T.disk tree.old).tree trash }
    ensures told { T.tells tree.new → T.tells tree.old }
    ensures counts { Faults (IsErrOf result IndexFault.Tree) (T.disk tree.old) (T.disk tree.new) }
    ensures leaves { T.tells tree.new → (set : Settings) → Leaves (AllStay set) (T.disk tree.old) (T.disk tree.new) }
    ensures off { T.tells tree.new → Leaves (Elsewhere (Within trash)) (T.disk tree.old) (T.disk tree.new) }
    ensures clear { T.tells tree.new → Leaves KeepsClear (T.disk tree.old) (T.disk tree.new) }
    ensures ready { T.tells tree.new → (set : Settings) → Ready set (T.disk tree.old) → Ready set (T.disk tree.new) }
    ensures swept { T.tells tree.new → IfOk result (FirstGoes trash (T.disk tree.old).tree (T.disk tree.new).tree) }
    ensures trees { T.tells tree.new → (n : ℕ) → HasTrees (T.disk tree.old).tree n → IfOk result (TreesLeft n (T.disk tree.new).tree) }
    ensures damaged { T.tells tree.new → (q : Path) → IsErrOf result (IndexFault.Damaged q) → FirstTooDeep trash (T.disk tree.old).tree q }
{
    let dir = trash_dir(alloc)?;
    sweep_first_in(tree, &dir)
}
