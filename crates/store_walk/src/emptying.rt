// The trash is emptied.
ghost use Rattle.std.specs.Prelude.{◌≡◌, ◌++◌, ℕ, List, OnOk, IsErrOf, None, length};
ghost use Rattle.fs_names.specs.declared.settings.Settings.{Settings};
ghost use Rattle.tree_api.specs.Tree.{Path, IsDir};
ghost use Rattle.tree_api.specs.Disk.{Leaves};
ghost use Rattle.lfn_index.specs.Directory.{entry};
ghost use Rattle.op_effects.specs.Clear.{DirBelow, KeepsFree};
ghost use Rattle.op_effects.specs.Ready.{Ready, trash};
ghost use Rattle.coll_ops.specs.Changes.{AllStay, Elsewhere, Sweeps, Faults};
ghost use Rattle.store_walk.specs.Thinned.{IsBelow};

use crate::places::trash_dir;
use coll_ops::sweep;
use index_fault::IndexFault;
use std::alloc::Global;
use tree_api::{Entry, FileTree, TreePath};

/// An entry of the directory goes, with all below it.
fn sweep_at<T: FileTree>(tree: &mut T, dir: &TreePath, entry: &Entry) -> Result<(), IndexFault>
    requires entry { T.tells tree.old → length entry.now.step ≡ 1 }
    ensures told { T.tells tree.new → T.tells tree.old }
    ensures counts { Faults (IsErrOf result IndexFault.Tree) (T.disk tree.old) (T.disk tree.new) }
    ensures sweeps { T.tells tree.new → Sweeps (dir.now ++ entry.now.step) (T.disk tree.old) (T.disk tree.new) }
    ensures gone { T.tells tree.new → OnOk result ((T.disk tree.new).tree.at (dir.now ++ entry.now.step) ≡ None) }
    ensures damaged { T.tells tree.new → (q : Path) → IsErrOf result (IndexFault.Damaged q) → DirBelow 9 (dir.now ++ entry.now.step) (T.disk tree.old).tree q }
{
    if entry.step.steps() != 1 {
        return Ok(());
    }
    let path = dir.join(entry.step.step(0))?;
    sweep(tree, &path)?;
    Ok(())
}

/// All that stands in the directory goes, with all below it.
fn sweep_each<T: FileTree>(tree: &mut T, dir: &TreePath) -> Result<(), IndexFault>
    requires dir { T.tells tree.old → IsDir (T.disk tree.old).tree dir.now }
    ensures told { T.tells tree.new → T.tells tree.old }
    ensures counts { Faults (IsErrOf result IndexFault.Tree) (T.disk tree.old) (T.disk tree.new) }
    ensures sweeps { T.tells tree.new → Sweeps dir.now (T.disk tree.old) (T.disk tree.new) }
    ensures elsewhere { T.tells tree.new → Leaves (Elsewhere (IsBelow dir.now)) (T.disk tree.old) (T.disk tree.new) }
    ensures empty { T.tells tree.new → OnOk result ((step : List ℕ) → (T.disk tree.new).tree.at (entry dir.now step) ≡ None) }
    ensures damaged { T.tells tree.new → (q : Path) → IsErrOf result (IndexFault.Damaged q) → DirBelow 10 dir.now (T.disk tree.old).tree q }
{
    let entries = tree.list(dir)?;
    for entry in &entries {
        sweep_at(tree, dir, entry)?;
    }
    Ok(())
}

/// Sweeps all trees of the trash, which is listed once. The names aren't synced afterwards.
///
/// Answers `Damaged` where a tree is too deep, and leaves this one and those behind it.
pub fn sweep_trash<T: FileTree>(alloc: Global, tree: &mut T) -> Result<(), IndexFault>
    requires trash { T.tells tree.old → IsDir (T.disk tree.old).tree trash }
    ensures told { T.tells tree.new → T.tells tree.old }
    ensures counts { Faults (IsErrOf result IndexFault.Tree) (T.disk tree.old) (T.disk tree.new) }
    ensures leaves { T.tells tree.new → (set : Settings) → Leaves (AllStay set) (T.disk tree.old) (T.disk tree.new) }
    ensures elsewhere { T.tells tree.new → Leaves (Elsewhere (IsBelow trash)) (T.disk tree.old) (T.disk tree.new) }
    ensures free { T.tells tree.new → Leaves KeepsFree (T.disk tree.old) (T.disk tree.new) }
    ensures ready { T.tells tree.new → (set : Settings) → Ready set (T.disk tree.old) → Ready set (T.disk tree.new) }
    ensures empty { T.tells tree.new → OnOk result ((step : List ℕ) → (T.disk tree.new).tree.at (entry trash step) ≡ None) }
    ensures damaged { T.tells tree.new → (q : Path) → IsErrOf result (IndexFault.Damaged q) → DirBelow 10 trash (T.disk tree.old).tree q }
{
    let dir = trash_dir(alloc)?;
    sweep_each(tree, &dir)
}
