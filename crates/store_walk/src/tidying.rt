// Files that were being built go.
ghost use Rattle.std.specs.Prelude.{◌≡◌, ◌≢◌, ◌++◌, ℕ, List, Err, OnOk, IsErrOf, None};
ghost use Rattle.fs_names.specs.declared.settings.Settings.{Settings};
ghost use Rattle.tree_api.specs.Tree.{Path, IsDir, IsFree};
ghost use Rattle.tree_api.specs.Disk.{Leaves};
ghost use Rattle.tree_api.specs.Renaming.{Removes};
ghost use Rattle.lfn_index.specs.Directory.{entry};
ghost use Rattle.lfn_index.specs.Changes.{aside};
ghost use Rattle.op_effects.specs.Clear.{KeepsFree};
ghost use Rattle.op_effects.specs.Ready.{Ready};
ghost use Rattle.coll_ops.specs.Changes.{AllStay, Elsewhere, Faults};
ghost use Rattle.store_walk.specs.Deep.{IsFileEntry};
ghost use Rattle.store_walk.specs.Thinned.{Thins};
ghost use Rattle.store_walk.specs.Walked.{HoldsFiles};

use crate::places::aside_dir;
use index_fault::IndexFault;
use std::alloc::Global;
use tree_api::{Entry, FileTree, TreePath};

/// A file of the directory goes.
fn drop_file<T: FileTree>(tree: &mut T, dir: &TreePath, entry: &Entry) -> Result<(), IndexFault>
    requires file { T.tells tree.old → IsFileEntry dir.now (T.disk tree.old).tree entry.now }
    ensures told { T.tells tree.new → T.tells tree.old }
    ensures counts { Faults (IsErrOf result IndexFault.Tree) (T.disk tree.old) (T.disk tree.new) }
    ensures leaves { T.tells tree.new → Leaves (Removes (dir.now ++ entry.now.step) (T.disk tree.old).tree) (T.disk tree.old) (T.disk tree.new) }
    ensures gone { T.tells tree.new → OnOk result ((T.disk tree.new).tree.at (dir.now ++ entry.now.step) ≡ None) }
    ensures undamaged { (p : Path) → result ≢ Err (IndexFault.Damaged p) }
{
    if entry.step.steps() != 1 {
        return Ok(());
    }
    let path = dir.join(entry.step.step(0))?;
    tree.remove_file(&path)?;
    Ok(())
}

/// All files of the directory go.
fn drop_files<T: FileTree>(tree: &mut T, dir: &TreePath) -> Result<(), IndexFault>
    requires dir { T.tells tree.old → IsDir (T.disk tree.old).tree dir.now }
    requires files { T.tells tree.old → HoldsFiles dir.now (T.disk tree.old).tree }
    ensures told { T.tells tree.new → T.tells tree.old }
    ensures counts { Faults (IsErrOf result IndexFault.Tree) (T.disk tree.old) (T.disk tree.new) }
    ensures thins { T.tells tree.new → Thins dir.now (T.disk tree.old) (T.disk tree.new) }
    ensures empty { T.tells tree.new → OnOk result ((step : List ℕ) → (T.disk tree.new).tree.at (entry dir.now step) ≡ None) }
    ensures undamaged { (p : Path) → result ≢ Err (IndexFault.Damaged p) }
{
    let entries = tree.list(dir)?;
    for entry in &entries {
        drop_file(tree, dir, entry)?;
    }
    Ok(())
}

/// Takes away the files that are left of files that were being built. The names aren't synced afterwards.
///
/// Never answers `Damaged`.
pub fn tidy<T: FileTree>(alloc: Global, tree: &mut T) -> Result<(), IndexFault>
    requires ready { T.tells tree.old → IsDir (T.disk tree.old).tree aside × ((step : List ℕ) → IsFree (T.disk tree.old).tree (entry aside step)) }
    ensures told { T.tells tree.new → T.tells tree.old }
    ensures counts { Faults (IsErrOf result IndexFault.Tree) (T.disk tree.old) (T.disk tree.new) }
    ensures leaves { T.tells tree.new → (set : Settings) → Leaves (AllStay set) (T.disk tree.old) (T.disk tree.new) }
    ensures elsewhere { T.tells tree.new → Leaves (Elsewhere (λ q. (s : List ℕ) × (q ≡ entry aside s))) (T.disk tree.old) (T.disk tree.new) }
    ensures free { T.tells tree.new → Leaves KeepsFree (T.disk tree.old) (T.disk tree.new) }
    ensures ready { T.tells tree.new → OnOk result ((set : Settings) → Ready set (T.disk tree.old) → Ready set (T.disk tree.new)) }
    ensures empty { T.tells tree.new → OnOk result ((step : List ℕ) → (T.disk tree.new).tree.at (entry aside step) ≡ None) }
    ensures undamaged { (p : Path) → result ≢ Err (IndexFault.Damaged p) }
{
    let dir = aside_dir(alloc)?;
    drop_files(tree, &dir)
}
