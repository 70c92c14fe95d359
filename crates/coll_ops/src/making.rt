// A new collection.
ghost use Rattle.std.specs.Prelude.{◌≡◌, OnOk, IsErrOf};
ghost use Rattle.fs_names.specs.declared.settings.Settings.{Settings};
ghost use Rattle.tree_api.specs.Tree.{Path, IsFile, IsDir, HasParent, current};
ghost use Rattle.tree_api.specs.Counts.{Counts};
ghost use Rattle.tree_api.specs.Disk.{Everywhere, Leaves};
ghost use Rattle.tree_stands.specs.Trees.{dir_of};
ghost use Rattle.op_effects.specs.Clear.{KeepsClear};
ghost use Rattle.op_effects.specs.Ready.{Ready};
ghost use Rattle.op_effects.specs.Collections.{Makes};
ghost use Rattle.coll_ops.specs.Places.{Within};
ghost use Rattle.coll_ops.specs.Changes.{AddsDir, NamesStable, Elsewhere};

use crate::looking::kind_at;
use fs_names::Coll;
use index_fault::IndexFault;
use op_effects::coll_path;
use std::alloc::Global;
use tree_api::{FileTree, Kind, TreePath};

/// A directory is there, made where nothing stood.
fn add_dir<T: FileTree>(tree: &mut T, path: &TreePath) -> Result<(), IndexFault>
    requires parent { T.tells tree.old → HasParent (T.disk tree.old).tree path.now }
    ensures told { T.tells tree.new → T.tells tree.old }
    ensures counts { Counts (IsErrOf result IndexFault.Tree) 1 0 (T.disk tree.old) (T.disk tree.new) }
    ensures adds { T.tells tree.new → AddsDir path.now (T.disk tree.old) (T.disk tree.new) }
    ensures dir { T.tells tree.new → OnOk result (IsDir (T.disk tree.new).tree path.now) }
    ensures damaged { T.tells tree.new → (p : Path) → IsErrOf result (IndexFault.Damaged p) → (p ≡ path.now) × IsFile (T.disk tree.old).tree p }
{
    match kind_at(tree, path)? {
        None => {
            tree.make_dir(path)?;
            Ok(())
        }
        Some(Kind::Dir) => Ok(()),
        Some(Kind::File) => Err(IndexFault::Damaged { path: path.copy()? }),
    }
}

/// The same, and all names are stable.
fn settle_dir<T: FileTree>(tree: &mut T, path: &TreePath) -> Result<(), IndexFault>
    requires parent { T.tells tree.old → HasParent (T.disk tree.old).tree path.now }
    ensures told { T.tells tree.new → T.tells tree.old }
    ensures counts { Counts (IsErrOf result IndexFault.Tree) 1 0 (T.disk tree.old) (T.disk tree.new) }
    ensures adds { T.tells tree.new → AddsDir path.now (T.disk tree.old) (T.disk tree.new) }
    ensures stable { T.tells tree.new → OnOk result (NamesStable (T.disk tree.new)) }
    ensures dir { T.tells tree.new → OnOk result (IsDir (T.disk tree.new).tree path.now) }
    ensures damaged { T.tells tree.new → (p : Path) → IsErrOf result (IndexFault.Damaged p) → (p ≡ path.now) × IsFile (T.disk tree.old).tree p }
{
    add_dir(tree, path)?;
    tree.sync_names()?;
    Ok(())
}

/// Makes the directory of a collection where it is missing, and syncs all names.
///
/// The names are synced also where the directory is there, since a crash may have been about to leave it out.
///
/// Answers `Damaged` where a file stands there.
pub fn make_coll<T: FileTree>(alloc: Global, tree: &mut T, coll: &Coll) -> Result<(), IndexFault>
    requires current { T.tells tree.old → IsDir (T.disk tree.old).tree current }
    ensures told { T.tells tree.new → T.tells tree.old }
    ensures counts { Counts (IsErrOf result IndexFault.Tree) 1 0 (T.disk tree.old) (T.disk tree.new) }
    ensures leaves { T.tells tree.new → (set : Settings) → Leaves (Makes set coll.now) (T.disk tree.old) (T.disk tree.new) }
    ensures off { T.tells tree.new → Leaves (Elsewhere (Within (dir_of coll.now))) (T.disk tree.old) (T.disk tree.new) }
    ensures clear { T.tells tree.new → Leaves KeepsClear (T.disk tree.old) (T.disk tree.new) }
    ensures done { T.tells tree.new → OnOk result (Everywhere (T.disk tree.new) (λ e. IsDir e (dir_of coll.now))) }
    ensures ready { T.tells tree.new → OnOk result ((set : Settings) → Ready set (T.disk tree.old) → Ready set (T.disk tree.new)) }
    ensures damaged { T.tells tree.new → (p : Path) → IsErrOf result (IndexFault.Damaged p) → (p ≡ dir_of coll.now) × IsFile (T.disk tree.old).tree p }
{
    coll.fits();
    let path = coll_path(alloc, coll)?;
    settle_dir(tree, &path)?;
    Ok(())
}
