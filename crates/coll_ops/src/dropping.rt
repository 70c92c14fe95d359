// A collection goes.
ghost use Rattle.std.specs.Prelude.{◌≡◌, ◌⊎◌, ◌↔◌, ℕ, OnOk, IfOk, IsErrOf, IsTrue, None};
ghost use Rattle.fs_names.specs.declared.settings.Settings.{Settings};
ghost use Rattle.tree_api.specs.Tree.{Path, IsDir, HasParent};
ghost use Rattle.tree_api.specs.Disk.{Leaves};
ghost use Rattle.tree_stands.specs.Trees.{dir_of, dir_guard};
ghost use Rattle.op_effects.specs.Clear.{DirBelow, KeepsClear};
ghost use Rattle.op_effects.specs.Ready.{Ready, trash};
ghost use Rattle.op_effects.specs.Collections.{Drops};
ghost use Rattle.coll_ops.specs.Places.{trash_at, Within};
ghost use Rattle.coll_ops.specs.Changes.{Throws, Elsewhere, Faults, IsThrown};
ghost use Rattle.coll_ops.specs.Trash.{HasTrees, TreesAfter, PlaceAfter, IsInTheWay};

use crate::looking::kind_at;
use crate::places::trash_path;
use crate::sweeping::sweep;
use fs_names::{Coll, Pos};
use index_fault::IndexFault;
use op_effects::coll_path;
use std::alloc::Global;
use tree_api::{FileTree, Kind, TreePath};

/// Renames a directory with all below it, in place of what may stand there. Answers whether nothing stood there.
fn throw_dir<T: FileTree>(tree: &mut T, from: &TreePath, to: &TreePath) -> Result<bool, IndexFault>
    requires dir { T.tells tree.old → IsDir (T.disk tree.old).tree from.now }
    requires parent { T.tells tree.old → HasParent (T.disk tree.old).tree to.now }
    requires apart { (q : Path) → Within from.now q → Within to.now q → ⊥ }
    ensures told { T.tells tree.new → T.tells tree.old }
    ensures counts { Faults (IsErrOf result IndexFault.Tree) (T.disk tree.old) (T.disk tree.new) }
    ensures throws { T.tells tree.new → Throws from.now to.now (T.disk tree.old) (T.disk tree.new) }
    ensures gone { T.tells tree.new → OnOk result ((T.disk tree.new).tree.at from.now ≡ None) }
    ensures grew { T.tells tree.new → IfOk result (λ grew. IsTrue grew ↔ ((T.disk tree.old).tree.at to.now ≡ None)) }
    ensures place { T.tells tree.new → IfOk result (PlaceAfter ((T.disk tree.old).tree.at to.now) ((T.disk tree.new).tree.at to.now)) }
    ensures damaged { T.tells tree.new → (q : Path) → IsErrOf result (IndexFault.Damaged q) → DirBelow 9 to.now (T.disk tree.old).tree q }
{
    let stood = sweep(tree, to)?;
    tree.rename(from, to)?;
    Ok(!stood)
}

/// The same, where the directory is there.
fn throw_away<T: FileTree>(tree: &mut T, from: &TreePath, to: &TreePath) -> Result<bool, IndexFault>
    requires parent { T.tells tree.old → HasParent (T.disk tree.old).tree to.now }
    requires apart { (q : Path) → Within from.now q → Within to.now q → ⊥ }
    ensures told { T.tells tree.new → T.tells tree.old }
    ensures counts { Faults (IsErrOf result IndexFault.Tree) (T.disk tree.old) (T.disk tree.new) }
    ensures throws { T.tells tree.new → Throws from.now to.now (T.disk tree.old) (T.disk tree.new) }
    ensures gone { T.tells tree.new → OnOk result ((T.disk tree.new).tree.at from.now ≡ None) }
    ensures grew { T.tells tree.new → IfOk result (λ grew. IsTrue grew ↔ IsThrown from.now to.now (T.disk tree.old).tree) }
    ensures place { T.tells tree.new → IfOk result (PlaceAfter ((T.disk tree.old).tree.at to.now) ((T.disk tree.new).tree.at to.now)) }
    ensures damaged { T.tells tree.new → (q : Path) → IsErrOf result (IndexFault.Damaged q) → IsInTheWay from.now to.now (T.disk tree.old).tree q }
{
    match kind_at(tree, from)? {
        None => Ok(false),
        Some(Kind::Dir) => throw_dir(tree, from, to),
        Some(Kind::File) => Err(IndexFault::Damaged { path: from.copy()? }),
    }
}

/// Takes away a collection where it is there: its directory is renamed to `current/trash`, under the digits of the position.
/// What an earlier run left there under this name is swept first. The names aren't synced afterwards.
///
/// Answers whether the trash has one tree more.
///
/// Answers `Damaged` where a file stands in the collection's place, or a tree in the trash is too deep.
pub fn drop_coll<T: FileTree>(
    alloc: Global,
    tree: &mut T,
    coll: &Coll,
    pos: Pos,
) -> Result<bool, IndexFault>
    requires trash { T.tells tree.old → IsDir (T.disk tree.old).tree trash }
    ensures told { T.tells tree.new → T.tells tree.old }
    ensures counts { Faults (IsErrOf result IndexFault.Tree) (T.disk tree.old) (T.disk tree.new) }
    ensures leaves { T.tells tree.new → (set : Settings) → Leaves (Drops set coll.now) (T.disk tree.old) (T.disk tree.new) }
    ensures off { T.tells tree.new → Leaves (Elsewhere (λ q. Within (dir_of coll.now) q ⊎ Within (trash_at pos) q)) (T.disk tree.old) (T.disk tree.new) }
    ensures clear { T.tells tree.new → Leaves KeepsClear (T.disk tree.old) (T.disk tree.new) }
    ensures done { T.tells tree.new → OnOk result (dir_guard (T.disk tree.new).tree coll.now ≡ None) }
    ensures ready { T.tells tree.new → OnOk result ((set : Settings) → Ready set (T.disk tree.old) → Ready set (T.disk tree.new)) }
    ensures grew { T.tells tree.new → IfOk result (λ grew. IsTrue grew ↔ IsThrown (dir_of coll.now) (trash_at pos) (T.disk tree.old).tree) }
    ensures trees { T.tells tree.new → (n : ℕ) → HasTrees (T.disk tree.old).tree n → IfOk result (TreesAfter n (T.disk tree.new).tree) }
    ensures damaged { T.tells tree.new → (q : Path) → IsErrOf result (IndexFault.Damaged q) → IsInTheWay (dir_of coll.now) (trash_at pos) (T.disk tree.old).tree q }
{
    coll.fits();
    let path = coll_path(alloc, coll)?;
    let place = trash_path(alloc, pos)?;
    throw_away(tree, &path, &place)
}
