// An object's file, made where there is none.
ghost use Rattle.std.specs.Prelude.{◌≡◌, ◌≢◌, Err, IfOk, OnOk, IsErrOf};
ghost use Rattle.fs_names.specs.Text.{oid_text};
ghost use Rattle.tree_api.specs.Counts.{Counts};
ghost use Rattle.tree_api.specs.Disk.{Leaves};
ghost use Rattle.tree_api.specs.Tree.{Path, IsDir, IsFile};
ghost use Rattle.lfn_index.specs.Directory.{StandsAt};
ghost use Rattle.tree_stands.specs.Files.{touched_file};
ghost use Rattle.tree_stands.specs.Names.{NameFits};
ghost use Rattle.tree_stands.specs.Standing.{ObjectCrash};
ghost use Rattle.tree_stands.specs.Trees.{dir_of, name_at, ForObject};
ghost use Rattle.op_effects.specs.Clear.{KeepsFree};
ghost use Rattle.op_effects.specs.Ready.{Ready, OffStays};
ghost use Rattle.object_ops.specs.Object.{GoesBy, ReadsBy};

use fs_names::{Coll, Oid, Pos, Settings};
use index_fault::IndexFault;
use lfn_index::{find, make};
use op_effects::coll_path;
use std::alloc::Global;
use tree_api::{FileTree, TreePath};

/// Values of the types can have this name.
pub(crate) fn name_fits(coll: &Coll, oid: &Oid)
    ensures { NameFits (name_at coll.now oid.now) }
{
    coll.fits();
    oid.fits();
}

/// The path of the object's file, which is made where there is none.
pub(crate) fn open<T: FileTree>(
    alloc: Global,
    tree: &mut T,
    set: &Settings,
    coll: &Coll,
    oid: &Oid,
    pos: Pos,
) -> Result<TreePath, IndexFault>
    requires ready { T.tells tree.old → Ready set.now (T.disk tree.old) }
    requires there { T.tells tree.old → IsDir (T.disk tree.old).tree (dir_of coll.now) }
    ensures told { T.tells tree.new → T.tells tree.old }
    ensures counts { Counts (IsErrOf result IndexFault.Tree) 3 0 (T.disk tree.old) (T.disk tree.new) }
    ensures goes { T.tells tree.new → GoesBy set.now (name_at coll.now oid.now) (touched_file (oid_text oid.now)) (T.disk tree.old) (T.disk tree.new) }
    ensures free { T.tells tree.new → Leaves KeepsFree (T.disk tree.old) (T.disk tree.new) }
    ensures reads { T.tells tree.new → OnOk result (ReadsBy set.now (name_at coll.now oid.now) (touched_file (oid_text oid.now)) (T.disk tree.old).tree (T.disk tree.new).tree) }
    ensures ready { T.tells tree.new → OnOk result (Ready set.now (T.disk tree.new)) }
    ensures stands { T.tells tree.new → IfOk result (StandsAt set.now (T.disk tree.new).tree (dir_of coll.now) (oid_text oid.now)) }
    ensures file { T.tells tree.new → IfOk result (IsFile (T.disk tree.new).tree) }
    ensures undamaged { T.tells tree.new → (p : Path) → result ≢ Err (IndexFault.Damaged p) }
{
    name_fits(coll, oid);
    let dir = coll_path(alloc, coll)?;
    let found = find(alloc, tree, set, &dir, oid)?;
    let Some(path) = found else {
        return make(alloc, tree, set, &dir, oid, pos);
    };
    Ok(path)
}

/// The object exists from now on.
pub fn touch<T: FileTree>(
    alloc: Global,
    tree: &mut T,
    set: &Settings,
    coll: &Coll,
    oid: &Oid,
    pos: Pos,
) -> Result<(), IndexFault>
    requires ready { T.tells tree.old → Ready set.now (T.disk tree.old) }
    requires there { T.tells tree.old → IsDir (T.disk tree.old).tree (dir_of coll.now) }
    ensures told { T.tells tree.new → T.tells tree.old }
    ensures counts { Counts (IsErrOf result IndexFault.Tree) 3 0 (T.disk tree.old) (T.disk tree.new) }
    ensures crash { T.tells tree.new → ObjectCrash set.now (name_at coll.now oid.now) (touched_file (oid_text oid.now)) (T.disk tree.old) (T.disk tree.new) }
    ensures off { T.tells tree.new → Leaves (OffStays (dir_of coll.now)) (T.disk tree.old) (T.disk tree.new) }
    ensures free { T.tells tree.new → Leaves KeepsFree (T.disk tree.old) (T.disk tree.new) }
    ensures done { T.tells tree.new → OnOk result (ForObject set.now (name_at coll.now oid.now) (λ x y. y ≡ touched_file (oid_text oid.now) x) (T.disk tree.old).tree (T.disk tree.new).tree) }
    ensures there { T.tells tree.new → IsDir (T.disk tree.new).tree (dir_of coll.now) }
    ensures ready { T.tells tree.new → OnOk result (Ready set.now (T.disk tree.new)) }
    ensures undamaged { T.tells tree.new → (p : Path) → result ≢ Err (IndexFault.Damaged p) }
{
    name_fits(coll, oid);
    let _path = open(alloc, tree, set, coll, oid, pos)?;
    Ok(())
}
