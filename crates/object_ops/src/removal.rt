// An object goes.
ghost use Rattle.std.specs.Prelude.{◌≡◌, ◌≢◌, Err, OnOk, IsErrOf};
ghost use Rattle.tree_api.specs.Counts.{Counts};
ghost use Rattle.tree_api.specs.Disk.{Leaves};
ghost use Rattle.tree_api.specs.Tree.{Path, IsDir};
ghost use Rattle.tree_stands.specs.Files.{no_file};
ghost use Rattle.tree_stands.specs.Standing.{ObjectCrash};
ghost use Rattle.tree_stands.specs.Trees.{dir_of, name_at, ForObject};
ghost use Rattle.op_effects.specs.Clear.{KeepsFree};
ghost use Rattle.op_effects.specs.Ready.{Ready, OffStays};

use crate::finding::name_fits;
use fs_names::{Coll, Oid, Settings};
use index_fault::IndexFault;
use lfn_index::{find, unlink};
use op_effects::coll_path;
use std::alloc::Global;
use tree_api::FileTree;

/// The object's file goes, where it is there.
pub fn remove<T: FileTree>(
    alloc: Global,
    tree: &mut T,
    set: &Settings,
    coll: &Coll,
    oid: &Oid,
) -> Result<(), IndexFault>
    requires ready { T.tells tree.old → Ready set.now (T.disk tree.old) }
    requires there { T.tells tree.old → IsDir (T.disk tree.old).tree (dir_of coll.now) }
    ensures told { T.tells tree.new → T.tells tree.old }
    ensures counts { Counts (IsErrOf result IndexFault.Tree) 1 0 (T.disk tree.old) (T.disk tree.new) }
    ensures crash { T.tells tree.new → ObjectCrash set.now (name_at coll.now oid.now) no_file (T.disk tree.old) (T.disk tree.new) }
    ensures off { T.tells tree.new → Leaves (OffStays (dir_of coll.now)) (T.disk tree.old) (T.disk tree.new) }
    ensures free { T.tells tree.new → Leaves KeepsFree (T.disk tree.old) (T.disk tree.new) }
    ensures done { T.tells tree.new → OnOk result (ForObject set.now (name_at coll.now oid.now) (λ x y. y ≡ no_file x) (T.disk tree.old).tree (T.disk tree.new).tree) }
    ensures there { T.tells tree.new → IsDir (T.disk tree.new).tree (dir_of coll.now) }
    ensures ready { T.tells tree.new → OnOk result (Ready set.now (T.disk tree.new)) }
    ensures undamaged { T.tells tree.new → (p : Path) → result ≢ Err (IndexFault.Damaged p) }
{
    name_fits(coll, oid);
    let dir = coll_path(alloc, coll)?;
    let found = find(alloc, tree, set, &dir, oid)?;
    let Some(path) = found else {
        return Ok(());
    };
    unlink(tree, &path)
}
