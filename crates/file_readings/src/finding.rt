// Where a collection's directory and an object's file are.
ghost use Rattle.std.specs.Prelude.{◌≡◌, ◌≢◌, Err, IfOk, IfSome, IsErrOf};
ghost use Rattle.fs_names.specs.Reading.{CollFits};
ghost use Rattle.fs_model.specs.Objects.{Objects};
ghost use Rattle.tree_api.specs.Counts.{Counts};
ghost use Rattle.tree_api.specs.Disk.{Still};
ghost use Rattle.tree_api.specs.Tree.{Path, IsFile};
ghost use Rattle.tree_stands.specs.Trees.{AllWhole};
ghost use Rattle.op_effects.specs.Clear.{IsClear};
ghost use Rattle.tree_shows.specs.Shows.{Shows};
ghost use Rattle.file_readings.specs.Finding.{IsDirOf, IsPathOf};

use fs_names::{Coll, Oid, Settings};
use index_fault::IndexFault;
use lfn_index::find;
use op_effects::coll_path;
use std::alloc::Global;
use tree_api::{FileTree, Kind, TreePath};

/// The collection's directory, none where it isn't there. Answers `Damaged` where a file stands in its place.
pub(crate) fn coll_dir<T: FileTree>(
    alloc: Global,
    tree: &mut T,
    coll: &Coll,
) -> Result<Option<TreePath>, IndexFault>
    ensures told { T.tells tree.new → T.tells tree.old }
    ensures still { T.tells tree.new → Still (T.disk tree.old) (T.disk tree.new) }
    ensures counts { Counts (IsErrOf result IndexFault.Tree) 1 0 (T.disk tree.old) (T.disk tree.new) }
    ensures fits { CollFits coll.now }
    ensures dir { T.tells tree.new → IfOk result (IsDirOf (T.disk tree.old).tree coll.now) }
    ensures undamaged { T.tells tree.new → IsClear (T.disk tree.old).tree → (p : Path) → result ≢ Err (IndexFault.Damaged p) }
{
    coll.fits();
    let path = coll_path(alloc, coll)?;
    match tree.stat(&path)? {
        None => Ok(None),
        Some(stat) if stat.kind == Kind::Dir => Ok(Some(path)),
        Some(_) => Err(IndexFault::Damaged { path }),
    }
}

/// The path of the object's file, none where the object or its collection is missing.
pub(crate) fn find_file<T: FileTree>(
    alloc: Global,
    tree: &mut T,
    set: &Settings,
    coll: &Coll,
    oid: &Oid,
) -> Result<Option<TreePath>, IndexFault>
    ensures told { T.tells tree.new → T.tells tree.old }
    ensures still { T.tells tree.new → Still (T.disk tree.old) (T.disk tree.new) }
    ensures counts { Counts (IsErrOf result IndexFault.Tree) 2 0 (T.disk tree.old) (T.disk tree.new) }
    ensures file { T.tells tree.new → IfOk result (λ path. IfSome path (IsFile (T.disk tree.new).tree)) }
    ensures path { T.tells tree.new → (O : Objects) → Shows set.now O (T.disk tree.old).tree
        → IfOk result (IsPathOf O coll.now oid.now (T.disk tree.new).tree) }
    ensures undamaged { T.tells tree.new → AllWhole set.now (T.disk tree.old).tree → IsClear (T.disk tree.old).tree
        → (p : Path) → result ≢ Err (IndexFault.Damaged p) }
{
    oid.fits();
    let Some(dir) = coll_dir(alloc, tree, coll)? else {
        return Ok(None);
    };
    find(alloc, tree, set, &dir, oid)
}
