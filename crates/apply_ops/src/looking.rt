// Whether a collection is there.
ghost use Rattle.std.specs.Prelude.{◌≡◌, true, false, IfOk, IsErrOf, None};
ghost use Rattle.tree_api.specs.Tree.{Path, IsDir, IsFile};
ghost use Rattle.tree_api.specs.Counts.{Counts};
ghost use Rattle.tree_api.specs.Disk.{Still};
ghost use Rattle.tree_stands.specs.Trees.{dir_of};

use fs_names::Coll;
use index_fault::IndexFault;
use op_effects::coll_path;
use std::alloc::Global;
use tree_api::{FileTree, Kind};

/// Whether the collection's directory is there. Answers `Damaged` where a file stands in its place.
pub(crate) fn is_there<T: FileTree>(
    alloc: Global,
    tree: &mut T,
    coll: &Coll,
) -> Result<bool, IndexFault>
    ensures told { T.tells tree.new → T.tells tree.old }
    ensures counts { Counts (IsErrOf result IndexFault.Tree) 1 0 (T.disk tree.old) (T.disk tree.new) }
    ensures still { T.tells tree.new → Still (T.disk tree.old) (T.disk tree.new) }
    ensures there { T.tells tree.new → IfOk result (λ yes. yes ≡ true → IsDir (T.disk tree.old).tree (dir_of coll.now)) }
    ensures missing { T.tells tree.new → IfOk result (λ yes. yes ≡ false → (T.disk tree.old).tree.at (dir_of coll.now) ≡ None) }
    ensures damaged { T.tells tree.new → (p : Path) → IsErrOf result (IndexFault.Damaged p) → (p ≡ dir_of coll.now) × IsFile (T.disk tree.old).tree p }
{
    let path = coll_path(alloc, coll)?;
    match tree.stat(&path)? {
        None => Ok(false),
        Some(stat) if stat.kind == Kind::Dir => Ok(true),
        Some(_) => Err(IndexFault::Damaged { path }),
    }
}
