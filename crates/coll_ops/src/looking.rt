// What stands at a path.
ghost use Rattle.std.specs.Prelude.{◌≡◌, ◌≢◌, IfOk, Err, IsErrOf};
ghost use Rattle.tree_api.specs.Tree.{Path};
ghost use Rattle.tree_api.specs.Counts.{Counts};
ghost use Rattle.tree_api.specs.Disk.{Still};
ghost use Rattle.coll_ops.specs.Places.{IsThere};

use index_fault::IndexFault;
use tree_api::{FileTree, Kind, TreePath};

/// What is of which kind at a path.
pub(crate) fn kind_at<T: FileTree>(
    tree: &mut T,
    path: &TreePath,
) -> Result<Option<Kind>, IndexFault>
    ensures told { T.tells tree.new → T.tells tree.old }
    ensures counts { Counts (IsErrOf result IndexFault.Tree) 1 0 (T.disk tree.old) (T.disk tree.new) }
    ensures still { T.tells tree.new → Still (T.disk tree.old) (T.disk tree.new) }
    ensures kind { T.tells tree.new → IfOk result (IsThere (T.disk tree.old).tree path.now) }
    ensures undamaged { (p : Path) → result ≢ Err (IndexFault.Damaged p) }
{
    match tree.stat(path)? {
        Some(stat) => Ok(Some(stat.kind)),
        None => Ok(None),
    }
}
