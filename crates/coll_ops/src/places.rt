// Paths of collections and of the trash.
ghost use Rattle.std.specs.Prelude.{◌≡◌, IfOk};
ghost use Rattle.tree_api.specs.Tree.{current};
ghost use Rattle.op_effects.specs.Ready.{trash};
ghost use Rattle.coll_ops.specs.Places.{trash_at};

use fs_names::Pos;
use lfn_index::aside_path;
use std::alloc::{AllocError, Global};
use tree_api::TreePath;

pub(crate) fn current_path(alloc: Global) -> Result<TreePath, AllocError>
    ensures { IfOk result (λ path. path ≡ current) }
{
    TreePath::root(alloc).join(b"current")
}

pub(crate) fn trash_dir(alloc: Global) -> Result<TreePath, AllocError>
    ensures { IfOk result (λ path. path ≡ trash) }
{
    let current = current_path(alloc)?;
    current.join(b"trash")
}

/// Where the operation at this position puts a collection that it takes away. The name is that of the file that it would
/// build aside.
pub fn trash_path(alloc: Global, pos: Pos) -> Result<TreePath, AllocError>
    ensures { IfOk result (λ path. path ≡ trash_at pos) }
{
    let dir = trash_dir(alloc)?;
    let place = aside_path(alloc, pos)?;
    dir.join(place.step(2))
}
