// Paths of the store's own directories and files.
ghost use Rattle.std.specs.Prelude.{◌≡◌, IfOk};
ghost use Rattle.tree_api.specs.Tree.{current};
ghost use Rattle.lfn_index.specs.Changes.{aside};
ghost use Rattle.commit_point.specs.Number.{number_path};
ghost use Rattle.op_effects.specs.Ready.{trash};

use std::alloc::{AllocError, Global};
use tree_api::TreePath;

pub(crate) fn current_dir(alloc: Global) -> Result<TreePath, AllocError>
    ensures { IfOk result (λ path. path ≡ current) }
{
    TreePath::root(alloc).join(b"current")
}

pub(crate) fn aside_dir(alloc: Global) -> Result<TreePath, AllocError>
    ensures { IfOk result (λ path. path ≡ aside) }
{
    let current = current_dir(alloc)?;
    current.join(b"aside")
}

pub(crate) fn trash_dir(alloc: Global) -> Result<TreePath, AllocError>
    ensures { IfOk result (λ path. path ≡ trash) }
{
    let current = current_dir(alloc)?;
    current.join(b"trash")
}

pub(crate) fn number_file(alloc: Global) -> Result<TreePath, AllocError>
    ensures { IfOk result (λ path. path ≡ number_path) }
{
    let current = current_dir(alloc)?;
    current.join(b"commit_op_seq")
}
