// Where a store's files and directories stand.
ghost use Rattle.std.specs.Prelude.{◌≡◌, IfOk};
ghost use Rattle.tree_api.specs.Tree.{current};
ghost use Rattle.commit_point.specs.Number.{aside, number_path};
ghost use Rattle.store_files.specs.Steps.{key_path};
ghost use Rattle.store_files.specs.Stores.{version_path, fsid_path, settings_path, omap, trash};

use std::alloc::{AllocError, Global};
use tree_api::TreePath;

pub(crate) fn version_path(alloc: Global) -> Result<TreePath, AllocError>
    ensures { IfOk result (λ path. path ≡ version_path) }
{
    TreePath::root(alloc).join(b"store_version")
}

pub(crate) fn fsid_path(alloc: Global) -> Result<TreePath, AllocError>
    ensures { IfOk result (λ path. path ≡ fsid_path) }
{
    TreePath::root(alloc).join(b"fsid")
}

pub(crate) fn settings_path(alloc: Global) -> Result<TreePath, AllocError>
    ensures { IfOk result (λ path. path ≡ settings_path) }
{
    TreePath::root(alloc).join(b"settings")
}

pub(crate) fn current(alloc: Global) -> Result<TreePath, AllocError>
    ensures { IfOk result (λ path. path ≡ current) }
{
    TreePath::root(alloc).join(b"current")
}

pub(crate) fn omap(alloc: Global) -> Result<TreePath, AllocError>
    ensures { IfOk result (λ path. path ≡ omap) }
{
    current(alloc)?.join(b"omap")
}

pub(crate) fn aside(alloc: Global) -> Result<TreePath, AllocError>
    ensures { IfOk result (λ path. path ≡ aside) }
{
    current(alloc)?.join(b"aside")
}

pub(crate) fn trash(alloc: Global) -> Result<TreePath, AllocError>
    ensures { IfOk result (λ path. path ≡ trash) }
{
    current(alloc)?.join(b"trash")
}

pub(crate) fn number_path(alloc: Global) -> Result<TreePath, AllocError>
    ensures { IfOk result (λ path. path ≡ number_path) }
{
    current(alloc)?.join(b"commit_op_seq")
}

pub(crate) fn key_path(alloc: Global) -> Result<TreePath, AllocError>
    ensures { IfOk result (λ path. path ≡ key_path) }
{
    omap(alloc)?.join(b"keys.0000000000000000")
}
