// Calls for tests, which look first whether they may be made. Each answers `Memory` where no file is there.
use crate::{Guard, close_guard, open_guard, read_guard, set_guard};
use fs_names::Pos;
use index_fault::IndexFault;
use std::alloc::Global;
use tree_api::{FileTree, TreePath};
use tree_trials::need_file;

// A call that writes a guard.
#[derive(Clone, Copy, Debug)]
pub(crate) enum Writing {
    Open,
    Close,
    Set,
}

pub(crate) fn write<T: FileTree>(
    alloc: Global,
    tree: &mut T,
    path: &TreePath,
    pos: Pos,
    call: Writing,
) -> Result<(), IndexFault> {
    need_file(tree, path)?;
    match call {
        Writing::Open => open_guard(alloc, tree, path, pos),
        Writing::Close => close_guard(alloc, tree, path, pos),
        Writing::Set => set_guard(alloc, tree, path, pos),
    }
}

pub(crate) fn read<T: FileTree>(
    tree: &mut T,
    path: &TreePath,
) -> Result<Option<Guard>, IndexFault> {
    need_file(tree, path)?;
    read_guard(tree, path)
}
