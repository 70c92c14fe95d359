// Calls for tests, which look first whether they may be made.
use crate::places::{aside_dir, current_dir, trash_dir};
use crate::{look_over, sweep_trash, tidy};
use fs_names::Settings;
use index_fault::IndexFault;
use std::alloc::Global;
use tree_api::{FileTree, TreePath};
use tree_trials::{add_dir, need_dir};

// A look, and then the tidying.
pub(crate) fn tidied<T: FileTree>(
    alloc: Global,
    tree: &mut T,
    set: &Settings,
) -> Result<(), IndexFault> {
    look_over(alloc, tree, set)?;
    tidy(alloc, tree)
}

// A look, and then the trash is emptied.
pub(crate) fn emptied<T: FileTree>(
    alloc: Global,
    tree: &mut T,
    set: &Settings,
) -> Result<(), IndexFault> {
    look_over(alloc, tree, set)?;
    sweep_trash(alloc, tree)
}

// How many entries a directory has.
fn count<T: FileTree>(tree: &mut T, dir: &TreePath) -> Result<usize, IndexFault> {
    need_dir(tree, dir)?;
    let entries = tree.list(dir)?;
    Ok(entries.len())
}

pub(crate) fn count_aside<T: FileTree>(alloc: Global, tree: &mut T) -> Result<usize, IndexFault> {
    let dir = aside_dir(alloc)?;
    count(tree, &dir)
}

pub(crate) fn count_trash<T: FileTree>(alloc: Global, tree: &mut T) -> Result<usize, IndexFault> {
    let dir = trash_dir(alloc)?;
    count(tree, &dir)
}

pub(crate) fn count_current<T: FileTree>(alloc: Global, tree: &mut T) -> Result<usize, IndexFault> {
    let dir = current_dir(alloc)?;
    count(tree, &dir)
}

// Directories in the trash, each in the one before.
pub(crate) fn nest<T: FileTree>(
    alloc: Global,
    tree: &mut T,
    levels: usize,
) -> Result<(), IndexFault> {
    let mut path = trash_dir(alloc)?;
    for _ in 0..levels {
        path = add_dir(tree, &path, b"d")?;
    }
    Ok(())
}
