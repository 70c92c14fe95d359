// Calls for tests, which look first whether they may be made. Each answers `Memory` where what it needs isn't there.
use crate::places::{current_path, trash_dir, trash_path};
use crate::{drop_coll, make_coll, sweep_first, trash_count};
use fs_names::{Coll, Pos};
use index_fault::IndexFault;
use op_effects::coll_path;
use std::alloc::Global;
use tree_api::{FileTree, Kind, TreePath};
use tree_trials::{add_dir, need_dir, seen};

pub(crate) fn make<T: FileTree>(
    alloc: Global,
    tree: &mut T,
    coll: &Coll,
) -> Result<(), IndexFault> {
    let current = current_path(alloc)?;
    need_dir(tree, &current)?;
    make_coll(alloc, tree, coll)
}

pub(crate) fn drop_at<T: FileTree>(
    alloc: Global,
    tree: &mut T,
    coll: &Coll,
    pos: Pos,
) -> Result<bool, IndexFault> {
    let dir = trash_dir(alloc)?;
    need_dir(tree, &dir)?;
    drop_coll(alloc, tree, coll, pos)
}

pub(crate) fn count<T: FileTree>(alloc: Global, tree: &mut T) -> Result<usize, IndexFault> {
    let dir = trash_dir(alloc)?;
    need_dir(tree, &dir)?;
    trash_count(alloc, tree)
}

pub(crate) fn sweep_one<T: FileTree>(alloc: Global, tree: &mut T) -> Result<bool, IndexFault> {
    let dir = trash_dir(alloc)?;
    need_dir(tree, &dir)?;
    sweep_first(alloc, tree)
}

// Whether a directory stands there.
fn is_dir<T: FileTree>(tree: &mut T, path: &TreePath) -> Result<bool, IndexFault> {
    Ok(matches!(seen(tree, path)?, Some(Kind::Dir)))
}

// Whether the collection is there.
pub(crate) fn has<T: FileTree>(
    alloc: Global,
    tree: &mut T,
    coll: &Coll,
) -> Result<bool, IndexFault> {
    let path = coll_path(alloc, coll)?;
    is_dir(tree, &path)
}

// Whether a directory stands in the trash under this position.
pub(crate) fn has_trash<T: FileTree>(
    alloc: Global,
    tree: &mut T,
    pos: Pos,
) -> Result<bool, IndexFault> {
    let path = trash_path(alloc, pos)?;
    is_dir(tree, &path)
}

// Directories in the collection's, each in the one before.
pub(crate) fn nest<T: FileTree>(
    alloc: Global,
    tree: &mut T,
    coll: &Coll,
    levels: usize,
) -> Result<(), IndexFault> {
    let mut path = coll_path(alloc, coll)?;
    for _ in 0..levels {
        path = add_dir(tree, &path, b"d")?;
    }
    Ok(())
}
