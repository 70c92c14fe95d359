use crate::look_over;
use crate::trials::{count_aside, count_current, count_trash, emptied, nest, tidied};
use fs_names::{Mode, Settings};
use index_fault::IndexFault;
use std::alloc::Global;
use tree_api::TreePath;
use tree_memory::MemoryTree;
use tree_trials::{add_dir, add_file};

const SETTINGS: Settings = Settings {
    merge: 10,
    split: 2,
    lfn: 40,
    mode: Mode::WriteAhead,
};

const OBJECT: &[u8] = b"a__head_0000000B__1";

// A directory of a store.
#[derive(Clone, Copy, Drop)]
enum Place {
    Current,
    Aside,
    Trash,
    Coll,
}

fn path_of(alloc: Global, at: Place) -> Result<TreePath, IndexFault> {
    let current = TreePath::root(alloc).join(b"current")?;
    match at {
        Place::Current => Ok(current),
        Place::Aside => Ok(current.join(b"aside")?),
        Place::Trash => Ok(current.join(b"trash")?),
        Place::Coll => Ok(current.join(b"1.b_head")?),
    }
}

fn with_dir(
    alloc: Global,
    tree: &mut MemoryTree,
    at: Place,
    step: &[u8],
) -> Result<(), IndexFault> {
    let dir = path_of(alloc, at)?;
    add_dir(tree, &dir, step)?;
    Ok(())
}

fn with_file(
    alloc: Global,
    tree: &mut MemoryTree,
    at: Place,
    step: &[u8],
) -> Result<(), IndexFault> {
    let dir = path_of(alloc, at)?;
    add_file(tree, &dir, step)?;
    Ok(())
}

// A tree of `current` alone. The calls of these numbers fail.
fn rooted(alloc: Global, fail: Vec<u64>) -> Result<MemoryTree, IndexFault> {
    let mut tree = MemoryTree::new(alloc, fail)?;
    add_dir(&mut tree, &TreePath::root(alloc), b"current")?;
    Ok(tree)
}

// The directories of a store with one collection.
fn bare(alloc: Global, fail: Vec<u64>) -> Result<MemoryTree, IndexFault> {
    let mut tree = rooted(alloc, fail)?;
    with_dir(alloc, &mut tree, Place::Current, b"aside")?;
    with_dir(alloc, &mut tree, Place::Current, b"trash")?;
    with_dir(alloc, &mut tree, Place::Current, b"1.b_head")?;
    Ok(tree)
}

// And with an object, the omap, a number, a file being built and a tree in the trash.
fn store(alloc: Global, fail: Vec<u64>) -> Result<MemoryTree, IndexFault> {
    let mut tree = bare(alloc, fail)?;
    with_file(alloc, &mut tree, Place::Coll, OBJECT)?;
    with_dir(alloc, &mut tree, Place::Current, b"omap")?;
    with_file(alloc, &mut tree, Place::Current, b"commit_op_seq")?;
    with_file(alloc, &mut tree, Place::Aside, b"seq")?;
    with_file(alloc, &mut tree, Place::Trash, b"x")?;
    Ok(tree)
}

#[test]
fn a_store_is_tidied(rt: HostRuntime) -> Result<(), IndexFault> {
    let alloc = rt.alloc();
    let mut tree = store(alloc, Vec::new(alloc))?;
    assert_eq!(rt; count_aside(alloc, &mut tree)?, 1);
    tidied(alloc, &mut tree, &SETTINGS)?;
    assert_eq!(rt; count_aside(alloc, &mut tree)?, 0);
    assert_eq!(rt; count_trash(alloc, &mut tree)?, 1);
    Ok(())
}

#[test]
fn the_trash_is_emptied(rt: HostRuntime) -> Result<(), IndexFault> {
    let alloc = rt.alloc();
    let mut tree = store(alloc, Vec::new(alloc))?;
    emptied(alloc, &mut tree, &SETTINGS)?;
    assert_eq!(rt; count_trash(alloc, &mut tree)?, 0);
    assert_eq!(rt; count_current(alloc, &mut tree)?, 5);
    Ok(())
}

// Whether so many levels of directories in the trash are damage.
fn deep(alloc: Global, levels: usize) -> Result<bool, IndexFault> {
    let mut tree = bare(alloc, Vec::new(alloc))?;
    nest(alloc, &mut tree, levels)?;
    let swept = emptied(alloc, &mut tree, &SETTINGS);
    Ok(matches!(&swept, Err(IndexFault::Damaged { .. })))
}

#[test]
fn a_tree_that_is_too_deep_is_damage(rt: HostRuntime) -> Result<(), IndexFault> {
    let alloc = rt.alloc();
    assert_eq!(rt; deep(alloc, 9)?, false);
    assert_eq!(rt; deep(alloc, 10)?, true);
    Ok(())
}

// Whether the look finds something in the way.
fn is_damaged(alloc: Global, tree: &mut MemoryTree) -> bool {
    let looked = look_over(alloc, tree, &SETTINGS);
    matches!(&looked, Err(IndexFault::Damaged { .. }))
}

// Whether a directory with this name there is damage.
fn dir_damages(alloc: Global, at: Place, step: &[u8]) -> Result<bool, IndexFault> {
    let mut tree = bare(alloc, Vec::new(alloc))?;
    with_dir(alloc, &mut tree, at, step)?;
    Ok(is_damaged(alloc, &mut tree))
}

// Whether a file with this name there is.
fn file_damages(alloc: Global, at: Place, step: &[u8]) -> Result<bool, IndexFault> {
    let mut tree = bare(alloc, Vec::new(alloc))?;
    with_file(alloc, &mut tree, at, step)?;
    Ok(is_damaged(alloc, &mut tree))
}

#[test]
fn a_directory_in_the_way_is_damage(rt: HostRuntime) -> Result<(), IndexFault> {
    let alloc = rt.alloc();
    assert_eq!(rt; dir_damages(alloc, Place::Aside, b"seq")?, true);
    assert_eq!(rt; dir_damages(alloc, Place::Current, b"commit_op_seq")?, true);
    assert_eq!(rt; dir_damages(alloc, Place::Coll, OBJECT)?, true);
    assert_eq!(rt; dir_damages(alloc, Place::Current, b"1.c_head")?, false);
    assert_eq!(rt; dir_damages(alloc, Place::Trash, b"x")?, false);
    Ok(())
}

#[test]
fn a_file_in_the_way_is_damage(rt: HostRuntime) -> Result<(), IndexFault> {
    let alloc = rt.alloc();
    assert_eq!(rt; file_damages(alloc, Place::Coll, b"foreign")?, true);
    assert_eq!(rt; file_damages(alloc, Place::Current, b"1.c_head")?, true);
    assert_eq!(rt; file_damages(alloc, Place::Coll, OBJECT)?, false);
    assert_eq!(rt; file_damages(alloc, Place::Current, b"other")?, false);
    Ok(())
}

// Whether a tree is damaged in which of the store's own directories this one stands alone.
fn damaged_with(alloc: Global, step: &[u8]) -> Result<bool, IndexFault> {
    let mut tree = rooted(alloc, Vec::new(alloc))?;
    with_dir(alloc, &mut tree, Place::Current, step)?;
    Ok(is_damaged(alloc, &mut tree))
}

#[test]
fn a_directory_of_its_own_that_is_missing_is_damage(rt: HostRuntime) -> Result<(), IndexFault> {
    let alloc = rt.alloc();
    assert_eq!(rt; damaged_with(alloc, b"trash")?, true);
    assert_eq!(rt; damaged_with(alloc, b"aside")?, true);
    Ok(())
}

// A store is made, looked at, tidied and emptied. Answers how many calls the tree has had.
fn run(alloc: Global, fail: Vec<u64>) -> Result<u64, IndexFault> {
    let mut tree = store(alloc, fail)?;
    tidied(alloc, &mut tree, &SETTINGS)?;
    emptied(alloc, &mut tree, &SETTINGS)?;
    Ok(tree.calls())
}

// Whether the run is refused where the call of this number fails.
fn is_refused(alloc: Global, call: u64) -> Result<bool, IndexFault> {
    let mut numbers = Vec::new(alloc);
    numbers.push(call)?;
    Ok(matches!(run(alloc, numbers), Err(IndexFault::Tree)))
}

#[test]
fn each_call_that_fails_is_told(rt: HostRuntime) -> Result<(), IndexFault> {
    let alloc = rt.alloc();
    let calls = run(alloc, Vec::new(alloc))?;
    for call in 0..calls {
        assert_eq!(rt; is_refused(alloc, call + 1)?, true, "{call}");
    }
    assert_eq!(rt; is_refused(alloc, 0)?, false);
    Ok(())
}
