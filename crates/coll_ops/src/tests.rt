use crate::trials::{count, drop_at, has, has_trash, make, nest, sweep_one};
use fs_names::{Coll, Pos};
use index_fault::IndexFault;
use std::alloc::Global;
use tree_api::TreePath;
use tree_memory::MemoryTree;
use tree_trials::{add_dir, add_file};

const POS: Pos = Pos {
    seq: 7,
    txn: 1,
    op: 2,
};

const COLL: Coll = Coll::Pg {
    pool: 3,
    seed: 10,
    temp: false,
};

// A tree with the store's own directories, made by its first three calls. The calls of these numbers fail.
fn store(alloc: Global, fail: Vec<u64>) -> Result<MemoryTree, IndexFault> {
    let mut tree = MemoryTree::new(alloc, fail)?;
    let current = add_dir(&mut tree, &TreePath::root(alloc), b"current")?;
    add_dir(&mut tree, &current, b"aside")?;
    add_dir(&mut tree, &current, b"trash")?;
    Ok(tree)
}

// A file in the collection.
fn add_object(alloc: Global, tree: &mut MemoryTree) -> Result<(), IndexFault> {
    let current = TreePath::root(alloc).join(b"current")?;
    let dir = current.join(b"3.a_head")?;
    add_file(tree, &dir, b"object")?;
    Ok(())
}

#[test]
fn a_collection_comes_and_goes(rt: HostRuntime) -> Result<(), IndexFault> {
    let alloc = rt.alloc();
    let mut tree = store(alloc, Vec::new(alloc))?;
    make(alloc, &mut tree, &COLL)?;
    make(alloc, &mut tree, &COLL)?;
    add_object(alloc, &mut tree)?;
    assert_eq!(rt; has(alloc, &mut tree, &COLL)?, true);
    assert_eq!(rt; drop_at(alloc, &mut tree, &Coll::Meta, POS)?, false);
    assert_eq!(rt; drop_at(alloc, &mut tree, &COLL, POS)?, true);
    assert_eq!(rt; has(alloc, &mut tree, &COLL)?, false);
    assert_eq!(rt; has_trash(alloc, &mut tree, POS)?, true);
    assert_eq!(rt; count(alloc, &mut tree)?, 1);
    Ok(())
}

#[test]
fn a_tree_that_stood_in_the_trash_is_swept(rt: HostRuntime) -> Result<(), IndexFault> {
    let alloc = rt.alloc();
    let mut tree = store(alloc, Vec::new(alloc))?;
    make(alloc, &mut tree, &COLL)?;
    add_object(alloc, &mut tree)?;
    assert_eq!(rt; drop_at(alloc, &mut tree, &COLL, POS)?, true);
    make(alloc, &mut tree, &COLL)?;
    assert_eq!(rt; drop_at(alloc, &mut tree, &COLL, POS)?, false);
    assert_eq!(rt; count(alloc, &mut tree)?, 1);
    assert_eq!(rt; sweep_one(alloc, &mut tree)?, true);
    assert_eq!(rt; count(alloc, &mut tree)?, 0);
    assert_eq!(rt; sweep_one(alloc, &mut tree)?, false);
    Ok(())
}

// What sweeping a collection answers in which so many directories stand, each in the one before.
fn swept(alloc: Global, levels: usize) -> Result<bool, IndexFault> {
    let mut tree = store(alloc, Vec::new(alloc))?;
    make(alloc, &mut tree, &COLL)?;
    nest(alloc, &mut tree, &COLL, levels)?;
    drop_at(alloc, &mut tree, &COLL, POS)?;
    sweep_one(alloc, &mut tree)
}

#[test]
fn a_tree_of_more_than_eight_levels_is_damage(rt: HostRuntime) {
    let alloc = rt.alloc();
    assert!(rt; matches!(swept(alloc, 0), Ok(true)));
    assert!(rt; matches!(swept(alloc, 8), Ok(true)));
    assert!(rt; matches!(swept(alloc, 9), Err(IndexFault::Damaged { .. })));
}

// In how many of 16 images of the tree the collection is there.
fn images_with(alloc: Global, tree: &MemoryTree, coll: &Coll) -> Result<u32, IndexFault> {
    let mut found = 0;
    for choice in 0..16 {
        let mut image = tree.leave(choice, Vec::new(alloc))?;
        if has(alloc, &mut image, coll)? && found < 16 {
            found += 1;
        }
    }
    Ok(found)
}

#[test]
fn a_collection_that_was_made_is_in_each_image(rt: HostRuntime) -> Result<(), IndexFault> {
    let alloc = rt.alloc();
    let mut tree = store(alloc, Vec::new(alloc))?;
    make(alloc, &mut tree, &COLL)?;
    assert_eq!(rt; images_with(alloc, &tree, &COLL)?, 16);
    Ok(())
}

// A collection is made, dropped and swept. Answers how many calls the tree has had.
fn run(alloc: Global, fail: Vec<u64>) -> Result<u64, IndexFault> {
    let mut tree = store(alloc, fail)?;
    make(alloc, &mut tree, &COLL)?;
    drop_at(alloc, &mut tree, &COLL, POS)?;
    sweep_one(alloc, &mut tree)?;
    Ok(tree.calls())
}

// Whether the run is refused where the call of this number fails.
fn is_refused(alloc: Global, call: u64) -> Result<bool, IndexFault> {
    let mut numbers = Vec::new(alloc);
    numbers.push(call)?;
    Ok(matches!(run(alloc, numbers), Err(IndexFault::Tree)))
}

#[test]
fn each_call_that_fails_is_told(rt: HostRuntime) -> Result<(), IndexFault> {
    let alloc = rt.alloc();
    let calls = run(alloc, Vec::new(alloc))?;
    for call in 0..calls {
        assert_eq!(rt; is_refused(alloc, call + 1)?, true, "{call}");
    }
    assert_eq!(rt; is_refused(alloc, 0)?, false);
    Ok(())
}
