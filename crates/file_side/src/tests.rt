use crate::Parts;
use fs_names::{Mode, Settings};
use index_fault::IndexFault;
use std::alloc::Global;
use store_files::Identity;
use store_turns::Side;
use tree_api::{FileTree, TreePath};
use tree_memory::MemoryTree;
use tree_trials::add_dir;

const PARTS: Parts = Parts {
    identity: Identity {
        fsid: [7; 16],
        settings: Settings {
            merge: 10,
            split: 2,
            lfn: 40,
            mode: Mode::WriteAhead,
        },
    },
};

// Whether a look finds something in the way.
fn is_damaged<T: FileTree, S: Side<T>>(alloc: Global, side: &S, tree: &mut T) -> bool {
    matches!(side.look_over(alloc, tree), Err(IndexFault::Damaged { .. }))
}

#[test]
fn a_tree_without_a_trash_is_damaged(rt: HostRuntime) -> Result<(), IndexFault> {
    let alloc = rt.alloc();
    let mut tree = MemoryTree::new(alloc, Vec::new(alloc))?;
    let current = add_dir(&mut tree, &TreePath::root(alloc), b"current")?;
    add_dir(&mut tree, &current, b"aside")?;
    assert_eq!(rt; is_damaged(alloc, &PARTS, &mut tree), true);
    add_dir(&mut tree, &current, b"trash")?;
    assert_eq!(rt; is_damaged(alloc, &PARTS, &mut tree), false);
    Ok(())
}
