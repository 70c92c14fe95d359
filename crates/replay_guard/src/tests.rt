use crate::trials::{Writing, read, write};
use crate::{Guard, Verdict, check, guard_law};
use fs_names::Pos;
use index_fault::IndexFault;
use std::alloc::Global;
use tree_api::TreePath;
use tree_memory::MemoryTree;
use tree_trials::{add_file, set_file_attr};

const POS: Pos = Pos {
    seq: 5,
    txn: 2,
    op: 3,
};

// The verdict on an operation at (5, 2, 3) where a guard has this position.
fn verdict_at(seq: u64, txn: u32, op: u32, in_progress: bool) -> Verdict {
    let pos = Pos { seq, txn, op };
    check(Some(Guard { pos, in_progress }), POS)
}

#[test]
fn verdicts_go_by_the_age_of_the_guard(rt: HostRuntime) {
    assert_eq!(rt; check(None, POS), Verdict::Apply);
    assert_eq!(rt; verdict_at(5, 2, 3, true), Verdict::Continue);
    for (seq, txn, op, want) in [
        (5, 2, 3, Verdict::Skip),
        (4, 9, 9, Verdict::Apply),
        (5, 1, 9, Verdict::Apply),
        (5, 2, 2, Verdict::Apply),
        (6, 0, 0, Verdict::Skip),
        (5, 3, 0, Verdict::Skip),
        (5, 2, 4, Verdict::Skip),
    ] {
        assert_eq!(rt; verdict_at(seq, txn, op, false), want, "{seq} {txn} {op}");
    }
    assert_eq!(rt; verdict_at(4, 9, 9, true), Verdict::Apply);
    assert_eq!(rt; verdict_at(6, 0, 0, true), Verdict::Skip);
    guard_law();
}

// A tree with a file `f` in its root, made by its first three calls. The call of this number fails.
fn store(alloc: Global, fail: u64) -> Result<(MemoryTree, TreePath), IndexFault> {
    let mut numbers = Vec::new(alloc);
    numbers.push(fail)?;
    let mut tree = MemoryTree::new(alloc, numbers)?;
    let path = add_file(&mut tree, &TreePath::root(alloc), b"f")?;
    Ok((tree, path))
}

// What a file tells whose guard has these bytes.
fn told(alloc: Global, bytes: &[u8]) -> Result<Option<Guard>, IndexFault> {
    let (mut tree, path) = store(alloc, 0)?;
    set_file_attr(&mut tree, &path, b"guard", bytes)?;
    read(&mut tree, &path)
}

// Whether these bytes are damage.
fn is_damage(alloc: Global, bytes: &[u8]) -> bool {
    matches!(told(alloc, bytes), Err(IndexFault::Damaged { .. }))
}

#[test]
fn a_guard_has_seventeen_bytes(rt: HostRuntime) -> Result<(), IndexFault> {
    let alloc = rt.alloc();
    let open = Guard {
        pos: POS,
        in_progress: true,
    };
    assert_eq!(rt;
        told(alloc, b"\0\0\0\0\0\0\0\x05\0\0\0\x02\0\0\0\x03\x01")?,
        Some(open)
    );
    let closed = Guard {
        pos: POS,
        in_progress: false,
    };
    assert_eq!(rt;
        told(alloc, b"\0\0\0\0\0\0\0\x05\0\0\0\x02\0\0\0\x03\0")?,
        Some(closed)
    );
    assert_eq!(rt; is_damage(alloc, b""), true);
    assert_eq!(rt;
        is_damage(alloc, b"\0\0\0\0\0\0\0\x05\0\0\0\x02\0\0\0\x03"),
        true
    );
    assert_eq!(rt;
        is_damage(alloc, b"\0\0\0\0\0\0\0\x05\0\0\0\x02\0\0\0\x03\x02"),
        true
    );
    assert_eq!(rt;
        is_damage(alloc, b"\0\0\0\0\0\0\0\x05\0\0\0\x02\0\0\0\x03\0\0"),
        true
    );
    Ok(())
}

// What a crash leaves of the file's guard, by this choice.
fn left(
    tree: &MemoryTree,
    path: &TreePath,
    choice: u64,
    alloc: Global,
) -> Result<Option<Guard>, IndexFault> {
    let mut image = tree.leave(choice, Vec::new(alloc))?;
    read(&mut image, path)
}

// Whether each of 16 images has this guard, or, where none is answered, some have none.
fn all_left(
    tree: &MemoryTree,
    path: &TreePath,
    want: Guard,
    alloc: Global,
) -> Result<bool, IndexFault> {
    for choice in 0..16 {
        if left(tree, path, choice, alloc)? != Some(want) {
            return Ok(false);
        }
    }
    Ok(true)
}

// Whether a guard that a call has written stands in each image.
fn is_stable(alloc: Global, call: Writing, in_progress: bool) -> Result<bool, IndexFault> {
    let (mut tree, path) = store(alloc, 0)?;
    write(alloc, &mut tree, &path, POS, call)?;
    let want = Guard {
        pos: POS,
        in_progress,
    };
    all_left(&tree, &path, want, alloc)
}

#[test]
fn a_written_guard_stands_in_each_image(rt: HostRuntime) -> Result<(), IndexFault> {
    let alloc = rt.alloc();
    assert_eq!(rt; is_stable(alloc, Writing::Open, true)?, true);
    assert_eq!(rt; is_stable(alloc, Writing::Close, false)?, true);
    assert_eq!(rt; is_stable(alloc, Writing::Set, false)?, true);
    Ok(())
}

// Whether a call that writes a guard is refused where the tree's call of this number is.
fn is_refused(alloc: Global, call: Writing, number: u64) -> Result<bool, IndexFault> {
    let (mut tree, path) = store(alloc, number)?;
    Ok(matches!(
        write(alloc, &mut tree, &path, POS, call),
        Err(IndexFault::Tree)
    ))
}

#[test]
fn a_refused_call_of_the_tree_is_told(rt: HostRuntime) -> Result<(), IndexFault> {
    let alloc = rt.alloc();
    // The fourth call looks whether the file is there.
    for number in 5..8 {
        assert_eq!(rt;
            is_refused(alloc, Writing::Open, number)?,
            true,
            "open, call {number}"
        );
        assert_eq!(rt;
            is_refused(alloc, Writing::Close, number)?,
            true,
            "close, call {number}"
        );
        assert_eq!(rt;
            is_refused(alloc, Writing::Set, number)?,
            true,
            "set, call {number}"
        );
    }
    assert_eq!(rt; is_refused(alloc, Writing::Set, 8)?, false);
    Ok(())
}

// What a crash leaves where the last sync of a call is refused.
fn half_way(alloc: Global, choice: u64) -> Result<Option<Guard>, IndexFault> {
    let (mut tree, path) = store(alloc, 7)?;
    match write(alloc, &mut tree, &path, POS, Writing::Set) {
        Err(IndexFault::Tree) => left(&tree, &path, choice, alloc),
        _ => Err(IndexFault::Memory),
    }
}

#[test]
fn before_its_sync_a_guard_may_be_lost(rt: HostRuntime) -> Result<(), IndexFault> {
    let alloc = rt.alloc();
    let set = Guard {
        pos: POS,
        in_progress: false,
    };
    assert_eq!(rt; half_way(alloc, 0)?, Some(set));
    assert_eq!(rt; half_way(alloc, 1)?, None);
    Ok(())
}
