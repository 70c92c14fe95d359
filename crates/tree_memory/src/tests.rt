ghost use Rattle.std.specs.Prelude.{◌≡◌, ◌≢◌, true, false, None, IfOk, IfSome};
ghost use Rattle.tree_api.specs.Tree.{HasParent, IsEmptyDir};
ghost use Rattle.tree_memory.specs.Tells.{disk_of};
ghost use Rattle.tree_memory.specs.Seen.{IsSeen, IsRoom};

use crate::MemoryTree;
use std::alloc::Global;
use std::process::Abort;
use tree_api::{Failed, FileTree, Kind, Stat, TreeError, TreePath, is_step};

// What is of which kind at a path.
fn seen(tree: &mut MemoryTree, path: &TreePath) -> Result<Option<Kind>, TreeError>
    ensures same { (disk_of tree.new).tree ≡ (disk_of tree.old).tree }
    ensures kind { IfOk result (λ k. IsSeen (disk_of tree.new).tree path.now k) }
{
    match tree.stat(path)? {
        Some(stat) => Ok(Some(stat.kind)),
        None => Ok(None),
    }
}

// A free path in a directory.
fn room(tree: &mut MemoryTree, dir: &TreePath, step: &[u8]) -> Result<Option<TreePath>, TreeError>
    ensures { IfOk result (λ o. IfSome o (λ p. IsRoom (disk_of tree.new).tree p)) }
{
    if !is_step(step) {
        return Ok(None);
    }
    let path = dir.join(step)?;
    let Some(Kind::Dir) = seen(tree, dir)? else {
        return Ok(None);
    };
    match seen(tree, &path)? {
        None => Ok(Some(path)),
        Some(_) => Ok(None),
    }
}

fn file(tree: &mut MemoryTree, dir: &TreePath, step: &[u8]) -> Result<TreePath, TreeError> {
    match room(tree, dir, step)? {
        Some(path) => {
            tree.create(&path)?;
            Ok(path)
        }
        None => Err(TreeError::Memory),
    }
}

fn folder(tree: &mut MemoryTree, dir: &TreePath, step: &[u8]) -> Result<TreePath, TreeError> {
    match room(tree, dir, step)? {
        Some(path) => {
            tree.make_dir(&path)?;
            Ok(path)
        }
        None => Err(TreeError::Memory),
    }
}

fn write(tree: &mut MemoryTree, path: &TreePath, at: u16, bytes: &[u8]) -> Result<(), TreeError> {
    if bytes.len() > 1000 {
        return Err(TreeError::Memory);
    }
    match seen(tree, path)? {
        Some(Kind::File) => tree.write_at(path, at as u64, bytes),
        _ => Err(TreeError::Memory),
    }
}

fn cut(tree: &mut MemoryTree, path: &TreePath, len: u16) -> Result<(), TreeError> {
    match seen(tree, path)? {
        Some(Kind::File) => tree.set_len(path, len as u64),
        _ => Err(TreeError::Memory),
    }
}

// Whether a file holds just these bytes.
fn holds(
    rt: &impl Abort,
    tree: &mut MemoryTree,
    path: &TreePath,
    want: &[u8],
) -> Result<bool, TreeError> {
    let mut bytes = [0xee; 8];
    match seen(tree, path)? {
        Some(Kind::File) => {
            let count = tree.read_at(path, 0, &mut bytes)?;
            assert!(rt; count <= 8);
            Ok(&bytes[..count] == want)
        }
        _ => Ok(false),
    }
}

fn set(tree: &mut MemoryTree, path: &TreePath, name: &[u8], value: &[u8]) -> Result<(), TreeError> {
    match seen(tree, path)? {
        Some(Kind::File) => tree.set_attr(path, name, value),
        _ => Err(TreeError::Memory),
    }
}

fn unset(tree: &mut MemoryTree, path: &TreePath, name: &[u8]) -> Result<(), TreeError> {
    match seen(tree, path)? {
        Some(Kind::File) => tree.remove_attr(path, name),
        _ => Err(TreeError::Memory),
    }
}

// Whether an attribute has this value, and how many attributes there are.
fn value(
    tree: &mut MemoryTree,
    path: &TreePath,
    name: &[u8],
    want: &[u8],
) -> Result<bool, TreeError> {
    match seen(tree, path)? {
        Some(Kind::File) => match tree.attr(path, name)? {
            Some(value) => Ok(value.as_slice() == want),
            None => Ok(false),
        },
        _ => Err(TreeError::Memory),
    }
}

fn attributes(tree: &mut MemoryTree, path: &TreePath) -> Result<usize, TreeError> {
    match seen(tree, path)? {
        Some(Kind::File) => Ok(tree.attrs(path)?.len()),
        _ => Err(TreeError::Memory),
    }
}

fn sync(tree: &mut MemoryTree, path: &TreePath) -> Result<(), TreeError> {
    match seen(tree, path)? {
        Some(Kind::File) => tree.sync_file(path),
        _ => Err(TreeError::Memory),
    }
}

fn remove(tree: &mut MemoryTree, path: &TreePath) -> Result<(), TreeError> {
    match seen(tree, path)? {
        Some(Kind::File) => tree.remove_file(path),
        _ => Err(TreeError::Memory),
    }
}

fn entries(tree: &mut MemoryTree, dir: &TreePath) -> Result<usize, TreeError> {
    match seen(tree, dir)? {
        Some(Kind::Dir) => Ok(tree.list(dir)?.len()),
        _ => Err(TreeError::Memory),
    }
}

// What stands at this step in the root.
fn path(alloc: Global, step: &[u8]) -> Result<TreePath, TreeError> {
    if !is_step(step) {
        return Err(TreeError::Memory);
    }
    Ok(TreePath::root(alloc).join(step)?)
}

fn is_empty(tree: &mut MemoryTree, dir: &TreePath) -> Result<bool, TreeError>
    ensures { IfOk result (λ b. b ≡ true → IsEmptyDir (disk_of tree.new).tree dir.now) }
{
    let Some(Kind::Dir) = seen(tree, dir)? else {
        return Ok(false);
    };
    let entries = tree.list(dir)?;
    Ok(entries.is_empty())
}

fn remove_folder(tree: &mut MemoryTree, dir: &TreePath) -> Result<(), TreeError> {
    if dir.steps() == 0 || !is_empty(tree, dir)? {
        return Err(TreeError::Memory);
    }
    tree.remove_dir(dir)
}

// A file moves to a free place that is no deeper.
fn rename(
    tree: &mut MemoryTree,
    from: &TreePath,
    dir: &TreePath,
    step: &[u8],
) -> Result<TreePath, TreeError> {
    let Some(to) = room(tree, dir, step)? else {
        return Err(TreeError::Memory);
    };
    if to.steps() > from.steps() {
        return Err(TreeError::Memory);
    }
    match seen(tree, from)? {
        Some(Kind::File) => {
            tree.rename(from, &to)?;
            Ok(to)
        }
        _ => Err(TreeError::Memory),
    }
}

// Whether there is a snapshot of this number.
fn kept(tree: &mut MemoryTree, seq: u64) -> Result<bool, TreeError>
    ensures yes { IfOk result (λ b. b ≡ true → (disk_of tree.new).tree.snap seq ≢ None) }
    ensures no { IfOk result (λ b. b ≡ false → (disk_of tree.new).tree.snap seq ≡ None) }
{
    Ok(tree.snapshots()?.contains(&seq))
}

fn snapshot(tree: &mut MemoryTree, seq: u64) -> Result<(), TreeError> {
    if kept(tree, seq)? {
        return Err(TreeError::Memory);
    }
    tree.snapshot(seq)
}

fn rollback(tree: &mut MemoryTree, seq: u64) -> Result<(), TreeError> {
    if !kept(tree, seq)? {
        return Err(TreeError::Memory);
    }
    tree.rollback(seq)
}

fn drop_snapshot(tree: &mut MemoryTree, seq: u64) -> Result<(), TreeError> {
    if !kept(tree, seq)? {
        return Err(TreeError::Memory);
    }
    tree.drop_snapshot(seq)
}

fn sync_all(tree: &mut MemoryTree) -> Result<(), TreeError> {
    match tree.sync_all() {
        Ok(()) => Ok(()),
        Err(Failed) => Err(TreeError::Refused),
    }
}

// The first of these bytes that a file holds, or their number.
fn which(
    rt: &impl Abort,
    tree: &mut MemoryTree,
    path: &TreePath,
    wants: &[&[u8]],
) -> Result<usize, TreeError> {
    for (i, want) in wants.iter().enumerate() {
        if holds(rt, tree, path, want)? {
            return Ok(i);
        }
    }
    Ok(wants.len())
}

// Which of these bytes a crash leaves in a file.
fn left(
    rt: &(impl Abort + AllocGlobal),
    tree: &MemoryTree,
    choice: u64,
    path: &TreePath,
    wants: &[&[u8]],
) -> Result<usize, TreeError> {
    let mut image = tree.leave(choice, Vec::new(rt.alloc()))?;
    which(rt, &mut image, path, wants)
}

// Whether one of the choices from 2 on leaves these bytes in a file.
fn comes_up(
    rt: &(impl Abort + AllocGlobal),
    tree: &MemoryTree,
    path: &TreePath,
    want: &[u8],
) -> Result<bool, TreeError> {
    for choice in 2..64 {
        let mut image = tree.leave(choice, Vec::new(rt.alloc()))?;
        if holds(rt, &mut image, path, want)? {
            return Ok(true);
        }
    }
    Ok(false)
}

// In each image a file holds one of these: for choice 0 the first, for choice 1 the last. Each of them comes up.
fn check_images(
    rt: &(impl Abort + AllocGlobal),
    tree: &MemoryTree,
    path: &TreePath,
    wants: &[&[u8]],
) -> Result<(), TreeError> {
    for choice in 0..64 {
        let found = left(rt, tree, choice, path, wants)?;
        assert!(rt; found < wants.len(), "choice {choice}");
        assert!(rt; choice != 0 || found == 0);
        assert!(rt; choice != 1 || found == wants.len() - 1);
    }
    for want in wants {
        assert!(rt; comes_up(rt, tree, path, want)?);
    }
    Ok(())
}

#[test]
fn files_and_directories_are_made(rt: HostRuntime) -> Result<(), TreeError> {
    let alloc: Global = rt.alloc();
    let mut tree = MemoryTree::new(alloc, Vec::new(alloc))?;
    assert_eq!(rt; tree.calls(), 0);
    let root = TreePath::root(alloc);
    let d = folder(&mut tree, &root, b"d")?;
    let a = file(&mut tree, &d, b"a")?;
    assert_eq!(rt; tree.calls(), 6);
    assert_eq!(rt; seen(&mut tree, &d)?, Some(Kind::Dir));
    assert_eq!(rt; seen(&mut tree, &a)?, Some(Kind::File));
    assert_eq!(rt; entries(&mut tree, &root)?, 1);
    assert_eq!(rt; entries(&mut tree, &d)?, 1);
    remove(&mut tree, &a)?;
    assert_eq!(rt; seen(&mut tree, &a)?, None);
    assert_eq!(rt; entries(&mut tree, &d)?, 0);
    assert!(rt; tree.checkpoints());
    Ok(())
}

#[test]
fn gaps_and_new_bytes_are_zeros(rt: HostRuntime) -> Result<(), TreeError> {
    let alloc: Global = rt.alloc();
    let mut tree = MemoryTree::new(alloc, Vec::new(alloc))?;
    let root = TreePath::root(alloc);
    let a = file(&mut tree, &root, b"a")?;
    write(&mut tree, &a, 2, b"xyz")?;
    assert!(rt; holds(&rt, &mut tree, &a, b"\0\0xyz")?);
    cut(&mut tree, &a, 3)?;
    cut(&mut tree, &a, 4)?;
    assert!(rt; holds(&rt, &mut tree, &a, b"\0\0x\0")?);
    assert_eq!(rt;
        tree.stat(&a)?,
        Some(Stat {
            kind: Kind::File,
            len: 4
        })
    );
    Ok(())
}

#[test]
fn attributes_are_set_and_removed(rt: HostRuntime) -> Result<(), TreeError> {
    let alloc: Global = rt.alloc();
    let mut tree = MemoryTree::new(alloc, Vec::new(alloc))?;
    let root = TreePath::root(alloc);
    let a = file(&mut tree, &root, b"a")?;
    set(&mut tree, &a, b"k", b"v")?;
    set(&mut tree, &a, b"j", b"w")?;
    assert_eq!(rt; attributes(&mut tree, &a)?, 2);
    unset(&mut tree, &a, b"k")?;
    assert!(rt; value(&mut tree, &a, b"j", b"w")?);
    assert!(rt; !value(&mut tree, &a, b"k", b"v")?);
    Ok(())
}

// A file that held `ol`, and into which `nw` was written.
fn overwritten(alloc: Global, a: &TreePath) -> Result<MemoryTree, TreeError> {
    let mut tree = MemoryTree::new(alloc, Vec::new(alloc))?;
    file(&mut tree, &TreePath::root(alloc), b"a")?;
    write(&mut tree, a, 0, b"ol")?;
    sync(&mut tree, a)?;
    write(&mut tree, a, 0, b"nw")?;
    Ok(tree)
}

// Each byte is old or new until the file is synced.
#[test]
fn a_crash_leaves_old_or_new_bytes(rt: HostRuntime) -> Result<(), TreeError> {
    let alloc: Global = rt.alloc();
    let a = path(alloc, b"a")?;
    let mut tree = overwritten(alloc, &a)?;
    let mixes = [b"nw".as_slice(), b"nl", b"ow", b"ol"];
    check_images(&rt, &tree, &a, &mixes)?;
    sync(&mut tree, &a)?;
    check_images(&rt, &tree, &a, &[b"nw".as_slice()])
}

// What each choice leaves of these. The numbers come from another program.
const DRAWN: [usize; 16] = [0, 3, 3, 2, 2, 3, 2, 3, 2, 3, 2, 1, 0, 2, 0, 2];

#[test]
fn a_choice_leaves_what_its_numbers_say(rt: HostRuntime) -> Result<(), TreeError> {
    let alloc: Global = rt.alloc();
    let a = path(alloc, b"a")?;
    let tree = overwritten(alloc, &a)?;
    let mixes = [b"nw".as_slice(), b"nl", b"ow", b"ol"];
    for choice in 0..16 {
        assert_eq!(rt;
            left(&rt, &tree, choice as u64, &a, &mixes)?,
            DRAWN[choice],
            "choice {choice}"
        );
    }
    Ok(())
}

// A name is there or not until names are synced.
#[test]
fn a_crash_leaves_old_or_new_names(rt: HostRuntime) -> Result<(), TreeError> {
    let alloc: Global = rt.alloc();
    let mut tree = MemoryTree::new(alloc, Vec::new(alloc))?;
    let root = TreePath::root(alloc);
    let a = file(&mut tree, &root, b"a")?;
    let mut there = 0;
    for choice in 0..16 {
        let mut left = tree.leave(choice, Vec::new(alloc))?;
        if seen(&mut left, &a)?.is_some() && there < 16 {
            there += 1;
            assert!(rt; choice != 1);
        } else {
            assert!(rt; choice != 0);
        }
    }
    assert!(rt; there > 1 && there < 15);
    tree.sync_names()?;
    for choice in 0..16 {
        let mut left = tree.leave(choice, Vec::new(alloc))?;
        assert!(rt; seen(&mut left, &a)?.is_some(), "choice {choice}");
    }
    remove(&mut tree, &a)?;
    assert!(rt; tree.sync_all().is_ok());
    let mut left = tree.leave(1, Vec::new(alloc))?;
    assert_eq!(rt; seen(&mut left, &a)?, None);
    Ok(())
}

#[test]
fn named_calls_are_refused(rt: HostRuntime) -> Result<(), TreeError> {
    let alloc: Global = rt.alloc();
    let mut tree = MemoryTree::new(alloc, vec![in alloc; 2, 4, 6]?)?;
    let root = TreePath::root(alloc);
    assert!(rt; tree.stat(&root)?.is_some());
    assert_eq!(rt; tree.stat(&root), Err(TreeError::Refused));
    tree.sync_names()?;
    assert_eq!(rt; tree.sync_names(), Err(TreeError::Refused));
    assert!(rt; tree.sync_all().is_ok());
    assert!(rt; tree.sync_all().is_err());
    assert_eq!(rt; tree.calls(), 6);
    assert_eq!(rt; tree.snapshots()?.len(), 0);
    Ok(())
}

// A folder, a file with two bytes and an attribute, and a snapshot of which a file is gone. One call is refused.
fn prepared(alloc: Global, refused: u64) -> Result<MemoryTree, TreeError> {
    let mut tree = MemoryTree::new(alloc, vec![in alloc; refused]?)?;
    let root = TreePath::root(alloc);
    folder(&mut tree, &root, b"d")?;
    let a = file(&mut tree, &root, b"a")?;
    write(&mut tree, &a, 0, b"ab")?;
    set(&mut tree, &a, b"k", b"v")?;
    let current = folder(&mut tree, &root, b"current")?;
    let gone = file(&mut tree, &current, b"f")?;
    snapshot(&mut tree, 1)?;
    remove(&mut tree, &gone)?;
    Ok(tree)
}

fn is_prepared(rt: &impl Abort, alloc: Global, tree: &mut MemoryTree) -> Result<bool, TreeError> {
    let a = path(alloc, b"a")?;
    if entries(tree, &TreePath::root(alloc))? != 3 || !holds(rt, tree, &a, b"ab")? {
        return Ok(false);
    }
    if !value(tree, &a, b"k", b"v")? || !is_empty(tree, &path(alloc, b"d")?)? {
        return Ok(false);
    }
    if kept(tree, 2)? || !kept(tree, 1)? {
        return Ok(false);
    }
    is_empty(tree, &path(alloc, b"current")?)
}

// One of 21 calls, after the looks that it stands on.
fn act(rt: &impl Abort, alloc: Global, tree: &mut MemoryTree, call: u64) -> Result<(), TreeError> {
    let a = path(alloc, b"a")?;
    match call {
        0..=5 => read(rt, alloc, tree, &a, call),
        6 => sync(tree, &a),
        7 => tree.sync_names(),
        8 => sync_all(tree),
        9..=12 => change_file(tree, &a, call),
        13..=17 => change_names(alloc, tree, &a, call),
        18 => snapshot(tree, 2),
        19 => rollback(tree, 1),
        _ => drop_snapshot(tree, 1),
    }
}

fn read(
    rt: &impl Abort,
    alloc: Global,
    tree: &mut MemoryTree,
    a: &TreePath,
    call: u64,
) -> Result<(), TreeError> {
    match call {
        0 => assert!(rt; seen(tree, a)?.is_some()),
        1 => assert_eq!(rt; entries(tree, &TreePath::root(alloc))?, 3),
        2 => assert!(rt; holds(rt, tree, a, b"ab")?),
        3 => assert!(rt; value(tree, a, b"k", b"v")?),
        4 => assert_eq!(rt; attributes(tree, a)?, 1),
        _ => assert!(rt; kept(tree, 1)?),
    }
    Ok(())
}

fn change_file(tree: &mut MemoryTree, a: &TreePath, call: u64) -> Result<(), TreeError> {
    match call {
        9 => write(tree, a, 1, b"x"),
        10 => cut(tree, a, 1),
        11 => set(tree, a, b"k", b"w"),
        _ => unset(tree, a, b"k"),
    }
}

fn change_names(
    alloc: Global,
    tree: &mut MemoryTree,
    a: &TreePath,
    call: u64,
) -> Result<(), TreeError> {
    let root = TreePath::root(alloc);
    match call {
        13 => folder(tree, &root, b"e")?,
        14 => file(tree, &root, b"e")?,
        15 => rename(tree, a, &root, b"b")?,
        16 => return remove(tree, a),
        _ => return remove_folder(tree, &path(alloc, b"d")?),
    };
    Ok(())
}

// A refused call is counted, and changes nothing that is read. The same call is answered afterwards.
#[test]
fn each_call_is_refused_where_it_is_named(rt: HostRuntime) -> Result<(), TreeError> {
    let alloc: Global = rt.alloc();
    for call in 0..21 {
        let mut tree = prepared(alloc, 0)?;
        act(&rt, alloc, &mut tree, call)?;
        let last = tree.calls();
        let same = is_prepared(&rt, alloc, &mut tree)?;
        assert_eq!(rt; same, call < 9, "call {call}");
        let mut tree = prepared(alloc, last)?;
        let refused = act(&rt, alloc, &mut tree, call);
        assert_eq!(rt; refused, Err(TreeError::Refused), "call {call}");
        assert_eq!(rt; tree.calls(), last);
        assert_eq!(rt; tree.plan.faults(), 1);
        assert!(rt; is_prepared(&rt, alloc, &mut tree)?, "call {call}");
        act(&rt, alloc, &mut tree, call)?;
        let same = is_prepared(&rt, alloc, &mut tree)?;
        assert_eq!(rt; same, call < 9, "call {call}");
    }
    Ok(())
}

#[test]
fn a_crash_leaves_an_old_or_new_length(rt: HostRuntime) -> Result<(), TreeError> {
    let alloc: Global = rt.alloc();
    let mut tree = MemoryTree::new(alloc, Vec::new(alloc))?;
    let root = TreePath::root(alloc);
    let a = file(&mut tree, &root, b"a")?;
    write(&mut tree, &a, 0, b"ab")?;
    tree.sync_names()?;
    let made = [b"ab".as_slice(), b"a\0", b"\0b", b"\0\0", b""];
    check_images(&rt, &tree, &a, &made)?;
    sync(&mut tree, &a)?;
    write(&mut tree, &a, 2, b"cd")?;
    let longer = [b"abcd".as_slice(), b"abc\0", b"ab\0d", b"ab\0\0", b"ab"];
    check_images(&rt, &tree, &a, &longer)?;
    sync(&mut tree, &a)?;
    check_images(&rt, &tree, &a, &[b"abcd".as_slice()])?;
    cut(&mut tree, &a, 2)?;
    let shorter = [b"ab".as_slice(), b"ab\0\0", b"abc\0", b"ab\0d", b"abcd"];
    check_images(&rt, &tree, &a, &shorter)?;
    assert!(rt; tree.sync_all().is_ok());
    check_images(&rt, &tree, &a, &[b"ab".as_slice()])
}

// Bytes that were cut off come back as they were or as zeros.
#[test]
fn a_crash_leaves_old_bytes_or_zeros_in_a_gap(rt: HostRuntime) -> Result<(), TreeError> {
    let alloc: Global = rt.alloc();
    let mut tree = MemoryTree::new(alloc, Vec::new(alloc))?;
    let a = file(&mut tree, &TreePath::root(alloc), b"a")?;
    write(&mut tree, &a, 0, b"abc")?;
    sync(&mut tree, &a)?;
    cut(&mut tree, &a, 1)?;
    cut(&mut tree, &a, 3)?;
    let mixes = [b"a\0\0".as_slice(), b"a", b"a\0c", b"ab\0", b"abc"];
    check_images(&rt, &tree, &a, &mixes)
}

// Whether the attribute `k` is new, and whether `j` was added.
fn drawn(
    alloc: Global,
    tree: &MemoryTree,
    choice: u64,
    a: &TreePath,
) -> Result<(bool, bool), TreeError> {
    let mut image = tree.leave(choice, Vec::new(alloc))?;
    let new = value(&mut image, a, b"k", b"w")?;
    let added = value(&mut image, a, b"j", b"x")?;
    Ok((new, added))
}

// Whether one of the choices from 2 on leaves them so.
fn are_drawn(
    alloc: Global,
    tree: &MemoryTree,
    a: &TreePath,
    want: (bool, bool),
) -> Result<bool, TreeError> {
    for choice in 2..64 {
        if drawn(alloc, tree, choice, a)? == want {
            return Ok(true);
        }
    }
    Ok(false)
}

#[test]
fn a_crash_leaves_old_or_new_attributes(rt: HostRuntime) -> Result<(), TreeError> {
    let alloc: Global = rt.alloc();
    let mut tree = MemoryTree::new(alloc, Vec::new(alloc))?;
    let a = file(&mut tree, &TreePath::root(alloc), b"a")?;
    set(&mut tree, &a, b"k", b"v")?;
    sync(&mut tree, &a)?;
    set(&mut tree, &a, b"k", b"w")?;
    set(&mut tree, &a, b"j", b"x")?;
    for choice in 0..64 {
        let (new, added) = drawn(alloc, &tree, choice, &a)?;
        let mut image = tree.leave(choice, Vec::new(alloc))?;
        assert!(rt;
            value(&mut image, &a, b"k", b"v")? != new,
            "choice {choice}"
        );
        assert!(rt; attributes(&mut image, &a)? == if added { 2 } else { 1 });
        assert!(rt; choice != 0 || (new && added));
        assert!(rt; choice != 1 || (!new && !added));
    }
    for want in [(true, true), (true, false), (false, true), (false, false)] {
        assert!(rt; are_drawn(alloc, &tree, &a, want)?);
    }
    Ok(())
}

// After a rename a file stands at one of its two names, with old or new bytes.
#[test]
fn a_crash_leaves_a_file_at_one_of_its_names(rt: HostRuntime) -> Result<(), TreeError> {
    let alloc: Global = rt.alloc();
    let mut tree = MemoryTree::new(alloc, Vec::new(alloc))?;
    let root = TreePath::root(alloc);
    let d = folder(&mut tree, &root, b"d")?;
    let old = file(&mut tree, &d, b"a")?;
    write(&mut tree, &old, 0, b"xy")?;
    sync(&mut tree, &old)?;
    let new = rename(&mut tree, &old, &root, b"b")?;
    write(&mut tree, &new, 1, b"z")?;
    let wants = [b"xz".as_slice(), b"xy"];
    for choice in 0..16 {
        let mut left = tree.leave(choice, Vec::new(alloc))?;
        let moved = which(&rt, &mut left, &new, &wants)?;
        let stayed = which(&rt, &mut left, &old, &wants)?;
        assert!(rt; (moved < 2) != (stayed < 2), "choice {choice}");
        assert!(rt; choice != 0 || moved == 0);
        assert!(rt; choice != 1 || stayed == 1);
    }
    sync(&mut tree, &new)?;
    check_images(&rt, &tree, &new, &[b"xz".as_slice()])
}

#[test]
fn a_crash_keeps_snapshots_and_what_a_rollback_brings(rt: HostRuntime) -> Result<(), TreeError> {
    let alloc: Global = rt.alloc();
    let mut tree = MemoryTree::new(alloc, Vec::new(alloc))?;
    let root = TreePath::root(alloc);
    let current = folder(&mut tree, &root, b"current")?;
    let f = file(&mut tree, &current, b"f")?;
    write(&mut tree, &f, 0, b"ab")?;
    snapshot(&mut tree, 1)?;
    cut(&mut tree, &f, 0)?;
    remove(&mut tree, &f)?;
    rollback(&mut tree, 1)?;
    check_images(&rt, &tree, &f, &[b"ab".as_slice()])?;
    for choice in 0..16 {
        assert!(rt; kept(&mut tree.leave(choice, Vec::new(alloc))?, 1)?);
    }
    drop_snapshot(&mut tree, 1)?;
    for choice in 0..16 {
        assert!(rt; !kept(&mut tree.leave(choice, Vec::new(alloc))?, 1)?);
    }
    Ok(())
}
