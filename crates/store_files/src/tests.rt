use super::*;
use fs_names::{Mode, Settings};
use index_fault::IndexFault;
use std::alloc::{AllocError, Global};
use std::test::Fail;
use tree_api::{FileTree, TreePath};
use tree_memory::MemoryTree;
use tree_trials::room;

const SETTINGS: Settings = Settings {
    merge: -10,
    split: 2,
    lfn: 40,
    mode: Mode::WriteAhead,
};

const FSID: [u8; 16] = [0, 1, 2, 3, 4, 5, 6, 7, 8, 9, 10, 11, 12, 13, 14, 255];

fn empty(alloc: Global) -> Result<MemoryTree, AllocError> {
    MemoryTree::new(alloc, Vec::new(alloc))
}

// A file with this text in the root.
fn put<T: FileTree>(
    alloc: Global,
    tree: &mut T,
    step: &[u8],
    text: &[u8],
) -> Result<(), IndexFault> {
    let root = TreePath::root(alloc);
    let Some(path) = room(tree, &root, step)? else {
        return Err(IndexFault::Memory);
    };
    add_file(tree, &path, text)?;
    Ok(())
}

// A tree with the texts of a version and of settings, and an identity.
fn spelled(alloc: Global, version: &[u8], settings: &[u8]) -> Result<MemoryTree, IndexFault> {
    let fsid = fsid_text(alloc, &FSID)?;
    let mut tree = empty(alloc)?;
    put(alloc, &mut tree, b"store_version", version)?;
    put(alloc, &mut tree, b"fsid", &fsid)?;
    put(alloc, &mut tree, b"settings", settings)?;
    Ok(tree)
}

#[test]
fn a_version_is_read_as_it_was_written(rt: HostRuntime) -> Result<(), Fail> {
    let text = version_text(rt.alloc(), 12)?;
    assert!(rt; text.as_slice() == b"12\n".as_slice());
    assert!(rt; version_of(&text) == Some(12));
    Ok(())
}

#[test]
fn an_identity_is_read_as_it_was_written(rt: HostRuntime) -> Result<(), Fail> {
    let alloc = rt.alloc();
    let text = fsid_text(alloc, &FSID)?;
    assert!(rt; text.as_slice() == b"000102030405060708090a0b0c0d0eff\n".as_slice());
    assert!(rt; fsid_of(alloc, &text)? == Some(FSID));
    Ok(())
}

#[test]
fn settings_are_read_as_they_were_written(rt: HostRuntime) -> Result<(), Fail> {
    let text = settings_text(rt.alloc(), &SETTINGS)?;
    assert!(rt; text.as_slice() == b"merge -10\nsplit 2\nlfn 40\nmode wal\n".as_slice());
    assert!(rt; settings_of(&text) == Some(SETTINGS));
    Ok(())
}

#[test]
fn a_new_store_is_read(rt: HostRuntime) -> Result<(), Fail> {
    let alloc = rt.alloc();
    let mut tree = empty(alloc)?;
    make_store(alloc, &mut tree, &FSID, &SETTINGS)?;
    let found = read_store(alloc, &mut tree)?;
    assert!(rt; found.fsid == FSID);
    assert!(rt; found.settings == SETTINGS);
    Ok(())
}

#[test]
fn no_store_is_made_where_one_is(rt: HostRuntime) -> Result<(), Fail> {
    let alloc = rt.alloc();
    let mut tree = empty(alloc)?;
    make_store(alloc, &mut tree, &FSID, &SETTINGS)?;
    let again = make_store(alloc, &mut tree, &FSID, &SETTINGS);
    assert!(rt; again == Err(MakeFault::NotEmpty));
    Ok(())
}

#[test]
fn an_empty_tree_is_no_store(rt: HostRuntime) -> Result<(), Fail> {
    let alloc = rt.alloc();
    let mut tree = empty(alloc)?;
    let read = read_store(alloc, &mut tree);
    assert!(rt; read == Err(StoreFault::NotAStore));
    Ok(())
}

#[test]
fn another_version_is_refused(rt: HostRuntime) -> Result<(), Fail> {
    let alloc = rt.alloc();
    let mut tree = spelled(alloc, b"2\n", b"")?;
    let read = read_store(alloc, &mut tree);
    assert!(rt; read == Err(StoreFault::WrongVersion { found: 2 }));
    Ok(())
}

#[test]
fn settings_off_the_limits_are_refused(rt: HostRuntime) -> Result<(), Fail> {
    let alloc = rt.alloc();
    let mut tree = spelled(alloc, b"1\n", b"merge 0\nsplit 2\nlfn 40\nmode wal\n")?;
    let read = read_store(alloc, &mut tree);
    assert!(rt; read == Err(StoreFault::BadSettings));
    Ok(())
}
