use crate::trials::{bytes_of, is_there, need_store, pairs_of};
use crate::{remove, rm_attr, rm_attrs, set_attrs, touch, truncate, write, zero};
use fs_model::{Blob, Pair};
use fs_names::{Coll, Mode, Name, Oid, Pos, Settings, Snap};
use index_fault::IndexFault;
use std::alloc::{AllocError, Global};
use tree_api::{FileTree, TreePath};
use tree_memory::MemoryTree;
use tree_trials::add_dir;

const SETTINGS: Settings = Settings {
    merge: 10,
    split: 2,
    lfn: 40,
    mode: Mode::WriteAhead,
};

const COLL: Coll = Coll::Pg {
    pool: 1,
    seed: 11,
    temp: false,
};

const POS: Pos = Pos {
    seq: 7,
    txn: 1,
    op: 2,
};

// The directories of a store with one collection.
fn store(alloc: Global) -> Result<MemoryTree, IndexFault> {
    let mut tree = MemoryTree::new(alloc, Vec::new(alloc))?;
    let root = TreePath::root(alloc);
    let current = add_dir(&mut tree, &root, b"current")?;
    add_dir(&mut tree, &current, b"aside")?;
    add_dir(&mut tree, &current, b"1.b_head")?;
    Ok(tree)
}

fn name(alloc: Global, bytes: &[u8]) -> Result<Name, IndexFault> {
    match Name::new(alloc, bytes) {
        Ok(name) => Ok(name),
        Err(_) => Err(IndexFault::Memory),
    }
}

// The head with hash 11 in pool 1 whose name is so many bytes `a`.
fn object(alloc: Global, count: usize) -> Result<Oid, IndexFault> {
    let bytes = vec![in alloc; b'a'; count]?;
    Ok(Oid {
        name: name(alloc, &bytes)?,
        key: name(alloc, b"")?,
        nspace: name(alloc, b"")?,
        snap: Snap::Head,
        hash: 11,
        pool: Some(1),
    })
}

fn pair(alloc: Global, key: &[u8], value: &[u8]) -> Result<Pair, AllocError> {
    Ok(Pair {
        key: Blob::new(alloc, key)?,
        value: Blob::new(alloc, value)?,
    })
}

// What the object's bytes are as they are written over.
fn bytes_change<T: FileTree>(alloc: Global, tree: &mut T, oid: &Oid) -> Result<bool, IndexFault> {
    need_store(alloc, tree, &SETTINGS, &COLL)?;
    write(alloc, tree, &SETTINGS, &COLL, oid, 2, b"xyz", POS)?;
    let gap = bytes_of(alloc, tree, &SETTINGS, &COLL, oid)?.slice() == b"\0\0xyz".as_slice();
    zero(alloc, tree, &SETTINGS, &COLL, oid, 3, 3, POS)?;
    let zeros = bytes_of(alloc, tree, &SETTINGS, &COLL, oid)?.slice() == b"\0\0x\0\0\0".as_slice();
    truncate(alloc, tree, &SETTINGS, &COLL, oid, 3, POS)?;
    let cut = bytes_of(alloc, tree, &SETTINGS, &COLL, oid)?.slice() == b"\0\0x".as_slice();
    Ok(gap && zeros && cut)
}

// It comes, once, and goes.
fn comes_and_goes<T: FileTree>(alloc: Global, tree: &mut T, oid: &Oid) -> Result<bool, IndexFault> {
    need_store(alloc, tree, &SETTINGS, &COLL)?;
    remove(alloc, tree, &SETTINGS, &COLL, oid)?;
    touch(alloc, tree, &SETTINGS, &COLL, oid, POS)?;
    touch(alloc, tree, &SETTINGS, &COLL, oid, POS)?;
    let came = is_there(alloc, tree, &SETTINGS, &COLL, oid)?;
    remove(alloc, tree, &SETTINGS, &COLL, oid)?;
    let stayed = is_there(alloc, tree, &SETTINGS, &COLL, oid)?;
    Ok(came && !stayed)
}

// How many attributes it has after each change, and the value of the one that was set twice.
fn attributes_change<T: FileTree>(
    alloc: Global,
    tree: &mut T,
    oid: &Oid,
    pairs: &[Pair],
) -> Result<bool, IndexFault> {
    need_store(alloc, tree, &SETTINGS, &COLL)?;
    set_attrs(alloc, tree, &SETTINGS, &COLL, oid, pairs, POS)?;
    let set = pairs_of(alloc, tree, &SETTINGS, &COLL, oid)?;
    let last = set.len() == 2 && set[0].value.slice() == b"new".as_slice();
    rm_attr(alloc, tree, &SETTINGS, &COLL, oid, b"k", POS)?;
    let one = pairs_of(alloc, tree, &SETTINGS, &COLL, oid)?.len() == 1;
    rm_attrs(alloc, tree, &SETTINGS, &COLL, oid, POS)?;
    let none = pairs_of(alloc, tree, &SETTINGS, &COLL, oid)?.is_empty();
    Ok(last && one && none)
}

#[test]
fn bytes_of_a_short_name(rt: HostRuntime) -> Result<(), IndexFault> {
    let alloc = rt.alloc();
    let mut tree = store(alloc)?;
    let oid = object(alloc, 3)?;
    assert!(rt; bytes_change(alloc, &mut tree, &oid)?);
    Ok(())
}

#[test]
fn bytes_of_a_long_name(rt: HostRuntime) -> Result<(), IndexFault> {
    let alloc = rt.alloc();
    let mut tree = store(alloc)?;
    let oid = object(alloc, 250)?;
    assert!(rt; bytes_change(alloc, &mut tree, &oid)?);
    Ok(())
}

#[test]
fn an_object_comes_and_goes(rt: HostRuntime) -> Result<(), IndexFault> {
    let alloc = rt.alloc();
    let mut tree = store(alloc)?;
    let oid = object(alloc, 250)?;
    assert!(rt; comes_and_goes(alloc, &mut tree, &oid)?);
    Ok(())
}

#[test]
fn attributes_of_an_object(rt: HostRuntime) -> Result<(), IndexFault> {
    let alloc = rt.alloc();
    let mut tree = store(alloc)?;
    let oid = object(alloc, 3)?;
    let mut pairs = Vec::new(alloc);
    pairs.push(pair(alloc, b"k", b"old")?)?;
    pairs.push(pair(alloc, b"l", b"other")?)?;
    pairs.push(pair(alloc, b"k", b"new")?)?;
    assert!(rt; attributes_change(alloc, &mut tree, &oid, &pairs)?);
    Ok(())
}
