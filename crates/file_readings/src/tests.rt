use crate::stat;
use crate::trials::{add_object, has_attrs, is_missing, lists, need_colls, reads_as};
use fs_names::{Coll, Mode, Name, Oid, Settings, Snap};
use index_fault::IndexFault;
use std::alloc::Global;
use tree_api::{FileTree, TreePath};
use tree_memory::MemoryTree;
use tree_trials::{add_dir, add_file};

const SETTINGS: Settings = Settings {
    merge: 10,
    split: 2,
    lfn: 40,
    mode: Mode::WriteAhead,
};

const COLL: Coll = Coll::Pg {
    pool: 1,
    seed: 11,
    temp: false,
};

const OTHER: Coll = Coll::Pg {
    pool: 2,
    seed: 11,
    temp: false,
};

fn name(alloc: Global, bytes: &[u8]) -> Result<Name, IndexFault> {
    match Name::new(alloc, bytes) {
        Ok(name) => Ok(name),
        Err(_) => Err(IndexFault::Memory),
    }
}

// The head of `o` in pool 1 with this hash.
fn object(alloc: Global, hash: u32) -> Result<Oid, IndexFault> {
    Ok(Oid {
        name: name(alloc, b"o")?,
        key: name(alloc, b"")?,
        nspace: name(alloc, b"")?,
        snap: Snap::Head,
        hash,
        pool: Some(1),
    })
}

fn current(alloc: Global, tree: &mut MemoryTree) -> Result<TreePath, IndexFault> {
    let root = TreePath::root(alloc);
    add_dir(tree, &root, b"current")
}

// A store whose collection has three objects.
fn store(alloc: Global) -> Result<MemoryTree, IndexFault> {
    let mut tree = MemoryTree::new(alloc, Vec::new(alloc))?;
    let current = current(alloc, &mut tree)?;
    let dir = add_dir(&mut tree, &current, b"1.b_head")?;
    let first = object(alloc, 0xB)?;
    add_object(alloc, &mut tree, &dir, &first, b"abcdef")?;
    let second = object(alloc, 0x1)?;
    add_object(alloc, &mut tree, &dir, &second, b"")?;
    let third = object(alloc, 0x10)?;
    add_object(alloc, &mut tree, &dir, &third, b"")?;
    Ok(tree)
}

// Reads in the midst of it, over its end, and behind it.
fn parts<T: FileTree>(alloc: Global, tree: &mut T, oid: &Oid) -> Result<bool, IndexFault> {
    let some = reads_as(alloc, tree, &SETTINGS, &COLL, oid, 2, 3, b"cde")?;
    let rest = reads_as(alloc, tree, &SETTINGS, &COLL, oid, 4, u64::MAX, b"ef")?;
    let none = reads_as(alloc, tree, &SETTINGS, &COLL, oid, u64::MAX, 9, b"")?;
    Ok(some && rest && none)
}

#[test]
fn bytes_of_an_object(rt: HostRuntime) -> Result<(), IndexFault> {
    let alloc = rt.alloc();
    let mut tree = store(alloc)?;
    let oid = object(alloc, 0xB)?;
    assert!(rt; parts(alloc, &mut tree, &oid)?);
    assert!(rt; stat(alloc, &mut tree, &SETTINGS, &COLL, &oid)? == Some(6));
    Ok(())
}

#[test]
fn attributes_by_name(rt: HostRuntime) -> Result<(), IndexFault> {
    let alloc = rt.alloc();
    let mut tree = store(alloc)?;
    let oid = object(alloc, 0xB)?;
    assert!(rt; has_attrs(alloc, &mut tree, &SETTINGS, &COLL, &oid, b"k", b"l")?);
    Ok(())
}

#[test]
fn what_is_missing(rt: HostRuntime) -> Result<(), IndexFault> {
    let alloc = rt.alloc();
    let mut tree = store(alloc)?;
    let none = object(alloc, 0x2)?;
    let oid = object(alloc, 0xB)?;
    assert!(rt; is_missing(alloc, &mut tree, &SETTINGS, &COLL, &none)?);
    assert!(rt; is_missing(alloc, &mut tree, &SETTINGS, &OTHER, &oid)?);
    Ok(())
}

#[test]
fn pages_in_hash_order(rt: HostRuntime) -> Result<(), IndexFault> {
    let alloc = rt.alloc();
    let mut tree = store(alloc)?;
    let cursor = object(alloc, 0x1)?;
    let first: [u32; 2] = [0x10, 0x1];
    let last: [u32; 2] = [0x1, 0xB];
    assert!(rt;
        lists(
            alloc,
            &mut tree,
            &SETTINGS,
            &COLL,
            None,
            2,
            &first,
            Some(0xB)
        )?
    );
    assert!(rt;
        lists(
            alloc,
            &mut tree,
            &SETTINGS,
            &COLL,
            Some(&cursor),
            2,
            &last,
            None
        )?
    );
    Ok(())
}

#[test]
fn collections_by_text(rt: HostRuntime) -> Result<(), IndexFault> {
    let alloc = rt.alloc();
    let mut tree = MemoryTree::new(alloc, Vec::new(alloc))?;
    let current = current(alloc, &mut tree)?;
    add_dir(&mut tree, &current, b"meta")?;
    add_dir(&mut tree, &current, b"trash")?;
    add_file(&mut tree, &current, b"commit_op_seq")?;
    add_dir(&mut tree, &current, b"1.b_head")?;
    let colls = need_colls(alloc, &mut tree, &SETTINGS)?;
    assert!(rt; matches!(colls.slice(), [Coll::Pg { pool: 1, .. }, Coll::Meta]));
    Ok(())
}

#[test]
fn a_file_for_a_collection(rt: HostRuntime) -> Result<(), IndexFault> {
    let alloc = rt.alloc();
    let mut tree = MemoryTree::new(alloc, Vec::new(alloc))?;
    let current = current(alloc, &mut tree)?;
    add_file(&mut tree, &current, b"1.b_head")?;
    let oid = object(alloc, 0xB)?;
    let fault = stat(alloc, &mut tree, &SETTINGS, &COLL, &oid);
    assert!(rt; matches!(fault, Err(IndexFault::Damaged { .. })));
    let all = need_colls(alloc, &mut tree, &SETTINGS);
    assert!(rt; matches!(all, Err(IndexFault::Damaged { .. })));
    Ok(())
}
