// Calls for tests, which look first whether they may be made. Each answers `Memory` where what it needs isn't there.
use crate::{attrs, colls, list, omap, read, stat};
use fs_model::{CollNames, Page};
use fs_names::{Coll, Oid, Settings, encode_oid};
use index_fault::IndexFault;
use std::alloc::Global;
use tree_api::{FileTree, TreePath};
use tree_trials::{add_file, need_dir, need_file, set_file_attr};

// The file gets bytes, at most 1,000.
fn write_all<T: FileTree>(tree: &mut T, path: &TreePath, bytes: &[u8]) -> Result<(), IndexFault> {
    if bytes.len() > 1000 {
        return Err(IndexFault::Memory);
    }
    need_file(tree, path)?;
    object_file::write(tree, path, 0, bytes)
}

// A file of an object with a short name, with two attributes.
pub(crate) fn add_object<T: FileTree>(
    alloc: Global,
    tree: &mut T,
    dir: &TreePath,
    oid: &Oid,
    bytes: &[u8],
) -> Result<(), IndexFault> {
    let text = encode_oid(alloc, oid)?;
    let path = add_file(tree, dir, text.slice())?;
    set_file_attr(tree, &path, b"a:l", b"two")?;
    set_file_attr(tree, &path, b"a:k", b"one")?;
    write_all(tree, &path, bytes)
}

pub(crate) fn need_colls<T: FileTree>(
    alloc: Global,
    tree: &mut T,
    set: &Settings,
) -> Result<CollNames, IndexFault> {
    let current = TreePath::root(alloc).join(b"current")?;
    need_dir(tree, &current)?;
    colls(alloc, tree, set)
}

pub(crate) fn reads_as<T: FileTree>(
    alloc: Global,
    tree: &mut T,
    set: &Settings,
    c: &Coll,
    o: &Oid,
    at: u64,
    len: u64,
    bytes: &[u8],
) -> Result<bool, IndexFault> {
    match read(alloc, tree, set, c, o, at, len)? {
        Some(blob) => Ok(blob.slice() == bytes),
        None => Ok(false),
    }
}

pub(crate) fn is_missing<T: FileTree>(
    alloc: Global,
    tree: &mut T,
    set: &Settings,
    c: &Coll,
    o: &Oid,
) -> Result<bool, IndexFault> {
    let length = stat(alloc, tree, set, c, o)?;
    let header = omap(alloc, tree, set, c, o)?;
    Ok(length.is_none() && header.is_none())
}

// Whether its attributes are these two, in this order.
pub(crate) fn has_attrs<T: FileTree>(
    alloc: Global,
    tree: &mut T,
    set: &Settings,
    c: &Coll,
    o: &Oid,
    first: &[u8],
    second: &[u8],
) -> Result<bool, IndexFault> {
    let Some(pairs) = attrs(alloc, tree, set, c, o)? else {
        return Ok(false);
    };
    match pairs.slice() {
        [a, b] => Ok(a.key.slice() == first && b.key.slice() == second),
        _ => Ok(false),
    }
}

// The hashes of a page, and that of the object behind it.
fn is_page(page: &Page, hashes: &[u32], next: Option<u32>) -> bool {
    let oids = page.oids.slice();
    if oids.len() != hashes.len() {
        return false;
    }
    for i in 0..oids.len() {
        if oids[i].hash != hashes[i] {
            return false;
        }
    }
    match &page.next {
        Some(oid) => Some(oid.hash) == next,
        None => next.is_none(),
    }
}

pub(crate) fn lists<T: FileTree>(
    alloc: Global,
    tree: &mut T,
    set: &Settings,
    c: &Coll,
    from: Option<&Oid>,
    max: u32,
    hashes: &[u32],
    next: Option<u32>,
) -> Result<bool, IndexFault> {
    match list(alloc, tree, set, c, from, max)? {
        Some(page) => Ok(is_page(&page, hashes, next)),
        None => Ok(false),
    }
}
