//! Operations for the tests, each made by one call.
use super::*;
use fs_names::{Coll, Name, NameFault, Oid, Snap};
use std::alloc::{AllocError, Global};

pub(crate) fn push<T: Drop>(list: &mut Vec<T>, value: T) -> Result<(), AllocError> {
    list.push(value)?;
    Ok(())
}

pub(crate) fn one<T: Drop>(alloc: Global, value: T) -> Result<Vec<T>, AllocError> {
    let mut list = Vec::new(alloc);
    push(&mut list, value)?;
    Ok(list)
}

pub(crate) fn group(seed: u32) -> Coll {
    Coll::Pg {
        pool: 1,
        seed,
        temp: false,
    }
}

pub(crate) fn named(alloc: Global, name: &str) -> Result<Oid, NameFault> {
    Ok(Oid {
        name: Name::new(alloc, name.as_bytes())?,
        key: Name::new(alloc, b"")?,
        nspace: Name::new(alloc, b"")?,
        snap: Snap::Head,
        hash: 1,
        pool: Some(1),
    })
}

pub(crate) fn make(seed: u32) -> Op {
    Op::MkColl { c: group(seed) }
}

pub(crate) fn touch(alloc: Global, seed: u32) -> Result<Op, NameFault> {
    Ok(Op::Touch {
        c: group(seed),
        o: named(alloc, "a")?,
    })
}

// So many bytes.
pub(crate) fn filled(alloc: Global, len: usize) -> Result<Blob, AllocError> {
    Ok(Blob::from_vec(vec![in alloc; 7u8; len]?))
}

pub(crate) fn write_filled(alloc: Global, at: u64, len: usize) -> Result<Op, NameFault> {
    Ok(Op::Write {
        c: group(0),
        o: named(alloc, "a")?,
        at,
        bytes: filled(alloc, len)?,
    })
}

pub(crate) fn zero(alloc: Global, at: u64, len: u64) -> Result<Op, NameFault> {
    Ok(Op::Zero {
        c: group(0),
        o: named(alloc, "a")?,
        at,
        len,
    })
}

pub(crate) fn truncate(alloc: Global, len: u64) -> Result<Op, NameFault> {
    Ok(Op::Truncate {
        c: group(0),
        o: named(alloc, "a")?,
        len,
    })
}

pub(crate) fn rm_attr(alloc: Global, len: usize) -> Result<Op, NameFault> {
    Ok(Op::RmAttr {
        c: group(0),
        o: named(alloc, "a")?,
        name: filled(alloc, len)?,
    })
}

fn one_key(alloc: Global, key: Blob) -> Result<BlobList, AllocError> {
    Ok(BlobList::from_vec(one(alloc, key)?))
}

pub(crate) fn omap_remove_filled(alloc: Global, len: usize) -> Result<Op, NameFault> {
    let key = filled(alloc, len)?;
    Ok(Op::OmapRemove {
        c: group(0),
        o: named(alloc, "a")?,
        keys: one_key(alloc, key)?,
    })
}

pub(crate) fn omap_range_filled(alloc: Global, len: usize) -> Result<Op, NameFault> {
    Ok(Op::OmapRange {
        c: group(0),
        o: named(alloc, "a")?,
        from: Blob::new(alloc, b"")?,
        to: filled(alloc, len)?,
    })
}

pub(crate) fn clone_to(alloc: Global, from: &str, seed: u32, to: &str) -> Result<Op, NameFault> {
    Ok(Op::Clone {
        c: group(0),
        o: named(alloc, from)?,
        c2: group(seed),
        o2: named(alloc, to)?,
    })
}

pub(crate) fn move_to(alloc: Global, from: &str, seed: u32, to: &str) -> Result<Op, NameFault> {
    Ok(Op::MoveRename {
        c: group(0),
        o: named(alloc, from)?,
        c2: group(seed),
        o2: named(alloc, to)?,
    })
}

pub(crate) fn clone_range(alloc: Global, from: u64, len: u64, to: u64) -> Result<Op, NameFault> {
    Ok(Op::CloneRange {
        c: group(0),
        o: named(alloc, "a")?,
        c2: group(1),
        o2: named(alloc, "b")?,
        from,
        len,
        to,
    })
}
