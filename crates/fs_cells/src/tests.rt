use super::*;
use fs_model::{Blob, BlobList, Op};
use fs_names::{Coll, Name, NameFault, Oid, Snap};
use std::alloc::Global;
use std::test::Fail;

fn head() -> Coll {
    Coll::Pg {
        pool: 1,
        seed: 0,
        temp: false,
    }
}

fn named(alloc: Global, name: &[u8]) -> Result<Oid, NameFault> {
    Ok(Oid {
        name: Name::new(alloc, name)?,
        key: Name::new(alloc, b"")?,
        nspace: Name::new(alloc, b"")?,
        snap: Snap::Head,
        hash: 1,
        pool: Some(1),
    })
}

// What the operation does to a part of the object.
fn act_on(alloc: Global, op: &Op, name: &[u8], part: Part) -> Result<Act, NameFault> {
    let cell = Cell {
        c: head(),
        o: named(alloc, name)?,
        part,
    };
    Ok(action(op, &cell))
}

#[test]
fn a_write_raises_the_length_and_sets_its_bytes(rt: HostRuntime) -> Result<(), Fail> {
    let alloc = rt.alloc();
    let op = Op::Write {
        c: head(),
        o: named(alloc, b"a")?,
        at: 4,
        bytes: Blob::new(alloc, b"xyz")?,
    };
    assert_eq!(rt; act_on(alloc, &op, b"a", Part::Exists)?, Act::Sets);
    assert_eq!(rt; act_on(alloc, &op, b"a", Part::Length)?, Act::Raises);
    assert_eq!(rt; act_on(alloc, &op, b"a", Part::Byte(3))?, Act::Leaves);
    assert_eq!(rt; act_on(alloc, &op, b"a", Part::Byte(6))?, Act::Sets);
    assert_eq!(rt; act_on(alloc, &op, b"a", Part::Byte(7))?, Act::Leaves);
    assert_eq!(rt; act_on(alloc, &op, b"a", Part::OmapHeader)?, Act::Leaves);
    assert_eq!(rt; act_on(alloc, &op, b"b", Part::Exists)?, Act::Leaves);
    Ok(())
}

#[test]
fn a_move_copies_all_to_its_destination_and_takes_its_source(rt: HostRuntime) -> Result<(), Fail> {
    let alloc = rt.alloc();
    let op = Op::MoveRename {
        c: head(),
        o: named(alloc, b"a")?,
        c2: head(),
        o2: named(alloc, b"b")?,
    };
    assert_eq!(rt; act_on(alloc, &op, b"a", Part::Exists)?, Act::Sets);
    assert_eq!(rt; act_on(alloc, &op, b"a", Part::OmapHeader)?, Act::Sets);
    assert_eq!(rt; act_on(alloc, &op, b"b", Part::Exists)?, Act::Sets);
    assert_eq!(rt; act_on(alloc, &op, b"b", Part::Length)?, Act::Copies);
    assert_eq!(rt; act_on(alloc, &op, b"b", Part::OmapHeader)?, Act::Copies);
    Ok(())
}

#[test]
fn a_removal_of_keys_takes_those_alone(rt: HostRuntime) -> Result<(), Fail> {
    let alloc = rt.alloc();
    let op = Op::OmapRemove {
        c: head(),
        o: named(alloc, b"a")?,
        keys: BlobList::from_vec(vec![in alloc; Blob::new(alloc, b"k")?]?),
    };
    let key = Part::OmapKey(Blob::new(alloc, b"k")?);
    let attr = Part::Attr(Blob::new(alloc, b"k")?);
    assert_eq!(rt; act_on(alloc, &op, b"a", key)?, Act::Sets);
    assert_eq!(rt; act_on(alloc, &op, b"a", attr)?, Act::Leaves);
    assert_eq!(rt; act_on(alloc, &op, b"a", Part::OmapHeader)?, Act::Leaves);
    Ok(())
}
