use crate::Queue;
use fs_model::{Blob, CollList, Op, OpList, Txn, Why};
use fs_names::{Coll, Name, NameFault, Oid, Snap};
use queue_rules::QueueFault;
use std::alloc::{AllocError, Global};
use std::test::Fail;

const RING: u64 = 16_384;

fn group(seed: u32) -> Coll {
    Coll::Pg {
        pool: 1,
        seed,
        temp: false,
    }
}

fn named(alloc: Global, name: &str) -> Result<Oid, NameFault> {
    Ok(Oid {
        name: Name::new(alloc, name.as_bytes())?,
        key: Name::new(alloc, b"")?,
        nspace: Name::new(alloc, b"")?,
        snap: Snap::Head,
        hash: 1,
        pool: Some(1),
    })
}

fn make(seed: u32) -> Op {
    Op::MkColl { c: group(seed) }
}

fn touch(alloc: Global, seed: u32) -> Result<Op, NameFault> {
    Ok(Op::Touch {
        c: group(seed),
        o: named(alloc, "a")?,
    })
}

fn truncate(alloc: Global, len: u64) -> Result<Op, NameFault> {
    Ok(Op::Truncate {
        c: group(0),
        o: named(alloc, "a")?,
        len,
    })
}

fn clone_to(alloc: Global, to: &str) -> Result<Op, NameFault> {
    Ok(Op::Clone {
        c: group(0),
        o: named(alloc, "a")?,
        c2: group(0),
        o2: named(alloc, to)?,
    })
}

// So many bytes.
fn filled(alloc: Global, len: usize) -> Result<Blob, AllocError> {
    Ok(Blob::from_vec(vec![in alloc; 7u8; len]?))
}

fn write_filled(alloc: Global, len: usize) -> Result<Op, NameFault> {
    Ok(Op::Write {
        c: group(0),
        o: named(alloc, "a")?,
        at: 0,
        bytes: filled(alloc, len)?,
    })
}

fn push(ops: &mut Vec<Op>, op: Op) -> Result<(), AllocError> {
    ops.push(op)?;
    Ok(())
}

fn one(alloc: Global, op: Result<Op, NameFault>) -> Result<Vec<Op>, NameFault> {
    let mut ops = Vec::new(alloc);
    push(&mut ops, op?)?;
    Ok(ops)
}

// An operation that is built, and then one that isn't.
fn touch_and_clone(alloc: Global) -> Result<Vec<Op>, NameFault> {
    let mut ops = one(alloc, touch(alloc, 0))?;
    push(&mut ops, clone_to(alloc, "b")?)?;
    Ok(ops)
}

// What a transaction is answered that was made with enough memory.
fn offer(queue: &mut Queue, ops: Result<Vec<Op>, NameFault>) -> Result<u64, QueueFault> {
    match ops {
        Ok(ops) => queue.queue(Txn {
            ops: OpList::from_vec(ops),
        }),
        Err(_) => Err(QueueFault::Memory),
    }
}

// A new store's queue, in which `1.0_head` is made.
fn one_waits(alloc: Global) -> Result<Queue, QueueFault> {
    let mut queue = Queue::new(alloc, CollList::new(alloc), 0, RING);
    offer(&mut queue, one(alloc, Ok(make(0))))?;
    Ok(queue)
}

fn answer_of(alloc: Global, ops: Result<Vec<Op>, NameFault>) -> Result<u64, QueueFault> {
    let mut queue = one_waits(alloc)?;
    offer(&mut queue, ops)
}

fn is_refused(alloc: Global, ops: Result<Vec<Op>, NameFault>, want: QueueFault) -> bool {
    match answer_of(alloc, ops) {
        Ok(_) => false,
        Err(fault) => fault == want,
    }
}

fn refused(why: Why) -> QueueFault {
    QueueFault::Txn { op: 0, why }
}

#[test]
fn a_transaction_is_refused_by_its_check(rt: HostRuntime) {
    let alloc = rt.alloc();
    assert!(rt; is_refused(alloc, Ok(Vec::new(alloc)), refused(Why::Empty)));
    assert!(rt;
        is_refused(
            alloc,
            one(alloc, touch(alloc, 9)),
            refused(Why::NoCollection)
        )
    );
    assert!(rt;
        is_refused(
            alloc,
            one(alloc, Ok(make(0))),
            refused(Why::CollectionExists)
        )
    );
    assert!(rt;
        is_refused(
            alloc,
            one(alloc, truncate(alloc, 16_777_217)),
            refused(Why::TooBig)
        )
    );
}

#[test]
fn an_operation_that_is_not_built_is_refused(rt: HostRuntime) {
    let alloc = rt.alloc();
    let first = QueueFault::NotBuilt { op: 0 };
    let second = QueueFault::NotBuilt { op: 1 };
    assert!(rt; is_refused(alloc, one(alloc, clone_to(alloc, "b")), first));
    assert!(rt; is_refused(alloc, touch_and_clone(alloc), second));
    assert!(rt;
        is_refused(
            alloc,
            one(alloc, clone_to(alloc, "a")),
            refused(Why::SameObject)
        )
    );
}

#[test]
fn an_entry_that_the_ring_has_no_room_for_is_refused(rt: HostRuntime) {
    let alloc = rt.alloc();
    let large = QueueFault::TooLarge {
        need: 20_480,
        size: RING,
    };
    assert!(rt; is_refused(alloc, one(alloc, write_filled(alloc, 16_384)), large));
    assert!(rt; answer_of(alloc, one(alloc, write_filled(alloc, 12_000))) == Ok(2));
}

// So many transactions in turn.
fn fill(alloc: Global, queue: &mut Queue, count: usize) -> Result<(), QueueFault> {
    for _ in 0..count {
        offer(queue, one(alloc, touch(alloc, 0)))?;
    }
    Ok(())
}

fn full(alloc: Global) -> Result<Queue, QueueFault> {
    let mut queue = one_waits(alloc)?;
    fill(alloc, &mut queue, 1_023)?;
    Ok(queue)
}

#[test]
fn a_queue_of_1024_is_full_until_it_is_drained(rt: HostRuntime) -> Result<(), Fail> {
    let alloc = rt.alloc();
    let mut queue = full(alloc).ok().ok_or("1,024 transactions")?;
    assert_eq!(rt; queue.waiting().len(), 1_024);
    let more = offer(&mut queue, one(alloc, touch(alloc, 0)));
    assert!(rt; more == Err(QueueFault::QueueFull));
    queue.applied();
    assert_eq!(rt; queue.waiting().len(), 0);
    let next = offer(&mut queue, one(alloc, touch(alloc, 0)));
    assert!(rt; next == Ok(1_025));
    Ok(())
}

#[test]
fn the_last_number_is_given_once(rt: HostRuntime) {
    let alloc = rt.alloc();
    let mut queue = Queue::new(alloc, CollList::new(alloc), 9_223_372_036_854_775_806, RING);
    let last = offer(&mut queue, one(alloc, Ok(make(0))));
    assert!(rt; last == Ok(9_223_372_036_854_775_807));
    let spent = offer(&mut queue, one(alloc, touch(alloc, 0)));
    assert!(rt; spent == Err(QueueFault::NumbersSpent));
    assert_eq!(rt; queue.size(), RING);
}
