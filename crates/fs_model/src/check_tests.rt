use super::trial_ops::*;
use super::*;
use fs_names::NameFault;
use std::alloc::{AllocError, Global};
use std::test::Fail;

// `1.0_head` alone.
fn one_coll(alloc: Global) -> Result<CollList, AllocError> {
    let mut colls = CollList::new(alloc);
    colls.insert(group(0))?;
    Ok(colls)
}

// How a transaction is refused where `1.0_head` alone is there.
fn fault_of(alloc: Global, ops: Vec<Op>) -> Result<Option<TxnFault>, AllocError> {
    let colls = one_coll(alloc)?;
    let txn = Txn {
        ops: OpList::from_vec(ops),
    };
    Ok(check_txn(alloc, &txn, &colls).err())
}

fn one_op(alloc: Global, op: Result<Op, NameFault>) -> Result<Vec<Op>, NameFault> {
    Ok(one(alloc, op?)?)
}

fn fault_of_one(alloc: Global, op: Result<Op, NameFault>) -> Result<Option<TxnFault>, NameFault> {
    let ops = one_op(alloc, op)?;
    Ok(fault_of(alloc, ops)?)
}

// Whether one operation is refused for this reason, or taken.
fn is_refused(alloc: Global, op: Result<Op, NameFault>, want: Option<Why>) -> bool {
    match fault_of_one(alloc, op) {
        Ok(found) => found == want.map(|why| TxnFault::At { op: 0, why }),
        Err(_) => false,
    }
}

fn is_taken(alloc: Global, op: Result<Op, NameFault>) -> bool {
    is_refused(alloc, op, None)
}

fn is_too_big(alloc: Global, op: Result<Op, NameFault>) -> bool {
    is_refused(alloc, op, Some(Why::TooBig))
}

// `m` makes a collection, `r` takes one away, and another letter touches an object in it.
fn op_of(alloc: Global, kind: u8, seed: u32) -> Result<Op, NameFault> {
    match kind {
        b'm' => Ok(make(seed)),
        b'r' => Ok(Op::RmColl { c: group(seed) }),
        _ => touch(alloc, seed),
    }
}

// Operations by a letter and a collection each, as `m1t1`.
fn ops_of(alloc: Global, text: &str) -> Result<Vec<Op>, NameFault> {
    let mut ops = Vec::new(alloc);
    let mut kind = b't';
    for byte in text.as_bytes() {
        if *byte >= b'a' {
            kind = *byte;
        } else {
            push(&mut ops, op_of(alloc, kind, (*byte % 16) as u32)?)?;
        }
    }
    Ok(ops)
}

fn fault_of_text(alloc: Global, text: &str) -> Result<Option<TxnFault>, NameFault> {
    let ops = ops_of(alloc, text)?;
    Ok(fault_of(alloc, ops)?)
}

fn is_text_refused(alloc: Global, text: &str, op: u32, why: Why) -> bool {
    match fault_of_text(alloc, text) {
        Ok(found) => found == Some(TxnFault::At { op, why }),
        Err(_) => false,
    }
}

fn is_text_taken(alloc: Global, text: &str) -> bool {
    match fault_of_text(alloc, text) {
        Ok(found) => found.is_none(),
        Err(_) => false,
    }
}

#[test]
fn transactions_are_refused_at_their_lowest_refused_operation(rt: HostRuntime) {
    let alloc = rt.alloc();
    assert!(rt; is_text_refused(alloc, "", 0, Why::Empty));
    assert!(rt; is_text_refused(alloc, "t9", 0, Why::NoCollection));
    assert!(rt; is_text_refused(alloc, "m0", 0, Why::CollectionExists));
    assert!(rt; is_text_refused(alloc, "m1m1t9", 1, Why::CollectionExists));
    assert!(rt; is_text_refused(alloc, "t0r0t0m0", 2, Why::NoCollection));
    assert!(rt; is_text_refused(alloc, "r0r0", 1, Why::NoCollection));
    assert!(rt; is_text_taken(alloc, "m1t1"));
    assert!(rt; is_text_taken(alloc, "r0m0t0"));
}

#[test]
fn quantities_count_as_whole_numbers_against_their_limits(rt: HostRuntime) {
    let alloc = rt.alloc();
    assert!(rt; is_taken(alloc, write_filled(alloc, 16_777_215, 1)));
    assert!(rt; is_too_big(alloc, write_filled(alloc, 16_777_216, 1)));
    assert!(rt; is_too_big(alloc, write_filled(alloc, 16_777_217, 0)));
    assert!(rt; is_too_big(alloc, write_filled(alloc, u64::MAX, 1)));
    assert!(rt; is_taken(alloc, write_filled(alloc, 0, 4_194_304)));
    assert!(rt; is_too_big(alloc, write_filled(alloc, 0, 4_194_305)));
}

#[test]
fn zeros_lengths_and_ranges_have_their_limits(rt: HostRuntime) {
    let alloc = rt.alloc();
    assert!(rt; is_taken(alloc, zero(alloc, 0, 16_777_216)));
    assert!(rt; is_too_big(alloc, zero(alloc, 1, 16_777_216)));
    assert!(rt; is_too_big(alloc, zero(alloc, u64::MAX, 1)));
    assert!(rt; is_too_big(alloc, truncate(alloc, 16_777_217)));
    assert!(rt;
        is_refused(
            alloc,
            clone_range(alloc, 16_777_216, 1, 0),
            Some(Why::NoCollection)
        )
    );
}

#[test]
fn names_and_keys_have_their_limits(rt: HostRuntime) {
    let alloc = rt.alloc();
    assert!(rt; is_too_big(alloc, rm_attr(alloc, 0)));
    assert!(rt; is_taken(alloc, rm_attr(alloc, 255)));
    assert!(rt; is_too_big(alloc, rm_attr(alloc, 256)));
    assert!(rt; is_taken(alloc, omap_remove_filled(alloc, 1_024)));
    assert!(rt; is_too_big(alloc, omap_remove_filled(alloc, 1_025)));
    assert!(rt; is_too_big(alloc, omap_range_filled(alloc, 1_025)));
}

#[test]
fn an_object_is_not_copied_onto_itself(rt: HostRuntime) {
    let alloc = rt.alloc();
    assert!(rt; is_refused(alloc, clone_to(alloc, "a", 0, "a"), Some(Why::SameObject)));
    assert!(rt; is_refused(alloc, move_to(alloc, "a", 0, "a"), Some(Why::SameObject)));
    assert!(rt; is_refused(alloc, move_to(alloc, "a", 1, "a"), Some(Why::NoCollection)));
    assert!(rt; is_taken(alloc, clone_to(alloc, "a", 0, "b")));
}

fn touches(alloc: Global, count: usize) -> Result<Vec<Op>, NameFault> {
    let mut ops = Vec::new(alloc);
    for _ in 0..count {
        push(&mut ops, touch(alloc, 0)?)?;
    }
    Ok(ops)
}

fn fault_of_touches(alloc: Global, count: usize) -> Result<Option<TxnFault>, NameFault> {
    let ops = touches(alloc, count)?;
    Ok(fault_of(alloc, ops)?)
}

#[test]
fn a_transaction_has_at_most_4096_operations(rt: HostRuntime) -> Result<(), Fail> {
    let alloc = rt.alloc();
    let found = fault_of_touches(alloc, 4_096)?;
    assert!(rt; found.is_none());
    let found = fault_of_touches(alloc, 4_097)?;
    let many = Some(TxnFault::At {
        op: 4_096,
        why: Why::TooMany,
    });
    assert!(rt; found == many);
    Ok(())
}

fn change_of(alloc: Global, text: &str, colls: &CollList) -> Result<CollChange, TxnFault> {
    let ops = match ops_of(alloc, text) {
        Ok(ops) => ops,
        Err(_) => return Err(TxnFault::Memory),
    };
    let txn = Txn {
        ops: OpList::from_vec(ops),
    };
    check_txn(alloc, &txn, colls)
}

fn changed(alloc: Global, text: &str) -> Result<CollList, TxnFault> {
    let mut colls = one_coll(alloc)?;
    let change = change_of(alloc, text, &colls)?;
    let before = colls.copy()?;
    colls.apply(alloc, &change)?;
    if !before.has(&group(0)) {
        return Err(TxnFault::Memory);
    }
    Ok(colls)
}

// Which of the first three collections are there after operations, as `-+-`.
fn has_after(alloc: Global, text: &str, want: [bool; 3]) -> bool {
    match changed(alloc, text) {
        Ok(colls) => {
            colls.has(&group(0)) == want[0]
                && colls.has(&group(1)) == want[1]
                && colls.has(&group(2)) == want[2]
        }
        Err(_) => false,
    }
}

#[test]
fn a_change_of_collections_is_done_apart_from_its_check(rt: HostRuntime) {
    let alloc = rt.alloc();
    assert!(rt; has_after(alloc, "m1r0m2", [false, true, true]));
    assert!(rt; has_after(alloc, "m1r1", [true, false, false]));
    assert!(rt; has_after(alloc, "r0m0t0", [true, false, false]));
}
