ghost use Rattle.std.specs.Prelude.{◌<◌};
ghost use Rattle.txn_codec.specs.Spelling.{OpsFit};

use super::*;
use fs_model::{Blob, BlobList, Op, PairList, Txn};
use fs_names::{Coll, Oid, Snap};
use std::alloc::{AllocError, Global};

// One touch of the object `a` with hash 1 and pool 1 in `1.0_head`.
const TOUCH: [u8; 40] = [
    0, 0, 0, 1, 1, 1, 0, 0, 0, 0, 0, 0, 0, 1, 0, 0, 0, 0, 0, 0, 1, 97, 0, 0, 0, 0, 0, 0, 0, 0, 1,
    1, 0, 0, 0, 0, 0, 0, 0, 1,
];

// The making of `1.0_TEMP`.
const MAKE: [u8; 19] = [0, 0, 0, 1, 12, 1, 0, 0, 0, 0, 0, 0, 0, 1, 0, 0, 0, 0, 1];

// The object `a` with hash 1, in the collection without a pool, and the object `b`.
const A: [u8; 14] = [0, 0, 1, 97, 0, 0, 0, 0, 0, 0, 0, 0, 1, 0];

const B: [u8; 14] = [0, 0, 1, 98, 0, 0, 0, 0, 0, 0, 0, 0, 1, 0];

// `b`, and three numbers.
const RANGE: [u8; 38] = [
    0, 0, 1, 98, 0, 0, 0, 0, 0, 0, 0, 0, 1, 0, 0, 0, 0, 0, 0, 0, 0, 1, 0, 0, 0, 0, 0, 0, 0, 2, 0,
    0, 0, 0, 0, 0, 0, 3,
];

// The numbers 7 and 8.
const NUMBERS: [u8; 16] = [0, 0, 0, 0, 0, 0, 0, 7, 0, 0, 0, 0, 0, 0, 0, 8];

// One pair, `k` and `vw`, behind their number.
const PAIRS: [u8; 15] = [0, 0, 0, 1, 0, 0, 0, 1, 107, 0, 0, 0, 2, 118, 119];

// One key behind their number.
const KEYS: [u8; 9] = [0, 0, 0, 1, 0, 0, 0, 1, 107];

// The header `h` and one pair.
const HEADED: [u8; 21] = [
    1, 0, 0, 0, 1, 104, 0, 0, 0, 1, 0, 0, 0, 1, 107, 0, 0, 0, 2, 118, 119,
];

fn is_named(c: &Coll, o: &Oid, name: &[u8]) -> bool {
    *c == Coll::Meta
        && o.name.bytes() == name
        && o.key.bytes().is_empty()
        && o.nspace.bytes().is_empty()
        && o.snap == Snap::Head
        && o.hash == 1
        && o.pool.is_none()
}

fn is_a(c: &Coll, o: &Oid) -> bool {
    is_named(c, o, b"a".as_slice())
}

fn is_b(c: &Coll, o: &Oid) -> bool {
    is_named(c, o, b"b".as_slice())
}

fn is_text(bytes: &Blob, text: &[u8]) -> bool {
    bytes.slice() == text
}

// Whether these are the one pair of the payloads here.
fn is_pair(pairs: &PairList) -> bool {
    match pairs.slice() {
        [pair] => is_text(&pair.key, b"k".as_slice()) && is_text(&pair.value, b"vw".as_slice()),
        _ => false,
    }
}

fn is_key(keys: &BlobList) -> bool {
    match keys.slice() {
        [key] => is_text(key, b"k".as_slice()),
        _ => false,
    }
}

fn is_headed(header: &Option<Blob>) -> bool {
    match header {
        Some(header) => is_text(header, b"h".as_slice()),
        None => false,
    }
}

// Whether this is the operation of a tag, with the fields of the payloads here.
fn is_op(op: &Op, tag: u8) -> bool {
    match op {
        Op::Touch { c, o } => tag == 1 && is_a(c, o),
        Op::Write { c, o, at, bytes } => {
            tag == 2 && is_a(c, o) && *at == 7 && is_text(bytes, b"hi".as_slice())
        }
        Op::Zero { c, o, at, len } => tag == 3 && is_a(c, o) && *at == 7 && *len == 8,
        Op::Truncate { c, o, len } => tag == 4 && is_a(c, o) && *len == 7,
        Op::Remove { c, o } => tag == 5 && is_a(c, o),
        Op::SetAttrs { c, o, pairs } => tag == 6 && is_a(c, o) && is_pair(pairs),
        Op::RmAttr { c, o, name } => tag == 7 && is_a(c, o) && is_text(name, b"k".as_slice()),
        Op::RmAttrs { c, o } => tag == 8 && is_a(c, o),
        _ => is_other_op(op, tag),
    }
}

fn is_other_op(op: &Op, tag: u8) -> bool {
    match op {
        Op::Clone { c, o, c2, o2 } => tag == 9 && is_a(c, o) && is_b(c2, o2),
        Op::CloneRange {
            c,
            o,
            c2,
            o2,
            from: 1,
            len: 2,
            to: 3,
        } => tag == 10 && is_a(c, o) && is_b(c2, o2),
        Op::MoveRename { c, o, c2, o2 } => tag == 11 && is_a(c, o) && is_b(c2, o2),
        Op::OmapClear { c, o } => tag == 14 && is_a(c, o),
        Op::OmapSet {
            c,
            o,
            header,
            pairs,
        } => tag == 15 && is_a(c, o) && is_headed(header) && is_pair(pairs),
        Op::OmapRemove { c, o, keys } => tag == 16 && is_a(c, o) && is_key(keys),
        Op::OmapRange { c, o, from, to } => {
            tag == 17 && is_a(c, o) && is_text(from, b"k".as_slice()) && to.slice().is_empty()
        }
        _ => false,
    }
}

// Whether it is one operation, of a tag.
fn is_one_op(txn: &Txn, tag: u8) -> bool {
    match txn.ops.slice() {
        [op] => is_op(op, tag),
        _ => false,
    }
}

#[tactic(auto, using(crate::proofs::Shorts::fits_short))]
fn has_payload(alloc: Global, txn: &Txn, bytes: &[u8]) -> Result<bool, AllocError>
    requires { OpsFit txn.now.ops }
{
    Ok(encode_txn(alloc, txn)?.slice() == bytes)
}

// Whether a payload is that of one operation of a tag, read and spelled again.
fn is_payload(alloc: Global, bytes: &[u8], tag: u8) -> bool {
    match decode_txn(alloc, bytes) {
        Ok(txn) => is_one_op(&txn, tag) && has_payload(alloc, &txn, bytes) == Ok(true),
        Err(_) => false,
    }
}

// The payload of one operation on `a`, of its tag and its other fields.
fn payload_of(alloc: Global, tag: u8, fields: &[u8]) -> Result<Vec<u8>, AllocError> {
    let mut bytes = Vec::new(alloc);
    bytes.extend_from_slice(&[0, 0, 0, 1, tag])?;
    bytes.extend_from_slice(&A)?;
    bytes.extend_from_slice(fields)?;
    Ok(bytes)
}

// Whether a tag and these fields are an operation on `a`, both ways.
fn is_spelled(alloc: Global, tag: u8, fields: &[u8]) -> bool {
    match payload_of(alloc, tag, fields) {
        Ok(bytes) => is_payload(alloc, &bytes, tag),
        Err(_) => false,
    }
}

#[test]
fn operations_on_bytes_have_tags_1_to_5(rt: HostRuntime) {
    let alloc = rt.alloc();
    assert!(rt; is_spelled(alloc, 1, &[]));
    assert!(rt; is_spelled(alloc, 2, &[0, 0, 0, 0, 0, 0, 0, 7, 0, 0, 0, 2, 104, 105]));
    assert!(rt; is_spelled(alloc, 3, &NUMBERS));
    assert!(rt; is_spelled(alloc, 4, &NUMBERS[..8]));
    assert!(rt; is_spelled(alloc, 5, &[]));
}

#[test]
fn operations_on_attributes_have_tags_6_to_8(rt: HostRuntime) {
    let alloc = rt.alloc();
    assert!(rt; is_spelled(alloc, 6, &PAIRS));
    assert!(rt; is_spelled(alloc, 7, &[0, 0, 0, 1, 107]));
    assert!(rt; is_spelled(alloc, 8, &[]));
}

#[test]
fn operations_on_two_objects_have_tags_9_to_11(rt: HostRuntime) {
    let alloc = rt.alloc();
    assert!(rt; is_spelled(alloc, 9, &B));
    assert!(rt; is_spelled(alloc, 10, &RANGE));
    assert!(rt; is_spelled(alloc, 11, &B));
}

#[test]
fn operations_on_omaps_have_tags_14_to_17(rt: HostRuntime) {
    let alloc = rt.alloc();
    assert!(rt; is_spelled(alloc, 14, &[]));
    assert!(rt; is_spelled(alloc, 15, &HEADED));
    assert!(rt; is_spelled(alloc, 16, &KEYS));
    assert!(rt; is_spelled(alloc, 17, &[0, 0, 0, 1, 107, 0, 0, 0, 0]));
}

// Whether operations change a collection as a tag says: made, `1.0_TEMP`, or taken away, the one without a pool.
fn is_change(txn: &Txn, tag: u8) -> bool {
    match txn.ops.slice() {
        [
            Op::MkColl {
                c: Coll::Pg {
                    pool: 1,
                    seed: 0,
                    temp: true,
                },
            },
        ] => tag == 12,
        [Op::RmColl { c: Coll::Meta }] => tag == 13,
        _ => false,
    }
}

fn is_coll_payload(alloc: Global, bytes: &[u8], tag: u8) -> bool {
    match decode_txn(alloc, bytes) {
        Ok(txn) => is_change(&txn, tag) && has_payload(alloc, &txn, bytes) == Ok(true),
        Err(_) => false,
    }
}

#[test]
fn operations_on_collections_have_tags_12_and_13(rt: HostRuntime) {
    let alloc = rt.alloc();
    assert!(rt; is_coll_payload(alloc, &MAKE, 12));
    assert!(rt; is_coll_payload(alloc, &[0, 0, 0, 1, 13, 0], 13));
}

// Whether it is one touch of the object `a` with hash 1 and pool 1 in `1.0_head`.
fn is_touch(txn: &Txn) -> bool {
    match txn.ops.slice() {
        [
            Op::Touch {
                c: Coll::Pg {
                    pool: 1,
                    seed: 0,
                    temp: false,
                },
                o,
            },
        ] => o.name.bytes() == b"a".as_slice() && o.hash == 1 && o.pool == Some(1),
        _ => false,
    }
}

fn is_touch_payload(alloc: Global, bytes: &[u8]) -> bool {
    match decode_txn(alloc, bytes) {
        Ok(txn) => is_touch(&txn) && has_payload(alloc, &txn, bytes) == Ok(true),
        Err(_) => false,
    }
}

#[test]
fn a_touch_has_its_forty_bytes(rt: HostRuntime) {
    assert!(rt; is_touch_payload(rt.alloc(), &TOUCH));
}

// Why bytes are no payload.
fn fault(alloc: Global, bytes: &[u8]) -> Option<CodecFault> {
    match decode_txn(alloc, bytes) {
        Ok(_) => None,
        Err(fault) => Some(fault),
    }
}

// The payload of a touch with one byte changed.
fn with_byte(place: usize, byte: u8) -> [u8; 40] {
    let mut bytes = TOUCH;
    if place < bytes.len() {
        bytes[place] = byte;
    }
    bytes
}

fn is_wrong(alloc: Global, place: usize, byte: u8, want: CodecFault) -> bool {
    fault(alloc, &with_byte(place, byte)) == Some(want)
}

#[test]
fn a_tag_that_is_not_listed_is_found_at_its_place(rt: HostRuntime) {
    let alloc = rt.alloc();
    assert!(rt; is_wrong(alloc, 4, 0, CodecFault::BadTag { at: 4 }));
    assert!(rt; is_wrong(alloc, 4, 18, CodecFault::BadTag { at: 4 }));
    assert!(rt; is_wrong(alloc, 5, 2, CodecFault::BadTag { at: 5 }));
    assert!(rt; is_wrong(alloc, 18, 2, CodecFault::BadTag { at: 18 }));
    assert!(rt; is_wrong(alloc, 26, 3, CodecFault::BadTag { at: 26 }));
    assert!(rt; is_wrong(alloc, 31, 2, CodecFault::BadTag { at: 31 }));
}

#[test]
fn a_wrong_length_is_found_where_it_begins_or_ends(rt: HostRuntime) {
    let alloc = rt.alloc();
    assert!(rt; is_wrong(alloc, 0, 1, CodecFault::BadLength { at: 0 }));
    assert!(rt; is_wrong(alloc, 2, 16, CodecFault::BadLength { at: 0 }));
    assert!(rt; is_wrong(alloc, 19, 5, CodecFault::BadLength { at: 19 }));
    assert!(rt; is_wrong(alloc, 20, 200, CodecFault::Short { at: 21 }));
    assert!(rt; is_wrong(alloc, 4, 3, CodecFault::Short { at: 40 }));
    assert!(rt; is_wrong(alloc, 3, 0, CodecFault::Trailing { at: 4 }));
}

// Two operations: an omap set with a header and one pair, and a range of copied bytes.
const MANY: [u8; 93] = [
    0, 0, 0, 2, 15, 0, 0, 1, 97, 0, 0, 0, 0, 0, 0, 0, 0, 1, 0, 1, 0, 0, 0, 1, 104, 0, 0, 0, 1, 0,
    0, 0, 1, 107, 0, 0, 0, 2, 118, 119, 10, 0, 0, 1, 97, 0, 0, 0, 0, 0, 0, 0, 0, 1, 0, 0, 0, 1, 98,
    0, 0, 0, 0, 0, 0, 0, 0, 1, 0, 0, 0, 0, 0, 0, 0, 0, 1, 0, 0, 0, 0, 0, 0, 0, 2, 0, 0, 0, 0, 0, 0,
    0, 3,
];

// The places where its fields begin.
const FIELDS: [u64; 38] = [
    0, 4, 5, 6, 8, 9, 11, 13, 14, 18, 19, 20, 24, 25, 29, 33, 34, 38, 40, 41, 42, 44, 45, 47, 49,
    50, 54, 55, 56, 58, 59, 61, 63, 64, 68, 69, 77, 85,
];

// The place of the field that a byte belongs to.
fn field_at(place: u64) -> u64 {
    let mut found = 0;
    for field in FIELDS {
        if field <= place {
            found = field;
        }
    }
    found
}

// Whether the first bytes of the two operations end in a field that isn't whole.
fn is_cut(alloc: Global, len: usize) -> bool
    requires { len < 93 }
{
    let at = field_at(len as u64);
    fault(alloc, &MANY[..len]) == Some(CodecFault::Short { at })
}

#[test]
fn a_payload_that_is_cut_is_short_where_its_last_field_begins(rt: HostRuntime) {
    assert!(rt; fault(rt.alloc(), &MANY).is_none());
    for len in 0..93 {
        assert!(rt; is_cut(rt.alloc(), len), "{len} bytes");
    }
}

// The place of a fault.
fn place_of(fault: CodecFault) -> u64 {
    match fault {
        CodecFault::Short { at }
        | CodecFault::BadTag { at }
        | CodecFault::BadLength { at }
        | CodecFault::Trailing { at } => at,
        CodecFault::Memory => 0,
    }
}

// Whether a changed byte of the two operations is no fault, or one at its field or behind it.
fn is_fault_behind(alloc: Global, place: usize, byte: u8) -> bool
    requires { place < 93 }
{
    let mut bytes = MANY;
    bytes[place] = byte;
    match fault(alloc, &bytes) {
        None => true,
        Some(fault) => place_of(fault) >= field_at(place as u64),
    }
}

#[test]
fn a_changed_byte_is_no_fault_before_its_field(rt: HostRuntime) {
    for place in 0..93 {
        for byte in 0..=255 {
            assert!(rt;
                is_fault_behind(rt.alloc(), place, byte),
                "{byte} at {place}"
            );
        }
    }
}

#[test]
fn a_count_past_the_end_is_short_where_the_next_value_is_missing(rt: HostRuntime) {
    let alloc = rt.alloc();
    assert!(rt; is_short(alloc, 6, &[255, 255, 255, 255], 23));
    assert!(rt; is_short(alloc, 16, &[255, 255, 255, 255], 23));
    assert!(rt; is_short(alloc, 15, &[0, 255, 255, 255, 255], 24));
    assert!(rt; is_short(alloc, 7, &[255, 255, 255, 255], 23));
    assert_eq!(rt;
        fault(alloc, &[255; 4]),
        Some(CodecFault::BadLength { at: 0 })
    );
}

// Whether a tag and these fields of an operation on `a` end where a field is missing.
fn is_short(alloc: Global, tag: u8, fields: &[u8], at: u64) -> bool {
    match payload_of(alloc, tag, fields) {
        Ok(bytes) => fault(alloc, &bytes) == Some(CodecFault::Short { at }),
        Err(_) => false,
    }
}
