use crate::{Cursor, at_or_after, order};
use fs_names::{Oid, decode_oid};
use std::alloc::Global;
use std::cmp::Ordering;
use std::process::Abort;
use std::test::Fail;

fn object(alloc: Global, text: &str) -> Result<Oid, Fail> {
    Ok(decode_oid(alloc, text.as_bytes())?)
}

/// The first text comes before the second.
fn comes_first(rt: &impl Abort, alloc: Global, first: &str, second: &str) -> Result<(), Fail> {
    let a = object(alloc, first)?;
    let b = object(alloc, second)?;
    assert!(rt; order(&a, &b) == Ordering::Less, "{first} {second}");
    assert!(rt; order(&b, &a) == Ordering::Greater, "{second} {first}");
    assert!(rt; order(&a, &a) == Ordering::Equal, "{first}");
    Ok(())
}

#[test]
fn objects_come_by_the_digits_of_their_hashes_and_then_by_their_texts(
    rt: HostRuntime,
) -> Result<(), Fail> {
    let cases = [
        ("b__head_00000010__1", "a__head_00000001__1"),
        ("o16__head_00000010__1", "o1__head_00000001__1"),
        ("o0__head_00000000__1", "o16__head_00000010__1"),
        ("a__head_80000000__1", "a__head_00000001__1"),
        // `!` is below `_`, and `a` above it
        ("a!__head_00000001__1", "a__head_00000001__1"),
        ("a__head_00000001__1", "ab__head_00000001__1"),
        ("a_k1_head_00000001__1", "a_k_head_00000001__1"),
        // as bytes `/` is below `0`, as a text `\\s` is above it
        ("a0__head_00000001__1", "a\\s__head_00000001__1"),
        ("\\.a__head_00000001__1", "\\d__head_00000001__1"),
        ("\\d__head_00000001__1", "\\n__head_00000001__1"),
        ("\\x01__head_00000001__1", "\\x1f__head_00000001__1"),
        ("DIR__head_00000001__1", "\\d__head_00000001__1"),
        ("__head_00000001__1", "a__head_00000001__1"),
        ("A__head_00000001__1", "__head_00000001__1"),
        ("a__10_00000001__1", "a__1_00000001__1"),
        ("a__1_00000001__1", "a__1a_00000001__1"),
        ("a__ff_00000001__1", "a__head_00000001__1"),
        ("a__head_00000001__1", "a__snapdir_00000001__1"),
        ("a__head_00000001__1", "a__head_00000001_n_1"),
        ("a__head_00000001__1", "a__head_00000001__10"),
        ("a__head_00000001__ff", "a__head_00000001__none"),
    ];
    for (first, second) in cases {
        comes_first(&rt, rt.alloc(), first, second)?;
    }
    Ok(())
}

#[test]
fn a_listing_begins_at_its_cursor(rt: HostRuntime) -> Result<(), Fail> {
    let before = object(rt.alloc(), "b__head_00000010__1")?;
    let at = object(rt.alloc(), "a__head_00000001__1")?;
    assert!(rt; at_or_after(&before, &Cursor::Start));
    let cursor = Cursor::At(object(rt.alloc(), "a__head_00000001__1")?);
    assert!(rt; at_or_after(&at, &cursor));
    assert!(rt; !at_or_after(&before, &cursor));
    Ok(())
}
