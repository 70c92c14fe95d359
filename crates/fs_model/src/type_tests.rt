use super::trial_ops::{named, one};
use super::*;
use std::alloc::{AllocError, Global};
use std::test::Fail;

fn is_below(alloc: Global, a: &str, b: &str) -> Result<bool, AllocError> {
    let a = Blob::new(alloc, a.as_bytes())?;
    let b = Blob::new(alloc, b.as_bytes())?;
    Ok(a == a.clone()? && a < b)
}

#[test]
fn byte_lists_are_ordered_byte_by_byte(rt: HostRuntime) -> Result<(), Fail> {
    let alloc = rt.alloc();
    assert!(rt; is_below(alloc, "a", "b")?);
    assert!(rt; is_below(alloc, "a", "aa")?);
    assert!(rt; !is_below(alloc, "b", "aa")?);
    assert!(rt; !is_below(alloc, "a", "a")?);
    Ok(())
}

fn one_pair(alloc: Global) -> Result<PairList, AllocError> {
    let pair = Pair {
        key: Blob::new(alloc, b"k")?,
        value: Blob::new(alloc, b"v")?,
    };
    Ok(PairList::from_vec(one(alloc, pair)?))
}

#[test]
fn lists_give_their_vectors_back(rt: HostRuntime) -> Result<(), Fail> {
    let pairs = one_pair(rt.alloc())?;
    assert!(rt; pairs.slice().len() == 1);
    for pair in pairs.into_vec() {
        assert!(rt; pair.key.into_vec().as_slice() == b"k".as_slice());
        assert!(rt; pair.value.slice() == b"v".as_slice());
    }
    let oids = OidList::from_vec(one(rt.alloc(), named(rt.alloc(), "a")?)?);
    assert!(rt; oids.slice().len() == 1);
    Ok(())
}
