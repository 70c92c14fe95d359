//! Which operations have a fault of their own, whatever is there.
ghost use Rattle.std.specs.Prelude.{◌≡◌, ◌+◌, ◌&&◌, nat_lt, length, []};
ghost use Rattle.std.specs.List.{list_any};
ghost use Rattle.std.specs.Ordering.{eq_by_cmp};
ghost use Rattle.fs_names.specs.Order.{coll_cmp, oid_cmp};
ghost use Rattle.std.specs.Option.{unwrap_or};
ghost use Rattle.fs_model.specs.Check.{bad_attr, bad_attr_name, big_key, big_pair, is_unfit, same_object, too_big};
ghost use Rattle.fs_model.specs.Limits.{object_limit, value_limit};

use crate::{Blob, Op, Pair};
use fs_names::{Coll, Oid};

/// The most bytes that an object may have.
pub const OBJECT_BYTES: u64 = 16_777_216;

/// The most bytes that one write may have.
pub const WRITE_BYTES: usize = 4_194_304;

/// The most operations that a transaction may have.
pub const TXN_OPS: usize = 4_096;

/// The most bytes of an attribute's name, which isn't empty.
pub const ATTR_NAME_BYTES: usize = 255;

/// The most bytes of an attribute's value, of an omap value and of an omap header.
pub const VALUE_BYTES: usize = 65_536;

/// The most bytes of an omap key.
pub const OMAP_KEY_BYTES: usize = 1_024;

/// The most attributes, pairs or keys of one operation.
pub const OP_PAIRS: usize = 65_536;

impl Op {
    /// Whether the operation copies or moves an object onto itself.
    pub fn is_onto_itself(&self) -> bool
        ensures { result ≡ same_object self.now }
    {
        match self {
            Op::Clone { c, o, c2, o2 }
            | Op::CloneRange { c, o, c2, o2, .. }
            | Op::MoveRename { c, o, c2, o2 } => is_same(c, o, c2, o2),
            _ => false,
        }
    }

    /// Whether a quantity of the operation is above its limit, or an attribute's name is empty.
    pub fn is_too_big(&self) -> bool
        ensures { result ≡ too_big self.now }
    {
        match self {
            Op::Write { at, bytes, .. } => {
                let len = bytes.slice().len();
                passes_the_end(*at, len as u64) || len > WRITE_BYTES
            }
            Op::Zero { at, len, .. } => passes_the_end(*at, *len),
            Op::Truncate { len, .. } => *len > OBJECT_BYTES,
            Op::SetAttrs { pairs, .. } => pairs.slice().len() > OP_PAIRS
                || any_bad_attr(pairs.slice()),
            Op::RmAttr { name, .. } => is_bad_attr_name(name),
            Op::CloneRange { from, len, to, .. } => {
                passes_the_end(*from, *len) || passes_the_end(*to, *len)
            }
            Op::OmapSet { header, pairs, .. } => {
                is_big_header(header)
                    || pairs.slice().len() > OP_PAIRS
                    || any_big_pair(pairs.slice())
            }
            Op::OmapRemove { keys, .. } => keys.slice().len() > OP_PAIRS
                || any_big_key(keys.slice()),
            Op::OmapRange { from, to, .. } => is_big_key(from) || is_big_key(to),
            _ => false,
        }
    }

    /// Whether the operation has a fault of its own, whatever collections are there.
    pub fn is_unfit(&self) -> bool
        ensures { result ≡ is_unfit self.now }
    {
        self.is_onto_itself() || self.is_too_big()
    }
}

// Whether so many bytes from a place on pass the most that an object may have.
fn passes_the_end(at: u64, len: u64) -> bool
    ensures { result ≡ nat_lt object_limit (at + len) }
{
    at > OBJECT_BYTES || len > OBJECT_BYTES - at
}

fn is_bad_attr_name(name: &Blob) -> bool
    ensures { result ≡ bad_attr_name name.now }
{
    name.slice().is_empty() || name.slice().len() > ATTR_NAME_BYTES
}

fn is_bad_attr(pair: &Pair) -> bool
    ensures { result ≡ bad_attr pair.now }
{
    is_bad_attr_name(&pair.key) || pair.value.slice().len() > VALUE_BYTES
}

fn is_big_key(key: &Blob) -> bool
    ensures { result ≡ big_key key.now }
{
    key.slice().len() > OMAP_KEY_BYTES
}

fn is_big_pair(pair: &Pair) -> bool
    ensures { result ≡ big_pair pair.now }
{
    is_big_key(&pair.key) || pair.value.slice().len() > VALUE_BYTES
}

fn is_big_header(header: &Option<Blob>) -> bool
    ensures { result ≡ nat_lt value_limit (length (unwrap_or header.now [])) }
{
    match header {
        None => false,
        Some(header) => header.slice().len() > VALUE_BYTES,
    }
}

fn any_bad_attr(pairs: &[Pair]) -> bool
    ensures { result ≡ list_any bad_attr pairs.now }
{
    pairs.iter().any(|pair| is_bad_attr(pair))
}

fn any_big_pair(pairs: &[Pair]) -> bool
    ensures { result ≡ list_any big_pair pairs.now }
{
    pairs.iter().any(|pair| is_big_pair(pair))
}

fn any_big_key(keys: &[Blob]) -> bool
    ensures { result ≡ list_any big_key keys.now }
{
    keys.iter().any(|key| is_big_key(key))
}

// Whether two objects are one.
#[tactic(auto, using(crate::proofs::Maps::coll_ties))]
fn is_same(c: &Coll, o: &Oid, c2: &Coll, o2: &Oid) -> bool
    ensures { result ≡ (eq_by_cmp coll_cmp c.now c2.now && eq_by_cmp oid_cmp o.now o2.now) }
{
    let colls = c == c2;
    let names = o == o2;
    colls && names
}
