//! The order of two objects' texts, found without building them.
ghost use Rattle.std.specs.Prelude.{◌≡◌, ◌≤◌, length, take, slice_get};
ghost use Rattle.std.specs.Cmp.Lexicographic.{slice_cmp};
ghost use Rattle.std.specs.Ordering.{nat_cmp};
ghost use Rattle.std.specs.declared.cmp.Ordering.TheVariants.{Equal};
ghost use Rattle.fs_names.specs.Text.{field_text, name_text, hash_digits, oid_text};
ghost use Rattle.fs_names.specs.Order.{ended_cmp, ends_cmp, name_unit};

use crate::Oid;
use crate::short_text::ShortText;
use crate::unit::{Unit, are_bytes};
use std::cmp::Ordering;

/// The order of the texts of two objects with one hash.
pub(crate) fn order_texts(a: &Oid, b: &Oid) -> Ordering
    ensures { slice_cmp nat_cmp (hash_digits a.now.hash) (hash_digits b.now.hash) ≡ Equal →
        result ≡ slice_cmp nat_cmp (oid_text a.now) (oid_text b.now) }
{
    a.fits();
    b.fits();
    let name = order_names(a.name.bytes(), b.name.bytes());
    if name.is_ne() {
        return name;
    }
    let key = order_fields(a.key.bytes(), b.key.bytes());
    if key.is_ne() {
        return key;
    }
    order_ends(a, b)
}

/// The order of what follows the key, but for the hash.
fn order_ends(a: &Oid, b: &Oid) -> Ordering
    ensures { result ≡ ends_cmp a.now b.now }
{
    let snap = order_fields(
        ShortText::of_snap(a.snap).slice(),
        ShortText::of_snap(b.snap).slice(),
    );
    if snap.is_ne() {
        return snap;
    }
    let nspace = order_fields(a.nspace.bytes(), b.nspace.bytes());
    if nspace.is_ne() {
        return nspace;
    }
    let pool = ShortText::of_pool(a.pool);
    pool.slice().cmp(ShortText::of_pool(b.pool).slice())
}

/// The order of two names by their spellings, each ended by `_`.
fn order_names(a: &[u8], b: &[u8]) -> Ordering
    ensures { result ≡ ended_cmp (name_text a.now) (name_text b.now) }
{
    are_bytes(a);
    are_bytes(b);
    let start = name_unit(a).slice().cmp(name_unit(b).slice());
    if start.is_ne() {
        return start;
    }
    order_fields(a, b)
}

/// The first unit of a name's spelling, or `_`.
fn name_unit(name: &[u8]) -> Unit
    ensures { result ≡ name_unit name.now }
{
    if name.starts_with(b"DIR_") {
        Unit::letter(b'd')
    } else if name.starts_with(b".") {
        Unit::letter(b'.')
    } else {
        Unit::at(name, 0)
    }
}

/// The order of two fields by their spellings, each ended by `_`.
fn order_fields(a: &[u8], b: &[u8]) -> Ordering
    ensures { result ≡ ended_cmp (field_text a.now) (field_text b.now) }
{
    are_bytes(a);
    are_bytes(b);
    let place = first_difference(a, b);
    Unit::at(a, place).slice().cmp(Unit::at(b, place).slice())
}

/// The first place where two lists differ, or the end of the shorter.
#[tactic(auto, using(crate::proofs::Loops::differs_there, crate::proofs::Loops::same_to_end, crate::proofs::Loops::take_both))]
fn first_difference(a: &[u8], b: &[u8]) -> usize
    ensures same { take result a.now ≡ take result b.now }
    ensures first { result ≤ length a.now }
    ensures second { result ≤ length b.now }
    ensures differs { slice_get a.now result ≡ slice_get b.now result → a.now ≡ b.now }
{
    let shared = a.len().min(b.len());
    for place in 0..shared {
        if a[place] != b[place] {
            return place;
        }
    }
    shared
}
