ghost use Rattle.std.specs.Prelude.{◌≡◌, ◌≢◌, ◌+◌, ◌≤◌, ◌<◌, ◌^◌, ℕ, List, if◌then◌else◌, nat_lt, length, Ok, Err, IfOk, IfErr, IfSome, IfNone, OnOk, IsOk};
ghost use Rattle.std.specs.Result.{IsOkAnd};
ghost use Rattle.fs_names.specs.Reading.{oid_of, oid_of_six, names_of, snap_of, hash_of, pool_of};
ghost use Rattle.fs_names.specs.Units.{name_of, field_of};

use crate::hash::upper_value;
use crate::split::split_once;
use crate::units::{count_name, count_units, push_name, push_units};
use crate::{Name, NameFault, Oid, Snap, hexadecimal};
use std::alloc::{AllocError, Global};

/// The six fields of an object's text.
#[derive(Clone, Copy)]
struct Fields<'a> {
    name: &'a [u8],
    key: &'a [u8],
    snap: &'a [u8],
    hash: &'a [u8],
    nspace: &'a [u8],
    pool: &'a [u8],
}

/// What an object's text says beside the names.
#[derive(Clone, Copy)]
struct Values {
    counts: Counts,
    snap: Snap,
    hash: u32,
    pool: Option<u64>,
}

/// How many bytes the name, the key and the namespace have.
#[derive(Clone, Copy)]
struct Counts {
    name: usize,
    key: usize,
    nspace: usize,
}

/// The object that a text names.
///
/// Refuses, in this order: a text without exactly six fields (`BadField` 6); the first place in the name, the key or the
/// namespace where something begins that spells no byte there (`BadEscape`); the lowest of them that is too long
/// (`TooLong` 0, 1 or 4); the lowest other field that is no spelling (`BadField` 2, 3 or 5); for want of memory.
pub fn decode_oid(alloc: Global, text: &[u8]) -> Result<Oid, NameFault>
    ensures ok { IfOk result (λ oid. oid_of text.now ≡ Ok oid) }
    ensures fault { IfErr result (λ fault. fault ≢ NameFault.Memory → oid_of text.now ≡ Err fault) }
    ensures memory { result ≡ Err NameFault.Memory → IsOk (oid_of text.now) }
{
    match split_fields(text) {
        Some(fields) => read_fields(alloc, &fields),
        None => Err(NameFault::BadField { n: 6 }),
    }
}

/// The fields of a text that has exactly six.
fn split_fields(text: &[u8]) -> Option<Fields<'_>>
    ensures none { IfNone result (oid_of text.now ≡ Err (NameFault.BadField 6)) }
    ensures six { IfSome result (λ f. oid_of text.now
        ≡ oid_of_six f.name.now f.key.now f.snap.now f.hash.now f.nspace.now f.pool.now) }
    ensures short { IfSome result (λ f. length f.name.now + length f.key.now + length f.snap.now + length f.hash.now
        + length f.nspace.now + 5 ≤ length text.now) }
{
    let (name, rest) = split_once(text, b'_')?;
    let (key, rest) = split_once(rest, b'_')?;
    let (snap, rest) = split_once(rest, b'_')?;
    let (hash, rest) = split_once(rest, b'_')?;
    let (nspace, pool) = split_once(rest, b'_')?;
    if split_once(pool, b'_').is_some() {
        return None;
    }
    Some(Fields {
        name,
        key,
        snap,
        hash,
        nspace,
        pool,
    })
}

/// The object of these fields, with the faults in their order.
fn read_fields(alloc: Global, fields: &Fields<'_>) -> Result<Oid, NameFault>
    requires { let f = fields.now in
        length f.name.now + length f.key.now + length f.snap.now + length f.hash.now + length f.nspace.now + 5 < 2 ^ 64 }
    ensures ok { let f = fields.now in
        IfOk result (λ oid. oid_of_six f.name.now f.key.now f.snap.now f.hash.now f.nspace.now f.pool.now ≡ Ok oid) }
    ensures fault { let f = fields.now in
        IfErr result (λ fault. fault ≢ NameFault.Memory
        → oid_of_six f.name.now f.key.now f.snap.now f.hash.now f.nspace.now f.pool.now ≡ Err fault) }
    ensures memory { let f = fields.now in
        result ≡ Err NameFault.Memory
        → IsOk (oid_of_six f.name.now f.key.now f.snap.now f.hash.now f.nspace.now f.pool.now) }
{
    let values = read_values(fields)?;
    Ok(Oid {
        name: read_name(alloc, fields.name, values.counts.name)?,
        key: read_field(alloc, fields.key, values.counts.key)?,
        nspace: read_field(alloc, fields.nspace, values.counts.nspace)?,
        snap: values.snap,
        hash: values.hash,
        pool: values.pool,
    })
}

/// The name of this many bytes that a text spells.
fn read_name(alloc: Global, text: &[u8], count: usize) -> Result<Name, AllocError>
    requires { IsOkAnd (name_of text.now) (λ name. length name ≤ 1024) }
    ensures { IfOk result (λ name. name_of text.now ≡ Ok name) }
{
    let mut bytes = Vec::with_capacity(alloc, count)?;
    push_name(&mut bytes, text)?;
    Ok(Name::of(bytes))
}

/// The key or namespace of this many bytes that a text spells.
fn read_field(alloc: Global, text: &[u8], count: usize) -> Result<Name, AllocError>
    requires { IsOkAnd (field_of 0 text.now) (λ field. length field ≤ 1024) }
    ensures { IfOk result (λ field. field_of 0 text.now ≡ Ok field) }
{
    let mut bytes = Vec::with_capacity(alloc, count)?;
    push_units(&mut bytes, text)?;
    Ok(Name::of(bytes))
}

/// What these fields say beside the bytes of the name, key and namespace.
fn read_values(fields: &Fields<'_>) -> Result<Values, NameFault>
    requires { let f = fields.now in
        length f.name.now + length f.key.now + length f.snap.now + length f.hash.now + length f.nspace.now + 5 < 2 ^ 64 }
    ensures name { OnOk result (IsOkAnd (name_of fields.now.name.now) (λ name. length name ≤ 1024)) }
    ensures key { OnOk result (IsOkAnd (field_of 0 fields.now.key.now) (λ key. length key ≤ 1024)) }
    ensures nspace { OnOk result (IsOkAnd (field_of 0 fields.now.nspace.now) (λ nspace. length nspace ≤ 1024)) }
    ensures ok { let f = fields.now in
        IfOk result (λ v. (n k s : List ℕ) → name_of f.name.now ≡ Ok n → field_of 0 f.key.now ≡ Ok k → field_of 0 f.nspace.now ≡ Ok s
        → oid_of_six f.name.now f.key.now f.snap.now f.hash.now f.nspace.now f.pool.now
        ≡ Ok (record { name = n; key = k; nspace = s; snap = v.snap; hash = v.hash; pool = v.pool })) }
    ensures fault { let f = fields.now in
        IfErr result (λ fault. oid_of_six f.name.now f.key.now f.snap.now f.hash.now f.nspace.now f.pool.now ≡ Err fault) }
    ensures never { result ≢ Err NameFault.Memory }
{
    let counts = match count_names(fields) {
        Ok(counts) => counts,
        Err(fault) => return Err(fault),
    };
    let Some(snap) = read_snap(fields.snap) else {
        return Err(NameFault::BadField { n: 2 });
    };
    let Some(hash) = read_hash(fields.hash) else {
        return Err(NameFault::BadField { n: 3 });
    };
    let Some(pool) = read_pool(fields.pool) else {
        return Err(NameFault::BadField { n: 5 });
    };
    Ok(Values {
        counts,
        snap,
        hash,
        pool,
    })
}

/// How long the name, key and namespace are, unless one is none.
fn count_names(fields: &Fields<'_>) -> Result<Counts, NameFault>
    requires { let f = fields.now in
        length f.name.now + length f.key.now + length f.snap.now + length f.hash.now + length f.nspace.now + 5 < 2 ^ 64 }
    ensures never { result ≢ Err NameFault.Memory }
    ensures ok { let f = fields.now in OnOk result (IsOk (names_of f.name.now f.key.now f.snap.now f.hash.now f.nspace.now)) }
    ensures fault { let f = fields.now in
        IfErr result (λ fault. names_of f.name.now f.key.now f.snap.now f.hash.now f.nspace.now ≡ Err fault) }
{
    let key_at = fields.name.len() + 1;
    let nspace_at = key_at + fields.key.len() + 1 + fields.snap.len() + 1 + fields.hash.len() + 1;
    let name = count_name(fields.name)?;
    let key = count_units(key_at, fields.key)?;
    let nspace = count_units(nspace_at, fields.nspace)?;
    within_limit(0, name)?;
    within_limit(1, key)?;
    within_limit(4, nspace)?;
    Ok(Counts { name, key, nspace })
}

/// A field has at most 1,024 bytes.
fn within_limit(field: u8, count: usize) -> Result<(), NameFault>
    ensures { result ≡ (if nat_lt 1024 count then Err (NameFault.TooLong field) else Ok tt) }
{
    if count > 1024 {
        return Err(NameFault::TooLong { field });
    }
    Ok(())
}

/// The hash that eight upper-case digits spell.
fn read_hash(text: &[u8]) -> Option<u32>
    ensures { result ≡ hash_of text.now }
{
    if text.len() != 8 {
        return None;
    }
    let mut hash = 0u32;
    for byte in text {
        let Some(digit) = upper_value(*byte) else {
            return None;
        };
        hash = hash * 16 + digit;
    }
    Some(hash)
}

fn read_snap(text: &[u8]) -> Option<Snap>
    ensures { result ≡ snap_of text.now }
{
    if text == b"head".as_slice() {
        return Some(Snap::Head);
    }
    if text == b"snapdir".as_slice() {
        return Some(Snap::Dir);
    }
    Some(Snap::Id(hexadecimal(text)?))
}

fn read_pool(text: &[u8]) -> Option<Option<u64>>
    ensures { result ≡ pool_of text.now }
{
    if text == b"none".as_slice() {
        return Some(None);
    }
    Some(Some(hexadecimal(text)?))
}
