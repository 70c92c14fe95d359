//! Operations, spelled one after the other.
ghost use Rattle.std.specs.Prelude.{◌≡◌, ◌≤◌, ◌<◌, ◌^◌, ◌∷◌, ◌++◌, length, OnOk, IfOk, IfSome};
ghost use Rattle.std.specs.List.{AllByRecursion};
ghost use Rattle.fs_names.specs.Reading.{CollFits, OidFits, SnapFits};
ghost use Rattle.fs_names.specs.Names.{IsName};
ghost use Rattle.fs_model.specs.Limits.{ops_limit};
ghost use Rattle.txn_codec.specs.Spelling.{sized, flag, coll, snap, pool, oid, object, count8, blob, pair, header, counted, op, payload, BlobFits, PairFits, AllFit, HeaderFits, ObjectFits, OpFits, OpsFit, IsShort};

use crate::tags::{
    CLONE, CLONE_RANGE, MK_COLL, MOVE_RENAME, OMAP_CLEAR, OMAP_RANGE, OMAP_REMOVE, OMAP_SET,
    REMOVE, RM_ATTR, RM_ATTRS, RM_COLL, SET_ATTRS, TOUCH, TRUNCATE, WRITE, ZERO,
};
use fs_model::{Blob, BlobList, Op, Pair, PairList, Txn};
use fs_names::{Coll, Name, Oid, Snap};
use std::alloc::{AllocError, Global};

fn put_flag(out: &mut Vec<u8>, set: bool) -> Result<(), AllocError>
    ensures { OnOk result (out.new.items ≡ out.old.items ++ flag set) }
{
    out.push(if set { 1 } else { 0 })?;
    Ok(())
}

fn put_coll(out: &mut Vec<u8>, c: &Coll) -> Result<(), AllocError>
    ensures spelled { OnOk result (out.new.items ≡ out.old.items ++ coll c.now) }
    ensures fits { OnOk result (CollFits c.now) }
{
    match c {
        Coll::Meta => out.push(0)?,
        Coll::Pg { pool, seed, temp } => {
            out.push(1)?;
            out.extend_from_slice(&pool.to_be_bytes())?;
            out.extend_from_slice(&seed.to_be_bytes())?;
            put_flag(out, *temp)?;
        }
    }
    Ok(())
}

fn put_name(out: &mut Vec<u8>, name: &Name) -> Result<(), AllocError>
    ensures spelled { OnOk result (out.new.items ≡ out.old.items ++ sized 2 name.now) }
    ensures fits { IsName name.now }
{
    let bytes = name.bytes();
    out.extend_from_slice(&(bytes.len() as u16).to_be_bytes())?;
    out.extend_from_slice(bytes)
}

fn put_snap(out: &mut Vec<u8>, s: Snap) -> Result<(), AllocError>
    ensures spelled { OnOk result (out.new.items ≡ out.old.items ++ snap s) }
    ensures fits { SnapFits s }
{
    match s {
        Snap::Head => out.push(0)?,
        Snap::Dir => out.push(1)?,
        Snap::Id(id) => {
            out.push(2)?;
            out.extend_from_slice(&id.to_be_bytes())?;
        }
    }
    Ok(())
}

fn put_pool(out: &mut Vec<u8>, p: Option<u64>) -> Result<(), AllocError>
    ensures spelled { OnOk result (out.new.items ≡ out.old.items ++ pool p) }
    ensures fits { IfSome p (λ id. id < 2 ^ 64) }
{
    match p {
        None => out.push(0)?,
        Some(id) => {
            out.push(1)?;
            out.extend_from_slice(&id.to_be_bytes())?;
        }
    }
    Ok(())
}

fn put_oid(out: &mut Vec<u8>, o: &Oid) -> Result<(), AllocError>
    ensures spelled { OnOk result (out.new.items ≡ out.old.items ++ oid o.now) }
    ensures fits { OnOk result (OidFits o.now) }
{
    put_name(out, &o.name)?;
    put_name(out, &o.key)?;
    put_name(out, &o.nspace)?;
    put_snap(out, o.snap)?;
    out.extend_from_slice(&o.hash.to_be_bytes())?;
    put_pool(out, o.pool)?;
    Ok(())
}

fn put_blob(out: &mut Vec<u8>, bytes: &Blob) -> Result<(), AllocError>
    requires { BlobFits bytes.now }
    ensures { OnOk result (out.new.items ≡ out.old.items ++ blob bytes.now) }
{
    let bytes = bytes.slice();
    out.extend_from_slice(&(bytes.len() as u32).to_be_bytes())?;
    out.extend_from_slice(bytes)
}

fn put_u64(out: &mut Vec<u8>, n: u64) -> Result<(), AllocError>
    ensures { OnOk result (out.new.items ≡ out.old.items ++ count8 n) }
{
    out.extend_from_slice(&n.to_be_bytes())
}

fn put_pair(out: &mut Vec<u8>, p: &Pair) -> Result<(), AllocError>
    requires { PairFits p.now }
    ensures { OnOk result (out.new.items ≡ out.old.items ++ pair p.now) }
{
    put_blob(out, &p.key)?;
    put_blob(out, &p.value)?;
    Ok(())
}

fn put_pairs(out: &mut Vec<u8>, pairs: &PairList) -> Result<(), AllocError>
    requires { AllFit PairFits pairs.now }
    ensures { OnOk result (out.new.items ≡ out.old.items ++ counted pair pairs.now) }
{
    let pairs = pairs.slice();
    out.extend_from_slice(&(pairs.len() as u32).to_be_bytes())?;
    for p in pairs {
        put_pair(out, p)?;
    }
    Ok(())
}

fn put_blobs(out: &mut Vec<u8>, blobs: &BlobList) -> Result<(), AllocError>
    requires { AllFit BlobFits blobs.now }
    ensures { OnOk result (out.new.items ≡ out.old.items ++ counted blob blobs.now) }
{
    let blobs = blobs.slice();
    out.extend_from_slice(&(blobs.len() as u32).to_be_bytes())?;
    for bytes in blobs {
        put_blob(out, bytes)?;
    }
    Ok(())
}

fn put_header(out: &mut Vec<u8>, h: &Option<Blob>) -> Result<(), AllocError>
    requires { HeaderFits h.now }
    ensures { OnOk result (out.new.items ≡ out.old.items ++ header h.now) }
{
    match h {
        None => out.push(0)?,
        Some(bytes) => {
            out.push(1)?;
            put_blob(out, bytes)?;
        }
    }
    Ok(())
}

fn put_object(out: &mut Vec<u8>, c: &Coll, o: &Oid) -> Result<(), AllocError>
    ensures spelled { OnOk result (out.new.items ≡ out.old.items ++ object c.now o.now) }
    ensures fits { OnOk result (ObjectFits c.now o.now) }
{
    put_coll(out, c)?;
    put_oid(out, o)?;
    Ok(())
}

// The tag of an operation on an object, and the object.
fn put_head(out: &mut Vec<u8>, tag: u8, c: &Coll, o: &Oid) -> Result<(), AllocError>
    ensures spelled { OnOk result (out.new.items ≡ out.old.items ++ tag ∷ object c.now o.now) }
    ensures fits { OnOk result (ObjectFits c.now o.now) }
{
    out.push(tag)?;
    put_object(out, c, o)?;
    Ok(())
}

// The tag of an operation on two objects, and the objects.
fn put_two(
    out: &mut Vec<u8>,
    tag: u8,
    c: &Coll,
    o: &Oid,
    c2: &Coll,
    o2: &Oid,
) -> Result<(), AllocError>
    ensures spelled { OnOk result (out.new.items ≡ out.old.items ++ tag ∷ (object c.now o.now ++ object c2.now o2.now)) }
    ensures fits { OnOk result (ObjectFits c.now o.now × ObjectFits c2.now o2.now) }
{
    put_head(out, tag, c, o)?;
    put_object(out, c2, o2)?;
    Ok(())
}

fn put_coll_op(out: &mut Vec<u8>, tag: u8, c: &Coll) -> Result<(), AllocError>
    ensures spelled { OnOk result (out.new.items ≡ out.old.items ++ tag ∷ coll c.now) }
    ensures fits { OnOk result (CollFits c.now) }
{
    out.push(tag)?;
    put_coll(out, c)?;
    Ok(())
}

fn put_two_blobs(out: &mut Vec<u8>, a: &Blob, b: &Blob) -> Result<(), AllocError>
    requires { BlobFits a.now × BlobFits b.now }
    ensures { OnOk result (out.new.items ≡ out.old.items ++ (blob a.now ++ blob b.now)) }
{
    put_blob(out, a)?;
    put_blob(out, b)?;
    Ok(())
}

// Two numbers of 8 bytes.
fn put_two_numbers(out: &mut Vec<u8>, a: u64, b: u64) -> Result<(), AllocError>
    ensures { OnOk result (out.new.items ≡ out.old.items ++ (count8 a ++ count8 b)) }
{
    put_u64(out, a)?;
    put_u64(out, b)?;
    Ok(())
}

// Three numbers of 8 bytes.
fn put_three_numbers(out: &mut Vec<u8>, a: u64, b: u64, c: u64) -> Result<(), AllocError>
    ensures { OnOk result (out.new.items ≡ out.old.items ++ (count8 a ++ (count8 b ++ count8 c))) }
{
    put_u64(out, a)?;
    put_two_numbers(out, b, c)?;
    Ok(())
}

// A place, and the bytes from there on.
fn put_bytes_at(out: &mut Vec<u8>, at: u64, bytes: &Blob) -> Result<(), AllocError>
    requires { BlobFits bytes.now }
    ensures { OnOk result (out.new.items ≡ out.old.items ++ (count8 at ++ blob bytes.now)) }
{
    put_u64(out, at)?;
    put_blob(out, bytes)?;
    Ok(())
}

fn put_write(out: &mut Vec<u8>, c: &Coll, o: &Oid, at: u64, bytes: &Blob) -> Result<(), AllocError>
    requires { BlobFits bytes.now }
    ensures spelled { OnOk result (out.new.items ≡ out.old.items ++ op (Op.Write c.now o.now at bytes.now)) }
    ensures fits { OnOk result (OpFits (Op.Write c.now o.now at bytes.now)) }
{
    put_head(out, WRITE, c, o)?;
    put_bytes_at(out, at, bytes)
}

fn put_zero(out: &mut Vec<u8>, c: &Coll, o: &Oid, at: u64, len: u64) -> Result<(), AllocError>
    ensures spelled { OnOk result (out.new.items ≡ out.old.items ++ op (Op.Zero c.now o.now at len)) }
    ensures fits { OnOk result (OpFits (Op.Zero c.now o.now at len)) }
{
    put_head(out, ZERO, c, o)?;
    put_two_numbers(out, at, len)
}

fn put_truncate(out: &mut Vec<u8>, c: &Coll, o: &Oid, len: u64) -> Result<(), AllocError>
    ensures spelled { OnOk result (out.new.items ≡ out.old.items ++ op (Op.Truncate c.now o.now len)) }
    ensures fits { OnOk result (OpFits (Op.Truncate c.now o.now len)) }
{
    put_head(out, TRUNCATE, c, o)?;
    put_u64(out, len)
}

fn put_set_attrs(out: &mut Vec<u8>, c: &Coll, o: &Oid, pairs: &PairList) -> Result<(), AllocError>
    requires { AllFit PairFits pairs.now }
    ensures spelled { OnOk result (out.new.items ≡ out.old.items ++ op (Op.SetAttrs c.now o.now pairs.now)) }
    ensures fits { OnOk result (OpFits (Op.SetAttrs c.now o.now pairs.now)) }
{
    put_head(out, SET_ATTRS, c, o)?;
    put_pairs(out, pairs)
}

fn put_rm_attr(out: &mut Vec<u8>, c: &Coll, o: &Oid, name: &Blob) -> Result<(), AllocError>
    requires { BlobFits name.now }
    ensures spelled { OnOk result (out.new.items ≡ out.old.items ++ op (Op.RmAttr c.now o.now name.now)) }
    ensures fits { OnOk result (OpFits (Op.RmAttr c.now o.now name.now)) }
{
    put_head(out, RM_ATTR, c, o)?;
    put_blob(out, name)
}

fn put_clone_range(
    out: &mut Vec<u8>,
    c: &Coll,
    o: &Oid,
    c2: &Coll,
    o2: &Oid,
    range: (u64, u64, u64),
) -> Result<(), AllocError>
    ensures spelled { OnOk result (out.new.items ≡ out.old.items ++ op (Op.CloneRange c.now o.now c2.now o2.now range.0 range.1 range.2)) }
    ensures fits { OnOk result (OpFits (Op.CloneRange c.now o.now c2.now o2.now range.0 range.1 range.2)) }
{
    let (from, len, to) = range;
    put_two(out, CLONE_RANGE, c, o, c2, o2)?;
    put_three_numbers(out, from, len, to)
}

fn put_omap_set(
    out: &mut Vec<u8>,
    c: &Coll,
    o: &Oid,
    h: &Option<Blob>,
    pairs: &PairList,
) -> Result<(), AllocError>
    requires { HeaderFits h.now × AllFit PairFits pairs.now }
    ensures spelled { OnOk result (out.new.items ≡ out.old.items ++ op (Op.OmapSet c.now o.now h.now pairs.now)) }
    ensures fits { OnOk result (OpFits (Op.OmapSet c.now o.now h.now pairs.now)) }
{
    put_head(out, OMAP_SET, c, o)?;
    put_header(out, h)?;
    put_pairs(out, pairs)
}

fn put_omap_remove(out: &mut Vec<u8>, c: &Coll, o: &Oid, keys: &BlobList) -> Result<(), AllocError>
    requires { AllFit BlobFits keys.now }
    ensures spelled { OnOk result (out.new.items ≡ out.old.items ++ op (Op.OmapRemove c.now o.now keys.now)) }
    ensures fits { OnOk result (OpFits (Op.OmapRemove c.now o.now keys.now)) }
{
    put_head(out, OMAP_REMOVE, c, o)?;
    put_blobs(out, keys)
}

fn put_omap_range(
    out: &mut Vec<u8>,
    c: &Coll,
    o: &Oid,
    from: &Blob,
    to: &Blob,
) -> Result<(), AllocError>
    requires { BlobFits from.now × BlobFits to.now }
    ensures spelled { OnOk result (out.new.items ≡ out.old.items ++ op (Op.OmapRange c.now o.now from.now to.now)) }
    ensures fits { OnOk result (OpFits (Op.OmapRange c.now o.now from.now to.now)) }
{
    put_head(out, OMAP_RANGE, c, o)?;
    put_two_blobs(out, from, to)
}

fn put_op(out: &mut Vec<u8>, operation: &Op) -> Result<(), AllocError>
    requires { IsShort operation.now }
    ensures spelled { OnOk result (out.new.items ≡ out.old.items ++ op operation.now) }
    ensures fits { OnOk result (OpFits operation.now) }
{
    match operation {
        Op::Touch { c, o } => put_head(out, TOUCH, c, o),
        Op::Write { c, o, at, bytes } => put_write(out, c, o, *at, bytes),
        Op::Zero { c, o, at, len } => put_zero(out, c, o, *at, *len),
        Op::Truncate { c, o, len } => put_truncate(out, c, o, *len),
        Op::Remove { c, o } => put_head(out, REMOVE, c, o),
        Op::SetAttrs { c, o, pairs } => put_set_attrs(out, c, o, pairs),
        Op::RmAttr { c, o, name } => put_rm_attr(out, c, o, name),
        Op::RmAttrs { c, o } => put_head(out, RM_ATTRS, c, o),
        Op::Clone { c, o, c2, o2 } => put_two(out, CLONE, c, o, c2, o2),
        Op::CloneRange {
            c,
            o,
            c2,
            o2,
            from,
            len,
            to,
        } => put_clone_range(out, c, o, c2, o2, (*from, *len, *to)),
        Op::MoveRename { c, o, c2, o2 } => put_two(out, MOVE_RENAME, c, o, c2, o2),
        Op::MkColl { c } => put_coll_op(out, MK_COLL, c),
        Op::RmColl { c } => put_coll_op(out, RM_COLL, c),
        Op::OmapClear { c, o } => put_head(out, OMAP_CLEAR, c, o),
        Op::OmapSet {
            c,
            o,
            header,
            pairs,
        } => put_omap_set(out, c, o, header, pairs),
        Op::OmapRemove { c, o, keys } => put_omap_remove(out, c, o, keys),
        Op::OmapRange { c, o, from, to } => put_omap_range(out, c, o, from, to),
    }
}

/// The one spelling of a transaction.
pub fn encode_txn(alloc: Global, txn: &Txn) -> Result<Blob, AllocError>
    requires few { length txn.now.ops ≤ ops_limit }
    requires short { AllByRecursion IsShort txn.now.ops }
    ensures spelled { IfOk result (λ blob. blob ≡ payload txn.now.ops) }
    ensures fits { OnOk result (OpsFit txn.now.ops) }
{
    let ops = txn.ops.slice();
    let mut out = Vec::new(alloc);
    out.extend_from_slice(&(ops.len() as u32).to_be_bytes())?;
    for operation in ops {
        put_op(&mut out, operation)?;
    }
    Ok(Blob::from_vec(out))
}
