ghost use Rattle.std.specs.Prelude.{◌≡◌, ℕ};
ghost use Rattle.std.specs.List.{list_any};
ghost use Rattle.fs_names.specs.declared.coll.Coll.{Coll};
ghost use Rattle.fs_names.specs.declared.oid.Oid.{Oid};
ghost use Rattle.fs_cells.specs.Actions.{act_of, kind};
ghost use Rattle.fs_cells.specs.Parts.{touched, overwritten, resized, attrs_set, attr_removed, attrs_removed, omap_cleared, omap_set, omap_removed, omap_range_removed, copied, range_copied, same_bytes, is_within};

use crate::{Act, Cell, Part};
use fs_model::{Blob, Op, Pair};

/// What the operation does to the cell. It takes no memory.
#[tactic(auto, using(crate::proofs::Ties::kinds))]
pub fn action(op: &Op, cell: &Cell) -> Act
    ensures { result ≡ kind (act_of op.now cell.now) }
{
    let part = &cell.part;
    match op {
        Op::Touch { c, o } if cell.is_of(c, o) => touch(part),
        Op::Write { c, o, at, bytes } if cell.is_of(c, o) => {
            overwrite(*at, bytes.slice().len() as u64, part)
        }
        Op::Zero { c, o, at, len } if cell.is_of(c, o) => overwrite(*at, *len, part),
        Op::Truncate { c, o, len } if cell.is_of(c, o) => resize(*len, part),
        Op::Remove { c, o } if cell.is_of(c, o) => Act::Sets,
        Op::SetAttrs { c, o, pairs } if cell.is_of(c, o) => set_attrs(pairs.slice(), part),
        Op::RmAttr { c, o, name } if cell.is_of(c, o) => remove_attr(name, part),
        Op::RmAttrs { c, o } if cell.is_of(c, o) => remove_attrs(part),
        Op::Clone { c2, o2, .. } if cell.is_of(c2, o2) => copy(part),
        Op::CloneRange {
            c2,
            o2,
            len,
            to,
            ..
        } if cell.is_of(c2, o2) => copy_range(*len, *to, part),
        Op::MoveRename { c2, o2, .. } if cell.is_of(c2, o2) => copy(part),
        Op::MoveRename { c, o, .. } if cell.is_of(c, o) => Act::Sets,
        Op::RmColl { c } if cell.is_in(c) => Act::Sets,
        Op::OmapClear { c, o } if cell.is_of(c, o) => clear_omap(part),
        Op::OmapSet {
            c,
            o,
            header,
            pairs,
        } if cell.is_of(c, o) => set_omap(header, pairs.slice(), part),
        Op::OmapRemove { c, o, keys } if cell.is_of(c, o) => remove_keys(keys.slice(), part),
        Op::OmapRange { c, o, from, to } if cell.is_of(c, o) => remove_range(from, to, part),
        _ => Act::Leaves,
    }
}

// The object exists, and no other part changes.
fn touch(part: &Part) -> Act
    ensures { result ≡ kind (touched part.now) }
{
    match part {
        Part::Exists => Act::Sets,
        _ => Act::Leaves,
    }
}

#[tactic(auto, using(crate::proofs::Ties::kinds))]
fn overwrite(at: u64, len: u64, part: &Part) -> Act
    ensures { (byte : ℕ → ℕ) → result ≡ kind (overwritten at len byte part.now) }
{
    match part {
        Part::Exists => Act::Sets,
        Part::Length => if len > 0 { Act::Raises } else { Act::Leaves },
        Part::Byte(i) => if is_in(at, len, *i) {
            Act::Sets
        } else {
            Act::Leaves
        },
        _ => Act::Leaves,
    }
}

// Whether a place is among so many from another on, of which some may be past the last number.
#[tactic(auto, using(crate::proofs::Ties::in_place))]
fn is_in(at: u64, len: u64, place: u64) -> bool
    ensures { result ≡ is_within at len place }
{
    at <= place && place - at < len
}

#[tactic(auto, using(crate::proofs::Ties::kinds))]
fn resize(len: u64, part: &Part) -> Act
    ensures { result ≡ kind (resized len part.now) }
{
    match part {
        Part::Exists | Part::Length => Act::Sets,
        Part::Byte(i) => if len <= *i { Act::Sets } else { Act::Leaves },
        _ => Act::Leaves,
    }
}

#[tactic(auto, using(crate::proofs::Ties::kinds))]
fn set_attrs(pairs: &[Pair], part: &Part) -> Act
    ensures { result ≡ kind (attrs_set pairs.now part.now) }
{
    match part {
        Part::Exists => Act::Sets,
        Part::Attr(name) => if is_key(pairs, name) {
            Act::Sets
        } else {
            Act::Leaves
        },
        _ => Act::Leaves,
    }
}

fn is_key(pairs: &[Pair], key: &Blob) -> bool
    ensures { result ≡ list_any (λ p. same_bytes key.now p.key) pairs.now }
{
    pairs.iter().any(|pair| *key == pair.key)
}

#[tactic(auto, using(crate::proofs::Ties::kinds))]
fn remove_attr(name: &Blob, part: &Part) -> Act
    ensures { result ≡ kind (attr_removed name.now part.now) }
{
    match part {
        Part::Exists => Act::Sets,
        Part::Attr(other) => if *other == *name {
            Act::Sets
        } else {
            Act::Leaves
        },
        _ => Act::Leaves,
    }
}

fn remove_attrs(part: &Part) -> Act
    ensures { result ≡ kind (attrs_removed part.now) }
{
    match part {
        Part::Exists | Part::Attr(_) => Act::Sets,
        _ => Act::Leaves,
    }
}

fn clear_omap(part: &Part) -> Act
    ensures { result ≡ kind (omap_cleared part.now) }
{
    match part {
        Part::Exists | Part::OmapHeader | Part::OmapKey(_) => Act::Sets,
        _ => Act::Leaves,
    }
}

#[tactic(auto, using(crate::proofs::Ties::kinds))]
fn set_omap(header: &Option<Blob>, pairs: &[Pair], part: &Part) -> Act
    ensures { result ≡ kind (omap_set header.now pairs.now part.now) }
{
    match part {
        Part::Exists => Act::Sets,
        Part::OmapHeader => if header.is_some() {
            Act::Sets
        } else {
            Act::Leaves
        },
        Part::OmapKey(key) => if is_key(pairs, key) {
            Act::Sets
        } else {
            Act::Leaves
        },
        _ => Act::Leaves,
    }
}

#[tactic(auto, using(crate::proofs::Ties::kinds))]
fn remove_keys(keys: &[Blob], part: &Part) -> Act
    ensures { result ≡ kind (omap_removed keys.now part.now) }
{
    match part {
        Part::Exists => Act::Sets,
        Part::OmapKey(key) => if is_listed(keys, key) {
            Act::Sets
        } else {
            Act::Leaves
        },
        _ => Act::Leaves,
    }
}

fn is_listed(keys: &[Blob], key: &Blob) -> bool
    ensures { result ≡ list_any (same_bytes key.now) keys.now }
{
    keys.iter().any(|other| *key == *other)
}

#[tactic(auto, using(crate::proofs::Ties::kinds))]
fn remove_range(from: &Blob, to: &Blob, part: &Part) -> Act
    ensures { result ≡ kind (omap_range_removed from.now to.now part.now) }
{
    match part {
        Part::Exists => Act::Sets,
        Part::OmapKey(key) => if *key >= *from && *key < *to {
            Act::Sets
        } else {
            Act::Leaves
        },
        _ => Act::Leaves,
    }
}

// Every part comes from the other object, but that it exists.
fn copy(part: &Part) -> Act
    ensures { (c : Coll) (o : Oid) → result ≡ kind (copied c o part.now) }
{
    match part {
        Part::Exists => Act::Sets,
        _ => Act::Copies,
    }
}

#[tactic(auto, using(crate::proofs::Ties::kinds))]
fn copy_range(len: u64, to: u64, part: &Part) -> Act
    ensures { (c : Coll) (o : Oid) (from : ℕ) → result ≡ kind (range_copied c o from len to part.now) }
{
    match part {
        Part::Exists => Act::Sets,
        Part::Length => Act::Copies,
        Part::Byte(i) => if is_in(to, len, *i) {
            Act::Copies
        } else {
            Act::Leaves
        },
        _ => Act::Leaves,
    }
}
