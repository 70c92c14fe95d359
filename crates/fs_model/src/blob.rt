ghost use Rattle.std.specs.Prelude.{◌≡◌, ◌<◌, ◌≤◌, ◌+◌, ◌-◌, ◌^◌, ◌++◌, length, take, drop, replicate, vec_len, OnOk, OnErr, IfOk, Some, refl};
ghost use Rattle.std.specs.Ordering.{nat_cmp, eq_by_cmp, as_partial_cmp};
ghost use Rattle.std.specs.Cmp.{eq_by_cmp_equiv, partial_equiv_from_equiv, partial_order_from_total};
ghost use Rattle.std.specs.Cmp.Lexicographic.{slice_cmp, nat_list_cmp_total};
ghost use Rattle.fs_model.specs.Rows.{overwrite, resize};

use std::alloc::{AllocError, Global};
use std::cmp::Ordering;
use std::marker::Model;

/// A list of bytes.
#[derive(Debug, Drop)]
pub struct Blob {
    bytes: Vec<u8>,
}

impl Model for Blob {
    ghost use Rattle.std.specs.Prelude.{List, ℕ};

    ghost Value = { List ℕ };

    ghost view = { λ b. b.bytes.items };
}

impl Blob {
    pub fn new(alloc: Global, bytes: &[u8]) -> Result<Blob, AllocError>
        ensures { IfOk result (λ blob. blob ≡ bytes.now) }
    {
        Ok(Blob {
            bytes: bytes.to_vec(alloc)?,
        })
    }

    pub fn from_vec(bytes: Vec<u8>) -> Blob
        ensures { result ≡ bytes.items }
    {
        Blob { bytes }
    }

    pub fn slice(&self) -> &[u8]
        ensures { result.now ≡ self.now }
    {
        &self.bytes
    }

    pub fn copy(&self) -> Result<Blob, AllocError>
        ensures { IfOk result (λ copy. copy ≡ self.now) }
    {
        self.clone()
    }

    pub fn into_vec(self) -> Vec<u8>
        ensures { result.items ≡ self }
    {
        self.bytes
    }

    /// Writes bytes from a place on, in place. Bytes between the old end and that place become 0.
    pub fn write_at(&mut self, at: usize, bytes: &[u8]) -> Result<(), AllocError>
        requires { at + length bytes.now < 2 ^ 63 }
        ensures ok { OnOk result (self.new ≡ overwrite self.old at bytes.now) }
        ensures err { OnErr result (self.new ≡ self.old) }
    {
        if bytes.is_empty() {
            return Ok(());
        }
        lengthen(&mut self.bytes, at + bytes.len())?;
        put_at(&mut self.bytes, at, bytes);
        Ok(())
    }

    /// A copy of the bytes from a place on, at most so many.
    pub fn part(&self, alloc: Global, from: usize, len: usize) -> Result<Blob, AllocError>
        ensures { IfOk result (λ part. part ≡ take len (drop from self.now)) }
    {
        Blob::new(alloc, first(after(&self.bytes, from), len))
    }

    /// Writes zeros from a place on, in place. Bytes between the old end and that place become 0.
    pub fn zero_at(&mut self, at: usize, len: usize) -> Result<(), AllocError>
        requires { at + len < 2 ^ 63 }
        ensures ok { OnOk result (self.new ≡ overwrite self.old at (replicate len 0)) }
        ensures err { OnErr result (self.new ≡ self.old) }
    {
        if len == 0 {
            return Ok(());
        }
        lengthen(&mut self.bytes, at + len)?;
        zero_part(&mut self.bytes, at, len);
        Ok(())
    }

    /// Gives the list a length: bytes past it go, new ones are 0.
    pub fn resize(&mut self, len: usize) -> Result<(), AllocError>
        ensures ok { OnOk result (self.new ≡ resize self.old len) }
        ensures err { OnErr result (self.new ≡ self.old) }
    {
        self.bytes.resize(len, 0)?;
        Ok(())
    }
}

// The bytes from a place on.
fn after(bytes: &[u8], at: usize) -> &[u8]
    ensures { result.now ≡ drop at bytes.now }
{
    if at < bytes.len() { &bytes[at..] } else { &[] }
}

// At most so many bytes.
fn first(bytes: &[u8], len: usize) -> &[u8]
    ensures { result.now ≡ take len bytes.now }
{
    if len < bytes.len() {
        &bytes[..len]
    } else {
        bytes
    }
}

// Lengthens a list of bytes by zeros where it is shorter.
fn lengthen(bytes: &mut Vec<u8>, len: usize) -> Result<(), AllocError>
    ensures ok { OnOk result (bytes.new.items ≡ bytes.old.items ++ replicate (len - length bytes.old.items) 0) }
    ensures err { OnErr result (bytes.new.items ≡ bytes.old.items) }
{
    if bytes.len() < len {
        bytes.resize(len, 0)?;
    }
    Ok(())
}

// Puts bytes over those at a place.
fn put_at(into: &mut Vec<u8>, at: usize, bytes: &[u8])
    requires { at + length bytes.now ≤ vec_len into.old }
    ensures { into.new.items ≡ take at into.old.items ++ bytes.now ++ drop (at + length bytes.now) into.old.items }
{
    into[at..at + bytes.len()].copy_from_slice(bytes);
}

// Makes bytes from a place on 0.
fn zero_part(bytes: &mut Vec<u8>, at: usize, len: usize)
    requires { at + len ≤ vec_len bytes.old }
    ensures { bytes.new.items ≡ take at bytes.old.items ++ replicate len 0 ++ drop (at + len) bytes.old.items }
{
    bytes[at..at + len].fill(0);
}

impl Clone for Blob {
    ghost is_clone = { λ x y. y ≡ x };

    fn clone(&self) -> Result<Blob, AllocError> {
        Ok(Blob {
            bytes: self.bytes.clone()?,
        })
    }
}

impl PartialEq for Blob {
    ghost eq = { eq_by_cmp (slice_cmp nat_cmp) };

    ghost laws = { partial_equiv_from_equiv (eq_by_cmp_equiv nat_list_cmp_total) };

    fn eq(&self, other: &Blob) -> bool {
        self.cmp(other).is_eq()
    }
}

impl Eq for Blob {
    ghost laws = { eq_by_cmp_equiv nat_list_cmp_total };
}

impl PartialOrd for Blob {
    ghost partial_cmp = { as_partial_cmp (slice_cmp nat_cmp) };

    ghost laws = { partial_order_from_total nat_list_cmp_total };

    fn partial_cmp(&self, other: &Blob) -> Option<Ordering> {
        Some(self.cmp(other))
    }
}

impl Ord for Blob {
    ghost cmp = { slice_cmp nat_cmp };

    ghost total = { nat_list_cmp_total };

    ghost matches_partial_cmp = { λ x y. refl };

    ghost matches_eq = { λ x y. refl };

    fn cmp(&self, other: &Blob) -> Ordering {
        self.slice().cmp(other.slice())
    }
}
