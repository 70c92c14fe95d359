ghost use Rattle.std.specs.Prelude.{◌≡◌, ◌≤◌, length};
ghost use Rattle.ring_frame.specs.Heads.{head_bytes, head_block, told_head, head_fits, head_in};

use crate::bytes::{clear, number_at, put_at, stands_at};
use sha1::Sha1;

/// The bytes of a block.
pub const BLOCK: usize = 4096;

/// The bytes of a block, as a number of places on a device.
pub const BLOCK_SIZE: u64 = 4096;

/// The bytes of both headers' blocks, and so the place where a ring begins.
pub const HEADS_SIZE: u64 = 8192;

/// A header of the ring. Of two headers the one with the higher generation counts.
#[derive(Clone, Copy, Debug, PartialEq, Eq)]
pub struct RingHead {
    pub fsid: [u8; 16],
    /// Rises with each header written.
    pub generation: u64,
    pub epoch: u64,
    /// The place of the first entry on the device.
    pub start: u64,
    /// The number of the first entry.
    pub seq: u64,
    /// The bytes of the device.
    pub size: u64,
}

// The bytes of a header before its digest.
fn spell_fields(head: &RingHead) -> [u8; 64]
    ensures { result ≡ head_bytes head.now }
{
    let mut out = [0; 64];
    put_at(&mut out, 0, b"FSRING01");
    put_at(&mut out, 8, &head.fsid);
    put_at(&mut out, 24, &head.generation.to_be_bytes());
    put_at(&mut out, 32, &head.epoch.to_be_bytes());
    put_at(&mut out, 40, &head.start.to_be_bytes());
    put_at(&mut out, 48, &head.seq.to_be_bytes());
    put_at(&mut out, 56, &head.size.to_be_bytes());
    out
}

/// Writes the whole block of a header.
pub fn write_head(head: &RingHead, into: &mut [u8; BLOCK])
    ensures { into.new ≡ head_block head.now }
{
    let fields = spell_fields(head);
    put_at(into, 0, &fields);
    put_at(into, 64, &Sha1::digest(&fields));
    clear(into, 84, BLOCK);
}

// What a block tells, if it is a header.
fn told_head(bytes: &[u8]) -> RingHead
    requires { 64 ≤ length bytes.now }
    ensures { result ≡ told_head bytes.now }
{
    let mut fsid = [0; 16];
    fsid.copy_from_slice(&bytes[8..24]);
    RingHead {
        fsid,
        generation: number_at(bytes, 24),
        epoch: number_at(bytes, 32),
        start: number_at(bytes, 40),
        seq: number_at(bytes, 48),
        size: number_at(bytes, 56),
    }
}

// Whether the numbers may stand in a header of a device of this size.
fn fits(head: &RingHead, size: u64) -> bool
    ensures { result ≡ head_fits size head.now }
{
    size % BLOCK_SIZE == 0
        && 16384 <= size
        && size <= 1 << 40
        && head.size == size
        && head.start % BLOCK_SIZE == 0
        && HEADS_SIZE <= head.start
        && head.start < size
        && 1 <= head.seq
        && head.seq <= 1 << 63
}

/// Reads a header of a device of this size. The bytes behind its digest aren't read.
pub fn read_head(bytes: &[u8; BLOCK], size: u64) -> Option<RingHead>
    ensures { result ≡ head_in size bytes.now }
{
    if !stands_at(bytes, 0, b"FSRING01") {
        return None;
    }
    if !stands_at(bytes, 64, &Sha1::digest(&bytes[..64])) {
        return None;
    }
    let head = told_head(bytes);
    if fits(&head, size) { Some(head) } else { None }
}
