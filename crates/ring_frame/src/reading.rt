ghost use Rattle.std.specs.Prelude.{◌≡◌, ◌+◌, ◌≤◌, length, take, drop, Some, None, ◌↔◌, IsOk, IfOk, IfErr, OnErr};
ghost use Rattle.byteorder.specs.Endian.{big_number};
ghost use Rattle.ring_frame.specs.Frame.{need as need_of, entry};
ghost use Rattle.ring_frame.specs.Faults.{frame_fault, seal_fault};
ghost use Rattle.ring_frame.specs.Told.{framed};

use crate::bytes::{number_at, stands_at};
use crate::spelling::{digest_of, need};
use byteorder::{BigEndian, ByteOrder};

/// Why bytes are no sealed entry, the first that holds of: fewer than 64 bytes, another magic, another ring, another
/// place, fewer bytes than the entry takes, another digest, an end that differs from the front.
#[derive(Clone, Copy, Debug, PartialEq, Eq)]
pub enum FrameFault {
    Short,
    NoMagic,
    WrongRing,
    WrongPlace,
    BadDigest,
    BadFooter,
}

/// What the front of an entry tells, sealed or not.
#[derive(Clone, Copy, Debug, PartialEq, Eq)]
pub struct EntryHead {
    /// The place on the device.
    pub pos: u64,
    pub seq: u64,
    pub epoch: u64,
    /// The payload's length.
    pub len: u32,
    pub digest: [u8; 20],
}

/// A sealed entry, over the bytes that it was read from.
#[derive(Clone, Copy, Debug, PartialEq, Eq)]
pub struct Framed<'a> {
    pub seq: u64,
    pub epoch: u64,
    pub payload: &'a [u8],
    /// The bytes that the entry takes.
    pub size: u64,
}

impl EntryHead {
    /// Reads the fields after the magic and the ring.
    pub fn read(bytes: &[u8]) -> EntryHead
        requires { 64 ≤ length bytes.now }
        ensures pos { result.pos ≡ big_number 8 (drop 16 bytes.now) }
        ensures seq { result.seq ≡ big_number 8 (drop 24 bytes.now) }
        ensures epoch { result.epoch ≡ big_number 8 (drop 32 bytes.now) }
        ensures len { result.len ≡ big_number 4 (drop 40 bytes.now) }
        ensures digest { result.digest ≡ take 20 (drop 44 bytes.now) }
    {
        let mut digest = [0; 20];
        digest.copy_from_slice(&bytes[44..64]);
        EntryHead {
            pos: number_at(bytes, 16),
            seq: number_at(bytes, 24),
            epoch: number_at(bytes, 32),
            len: BigEndian::read_u32(&bytes[40..]),
            digest,
        }
    }
}

// The first fault of the seal itself, if there is one.
fn seal_fault(bytes: &[u8]) -> Option<FrameFault>
    requires { 64 ≤ length bytes.now }
    ensures { result ≡ seal_fault bytes.now }
{
    let head = EntryHead::read(bytes);
    let size = need(u64::from(head.len));
    if (bytes.len() as u64) < size {
        return Some(FrameFault::Short);
    }
    let payload = &bytes[64..64 + head.len as usize];
    let told = &bytes[..44];
    let digest = digest_of(told, payload);
    if !stands_at(bytes, 44, &digest) {
        return Some(FrameFault::BadDigest);
    }
    if !stands_at(bytes, size as usize - 64, &bytes[..64]) {
        return Some(FrameFault::BadFooter);
    }
    None
}

// The first fault, if there is one.
fn first_fault(bytes: &[u8], fsid: &[u8; 16], place: u64) -> Option<FrameFault>
    ensures { result ≡ frame_fault fsid.now place bytes.now }
{
    if bytes.len() < 64 {
        return Some(FrameFault::Short);
    }
    if !stands_at(bytes, 0, b"FSENTRY1") {
        return Some(FrameFault::NoMagic);
    }
    if !stands_at(bytes, 8, &fsid[..8]) {
        return Some(FrameFault::WrongRing);
    }
    if !stands_at(bytes, 16, &place.to_be_bytes()) {
        return Some(FrameFault::WrongPlace);
    }
    seal_fault(bytes)
}

/// Reads the entry that the bytes begin with, which are to stand at `place` of the device.
///
/// Zeros between payload and end aren't read.
pub fn read_entry<'a>(
    bytes: &'a [u8],
    fsid: &[u8; 16],
    place: u64,
) -> Result<Framed<'a>, FrameFault>
    ensures sealed { IfOk result (λ f. entry fsid.now place bytes.now ≡ Some (framed f)) }
    ensures size { IfOk result (λ f. f.size ≡ need_of (length f.payload.now)) }
    ensures unsealed { OnErr result (entry fsid.now place bytes.now ≡ None) }
    ensures sound { IsOk result ↔ (frame_fault fsid.now place bytes.now ≡ None) }
    ensures fault { IfErr result (λ e. frame_fault fsid.now place bytes.now ≡ Some e) }
{
    if let Some(fault) = first_fault(bytes, fsid, place) {
        return Err(fault);
    }
    let head = EntryHead::read(bytes);
    let payload = &bytes[64..64 + head.len as usize];
    Ok(Framed {
        seq: head.seq,
        epoch: head.epoch,
        payload,
        size: need(u64::from(head.len)),
    })
}
