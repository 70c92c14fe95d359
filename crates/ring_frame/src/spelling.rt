ghost use Rattle.std.specs.Prelude.{◌≡◌, ◌<◌, ◌^◌, ◌++◌, length};
ghost use Rattle.sha1.specs.Sha1.{sha1};
ghost use Rattle.ring_frame.specs.Frame.{need as need_of, head, front, spelled};

use crate::bytes::{clear, put_at};
use crate::head::BLOCK_SIZE;
use sha1::Sha1;

/// The bytes that an entry with a payload of this length takes, whole blocks.
pub fn need(len: u64) -> u64
    requires { len < 2 ^ 63 }
    ensures { result ≡ need_of len }
{
    (len + 128).next_multiple_of(BLOCK_SIZE)
}

/// The digest of two pieces, one after the other.
pub fn digest_of(first: &[u8], second: &[u8]) -> [u8; 20]
    ensures { result ≡ sha1 (first.now ++ second.now) }
{
    let mut hasher = Sha1::new();
    hasher.update(first);
    hasher.update(second);
    hasher.finalize()
}

fn spell_head(fsid: &[u8; 16], pos: u64, seq: u64, epoch: u64, payload: &[u8]) -> [u8; 44]
    requires { length payload.now < 2 ^ 32 }
    ensures { result ≡ head fsid.now pos (record { seq = seq; epoch = epoch; payload = payload.now }) }
{
    let mut out = [0; 44];
    put_at(&mut out, 0, b"FSENTRY1");
    put_at(&mut out, 8, &fsid[..8]);
    put_at(&mut out, 16, &pos.to_be_bytes());
    put_at(&mut out, 24, &seq.to_be_bytes());
    put_at(&mut out, 32, &epoch.to_be_bytes());
    let len = payload.len() as u32;
    put_at(&mut out, 40, &len.to_be_bytes());
    out
}

fn spell_front(fsid: &[u8; 16], pos: u64, seq: u64, epoch: u64, payload: &[u8]) -> [u8; 64]
    requires { length payload.now < 2 ^ 32 }
    ensures { result ≡ front fsid.now pos (record { seq = seq; epoch = epoch; payload = payload.now }) }
{
    let first = spell_head(fsid, pos, seq, epoch, payload);
    let mut out = [0; 64];
    put_at(&mut out, 0, &first);
    put_at(&mut out, 44, &digest_of(&first, payload));
    out
}

/// Writes the sealed bytes of an entry, all that it takes.
///
/// `pos` is its place on the device.
pub fn seal(fsid: &[u8; 16], pos: u64, seq: u64, epoch: u64, payload: &[u8], into: &mut [u8])
    requires len { length payload.now < 2 ^ 32 }
    requires room { length into.old ≡ need_of (length payload.now) }
    ensures { into.new ≡ spelled fsid.now pos (record { seq = seq; epoch = epoch; payload = payload.now }) }
{
    let first = spell_front(fsid, pos, seq, epoch, payload);
    let end = 64 + payload.len();
    let foot = into.len() - 64;
    put_at(into, 0, &first);
    put_at(into, 64, payload);
    clear(into, end, foot);
    put_at(into, foot, &first);
}
