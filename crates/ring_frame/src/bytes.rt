// Parts of a list of bytes, by their place.
ghost use Rattle.std.specs.Prelude.{◌≡◌, ◌+◌, ◌-◌, ◌≤◌, length, drop, replicate};
ghost use Rattle.byteorder.specs.Endian.{big_number};
ghost use Rattle.ring_frame.specs.Frame.{stands_at};
ghost use Rattle.ring_frame.specs.Put.{put};

use byteorder::{BigEndian, ByteOrder};

/// Puts bytes at a place.
pub fn put_at(into: &mut [u8], at: usize, bytes: &[u8])
    requires { at + length bytes.now ≤ length into.old }
    ensures { into.new ≡ put into.old at bytes.now }
{
    into[at..at + bytes.len()].copy_from_slice(bytes);
}

/// Makes the bytes from one place to another zero.
pub fn clear(into: &mut [u8], from: usize, to: usize)
    requires order { from ≤ to }
    requires room { to ≤ length into.old }
    ensures { into.new ≡ put into.old from (replicate (to - from) 0) }
{
    into[from..to].fill(0);
}

/// Whether this part stands at a place.
pub fn stands_at(bytes: &[u8], at: usize, part: &[u8]) -> bool
    requires { at + length part.now ≤ length bytes.now }
    ensures { result ≡ stands_at bytes.now at part.now }
{
    &bytes[at..at + part.len()] == part
}

/// The number in the 8 bytes at a place, the highest byte first.
pub fn number_at(bytes: &[u8], at: usize) -> u64
    requires { at + 8 ≤ length bytes.now }
    ensures { result ≡ big_number 8 (drop at bytes.now) }
{
    BigEndian::read_u64(&bytes[at..])
}
