ghost use Rattle.std.specs.Prelude.{◌≡◌, IfOk};
ghost use Rattle.replay_guard.specs.Guards.{verdict, spelled, guard_in};

use byteorder::{BigEndian, ByteOrder};
use fs_names::Pos;
use std::alloc::{AllocError, Global};
use std::cmp::Ordering;

/// The mark of the last copy or move that changed what it stands on.
#[derive(Clone, Copy, Debug, PartialEq, Eq)]
pub struct Guard {
    /// The place of that operation.
    pub pos: Pos,
    /// The operation isn't done yet.
    pub in_progress: bool,
}

/// What replay does with an operation.
#[derive(Clone, Copy, Debug, PartialEq, Eq)]
pub enum Verdict {
    /// It isn't done yet.
    Apply,
    /// It was begun, and goes on from there.
    Continue,
    /// It is done, with all before it.
    Skip,
}

/// What replay does with an operation at a position, where this guard stands or none. It takes no memory.
pub fn check(guard: Option<Guard>, pos: Pos) -> Verdict
    ensures { result ≡ verdict guard pos }
{
    let Some(guard) = guard else {
        return Verdict::Apply;
    };
    match guard.pos.cmp(&pos) {
        Ordering::Less => Verdict::Apply,
        Ordering::Equal if guard.in_progress => Verdict::Continue,
        Ordering::Equal => Verdict::Skip,
        Ordering::Greater => Verdict::Skip,
    }
}

/// The bytes of a guard.
pub(crate) fn spell(alloc: Global, guard: Guard) -> Result<Vec<u8>, AllocError>
    ensures { IfOk result (λ bytes. bytes.items ≡ spelled guard) }
{
    let mut bytes = guard.pos.seq.to_be_bytes().to_vec(alloc)?;
    bytes.extend_from_slice(&guard.pos.txn.to_be_bytes())?;
    bytes.extend_from_slice(&guard.pos.op.to_be_bytes())?;
    bytes.push(u8::from(guard.in_progress))?;
    Ok(bytes)
}

/// The guard of these bytes, or none where they spell none.
pub(crate) fn guard_in(bytes: &[u8]) -> Option<Guard>
    ensures { result ≡ guard_in bytes.now }
{
    if bytes.len() != 17 || bytes[16] > 1 {
        return None;
    }
    let pos = Pos {
        seq: BigEndian::read_u64(bytes),
        txn: BigEndian::read_u32(&bytes[8..]),
        op: BigEndian::read_u32(&bytes[12..]),
    };
    Some(Guard {
        pos,
        in_progress: bytes[16] == 1,
    })
}
