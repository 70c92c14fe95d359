ghost use Rattle.std.specs.Prelude.{◌≡◌, ◌<◌, ◌≤◌, [], Ok, length, vec_len, IfOk, OnOk, OnErr, IsErrOf};
ghost use Rattle.fault_count.specs.Counted.{Counted};
ghost use Rattle.io_edge.specs.Flow.{Inflow};
ghost use Rattle.io_edge.specs.Pieces.{Gives, IsLater, IsPast};
ghost use Rattle.io_edge.specs.declared.source.ReadFault.TheVariants.{Failed, Memory, TooLong};

use crate::{IoFailed, Text};
use std::alloc::{AllocError, Global};

/// Bytes that come in.
pub trait Source {
    /// It tells its bytes, up to now. It may fall at any call, and no code can tell.
    ghost tells: { Self → Type 0 };

    /// The bytes that are left, where it tells them, and how often it has failed.
    ghost inflow: { Self → Inflow };

    /// Reads the next bytes into the front of the piece, and answers how many. They may fill it in part only, though more
    /// are left.
    fn read(&mut self, into: &mut [u8]) -> Result<usize, IoFailed>
        ensures within { IfOk result (λ n. n ≤ length into.old) }
        ensures gives { tells self.new → IfOk result (λ n. Gives (inflow self.old) (inflow self.new) n into.old into.new) }

        // Of a piece that isn't empty it gives nothing only at the end.
        ensures end { tells self.new → result ≡ Ok 0 → 0 < length into.old → (inflow self.old).left ≡ [] }

        // A failed read gives nothing.
        ensures stays { tells self.new → OnErr result ((inflow self.new).left ≡ (inflow self.old).left) }
        ensures untouched { tells self.new → OnErr result (into.new ≡ into.old) }
        ensures honest { tells self.new → tells self.old }
        ensures later { (inflow self.old).faults ≤ (inflow self.new).faults }
        ensures cause { OnErr result (Counted (inflow self.old).faults (inflow self.new).faults) };
}

/// Why a source wasn't read to its end.
#[derive(Clone, Copy, Debug, PartialEq, Eq)]
pub enum ReadFault {
    /// A read failed.
    Failed,
    /// There are more bytes than the limit.
    TooLong,
    Memory,
}

impl From<IoFailed> for ReadFault {
    ghost from_gives = { λ _ fault. fault ≡ Failed };

    fn from(_failed: IoFailed) -> Self {
        ReadFault::Failed
    }
}

impl From<AllocError> for ReadFault {
    ghost from_gives = { λ _ fault. fault ≡ Memory };

    fn from(_error: AllocError) -> Self {
        ReadFault::Memory
    }
}

/// How many bytes are asked of a source at once.
const PIECE: usize = 65536;

// A buffer for one read.
fn new_piece(alloc: Global) -> Result<Vec<u8>, AllocError>
    ensures { IfOk result (λ piece. 0 < vec_len piece) }
{
    vec![in alloc; 0u8; PIECE]
}

/// Reads a source to its end, if at most `limit` bytes are left.
pub fn read_all<S: Source>(alloc: Global, source: &mut S, limit: usize) -> Result<Text, ReadFault>
    ensures whole { S.tells source.new → IfOk result (λ text. text ≡ (S.inflow source.old).left) }
    ensures end { S.tells source.new → OnOk result ((S.inflow source.new).left ≡ []) }
    ensures within { IfOk result (λ text. length text ≤ limit) }

    // It is too long only where more bytes were left, and then more were read.
    ensures too_long { S.tells source.new → IsErrOf result ReadFault.TooLong
        → IsPast limit (S.inflow source.old) (S.inflow source.new) }
    ensures failed { IsErrOf result ReadFault.Failed → Counted (S.inflow source.old).faults (S.inflow source.new).faults }

    // Whatever it answers, some rest is left.
    ensures rest { S.tells source.new → IsLater (S.inflow source.old) (S.inflow source.new) }
    ensures honest { S.tells source.new → S.tells source.old }
    ensures later { (S.inflow source.old).faults ≤ (S.inflow source.new).faults }
{
    let mut piece = new_piece(alloc)?;
    let mut bytes = Vec::new(alloc);
    loop {
        let count = source.read(&mut piece)?;
        if count == 0 {
            return Ok(Text::from_vec(bytes));
        }
        if limit - bytes.len() < count {
            return Err(ReadFault::TooLong);
        }
        bytes.extend_from_slice(&piece[..count])?;
    }
}
