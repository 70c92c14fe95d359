ghost use Rattle.std.specs.Prelude.{◌≡◌, ◌<◌, ◌≤◌, length, take, IfOk, OnOk, OnErr};
ghost use Rattle.fault_count.specs.Counted.{Counted};
ghost use Rattle.io_edge.specs.Flow.{Outflow};
ghost use Rattle.io_edge.specs.Pieces.{Writes, WritesFront};

use crate::IoFailed;

/// Where bytes go.
pub trait Sink {
    /// It tells its bytes, up to now. It may fall at any call, and no code can tell.
    ghost tells: { Self → Type 0 };

    /// The bytes that were taken, where it tells them, and how often it has failed.
    ghost out: { Self → Outflow };

    /// Writes the first bytes of the piece, and answers how many. It may take a part only.
    fn write(&mut self, piece: &[u8]) -> Result<usize, IoFailed>
        ensures within { IfOk result (λ n. n ≤ length piece.now) }
        ensures progress { IfOk result (λ n. 0 < length piece.now → 0 < n) }
        ensures takes { tells self.new → IfOk result (λ n. Writes (out self.old) (out self.new) (take n piece.now)) }

        // A failed write takes nothing.
        ensures stays { tells self.new → OnErr result ((out self.new).written ≡ (out self.old).written) }
        ensures honest { tells self.new → tells self.old }
        ensures later { (out self.old).faults ≤ (out self.new).faults }
        ensures cause { OnErr result (Counted (out self.old).faults (out self.new).faults) };
}

/// Writes all of the bytes.
pub fn write_all<K: Sink>(sink: &mut K, bytes: &[u8]) -> Result<(), IoFailed>
    ensures whole { K.tells sink.new → OnOk result (Writes (K.out sink.old) (K.out sink.new) bytes.now) }
    ensures part { K.tells sink.new → OnErr result (WritesFront (K.out sink.old) (K.out sink.new) bytes.now) }
    ensures honest { K.tells sink.new → K.tells sink.old }
    ensures later { (K.out sink.old).faults ≤ (K.out sink.new).faults }
    ensures cause { OnErr result (Counted (K.out sink.old).faults (K.out sink.new).faults) }
{
    let mut done = 0;
    while done < bytes.len() {
        done += sink.write(&bytes[done..])?;
    }
    Ok(())
}
