//! What is asked of a file: that it keeps a record of its calls, whatever they answer.
ghost use Rattle.std.specs.Prelude.{◌≡◌, ◌<◌, ◌≤◌, List, ◌∷◌, length, take, IfOk, MatchResult};
ghost use Rattle.dev_file.specs.Calls.{Call, Asked, Wrote, Gave, Failed, Synced, NotSynced};

use std::io;

pub trait Calls {
    /// Each call so far with its answer, the newest first.
    ghost history: { Self → List Call };

    /// These bytes are to be written at a place. It makes no call of the system.
    fn ask(&mut self, at: u64, bytes: &[u8])
        ensures { history self.new ≡ Asked at bytes.now ∷ history self.old };

    /// One call that writes, of which the first bytes were taken.
    fn write_some(&mut self, at: u64, bytes: &[u8]) -> io::Result<usize>
        requires { 0 < length bytes.now }
        ensures count { IfOk result (λ n. (0 < n) × (n ≤ length bytes.now)) }
        ensures noted { MatchResult result
            (λ n. history self.new ≡ Wrote at (take n bytes.now) ∷ history self.old)
            (λ _. history self.new ≡ Failed ∷ history self.old) };

    /// One call that reads, which fills the first bytes.
    fn read_some(&mut self, at: u64, into: &mut [u8]) -> io::Result<usize>
        requires { 0 < length into.old }
        ensures count { IfOk result (λ n. (0 < n) × (n ≤ length into.old)) }
        ensures noted { MatchResult result
            (λ n. history self.new ≡ Gave at (take n into.new) ∷ history self.old)
            (λ _. history self.new ≡ Failed ∷ history self.old) };

    /// One call that syncs.
    fn flush(&mut self) -> io::Result<()>
        ensures { MatchResult result
            (λ _. history self.new ≡ Synced ∷ history self.old)
            (λ _. history self.new ≡ NotSynced ∷ history self.old) };
}
