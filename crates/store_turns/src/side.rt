// The tree's side of a store.
ghost use Rattle.std.specs.Prelude.{◌≡◌, ◌≢◌, ◌⊎◌, ◌↔◌, ℕ, ◌-◌, ◌<◌, ◌≤◌, ◌^◌, List, Err, IfOk, OnOk, IfSome, IfNone, IsTrue, IsOk, IsErr, IsErrOf};
ghost use Rattle.fault_count.specs.Counted.{Counted};
ghost use Rattle.store_files.specs.declared.reading.Identity.{Identity};
ghost use Rattle.fs_model.specs.declared.op.Op.{Op};
ghost use Rattle.tree_api.specs.Tree.{Path, Tree};
ghost use Rattle.tree_api.specs.Disk.{Disk, Still, Keeps, Everywhere, SyncedAll};
ghost use Rattle.store_history.specs.History.{History};
ghost use Rattle.store_history.specs.Images.{Images};
ghost use Rattle.store_turns.specs.declared.numbers.How.{How};
ghost use Rattle.store_turns.specs.Theory.{Reads, Theory};
ghost use Rattle.store_turns.specs.Calls.{WhereNext, WhereDone, WhereImages};

use crate::numbers::How;
use fs_model::Op;
use index_fault::IndexFault;
use std::alloc::Global;
use tree_api::{Failed, FileTree};

/// How a store does transactions on a tree.
pub trait Side<T: FileTree> {
    /// Which store it is and its settings, which no call changes.
    ghost set: { Self → Identity };

    /// The committed number, how far each part of the tree has gone, and how far none has gone beyond.
    ghost image: { Identity → Images Tree };

    /// The tree reads as the transactions up to a number leave it.
    ghost reads: { Identity → Reads };

    /// The committed number that stands there.
    ghost number: { Tree → ℕ → Type 0 };

    /// Transactions may be done on such a tree, once a crash leaves nothing else.
    ghost laid: { Identity → Tree → Type 0 };

    /// They may be done now: what reads is laid out so, and what a crash leaves agrees with it where that matters.
    ghost ready: { Identity → Disk → Type 0 };

    /// These operations can be done.
    ghost fits: { List Op → Type 0 };

    /// Whether they can.
    fn is_fit(&self, ops: &[Op]) -> bool
        ensures { IsTrue result ↔ fits ops.now };

    /// Does the operations of the transaction `seq`, in order.
    fn apply(
        &self,
        alloc: Global,
        tree: &mut T,
        how: How,
        seq: u64,
        ops: &[Op],
    ) -> Result<(), IndexFault>
        requires ready { T.tells tree.old → ready (set self.now) (T.disk tree.old) }
        requires fit { fits ops.now }
        ensures ready { T.tells tree.new → OnOk result (ready (set self.now) (T.disk tree.new)) }
        ensures keeps { T.tells tree.new → WhereNext (image (set self.now)) (reads (set self.now)) how seq ops.now (T.disk tree.old)
            (λ h n lo hi. Keeps (image (set self.now) h n lo hi) (T.disk tree.old) (T.disk tree.new)) }
        ensures done { T.tells tree.new → WhereNext (image (set self.now)) (reads (set self.now)) how seq ops.now (T.disk tree.old)
            (λ h n lo hi. OnOk result (reads (set self.now) how h seq (T.disk tree.new).tree)) }
        ensures told { T.tells tree.new → T.tells tree.old }
        ensures faults { (T.disk tree.old).faults ≤ (T.disk tree.new).faults }
        ensures undamaged { T.tells tree.new → (p : Path) → result ≢ Err (IndexFault.Damaged p) }
        ensures cause { IsErrOf result IndexFault.Tree → Counted (T.disk tree.old).faults (T.disk tree.new).faults };

    /// Everything is stable.
    fn sync_all(&self, tree: &mut T) -> Result<(), Failed>
        ensures ready { T.tells tree.new → ready (set self.now) (T.disk tree.old) → OnOk result (ready (set self.now) (T.disk tree.new)) }
        ensures synced { T.tells tree.new → SyncedAll (T.disk tree.old) (T.disk tree.new) (IsOk result) }
        ensures told { T.tells tree.new → T.tells tree.old }
        ensures faults { (T.disk tree.old).faults ≤ (T.disk tree.new).faults }
        ensures cause { IsErr result → Counted (T.disk tree.old).faults (T.disk tree.new).faults };

    /// Writes the committed number.
    fn write_seq(&self, alloc: Global, tree: &mut T, seq: u64) -> Result<(), IndexFault>
        requires ready { T.tells tree.old → ready (set self.now) (T.disk tree.old) }
        requires settled { T.tells tree.old → Everywhere (T.disk tree.old) (λ c. c ≡ (T.disk tree.old).tree) }
        requires small { seq < 2 ^ 63 }
        ensures ready { T.tells tree.new → OnOk result (ready (set self.now) (T.disk tree.new)) }
        ensures keeps { T.tells tree.new → WhereDone (image (set self.now)) seq (T.disk tree.old)
            (λ h n lo hi. Keeps (λ t. image (set self.now) h n lo hi t ⊎ image (set self.now) h seq lo hi t) (T.disk tree.old) (T.disk tree.new)) }
        ensures done { T.tells tree.new → WhereDone (image (set self.now)) seq (T.disk tree.old)
            (λ h n lo hi. OnOk result (Everywhere (T.disk tree.new) (image (set self.now) h seq lo hi))) }
        ensures reads { T.tells tree.new → (how : How) (h : History) (m : ℕ)
            → reads (set self.now) how h m (T.disk tree.old).tree → reads (set self.now) how h m (T.disk tree.new).tree }
        ensures told { T.tells tree.new → T.tells tree.old }
        ensures faults { (T.disk tree.old).faults ≤ (T.disk tree.new).faults }
        ensures undamaged { T.tells tree.new → (p : Path) → result ≢ Err (IndexFault.Damaged p) }
        ensures cause { IsErrOf result IndexFault.Tree → Counted (T.disk tree.old).faults (T.disk tree.new).faults };

    /// The committed number, if one stands there.
    fn read_seq(&self, alloc: Global, tree: &mut T) -> Result<Option<u64>, IndexFault>
        ensures ready { T.tells tree.new → ready (set self.now) (T.disk tree.old) → ready (set self.now) (T.disk tree.new) }
        ensures still { T.tells tree.new → Still (T.disk tree.old) (T.disk tree.new) }
        ensures some { T.tells tree.new → IfOk result (λ o. IfSome o (λ n. number (T.disk tree.old).tree n)) }
        ensures none { T.tells tree.new → IfOk result (λ o. IfNone o ((n : ℕ) → number (T.disk tree.old).tree n → ⊥)) }
        ensures small { IfOk result (λ o. IfSome o (λ n. n < 2 ^ 63)) }
        ensures told { T.tells tree.new → T.tells tree.old }
        ensures faults { (T.disk tree.old).faults ≤ (T.disk tree.new).faults }
        ensures undamaged { T.tells tree.new → (p : Path) → result ≢ Err (IndexFault.Damaged p) }
        ensures cause { IsErrOf result IndexFault.Tree → Counted (T.disk tree.old).faults (T.disk tree.new).faults };

    /// Whether transactions may be done on the tree as it reads. `Damaged` names what is in the way.
    fn look_over(&self, alloc: Global, tree: &mut T) -> Result<(), IndexFault>
        ensures laid { T.tells tree.new → OnOk result (laid (set self.now) (T.disk tree.old).tree) }
        ensures damaged { T.tells tree.new → (p : Path) → IsErrOf result (IndexFault.Damaged p) → laid (set self.now) (T.disk tree.old).tree → ⊥ }
        ensures still { T.tells tree.new → Still (T.disk tree.old) (T.disk tree.new) }
        ensures told { T.tells tree.new → T.tells tree.old }
        ensures faults { (T.disk tree.old).faults ≤ (T.disk tree.new).faults }
        ensures cause { IsErrOf result IndexFault.Tree → Counted (T.disk tree.old).faults (T.disk tree.new).faults };

    /// Takes away what is left of files that were being built.
    fn tidy(&self, alloc: Global, tree: &mut T) -> Result<(), IndexFault>
        requires ready { T.tells tree.old → ready (set self.now) (T.disk tree.old) }
        ensures ready { T.tells tree.new → OnOk result (ready (set self.now) (T.disk tree.new)) }
        ensures keeps { T.tells tree.new → WhereImages (image (set self.now)) (T.disk tree.old)
            (λ h n lo hi. Keeps (image (set self.now) h n lo hi) (T.disk tree.old) (T.disk tree.new)) }
        ensures reads { T.tells tree.new → (how : How) (h : History) (m : ℕ)
            → reads (set self.now) how h m (T.disk tree.old).tree → reads (set self.now) how h m (T.disk tree.new).tree }
        ensures told { T.tells tree.new → T.tells tree.old }
        ensures faults { (T.disk tree.old).faults ≤ (T.disk tree.new).faults }
        ensures undamaged { T.tells tree.new → (p : Path) → result ≢ Err (IndexFault.Damaged p) }
        ensures cause { IsErrOf result IndexFault.Tree → Counted (T.disk tree.old).faults (T.disk tree.new).faults };

    ghost ready_is: { (s : Identity) (t : T) → T.tells t → laid s (T.disk t).tree
        → Everywhere (T.disk t) (λ c. c ≡ (T.disk t).tree) → ready s (T.disk t) };

    ghost theory: { (s : Identity) → Theory (image s) (reads s) number (laid s) };
}
