//! The store: what it takes, and what it drains.
ghost use Rattle.std.specs.Prelude.{◌≡◌, ◌≢◌, ◌≤◌, ◌+◌, ◌-◌, ℕ, length, Some, Err, IfOk, OnOk, OnErr, IfErr, IsErrOf};
ghost use Rattle.fault_count.specs.Counted.{Counted};
ghost use Rattle.tree_api.specs.Tree.{Path};
ghost use Rattle.ring_journal.specs.State.{Holds as RingHolds};
ghost use Rattle.store_history.specs.History.{History};
ghost use Rattle.store_queue.specs.Waiting.{none_waiting};
ghost use Rattle.apply_ops.specs.Next.{IsReady};
ghost use Rattle.file_store.specs.Store.{Works, IsCounted, IsItsTree, IsItsDevice, IsDrained, with_txn, working};
ghost use Rattle.file_store.specs.Holds.{Holds, Leaves, Waits, with_waiting};
ghost use Rattle.file_store.specs.Faults.{BreaksAt, QueueTells, outcome_of};

use crate::fault::{First, QueueFault, TurnFault};
use crate::working::drain_parts;
use dev_api::Device;
use file_side::Parts;
use fs_model::Txn;
use fs_names::Settings;
use ring_journal::Ring;
use std::alloc::Global;
use std::marker::Model;
use store_queue::Queue;
use store_turns::Numbers;
use tree_api::FileTree;

/// A store that was mounted.
#[derive(Drop)]
pub struct FileStore {
    alloc: Global,
    parts: Parts,
    numbers: Numbers,
    ring: Ring,
    queue: Queue,
    first: Option<First>,
}

impl Model for FileStore {
    ghost use Rattle.std.specs.Coded.{codes};
    ghost use Rattle.store_queue.specs.Waiting.{colls_code};
    ghost use Rattle.file_store.specs.Store.{Store, IsSound};

    ghost Value = { Store };

    ghost coded = { Prim.hlevel (codes, colls_code) };

    ghost view = { λ s. record { identity = s.parts.identity; numbers = s.numbers; ring = s.ring; queue = s.queue; first = s.first } };

    ghost invariant = { λ s. IsSound (record { identity = s.parts.identity; numbers = s.numbers; ring = s.ring; queue = s.queue; first = s.first }) };
}

impl FileStore {
    /// A store on a tree and a ring that were just mounted.
    pub fn new(alloc: Global, parts: Parts, numbers: Numbers, ring: Ring, queue: Queue) -> FileStore
        requires counted { IsCounted (working parts.identity numbers ring queue) }
        ensures { result ≡ working parts.identity numbers ring queue }
    {
        FileStore {
            alloc,
            parts,
            numbers,
            ring,
            queue,
            first: None,
        }
    }

    /// The number of the last transaction acknowledged.
    pub fn acked(&self) -> u64
        ensures { result ≡ self.now.numbers.journalled }
    {
        self.numbers.journalled
    }

    /// The number of the last transaction queued.
    pub fn last(&self) -> u64
        ensures { result ≡ self.now.queue.last }
    {
        self.queue.last()
    }

    /// The fault that a drain met, after which nothing but a mount is of use.
    pub fn first(&self) -> Option<First>
        ensures { result ≡ self.now.first }
    {
        self.first
    }

    // Where memory comes from, and how names are placed.
    pub(crate) fn place(&self) -> (Global, Settings)
        ensures { result.1 ≡ self.now.identity.settings }
    {
        (self.alloc, self.parts.identity.settings)
    }

    /// Queues a transaction, if it is accepted after all that is queued and there is room, and gives its number. Neither tree
    /// nor device is touched.
    pub fn queue(&mut self, txn: Txn) -> Result<u64, QueueFault>
        ensures answer { QueueTells self.old (outcome_of self.old txn) result }
        ensures after { IfOk result (λ seq. self.new ≡ with_txn self.old txn seq) }
        ensures waits { (h : History) → Waits h self.old → OnOk result (Waits h self.new) }
        ensures err { OnErr result (self.new ≡ self.old) }
    {
        if let Some(first) = self.first {
            return Err(QueueFault::Broken(first));
        }
        let seq = match self.queue.queue(txn) {
            Ok(seq) => seq,
            Err(fault) => return Err(QueueFault::from(fault)),
        };
        Ok(seq)
    }

    /// Journals, syncs and applies each transaction that waits, one after the other, and then commits. It commits in between
    /// where the journal has no room. Gives the last number, which is acknowledged then.
    pub fn drain<T: FileTree, D: Device>(
        &mut self,
        tree: &mut T,
        dev: &mut D,
    ) -> Result<u64, TurnFault>
        requires tree { IsItsTree self.old (T.tells tree.old) (T.disk tree.old) }
        requires device { IsItsDevice self.old (D.tells dev.old) (D.state dev.old) }
        ensures number { IfOk result (λ last. last ≡ self.old.queue.last) }
        ensures drained { OnOk result (IsDrained self.old self.new) }
        ensures holds { T.tells tree.new → D.tells dev.new → (h : History) → Holds h self.old (T.disk tree.old) (D.state dev.old).disk
            → OnOk result (Holds (with_waiting h self.old) self.new (T.disk tree.new) (D.state dev.new).disk) }
        ensures exit { T.tells tree.new → D.tells dev.new → (h : History) → Holds h self.old (T.disk tree.old) (D.state dev.old).disk
            → Leaves (with_waiting h self.old) self.new.numbers.journalled self.old (T.disk tree.new) (D.state dev.new).disk }
        ensures grows { self.old.numbers.journalled ≤ self.new.numbers.journalled }
        ensures tree { IsItsTree self.new (T.tells tree.new) (T.disk tree.new) }
        ensures device { IsItsDevice self.new (D.tells dev.new) (D.state dev.new) }
        ensures broken { IfErr result (BreaksAt self.old self.new) }
        ensures undamaged { T.tells tree.new → (p : Path) → result ≢ Err (TurnFault.Damaged p) }
        ensures told { T.tells tree.new → T.tells tree.old }
        ensures honest { D.tells dev.new → D.tells dev.old }
        ensures extent { (D.state dev.new).size ≡ (D.state dev.old).size }
        ensures tree_cause { IsErrOf result TurnFault.Tree → Counted (T.disk tree.old).faults (T.disk tree.new).faults }
        ensures device_cause { IsErrOf result TurnFault.Device → Counted (D.state dev.old).faults (D.state dev.new).faults }
        ensures tree_faults { (T.disk tree.old).faults ≤ (T.disk tree.new).faults }
        ensures device_faults { (D.state dev.old).faults ≤ (D.state dev.new).faults }
    {
        if let Some(first) = self.first {
            return Err(TurnFault::Broken(first));
        }
        let done = drain_parts(
            self.alloc,
            &self.parts,
            &mut self.numbers,
            &mut self.ring,
            &mut self.queue,
            tree,
            dev,
        );
        if let Err(fault) = done {
            self.first = Some(fault.first());
            return Err(fault);
        }
        Ok(self.numbers.journalled)
    }
}
