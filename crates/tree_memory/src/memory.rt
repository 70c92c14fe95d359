// A tree in memory, which keeps what its calls did.
ghost use Rattle.std.specs.Prelude.{◌<◌, ◌^◌};
ghost use Rattle.tree_memory.specs.Told.{IsTied};

use crate::event::{Call, Event};
use crate::store::Store;
use fault_count::Schedule;
use std::alloc::{AllocError, Global};
use tree_api::TreeError;

/// A tree of files in memory, which fails where it is told to and tells what a crash may leave. It has checkpoints.
#[derive(Drop)]
pub struct MemoryTree {
    pub(crate) alloc: Global,
    /// As it read at first.
    pub(crate) origin: Store,
    /// As it reads.
    pub(crate) store: Store,
    /// What its calls did since.
    pub(crate) log: Vec<Call>,
    /// A whole sync was done since the last of them.
    pub(crate) synced: bool,
    pub(crate) plan: Schedule,
    pub(crate) syncs: u64,
    pub(crate) looks: u64,
    ghost few: { plan.faults < 2 ^ 64 },
    ghost tied: { IsTied origin store log.items synced },
}

impl MemoryTree {
    ghost use Rattle.std.specs.Prelude.{◌≡◌, ◌+◌, true, IfOk, IfErr, IsErrOf};
    ghost use Rattle.tree_api.specs.declared.tree.TreeError.TheVariants.{Memory, Refused};
    ghost use Rattle.tree_api.specs.Counts.{Counts};
    ghost use Rattle.tree_memory.specs.History.{settled};
    ghost use Rattle.tree_memory.specs.Log.{run, start, suits, adds};
    ghost use Rattle.tree_memory.specs.Valid.{IsValid};
    ghost use Rattle.tree_memory.specs.Told.{tree_of, count_of, empty_tree};
    ghost use Rattle.tree_memory.specs.Tells.{state_of, history_of, plan_of, disk_of, IsNumbered, Follows, Did};

    /// An empty tree: a root directory alone, and no snapshot. Its calls that take it by `&mut` are numbered from 1, and
    /// those in `fail` answer `Refused`.
    pub fn new(alloc: Global, fail: Vec<u64>) -> Result<MemoryTree, AllocError>
        ensures empty { IfOk result (λ m. state_of m ≡ start empty_tree) }
        ensures plan { IfOk result (λ m. plan_of m ≡ record { fail = fail.items; calls = 0; faults = 0 }) }
        ensures syncs { IfOk result (λ m. (disk_of m).syncs ≡ 0) }
        ensures looks { IfOk result (λ m. (disk_of m).looks ≡ 0) }
    {
        let origin = Store::new(alloc)?;
        MemoryTree::holding(alloc, origin, fail)
    }

    // A tree that reads so and is stable.
    pub(crate) fn holding(
        alloc: Global,
        origin: Store,
        fail: Vec<u64>,
    ) -> Result<MemoryTree, AllocError>
        requires { IsValid (count_of origin) (settled (tree_of origin)) }
        ensures state { IfOk result (λ m. state_of m ≡ start (tree_of origin)) }
        ensures plan { IfOk result (λ m. plan_of m ≡ record { fail = fail.items; calls = 0; faults = 0 }) }
        ensures syncs { IfOk result (λ m. (disk_of m).syncs ≡ 0) }
        ensures looks { IfOk result (λ m. (disk_of m).looks ≡ 0) }
    {
        let store = origin.copy()?;
        Ok(MemoryTree {
            alloc,
            origin,
            store,
            log: Vec::new(alloc),
            synced: false,
            plan: Schedule::new(fail),
            syncs: 0,
            looks: 0,
        })
    }

    /// The number of its last call, 0 at first.
    pub fn calls(&self) -> u64
        ensures { result ≡ (plan_of self.now).calls }
    {
        self.plan.calls()
    }

    // Does an event and keeps it, or nothing.
    fn keep(&mut self, event: Event) -> Result<(), AllocError>
        requires suits { suits (count_of self.old.store) event ≡ true }
        requires valid { IsValid (count_of self.old.store + adds event) (run event (history_of self.old)) }
        ensures follows { Follows (run event (history_of self.old)) (state_of self.old) (state_of self.new) result }
        ensures plan { plan_of self.new ≡ plan_of self.old }
        ensures syncs { (disk_of self.new).syncs ≡ (disk_of self.old).syncs }
        ensures looks { (disk_of self.new).looks ≡ (disk_of self.old).looks }
    {
        let call = Call {
            synced: self.synced,
            event,
        };
        self.log.push(call)?;
        let last = self.log.len() - 1;
        if self.store.apply(&self.log[last].event).is_err() {
            self.log.pop();
            return Err(AllocError);
        }
        self.synced = false;
        Ok(())
    }

    // A call that does an event, where memory was found for it.
    pub(crate) fn call(&mut self, event: Result<Event, AllocError>) -> Result<(), TreeError>
        requires suits { IfOk event (λ e. suits (count_of self.old.store) e ≡ true) }
        requires valid { IfOk event (λ e. IsValid (count_of self.old.store + adds e) (run e (history_of self.old))) }
        ensures did { Did event (state_of self.old) (state_of self.new) result }
        ensures plan { IsNumbered (plan_of self.old) (plan_of self.new) (IsErrOf result Refused) }
        ensures counts { Counts (IsErrOf result Refused) 0 0 (disk_of self.old) (disk_of self.new) }
    {
        if self.plan.next() {
            return Err(TreeError::Refused);
        }
        match event {
            Ok(event) => Ok(self.keep(event)?),
            Err(_) => Err(TreeError::Memory),
        }
    }
}
