//! Closing a store.
ghost use Rattle.std.specs.Prelude.{◌≡◌, ◌≢◌, ◌≤◌, ℕ, List, Some, None, Err, OnOk, IfErr, IsErrOf};
ghost use Rattle.fault_count.specs.Counted.{Counted};
ghost use Rattle.tree_api.specs.Tree.{Path, IsDir};
ghost use Rattle.tree_api.specs.Disk.{Everywhere};
ghost use Rattle.op_effects.specs.Clear.{DirBelow};
ghost use Rattle.op_effects.specs.Ready.{trash};
ghost use Rattle.store_files.specs.declared.reading.Identity.{Identity};
ghost use Rattle.store_history.specs.History.{History};
ghost use Rattle.tree_places.specs.Images.{StoreImage};
ghost use Rattle.file_store.specs.declared.fault.First.{First as FirstFault};
ghost use Rattle.file_store.specs.Store.{Works, IsItsTree, IsItsDevice};
ghost use Rattle.file_store.specs.Holds.{Holds, Leaves, LeavesClosed, IsSwept, with_waiting};
ghost use Rattle.file_store.specs.Faults.{ClosesBroken, IsSweeps};

use crate::fault::TurnFault;
use crate::store::FileStore;
use dev_api::Device;
use std::alloc::Global;
use store_history::journal_law;
use store_walk::sweep_trash;
use tree_api::FileTree;

/// The trash is emptied, and then the whole tree is stable.
fn clear_trash<T: FileTree>(alloc: Global, tree: &mut T) -> Result<(), TurnFault>
    requires trash { T.tells tree.old → IsDir (T.disk tree.old).tree trash }
    ensures images { T.tells tree.new → (id : Identity) (h : History) (n lo hi : ℕ) → Everywhere (T.disk tree.old) (StoreImage id h n lo hi)
        → Everywhere (T.disk tree.new) (StoreImage id h n lo hi) }
    ensures swept { T.tells tree.new → OnOk result (IsSwept (T.disk tree.new)) }
    ensures damaged { T.tells tree.new → (q : Path) → result ≡ Err (TurnFault.Damaged q) → DirBelow 10 trash (T.disk tree.old).tree q }
    ensures sweeps { IfErr result IsSweeps }
    ensures told { T.tells tree.new → T.tells tree.old }
    ensures cause { IsErrOf result TurnFault.Tree → Counted (T.disk tree.old).faults (T.disk tree.new).faults }
    ensures faults { (T.disk tree.old).faults ≤ (T.disk tree.new).faults }
{
    match sweep_trash(alloc, tree) {
        Ok(()) => {}
        Err(fault) => return Err(TurnFault::from(fault)),
    }
    let Ok(()) = tree.sync_all() else {
        return Err(TurnFault::Tree);
    };
    Ok(())
}

impl FileStore {
    /// Drains, empties the trash, and makes the whole tree stable: nothing is left to replay then.
    ///
    /// After a fault a mount finds all that was acknowledged.
    pub fn close<T: FileTree, D: Device>(self, tree: &mut T, dev: &mut D) -> Result<(), TurnFault>
        requires tree { IsItsTree self (T.tells tree.old) (T.disk tree.old) }
        requires device { IsItsDevice self (D.tells dev.old) (D.state dev.old) }
        ensures closed { T.tells tree.new → D.tells dev.new → (h : History) → Holds h self (T.disk tree.old) (D.state dev.old).disk
            → OnOk result (LeavesClosed (with_waiting h self) self (T.disk tree.new) (D.state dev.new).disk) }
        ensures swept { T.tells tree.new → OnOk result (IsSwept (T.disk tree.new)) }
        ensures exit { T.tells tree.new → D.tells dev.new → (h : History) → Holds h self (T.disk tree.old) (D.state dev.old).disk
            → Leaves (with_waiting h self) self.numbers.journalled self (T.disk tree.new) (D.state dev.new).disk }
        ensures works { OnOk result (Works self) }
        ensures broken { IfErr result (ClosesBroken self) }
        ensures untouched { (first : FirstFault) → self.first ≡ Some first → (tree.new ≡ tree.old) × (dev.new ≡ dev.old) }
        ensures undamaged { T.tells tree.new → (p : Path) → result ≢ Err (TurnFault.Damaged p) }
        ensures told { T.tells tree.new → T.tells tree.old }
        ensures honest { D.tells dev.new → D.tells dev.old }
        ensures extent { (D.state dev.new).size ≡ (D.state dev.old).size }
        ensures tree_cause { IsErrOf result TurnFault.Tree → Counted (T.disk tree.old).faults (T.disk tree.new).faults }
        ensures device_cause { IsErrOf result TurnFault.Device → Counted (D.state dev.old).faults (D.state dev.new).faults }
        ensures tree_faults { (T.disk tree.old).faults ≤ (T.disk tree.new).faults }
        ensures device_faults { (D.state dev.old).faults ≤ (D.state dev.new).faults }
    {
        journal_law();
        if let Some(first) = self.first() {
            return Err(TurnFault::Broken(first));
        }
        let (alloc, _set) = self.place();
        let mut store = self;
        match store.drain(tree, dev) {
            Ok(_) => {}
            Err(fault) => return Err(fault),
        }
        match clear_trash(alloc, tree) {
            Ok(()) => {}
            Err(fault) => return Err(fault),
        }
        Ok(())
    }
}
