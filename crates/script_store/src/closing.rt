//! The end of a store's use.
ghost use Rattle.std.specs.Prelude.{◌≡◌, ◌≢◌, ◌≤◌, Err, OnOk, IsErrOf};
ghost use Rattle.fault_count.specs.Counted.{Counted};
ghost use Rattle.tree_api.specs.Tree.{Path};
ghost use Rattle.store_history.specs.History.{History};
ghost use Rattle.file_store.specs.Store.{Works, IsItsTree, IsItsDevice};
ghost use Rattle.file_store.specs.Holds.{LeavesClosed, IsSwept, with_waiting};
ghost use Rattle.script_store.specs.Held.{HoldsOn, LeavesSome};

use crate::fault::{StepFault, of_turn};
use crate::store::ScriptStore;
use dev_api::Device;
use tree_api::FileTree;

/// Drains what waits, and leaves a store with nothing to replay. An open transaction is given up.
pub fn close<T: FileTree, D: Device>(
    store: ScriptStore,
    tree: &mut T,
    dev: &mut D,
) -> Result<(), StepFault>
    requires works { Works store.store }
    requires tree { IsItsTree store.store (T.tells tree.old) (T.disk tree.old) }
    requires device { IsItsDevice store.store (D.tells dev.old) (D.state dev.old) }
    ensures closed { T.tells tree.new → D.tells dev.new → (h : History) → HoldsOn h store (T.disk tree.old) (D.state dev.old)
        → OnOk result (LeavesClosed (with_waiting h store.store) store.store (T.disk tree.new) (D.state dev.new).disk) }
    ensures swept { T.tells tree.new → OnOk result (IsSwept (T.disk tree.new)) }
    ensures left { T.tells tree.new → D.tells dev.new → (h : History) → HoldsOn h store (T.disk tree.old) (D.state dev.old)
        → LeavesSome h store (T.disk tree.new) (D.state dev.new) }
    ensures undamaged { T.tells tree.new → (path : Path) → result ≢ Err (StepFault.Damaged path) }
    ensures told { T.tells tree.new → T.tells tree.old }
    ensures honest { D.tells dev.new → D.tells dev.old }
    ensures extent { (D.state dev.new).size ≡ (D.state dev.old).size }
    ensures tree_cause { IsErrOf result StepFault.Tree → Counted (T.disk tree.old).faults (T.disk tree.new).faults }
    ensures device_cause { IsErrOf result StepFault.Device → Counted (D.state dev.old).faults (D.state dev.new).faults }
    ensures tree_faults { (T.disk tree.old).faults ≤ (T.disk tree.new).faults }
    ensures device_faults { (D.state dev.old).faults ≤ (D.state dev.new).faults }
{
    match store.store.close(tree, dev) {
        Ok(_) => Ok(()),
        Err(fault) => Err(of_turn(fault)),
    }
}
