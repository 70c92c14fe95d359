// The end of a store's use.
ghost use Rattle.std.specs.Prelude.{◌≡◌, ◌≤◌, OnOk, IfErr};
ghost use Rattle.file_store.specs.Store.{Works, IsItsTree, IsItsDevice};
ghost use Rattle.file_store.specs.Holds.{LeavesClosed, IsSwept, with_waiting};
ghost use Rattle.script_store.specs.Held.{LeavesSome};
ghost use Rattle.filestore_cli.specs.Seen.{store_seen};
ghost use Rattle.filestore_cli.specs.Opened.{OfHeld};
ghost use Rattle.filestore_cli.specs.Run.{IsStartCaused, IsStartStop};

use crate::stop::{Stop, step_stop};
use dev_api::Device;
use script_store::ScriptStore;
use tree_api::FileTree;

/// Drains what waits, and then leaves nothing to be done again.
pub fn close<T: FileTree, D: Device>(
    store: ScriptStore,
    tree: &mut T,
    dev: &mut D,
) -> Result<(), Stop>
    requires works { Works store.store }
    requires tree { IsItsTree store.store (T.tells tree.old) (T.disk tree.old) }
    requires device { IsItsDevice store.store (D.tells dev.old) (D.state dev.old) }
    ensures closed { OfHeld (store_seen T.FileTree D.Device tree.old tree.new dev.old dev.new) store (λ h. OnOk result (LeavesClosed (with_waiting h store.store) store.store (T.disk tree.new) (D.state dev.new).disk)) }
    ensures swept { T.tells tree.new → OnOk result (IsSwept (T.disk tree.new)) }
    ensures left { OfHeld (store_seen T.FileTree D.Device tree.old tree.new dev.old dev.new) store (λ h. LeavesSome h store (T.disk tree.new) (D.state dev.new)) }
    ensures only { (store_seen T.FileTree D.Device tree.old tree.new dev.old dev.new).told → IfErr result IsStartStop }
    ensures cause { IfErr result (IsStartCaused (store_seen T.FileTree D.Device tree.old tree.new dev.old dev.new)) }
    ensures told { T.tells tree.new → T.tells tree.old }
    ensures honest { D.tells dev.new → D.tells dev.old }
    ensures tree_faults { (T.disk tree.old).faults ≤ (T.disk tree.new).faults }
    ensures faults { (D.state dev.old).faults ≤ (D.state dev.new).faults }
    ensures extent { (D.state dev.new).size ≡ (D.state dev.old).size }
{
    match script_store::close(store, tree, dev) {
        Ok(()) => Ok(()),
        Err(fault) => Err(step_stop(fault)),
    }
}
