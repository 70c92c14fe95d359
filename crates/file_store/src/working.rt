// A drain of the parts of a store in which no fault was met.
ghost use Rattle.std.specs.Prelude.{◌≡◌, ◌≢◌, ◌≤◌, ◌+◌, ◌-◌, ◌^◌, ◌<◌, ℕ, length, Err, IfErr, OnOk, IsErrOf};
ghost use Rattle.fault_count.specs.Counted.{Counted};
ghost use Rattle.tree_api.specs.Tree.{Path};
ghost use Rattle.ring_journal.specs.State.{Holds as RingHolds};
ghost use Rattle.store_history.specs.History.{History};
ghost use Rattle.apply_ops.specs.Next.{IsReady};
ghost use Rattle.file_store.specs.declared.fault.First.{First};
ghost use Rattle.file_store.specs.Store.{IsCounted, IsDrained, working};
ghost use Rattle.file_store.specs.Holds.{Holds, Leaves, with_waiting};
ghost use Rattle.file_store.specs.Faults.{IsTurned};

use crate::fault::TurnFault;
use dev_api::Device;
use file_side::Parts;
use ring_journal::Ring;
use std::alloc::Global;
use store_queue::Queue;
use store_turns::{Numbers, drain};
use tree_api::FileTree;

pub(crate) fn drain_parts<T: FileTree, D: Device>(
    alloc: Global,
    parts: &Parts,
    numbers: &mut Numbers,
    ring: &mut Ring,
    queue: &mut Queue,
    tree: &mut T,
    dev: &mut D,
) -> Result<(), TurnFault>
    requires counted { IsCounted (working parts.now.identity numbers.old ring.old queue.old) }
    requires ready { T.tells tree.old → IsReady parts.now.identity.settings (T.disk tree.old) }
    requires extent { (D.state dev.old).size ≡ ring.old.head.size }
    requires ring { D.tells dev.old → RingHolds ring.old (D.state dev.old).disk }
    ensures drained { OnOk result (IsDrained (working parts.now.identity numbers.old ring.old queue.old) (working parts.now.identity numbers.new ring.new queue.new)) }
    ensures counted { OnOk result (IsCounted (working parts.now.identity numbers.new ring.new queue.new)) }
    ensures holds { T.tells tree.new → D.tells dev.new → (h : History)
        → Holds h (working parts.now.identity numbers.old ring.old queue.old) (T.disk tree.old) (D.state dev.old).disk
        → OnOk result (Holds (with_waiting h (working parts.now.identity numbers.old ring.old queue.old)) (working parts.now.identity numbers.new ring.new queue.new) (T.disk tree.new) (D.state dev.new).disk) }
    ensures exit { T.tells tree.new → D.tells dev.new → (h : History)
        → Holds h (working parts.now.identity numbers.old ring.old queue.old) (T.disk tree.old) (D.state dev.old).disk
        → Leaves (with_waiting h (working parts.now.identity numbers.old ring.old queue.old)) numbers.new.journalled
        (working parts.now.identity numbers.old ring.old queue.old) (T.disk tree.new) (D.state dev.new).disk }
    ensures grows { numbers.old.journalled ≤ numbers.new.journalled }
    ensures ready { T.tells tree.new → OnOk result (IsReady parts.now.identity.settings (T.disk tree.new)) }
    ensures ring { D.tells dev.new → OnOk result (RingHolds ring.new (D.state dev.new).disk) }
    ensures turned { IfErr result IsTurned }
    ensures undamaged { T.tells tree.new → (p : Path) → result ≢ Err (TurnFault.Damaged p) }
    ensures told { T.tells tree.new → T.tells tree.old }
    ensures honest { D.tells dev.new → D.tells dev.old }
    ensures extent { (D.state dev.new).size ≡ (D.state dev.old).size }
    ensures tree_cause { IsErrOf result TurnFault.Tree → Counted (T.disk tree.old).faults (T.disk tree.new).faults }
    ensures device_cause { IsErrOf result TurnFault.Device → Counted (D.state dev.old).faults (D.state dev.new).faults }
    ensures tree_faults { (T.disk tree.old).faults ≤ (T.disk tree.new).faults }
    ensures device_faults { (D.state dev.old).faults ≤ (D.state dev.new).faults }
{
    let _last = queue.last();
    let waiting = queue.waiting();
    match drain(alloc, numbers, parts, tree, ring, dev, waiting) {
        Ok(()) => {}
        Err(fault) => return Err(TurnFault::from(fault)),
    }
    queue.applied();
    Ok(())
}
