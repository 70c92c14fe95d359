// All that waits.
ghost use Rattle.std.specs.Prelude.{◌≡◌, ◌≢◌, ℕ, ◌+◌, ◌-◌, ◌<◌, ◌≤◌, ◌^◌, List, length, Err, OnOk, IsErrOf};
ghost use Rattle.fault_count.specs.Counted.{Counted};
ghost use Rattle.tree_api.specs.Tree.{Path};
ghost use Rattle.ring_journal.specs.State.{Holds};
ghost use Rattle.store_history.specs.History.{History};
ghost use Rattle.store_history.specs.Pair.{PairsStand};
ghost use Rattle.store_turns.specs.State.{Fits, Holding};
ghost use Rattle.store_turns.specs.Waiting.{AreDue, AllFit, AllMeet};

use crate::committing::commit;
use crate::numbers::{Numbers, Queued, StoreFault};
use crate::rounds::round;
use crate::side::Side;
use dev_api::Device;
use ring_journal::Ring;
use std::alloc::Global;
use store_history::journal_law;
use tree_api::FileTree;

/// Journals, syncs and applies one transaction after the other, and then commits. It commits in between where the
/// journal has no room.
pub fn drain<T: FileTree, S: Side<T>, D: Device>(
    alloc: Global,
    core: &mut Numbers,
    side: &S,
    tree: &mut T,
    ring: &mut Ring,
    dev: &mut D,
    waiting: &[Queued],
) -> Result<(), StoreFault>
    requires counts { Fits core.old ring.old }
    requires small { core.old.journalled + length waiting.now < 2 ^ 63 }
    requires extent { (D.state dev.old).size ≡ ring.old.head.size }
    requires ready { T.tells tree.old → S.ready (S.set side.now) (T.disk tree.old) }
    requires holds { D.tells dev.old → Holds ring.old (D.state dev.old).disk }
    requires fit { AllMeet S.fits waiting.now }
    requires fits { AllFit (ring.old.head.size - 8192) waiting.now }
    ensures counts { OnOk result (Fits core.new ring.new) }
    ensures number { OnOk result (core.new.journalled ≡ core.old.journalled + length waiting.now) }
    ensures grows { core.old.journalled ≤ core.new.journalled }
    ensures size { OnOk result (ring.new.head.size ≡ ring.old.head.size) }
    ensures fsid { OnOk result (ring.new.head.fsid ≡ ring.old.head.fsid) }
    ensures committed { OnOk result (core.new.committed ≡ core.new.journalled) }
    ensures ready { T.tells tree.new → OnOk result (S.ready (S.set side.now) (T.disk tree.new)) }
    ensures holds { D.tells dev.new → OnOk result (Holds ring.new (D.state dev.new).disk) }
    ensures exit { T.tells tree.new → D.tells dev.new → (fsid : List ℕ) (h : History)
        → Holding (S.image (S.set side.now)) (S.reads (S.set side.now)) fsid h core.old (T.disk tree.old) ring.old (D.state dev.old).disk
        → AreDue h core.old.journalled waiting.now
        → PairsStand (S.image (S.set side.now)) fsid h core.new.journalled (T.disk tree.new).may (D.state dev.new).disk }
    ensures done { T.tells tree.new → D.tells dev.new → (fsid : List ℕ) (h : History)
        → Holding (S.image (S.set side.now)) (S.reads (S.set side.now)) fsid h core.old (T.disk tree.old) ring.old (D.state dev.old).disk
        → AreDue h core.old.journalled waiting.now
        → OnOk result (Holding (S.image (S.set side.now)) (S.reads (S.set side.now)) fsid h core.new (T.disk tree.new) ring.new (D.state dev.new).disk) }
    ensures undamaged { T.tells tree.new → (p : Path) → result ≢ Err (StoreFault.Damaged p) }
    ensures told { T.tells tree.new → T.tells tree.old }
    ensures honest { D.tells dev.new → D.tells dev.old }
    ensures extent { (D.state dev.new).size ≡ (D.state dev.old).size }
    ensures tree { IsErrOf result StoreFault.Tree → Counted (T.disk tree.old).faults (T.disk tree.new).faults }
    ensures device { IsErrOf result StoreFault.Device → Counted (D.state dev.old).faults (D.state dev.new).faults }
    ensures tree_faults { (T.disk tree.old).faults ≤ (T.disk tree.new).faults }
    ensures device_faults { (D.state dev.old).faults ≤ (D.state dev.new).faults }
{
    journal_law();
    for one in waiting {
        round(
            alloc,
            core,
            side,
            tree,
            ring,
            dev,
            one.payload.slice(),
            one.txn.ops.slice(),
        )?;
    }
    if core.committed == core.journalled {
        return Ok(());
    }
    commit(alloc, core, side, tree, ring, dev)
}
