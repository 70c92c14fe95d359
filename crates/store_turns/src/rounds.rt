// One transaction, and room for it.
ghost use Rattle.std.specs.Prelude.{◌≡◌, ◌≢◌, ℕ, ◌+◌, ◌-◌, ◌<◌, ◌≤◌, ◌^◌, List, length, Err, OnOk, IsErrOf};
ghost use Rattle.fault_count.specs.Counted.{Counted};
ghost use Rattle.tree_api.specs.Tree.{Path};
ghost use Rattle.ring_frame.specs.Frame.{need as need_of};
ghost use Rattle.ring_journal.specs.State.{Holds, free_of};
ghost use Rattle.store_history.specs.History.{History};
ghost use Rattle.store_history.specs.Pair.{PairsStand};
ghost use Rattle.store_turns.specs.State.{Fits, Holding};
ghost use Rattle.store_turns.specs.Waiting.{IsDue};

use crate::committing::commit;
use crate::numbers::{How, Numbers, StoreFault};
use crate::side::Side;
use dev_api::Device;
use fs_model::Op;
use ring_frame::need;
use ring_journal::Ring;
use std::alloc::Global;
use store_history::journal_law;
use store_journal::enter;
use tree_api::FileTree;

/// Where the journal has not so much room, what was applied is committed, and all room is free.
pub fn make_room<T: FileTree, S: Side<T>, D: Device>(
    alloc: Global,
    core: &mut Numbers,
    side: &S,
    tree: &mut T,
    ring: &mut Ring,
    dev: &mut D,
    room: u64,
) -> Result<(), StoreFault>
    requires counts { Fits core.old ring.old }
    requires extent { (D.state dev.old).size ≡ ring.old.head.size }
    requires ready { T.tells tree.old → S.ready (S.set side.now) (T.disk tree.old) }
    requires holds { D.tells dev.old → Holds ring.old (D.state dev.old).disk }
    requires fits { room ≤ ring.old.head.size - 8192 }
    ensures counts { OnOk result (Fits core.new ring.new) }
    ensures room { OnOk result (room ≤ free_of ring.new) }
    ensures size { OnOk result (ring.new.head.size ≡ ring.old.head.size) }
    ensures fsid { OnOk result (ring.new.head.fsid ≡ ring.old.head.fsid) }
    ensures same { core.new.journalled ≡ core.old.journalled }
    ensures ready { T.tells tree.new → OnOk result (S.ready (S.set side.now) (T.disk tree.new)) }
    ensures holds { D.tells dev.new → OnOk result (Holds ring.new (D.state dev.new).disk) }
    ensures exit { T.tells tree.new → D.tells dev.new → (fsid : List ℕ) (h : History)
        → Holding (S.image (S.set side.now)) (S.reads (S.set side.now)) fsid h core.old (T.disk tree.old) ring.old (D.state dev.old).disk
        → PairsStand (S.image (S.set side.now)) fsid h core.new.journalled (T.disk tree.new).may (D.state dev.new).disk }
    ensures done { T.tells tree.new → D.tells dev.new → (fsid : List ℕ) (h : History)
        → Holding (S.image (S.set side.now)) (S.reads (S.set side.now)) fsid h core.old (T.disk tree.old) ring.old (D.state dev.old).disk
        → OnOk result (Holding (S.image (S.set side.now)) (S.reads (S.set side.now)) fsid h core.new (T.disk tree.new) ring.new (D.state dev.new).disk) }
    ensures undamaged { T.tells tree.new → (p : Path) → result ≢ Err (StoreFault.Damaged p) }
    ensures told { T.tells tree.new → T.tells tree.old }
    ensures honest { D.tells dev.new → D.tells dev.old }
    ensures extent { (D.state dev.new).size ≡ (D.state dev.old).size }
    ensures tree { IsErrOf result StoreFault.Tree → Counted (T.disk tree.old).faults (T.disk tree.new).faults }
    ensures device { IsErrOf result StoreFault.Device → Counted (D.state dev.old).faults (D.state dev.new).faults }
    ensures tree_faults { (T.disk tree.old).faults ≤ (T.disk tree.new).faults }
    ensures device_faults { (D.state dev.old).faults ≤ (D.state dev.new).faults }
{
    journal_law();
    if room <= ring.free() {
        return Ok(());
    }
    commit(alloc, core, side, tree, ring, dev)
}

/// One transaction is journalled, synced and applied.
pub fn round<T: FileTree, S: Side<T>, D: Device>(
    alloc: Global,
    core: &mut Numbers,
    side: &S,
    tree: &mut T,
    ring: &mut Ring,
    dev: &mut D,
    payload: &[u8],
    ops: &[Op],
) -> Result<(), StoreFault>
    requires counts { Fits core.old ring.old }
    requires small { core.old.journalled + 1 < 2 ^ 63 }
    requires extent { (D.state dev.old).size ≡ ring.old.head.size }
    requires ready { T.tells tree.old → S.ready (S.set side.now) (T.disk tree.old) }
    requires holds { D.tells dev.old → Holds ring.old (D.state dev.old).disk }
    requires fit { S.fits ops.now }
    requires short { length payload.now < 2 ^ 32 }
    requires fits { need_of (length payload.now) ≤ ring.old.head.size - 8192 }
    ensures counts { OnOk result (Fits core.new ring.new) }
    ensures size { OnOk result (ring.new.head.size ≡ ring.old.head.size) }
    ensures fsid { OnOk result (ring.new.head.fsid ≡ ring.old.head.fsid) }
    ensures number { OnOk result (core.new.journalled ≡ core.old.journalled + 1) }
    ensures grows { core.old.journalled ≤ core.new.journalled }
    ensures ready { T.tells tree.new → OnOk result (S.ready (S.set side.now) (T.disk tree.new)) }
    ensures holds { D.tells dev.new → OnOk result (Holds ring.new (D.state dev.new).disk) }
    ensures exit { T.tells tree.new → D.tells dev.new → (fsid : List ℕ) (h : History)
        → Holding (S.image (S.set side.now)) (S.reads (S.set side.now)) fsid h core.old (T.disk tree.old) ring.old (D.state dev.old).disk
        → IsDue h core.old.journalled payload.now ops.now
        → PairsStand (S.image (S.set side.now)) fsid h core.new.journalled (T.disk tree.new).may (D.state dev.new).disk }
    ensures done { T.tells tree.new → D.tells dev.new → (fsid : List ℕ) (h : History)
        → Holding (S.image (S.set side.now)) (S.reads (S.set side.now)) fsid h core.old (T.disk tree.old) ring.old (D.state dev.old).disk
        → IsDue h core.old.journalled payload.now ops.now
        → OnOk result (Holding (S.image (S.set side.now)) (S.reads (S.set side.now)) fsid h core.new (T.disk tree.new) ring.new (D.state dev.new).disk) }
    ensures undamaged { T.tells tree.new → (p : Path) → result ≢ Err (StoreFault.Damaged p) }
    ensures told { T.tells tree.new → T.tells tree.old }
    ensures honest { D.tells dev.new → D.tells dev.old }
    ensures extent { (D.state dev.new).size ≡ (D.state dev.old).size }
    ensures tree { IsErrOf result StoreFault.Tree → Counted (T.disk tree.old).faults (T.disk tree.new).faults }
    ensures device { IsErrOf result StoreFault.Device → Counted (D.state dev.old).faults (D.state dev.new).faults }
    ensures tree_faults { (T.disk tree.old).faults ≤ (T.disk tree.new).faults }
    ensures device_faults { (D.state dev.old).faults ≤ (D.state dev.new).faults }
{
    journal_law();
    make_room(
        alloc,
        core,
        side,
        tree,
        ring,
        dev,
        need(payload.len() as u64),
    )?;
    let seq = core.journalled + 1;
    enter(alloc, ring, dev, seq, payload)?;
    side.apply(alloc, tree, How::Live, seq, ops)?;
    core.journalled = seq;
    Ok(())
}
