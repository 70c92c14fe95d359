// The entries above the committed number are done again.
ghost use Rattle.std.specs.Prelude.{◌≡◌, ◌≢◌, ◌+◌, ◌<◌, ◌≤◌, List, Ok, Err, OnOk, IfErr, IsErrOf};
ghost use Rattle.fault_count.specs.Counted.{Counted};
ghost use Rattle.fs_model.specs.declared.op.Op.{Op};
ghost use Rattle.txn_codec.specs.Reading.{decoded};
ghost use Rattle.tree_api.specs.Tree.{Path};
ghost use Rattle.tree_api.specs.Disk.{Keeps};
ghost use Rattle.ring_images.specs.Held.{synced};
ghost use Rattle.ring_journal.specs.State.{Ended, Loaded};
ghost use Rattle.store_history.specs.History.{end_of};
ghost use Rattle.store_turns.specs.Calls.{WhereReplayed};
ghost use Rattle.store_turns.specs.declared.numbers.How.TheVariants.{Live, Replay};
ghost use Rattle.store_mount.specs.Causes.{AreFit, IsFoundFirst, RefusesEntry, RefusesReplay};
ghost use Rattle.store_mount.specs.Replays.{SpellsAbove, WhereSpelled};

use crate::fault::{MountFault, redo_fault};
use dev_api::Device;
use ring_journal::{Ring, RingFault, Stored};
use std::alloc::Global;
use store_turns::{Side, redo};
use tree_api::FileTree;

// Does the transaction of an entry again, where its number is above the committed one.
fn redo_entry<T: FileTree, S: Side<T>>(
    alloc: Global,
    side: &S,
    tree: &mut T,
    stored: &Stored,
    committed: u64,
) -> Result<(), MountFault>
    requires ready { T.tells tree.old → S.ready (S.set side.now) (T.disk tree.old) }
    ensures ready { T.tells tree.new → OnOk result (S.ready (S.set side.now) (T.disk tree.new)) }
    ensures skipped { stored.now.seq ≤ committed → tree.new ≡ tree.old }
    ensures keeps { T.tells tree.new → committed < stored.now.seq
        → WhereReplayed (S.image (S.set side.now)) (S.reads (S.set side.now)) committed stored.now.seq stored.now.payload (T.disk tree.old)
        (λ h hi. Keeps (S.image (S.set side.now) h committed committed hi) (T.disk tree.old) (T.disk tree.new)) }
    ensures done { T.tells tree.new → committed < stored.now.seq
        → WhereReplayed (S.image (S.set side.now)) (S.reads (S.set side.now)) committed stored.now.seq stored.now.payload (T.disk tree.old)
        (λ h hi. OnOk result (S.reads (S.set side.now) Replay h stored.now.seq (T.disk tree.new).tree)) }
    ensures spelled { committed < stored.now.seq → OnOk result ((ops : List Op) × (decoded stored.now.payload ≡ Ok ops) × S.fits ops) }
    ensures refused { IfErr result (RefusesEntry S.fits committed stored.now) }
    ensures undamaged { T.tells tree.new → (p : Path) → result ≢ Err (MountFault.Damaged p) }
    ensures told { T.tells tree.new → T.tells tree.old }
    ensures faults { (T.disk tree.old).faults ≤ (T.disk tree.new).faults }
    ensures cause { IsErrOf result MountFault.Tree → Counted (T.disk tree.old).faults (T.disk tree.new).faults }
{
    match redo(
        alloc,
        side,
        tree,
        stored.seq,
        stored.payload.slice(),
        committed,
    ) {
        Ok(()) => Ok(()),
        Err(fault) => Err(redo_fault(fault, stored.seq)),
    }
}

/// Does each entry above the committed number again, in order, up to the last one, and reads each when its turn comes. A
/// crash at any moment leaves a tree on its way through these entries, and after `Ok` it reads as they leave it. The
/// device stays as it is.
pub fn replay<T: FileTree, S: Side<T>, D: Device>(
    alloc: Global,
    side: &S,
    tree: &mut T,
    ring: &mut Ring,
    dev: &mut D,
    committed: u64,
) -> Result<(), MountFault>
    requires extent { (D.state dev.old).size ≡ ring.old.head.size }
    requires loaded { D.tells dev.old → Loaded ring.old (D.state dev.old).disk }
    requires untold { ring.old.count ≡ 0 }
    requires no_gap { ring.old.head.seq ≤ committed + 1 }
    requires ready { T.tells tree.old → S.ready (S.set side.now) (T.disk tree.old) }
    ensures keeps { T.tells tree.new → D.tells dev.new
        → WhereSpelled (S.image (S.set side.now)) committed ring.old.head.seq (synced (D.state dev.old).disk) (T.disk tree.old)
        (λ h. Keeps (S.image (S.set side.now) h committed committed (end_of h)) (T.disk tree.old) (T.disk tree.new)) }
    ensures done { T.tells tree.new → D.tells dev.new
        → WhereSpelled (S.image (S.set side.now)) committed ring.old.head.seq (synced (D.state dev.old).disk) (T.disk tree.old)
        (λ h. OnOk result (S.reads (S.set side.now) Live h (end_of h) (T.disk tree.new).tree)) }
    ensures spelled { D.tells dev.new → OnOk result ((txns : List (List Op)) × SpellsAbove committed ring.old (D.state dev.old).disk txns × AreFit S.fits txns) }
    ensures ended { D.tells dev.new → OnOk result (Ended ring.new (D.state dev.new).disk) }
    ensures ready { T.tells tree.new → OnOk result (S.ready (S.set side.now) (T.disk tree.new)) }
    ensures head { ring.new.head ≡ ring.old.head }
    ensures disk { D.tells dev.new → (D.state dev.new).disk ≡ (D.state dev.old).disk }
    ensures past { D.tells dev.new → (D.state dev.new).past ≡ (D.state dev.old).past }
    ensures refused { D.tells dev.new → IfErr result (RefusesReplay S.fits committed ring.old.head.seq (synced (D.state dev.old).disk)) }
    ensures late { T.tells tree.new → IfErr result (λ fault. IsFoundFirst fault → ⊥) }
    ensures undamaged { T.tells tree.new → (p : Path) → result ≢ Err (MountFault.Damaged p) }
    ensures told { T.tells tree.new → T.tells tree.old }
    ensures honest { D.tells dev.new → D.tells dev.old }
    ensures extent { (D.state dev.new).size ≡ (D.state dev.old).size }
    ensures tree { IsErrOf result MountFault.Tree → Counted (T.disk tree.old).faults (T.disk tree.new).faults }
    ensures device { IsErrOf result MountFault.Device → Counted (D.state dev.old).faults (D.state dev.new).faults }
    ensures tree_faults { (T.disk tree.old).faults ≤ (T.disk tree.new).faults }
    ensures device_faults { (D.state dev.old).faults ≤ (D.state dev.new).faults }
{
    loop {
        let stored = match ring.next(alloc, dev) {
            Ok(Some(stored)) => stored,
            Ok(None) => return Ok(()),
            Err(RingFault::Dev) => return Err(MountFault::Device),
            Err(_) => return Err(MountFault::Memory),
        };
        match redo_entry(alloc, side, tree, &stored, committed) {
            Ok(()) => {}
            Err(fault) => return Err(fault),
        }
    }
}
