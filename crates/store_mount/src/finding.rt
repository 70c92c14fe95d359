// What a mount finds before it does any entry again.
ghost use Rattle.std.specs.Prelude.{◌≡◌, ◌≢◌, ◌+◌, ◌<◌, ◌≤◌, ◌^◌, Some, Err, OnOk, IfOk, IfErr, IsErrOf};
ghost use Rattle.fault_count.specs.Counted.{Counted};
ghost use Rattle.tree_api.specs.Tree.{Path};
ghost use Rattle.tree_api.specs.Disk.{Everywhere, Stays, Still};
ghost use Rattle.dev_api.specs.Disk.{settled};
ghost use Rattle.dev_api.specs.Run.{KeepsSince};
ghost use Rattle.ring_frame.specs.Heads.{head_of};
ghost use Rattle.ring_images.specs.Held.{ReadsSound, Within};
ghost use Rattle.ring_journal.specs.State.{IsUnspent, Loaded};
ghost use Rattle.store_mount.specs.Causes.{Explains, IsFoundFirst, RefusesLook, RefusesNumber, RefusesRing};

use crate::fault::{MountFault, load_fault};
use dev_api::Device;
use ring_journal::Ring;
use std::alloc::Global;
use store_turns::Side;
use tree_api::FileTree;

/// What a mount finds: the ring, of which no entry was told, and the committed number.
#[derive(Drop)]
pub struct Found {
    /// The ring of the journal.
    pub ring: Ring,
    /// The number that the tree has.
    pub committed: u64,
}

// Syncs the device and loads its ring.
fn load<D: Device>(dev: &mut D, fsid: &[u8; 16]) -> Result<Ring, MountFault>
    ensures head { D.tells dev.new → IfOk result (λ ring. head_of (D.state dev.old).disk.reads ≡ Some ring.head) }
    ensures loaded { D.tells dev.new → IfOk result (λ ring. Loaded ring (D.state dev.new).disk) }
    ensures same { D.tells dev.new → OnOk result ((D.state dev.new).disk ≡ settled (D.state dev.old).disk.reads) }
    ensures untold { IfOk result (λ ring. ring.count ≡ 0) }
    ensures fsid { IfOk result (λ ring. ring.head.fsid ≡ fsid.now) }
    ensures unspent { IfOk result (λ ring. IsUnspent ring.head) }
    ensures size { IfOk result (λ ring. ring.head.size ≡ (D.state dev.new).size) }
    ensures refused { D.tells dev.new → IfErr result (RefusesRing (D.state dev.old).disk.reads fsid.now) }
    ensures reads { D.tells dev.new → IfErr result (λ fault. IsFoundFirst fault → (D.state dev.new).disk.reads ≡ (D.state dev.old).disk.reads) }
    ensures crash { D.tells dev.new → ReadsSound (D.state dev.old).disk → KeepsSince (Within (D.state dev.old).disk) (D.state dev.old) (D.state dev.new) }
    ensures honest { D.tells dev.new → D.tells dev.old }
    ensures extent { (D.state dev.new).size ≡ (D.state dev.old).size }
    ensures faults { (D.state dev.old).faults ≤ (D.state dev.new).faults }
    ensures undamaged { (p : Path) → result ≢ Err (MountFault.Damaged p) }
    ensures not_the_tree { IsErrOf result MountFault.Tree → ⊥ }
    ensures cause { IsErrOf result MountFault.Device → Counted (D.state dev.old).faults (D.state dev.new).faults }
{
    match Ring::load(dev, fsid) {
        Ok(ring) => Ok(ring),
        Err(fault) => Err(load_fault(fault, fsid)),
    }
}

// The committed number of the tree.
fn committed_number<T: FileTree, S: Side<T>>(
    alloc: Global,
    side: &S,
    tree: &mut T,
) -> Result<u64, MountFault>
    ensures still { T.tells tree.new → Still (T.disk tree.old) (T.disk tree.new) }
    ensures number { T.tells tree.new → IfOk result (λ n. S.number (T.disk tree.old).tree n) }
    ensures small { IfOk result (λ n. n < 2 ^ 63) }
    ensures refused { T.tells tree.new → IfErr result (RefusesNumber S.number (T.disk tree.old).tree) }
    ensures told { T.tells tree.new → T.tells tree.old }
    ensures faults { (T.disk tree.old).faults ≤ (T.disk tree.new).faults }
    ensures undamaged { T.tells tree.new → (p : Path) → result ≢ Err (MountFault.Damaged p) }
    ensures not_the_device { IsErrOf result MountFault.Device → ⊥ }
    ensures cause { IsErrOf result MountFault.Tree → Counted (T.disk tree.old).faults (T.disk tree.new).faults }
{
    match side.read_seq(alloc, tree)? {
        Some(number) => Ok(number),
        None => Err(MountFault::BadSeq),
    }
}

// Whether transactions may be done on the tree.
fn look<T: FileTree, S: Side<T>>(alloc: Global, side: &S, tree: &mut T) -> Result<(), MountFault>
    ensures laid { T.tells tree.new → OnOk result (S.laid (S.set side.now) (T.disk tree.old).tree) }
    ensures still { T.tells tree.new → Still (T.disk tree.old) (T.disk tree.new) }
    ensures refused { T.tells tree.new → IfErr result (RefusesLook (S.laid (S.set side.now)) (T.disk tree.old).tree) }
    ensures told { T.tells tree.new → T.tells tree.old }
    ensures faults { (T.disk tree.old).faults ≤ (T.disk tree.new).faults }
    ensures not_the_device { IsErrOf result MountFault.Device → ⊥ }
    ensures cause { IsErrOf result MountFault.Tree → Counted (T.disk tree.old).faults (T.disk tree.new).faults }
{
    side.look_over(alloc, tree)?;
    Ok(())
}

/// Makes both sides stable, loads the ring, reads the committed number and looks over the tree. It changes nothing that
/// reads, and brings no image on either side.
pub fn find<T: FileTree, S: Side<T>, D: Device>(
    alloc: Global,
    side: &S,
    tree: &mut T,
    dev: &mut D,
    fsid: &[u8; 16],
) -> Result<Found, MountFault>
    ensures stays { T.tells tree.new → Stays (T.disk tree.old) (T.disk tree.new) }
    ensures settled { T.tells tree.new → OnOk result (Everywhere (T.disk tree.new) (λ t. t ≡ (T.disk tree.old).tree)) }
    ensures laid { T.tells tree.new → OnOk result (S.laid (S.set side.now) (T.disk tree.old).tree) }
    ensures ready { T.tells tree.new → OnOk result (S.ready (S.set side.now) (T.disk tree.new)) }
    ensures number { T.tells tree.new → IfOk result (λ found. S.number (T.disk tree.old).tree found.committed) }
    ensures small { IfOk result (λ found. found.committed < 2 ^ 63) }
    ensures head { D.tells dev.new → IfOk result (λ found. head_of (D.state dev.old).disk.reads ≡ Some found.ring.head) }
    ensures loaded { D.tells dev.new → IfOk result (λ found. Loaded found.ring (D.state dev.new).disk) }
    ensures same { D.tells dev.new → OnOk result ((D.state dev.new).disk ≡ settled (D.state dev.old).disk.reads) }
    ensures untold { IfOk result (λ found. found.ring.count ≡ 0) }
    ensures fsid { IfOk result (λ found. found.ring.head.fsid ≡ fsid.now) }
    ensures unspent { IfOk result (λ found. IsUnspent found.ring.head) }
    ensures size { IfOk result (λ found. found.ring.head.size ≡ (D.state dev.new).size) }
    ensures no_gap { IfOk result (λ found. found.ring.head.seq ≤ found.committed + 1) }
    ensures refused { T.tells tree.new → D.tells dev.new
        → IfErr result (Explains S.fits S.number (S.laid (S.set side.now)) fsid.now (T.disk tree.old).tree (D.state dev.old).disk.reads) }
    ensures reads { D.tells dev.new → IfErr result (λ fault. IsFoundFirst fault → (D.state dev.new).disk.reads ≡ (D.state dev.old).disk.reads) }
    ensures crash { D.tells dev.new → ReadsSound (D.state dev.old).disk → KeepsSince (Within (D.state dev.old).disk) (D.state dev.old) (D.state dev.new) }
    ensures told { T.tells tree.new → T.tells tree.old }
    ensures honest { D.tells dev.new → D.tells dev.old }
    ensures extent { (D.state dev.new).size ≡ (D.state dev.old).size }
    ensures tree { IsErrOf result MountFault.Tree → Counted (T.disk tree.old).faults (T.disk tree.new).faults }
    ensures device { IsErrOf result MountFault.Device → Counted (D.state dev.old).faults (D.state dev.new).faults }
    ensures tree_faults { (T.disk tree.old).faults ≤ (T.disk tree.new).faults }
    ensures device_faults { (D.state dev.old).faults ≤ (D.state dev.new).faults }
{
    match side.sync_all(tree) {
        Ok(()) => {}
        Err(_) => return Err(MountFault::Tree),
    }
    let ring = load(dev, fsid)?;
    let committed = match committed_number(alloc, side, tree) {
        Ok(committed) => committed,
        Err(fault) => return Err(fault),
    };
    let start = ring.start_seq();
    if start > committed + 1 {
        return Err(MountFault::JournalGap { start, committed });
    }
    match look(alloc, side, tree) {
        Ok(()) => {}
        Err(fault) => return Err(fault),
    }
    Ok(Found { ring, committed })
}
