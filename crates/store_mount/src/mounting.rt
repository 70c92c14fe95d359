// A mount.
ghost use Rattle.std.specs.Prelude.{◌≡◌, ◌≢◌, ℕ, ◌+◌, ◌<◌, ◌≤◌, ◌^◌, List, length, Some, Err, OnOk, IfOk, IfErr, IsErrOf};
ghost use Rattle.fault_count.specs.Counted.{Counted};
ghost use Rattle.fs_model.specs.declared.op.Op.{Op};
ghost use Rattle.fs_model.specs.Objects.{Objects};
ghost use Rattle.tree_api.specs.Tree.{Path};
ghost use Rattle.tree_api.specs.Disk.{Keeps, Stays};
ghost use Rattle.dev_api.specs.Run.{KeepsSince};
ghost use Rattle.ring_images.specs.Held.{EachSound, ReadsSound, Within, synced};
ghost use Rattle.ring_journal.specs.State.{Holds, IsSettled, IsUnspent, IsUnspentImage, Loaded};
ghost use Rattle.store_history.specs.History.{end_of, replay_of};
ghost use Rattle.store_history.specs.Journal.{EachImage, IsAbove, RingSide};
ghost use Rattle.store_history.specs.Pair.{StandsAt};
ghost use Rattle.store_turns.specs.State.{Fits};
ghost use Rattle.store_turns.specs.declared.numbers.How.TheVariants.{Live};
ghost use Rattle.store_mount.specs.Causes.{AreFit, CanMount, Explains, IsFoundFirst, IsOutside, RefusesReplay};
ghost use Rattle.store_mount.specs.Mounts.{AllStand, MountedAs, PairsCarry, StandsNow, WasOrServes, WasOrStands};
ghost use Rattle.store_mount.specs.Replays.{SpellsAbove, WhereSpelled};

use crate::fault::MountFault;
use crate::finding::find;
use crate::replaying::replay;
use dev_api::Device;
use ring_journal::{Ring, sound_law};
use std::alloc::Global;
use store_journal::reopen;
use store_turns::{Numbers, Side};
use tree_api::FileTree;

/// What a mount gives.
#[derive(Drop)]
pub struct Mounted {
    /// The journal's ring, which takes more.
    pub ring: Ring,
    /// The store's numbers.
    pub numbers: Numbers,
}

// Does the entries above the committed number again, takes away what is left of files that were being built, and begins
// a new epoch of the ring behind that number.
fn go_on<T: FileTree, S: Side<T>, D: Device>(
    alloc: Global,
    side: &S,
    tree: &mut T,
    ring: &mut Ring,
    dev: &mut D,
    committed: u64,
) -> Result<(), MountFault>
    requires extent { (D.state dev.old).size ≡ ring.old.head.size }
    requires loaded { D.tells dev.old → Loaded ring.old (D.state dev.old).disk }
    requires untold { ring.old.count ≡ 0 }
    requires unspent { IsUnspent ring.old.head }
    requires no_gap { ring.old.head.seq ≤ committed + 1 }
    requires small { committed < 2 ^ 63 }
    requires ready { T.tells tree.old → S.ready (S.set side.now) (T.disk tree.old) }
    ensures keeps { T.tells tree.new → D.tells dev.new
        → WhereSpelled (S.image (S.set side.now)) committed ring.old.head.seq (synced (D.state dev.old).disk) (T.disk tree.old)
        (λ h. Keeps (S.image (S.set side.now) h committed committed (end_of h)) (T.disk tree.old) (T.disk tree.new)) }
    ensures done { T.tells tree.new → D.tells dev.new
        → WhereSpelled (S.image (S.set side.now)) committed ring.old.head.seq (synced (D.state dev.old).disk) (T.disk tree.old)
        (λ h. OnOk result (S.reads (S.set side.now) Live h (end_of h) (T.disk tree.new).tree)) }
    ensures crash { D.tells dev.new → (txns : List (List Op)) → SpellsAbove committed ring.old (D.state dev.old).disk txns
        → KeepsSince (EachSound (IsAbove ring.old.head.fsid committed txns)) (D.state dev.old) (D.state dev.new) }
    ensures ring { D.tells dev.new → (before : Objects) (txns : List (List Op)) → SpellsAbove committed ring.old (D.state dev.old).disk txns
        → OnOk result (RingSide ring.old.head.fsid (replay_of committed before txns) committed (committed + length txns) (committed + length txns) ring.new (D.state dev.new).disk) }
    ensures last { D.tells dev.new → (txns : List (List Op)) → SpellsAbove committed ring.old (D.state dev.old).disk txns
        → OnOk result (ring.new.head.seq + ring.new.count ≡ committed + length txns + 1) }
    ensures spelled { D.tells dev.new → OnOk result ((txns : List (List Op)) × SpellsAbove committed ring.old (D.state dev.old).disk txns × AreFit S.fits txns) }
    ensures counts { OnOk result ((last : ℕ) → last + 1 ≡ ring.new.head.seq + ring.new.count → Fits (record { journalled = last; committed = committed }) ring.new) }
    ensures holds { D.tells dev.new → OnOk result (Holds ring.new (D.state dev.new).disk) }
    ensures size { OnOk result (ring.new.head.size ≡ ring.old.head.size) }
    ensures fsid { OnOk result (ring.new.head.fsid ≡ ring.old.head.fsid) }
    ensures ready { T.tells tree.new → OnOk result (S.ready (S.set side.now) (T.disk tree.new)) }
    ensures refused { D.tells dev.new → IfErr result (RefusesReplay S.fits committed ring.old.head.seq (synced (D.state dev.old).disk)) }
    ensures late { T.tells tree.new → IfErr result (λ fault. IsFoundFirst fault → ⊥) }
    ensures device_stays { D.tells dev.new → IfErr result (λ fault. IsFoundFirst fault → (D.state dev.new).disk ≡ (D.state dev.old).disk) }
    ensures undamaged { T.tells tree.new → (p : Path) → result ≢ Err (MountFault.Damaged p) }
    ensures told { T.tells tree.new → T.tells tree.old }
    ensures honest { D.tells dev.new → D.tells dev.old }
    ensures extent { (D.state dev.new).size ≡ (D.state dev.old).size }
    ensures tree { IsErrOf result MountFault.Tree → Counted (T.disk tree.old).faults (T.disk tree.new).faults }
    ensures device { IsErrOf result MountFault.Device → Counted (D.state dev.old).faults (D.state dev.new).faults }
    ensures tree_faults { (T.disk tree.old).faults ≤ (T.disk tree.new).faults }
    ensures device_faults { (D.state dev.old).faults ≤ (D.state dev.new).faults }
{
    match replay(alloc, side, tree, ring, dev, committed) {
        Ok(()) => {}
        Err(fault) => return Err(fault),
    }
    side.tidy(alloc, tree)?;
    reopen(ring, dev, committed)?;
    Ok(())
}

/// Mounts what a crash or a close has left: looks over the tree, does again what the journal has above the tree's
/// committed number, takes away what is left of files that were being built, and begins a new epoch of the journal behind
/// that number.
///
/// Where what reads at entry stands for some objects, the mounted store holds these. At every exit each pair of what a
/// crash may leave stands for whatever some pair of before stood for.
pub fn mount<T: FileTree, S: Side<T>, D: Device>(
    alloc: Global,
    side: &S,
    tree: &mut T,
    dev: &mut D,
    fsid: &[u8; 16],
) -> Result<Mounted, MountFault>
    ensures done { T.tells tree.new → D.tells dev.new → (o : Objects) (n last : ℕ)
        → StandsNow (S.image (S.set side.now)) fsid.now (T.disk tree.old) (D.state dev.old).disk o n last
        → IfOk result (λ mounted. MountedAs (S.image (S.set side.now)) (S.reads (S.set side.now)) fsid.now o n last mounted (T.disk tree.new) (D.state dev.new).disk) }
    ensures exit { T.tells tree.new → D.tells dev.new → ReadsSound (D.state dev.old).disk
        → PairsCarry (S.image (S.set side.now)) fsid.now (T.disk tree.old).may (D.state dev.old).disk (T.disk tree.new).may (D.state dev.new).disk }
    ensures trees { T.tells tree.new → D.tells dev.new → (o : Objects) (n last : ℕ)
        → StandsNow (S.image (S.set side.now)) fsid.now (T.disk tree.old) (D.state dev.old).disk o n last
        → Keeps (WasOrStands (S.image (S.set side.now)) fsid.now (T.disk tree.old).may (D.state dev.old).disk.reads o n last) (T.disk tree.old) (T.disk tree.new) }
    ensures journals { T.tells tree.new → D.tells dev.new → ReadsSound (D.state dev.old).disk → (o : Objects) (n last : ℕ)
        → StandsNow (S.image (S.set side.now)) fsid.now (T.disk tree.old) (D.state dev.old).disk o n last
        → KeepsSince (EachImage (WasOrServes (S.image (S.set side.now)) fsid.now (D.state dev.old).disk o n last)) (D.state dev.old) (D.state dev.new) }
    ensures moments { T.tells tree.new → D.tells dev.new → IsSettled (D.state dev.old).disk → IsUnspentImage (D.state dev.old).disk.reads
        → (o : Objects) (n last : ℕ) → AllStand (S.image (S.set side.now)) fsid.now o n last (T.disk tree.old).may (D.state dev.old).disk
        → Keeps (λ t. KeepsSince (EachImage (λ c. StandsAt (S.image (S.set side.now)) fsid.now t c o n last)) (D.state dev.old) (D.state dev.new))
        (T.disk tree.old) (T.disk tree.new) }
    ensures counts { IfOk result (λ mounted. Fits mounted.numbers mounted.ring) }
    ensures ready { T.tells tree.new → OnOk result (S.ready (S.set side.now) (T.disk tree.new)) }
    ensures holds { D.tells dev.new → IfOk result (λ mounted. Holds mounted.ring (D.state dev.new).disk) }
    ensures size { IfOk result (λ mounted. mounted.ring.head.size ≡ (D.state dev.new).size) }
    ensures fsid { IfOk result (λ mounted. mounted.ring.head.fsid ≡ fsid.now) }
    ensures can { T.tells tree.new → D.tells dev.new
        → IfOk result (λ mounted. CanMount S.fits S.number (S.laid (S.set side.now)) fsid.now
        (T.disk tree.old).tree (D.state dev.old).disk.reads mounted.numbers.committed) }
    ensures refused { T.tells tree.new → D.tells dev.new
        → IfErr result (Explains S.fits S.number (S.laid (S.set side.now)) fsid.now (T.disk tree.old).tree (D.state dev.old).disk.reads) }
    ensures only { T.tells tree.new → D.tells dev.new → (o : Objects) (n last : ℕ)
        → (s : StandsNow (S.image (S.set side.now)) fsid.now (T.disk tree.old) (D.state dev.old).disk o n last) → AreFit S.fits s.txns
        → IsUnspentImage (D.state dev.old).disk.reads → IfErr result IsOutside }
    ensures tree_stays { T.tells tree.new → IfErr result (λ fault. IsFoundFirst fault → Stays (T.disk tree.old) (T.disk tree.new)) }
    ensures device_reads { D.tells dev.new → IfErr result (λ fault. IsFoundFirst fault → (D.state dev.new).disk.reads ≡ (D.state dev.old).disk.reads) }
    ensures no_image { D.tells dev.new → ReadsSound (D.state dev.old).disk
        → IfErr result (λ fault. IsFoundFirst fault → Within (D.state dev.old).disk (D.state dev.new).disk) }
    ensures told { T.tells tree.new → T.tells tree.old }
    ensures honest { D.tells dev.new → D.tells dev.old }
    ensures extent { (D.state dev.new).size ≡ (D.state dev.old).size }
    ensures tree { IsErrOf result MountFault.Tree → Counted (T.disk tree.old).faults (T.disk tree.new).faults }
    ensures device { IsErrOf result MountFault.Device → Counted (D.state dev.old).faults (D.state dev.new).faults }
    ensures tree_faults { (T.disk tree.old).faults ≤ (T.disk tree.new).faults }
    ensures device_faults { (D.state dev.old).faults ≤ (D.state dev.new).faults }
{
    sound_law();
    let found = match find(alloc, side, tree, dev, fsid) {
        Ok(found) => found,
        Err(fault) => return Err(fault),
    };
    let mut ring = found.ring;
    let committed = found.committed;
    match go_on(alloc, side, tree, &mut ring, dev, committed) {
        Ok(()) => {}
        Err(fault) => return Err(fault),
    }
    let journalled = ring.last_seq();
    Ok(Mounted {
        ring,
        numbers: Numbers {
            journalled,
            committed,
        },
    })
}
