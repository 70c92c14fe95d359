// A mount of whatever store a tree is.
ghost use Rattle.std.specs.Prelude.{◌≡◌, ◌≤◌, ◌-◌, ℕ, IfOk, OnOk, IfErr, IsErrOf};
ghost use Rattle.fault_count.specs.Counted.{Counted};
ghost use Rattle.fs_model.specs.Objects.{Objects};
ghost use Rattle.tree_api.specs.Disk.{Keeps, Stays, Still};
ghost use Rattle.dev_api.specs.Run.{KeepsSince};
ghost use Rattle.ring_images.specs.Held.{ReadsSound};
ghost use Rattle.ring_journal.specs.State.{IsSettled, IsUnspentImage};
ghost use Rattle.store_history.specs.Journal.{EachImage};
ghost use Rattle.store_history.specs.Pair.{StandsAt};
ghost use Rattle.store_mount.specs.Mounts.{AllStand, PairsCarry, StandsNow};
ghost use Rattle.tree_places.specs.Images.{StoreImage};
ghost use Rattle.store_files.specs.Stores.{IsStore};
ghost use Rattle.file_store.specs.Store.{IsItsTree, IsItsDevice};
ghost use Rattle.store_opening.specs.Mounts.{IsFoundFirst, IsFresh, IsNoStore, IsOutside, MountsAs, OfStore, Refuses, TellsStore};

use crate::fault::MountFault;
use crate::opening::open;
use dev_api::Device;
use file_store::FileStore;
use ring_journal::sound_law;
use std::alloc::Global;
use store_files::{Identity, one_law, read_store};
use tree_api::FileTree;

// Which store the tree is.
fn identity<T: FileTree>(alloc: Global, tree: &mut T) -> Result<Identity, MountFault>
    ensures told { T.tells tree.new → T.tells tree.old }
    ensures still { T.tells tree.new → Still (T.disk tree.old) (T.disk tree.new) }
    ensures store { T.tells tree.new → TellsStore (T.disk tree.old).tree result }
    ensures device { IsErrOf result MountFault.Device → ⊥ }
    ensures faults { (T.disk tree.old).faults ≤ (T.disk tree.new).faults }
    ensures cause { IsErrOf result MountFault.Tree → Counted (T.disk tree.old).faults (T.disk tree.new).faults }
{
    match read_store(alloc, tree) {
        Ok(identity) => Ok(identity),
        Err(fault) => Err(MountFault::from(fault)),
    }
}

/// Mounts the store that a tree and a device are: looks over the tree, does again what the journal has above the tree's
/// committed number, and begins a new epoch of the journal behind that number.
///
/// Where the two as they read stand for some objects, the mounted store holds these. At every exit each pair of what a
/// crash may leave stands for whatever some pair of before stood for.
pub fn mount<T: FileTree, D: Device>(
    alloc: Global,
    tree: &mut T,
    dev: &mut D,
) -> Result<FileStore, MountFault>
    ensures done { T.tells tree.new → D.tells dev.new → OfStore (T.disk tree.old).tree (λ id. (o : Objects) (n last : ℕ)
        → StandsNow (StoreImage id) id.fsid (T.disk tree.old) (D.state dev.old).disk o n last
        → IfOk result (λ s. MountsAs o n last s (T.disk tree.new) (D.state dev.new).disk)) }
    ensures exit { T.tells tree.new → D.tells dev.new → ReadsSound (D.state dev.old).disk → OfStore (T.disk tree.old).tree (λ id.
        PairsCarry (StoreImage id) id.fsid (T.disk tree.old).may (D.state dev.old).disk (T.disk tree.new).may (D.state dev.new).disk) }
    ensures moments { T.tells tree.new → D.tells dev.new → IsSettled (D.state dev.old).disk → IsUnspentImage (D.state dev.old).disk.reads
        → OfStore (T.disk tree.old).tree (λ id. (o : Objects) (n last : ℕ)
        → AllStand (StoreImage id) id.fsid o n last (T.disk tree.old).may (D.state dev.old).disk
        → Keeps (λ t. KeepsSince (EachImage (λ c. StandsAt (StoreImage id) id.fsid t c o n last)) (D.state dev.old) (D.state dev.new))
        (T.disk tree.old) (T.disk tree.new)) }
    ensures is_store { T.tells tree.new → IfOk result (λ s. IsStore (T.disk tree.old).tree s.identity.fsid s.identity.settings) }
    ensures fresh { IfOk result IsFresh }
    ensures size { IfOk result (λ s. s.ring.head.size ≡ (D.state dev.new).size) }
    ensures room { IfOk result (λ s. s.queue.size ≡ (D.state dev.new).size - 8192) }
    ensures tree { IfOk result (λ s. IsItsTree s (T.tells tree.new) (T.disk tree.new)) }
    ensures device { IfOk result (λ s. IsItsDevice s (D.tells dev.new) (D.state dev.new)) }
    ensures refused { T.tells tree.new → D.tells dev.new → IfErr result (Refuses (T.disk tree.old).tree (D.state dev.old).disk.reads) }
    ensures only { T.tells tree.new → D.tells dev.new → OfStore (T.disk tree.old).tree (λ id. (o : Objects) (n last : ℕ)
        → StandsNow (StoreImage id) id.fsid (T.disk tree.old) (D.state dev.old).disk o n last
        → IsUnspentImage (D.state dev.old).disk.reads → IfErr result IsOutside) }
    ensures no_store { T.tells tree.new → IfErr result (λ fault. IsNoStore fault → Still (T.disk tree.old) (T.disk tree.new)) }
    ensures untouched { T.tells tree.new → D.tells dev.new → IfErr result (λ fault. IsNoStore fault → D.state dev.new ≡ D.state dev.old) }
    ensures tree_stays { T.tells tree.new → IfErr result (λ fault. IsFoundFirst fault → Stays (T.disk tree.old) (T.disk tree.new)) }
    ensures device_reads { T.tells tree.new → D.tells dev.new → IfErr result (λ fault. IsFoundFirst fault → (D.state dev.new).disk.reads ≡ (D.state dev.old).disk.reads) }
    ensures told { T.tells tree.new → T.tells tree.old }
    ensures honest { D.tells dev.new → D.tells dev.old }
    ensures extent { (D.state dev.new).size ≡ (D.state dev.old).size }
    ensures tree_cause { IsErrOf result MountFault.Tree → Counted (T.disk tree.old).faults (T.disk tree.new).faults }
    ensures device_cause { IsErrOf result MountFault.Device → Counted (D.state dev.old).faults (D.state dev.new).faults }
    ensures tree_faults { (T.disk tree.old).faults ≤ (T.disk tree.new).faults }
    ensures device_faults { (D.state dev.old).faults ≤ (D.state dev.new).faults }
{
    one_law();
    sound_law();
    let identity = match identity(alloc, tree) {
        Ok(identity) => identity,
        Err(fault) => return Err(fault),
    };
    let store = match open(alloc, tree, dev, &identity) {
        Ok(store) => store,
        Err(fault) => return Err(fault),
    };
    Ok(store)
}
