// A store made on a new tree and a device.
ghost use Rattle.std.specs.Prelude.{◌≡◌, ◌≤◌, ◌<◌, ℕ, All, Err, OnOk, OnErr, IfErr, IfOk, IsErrOf};
ghost use Rattle.fault_count.specs.Counted.{Counted};
ghost use Rattle.tree_api.specs.Disk.{Everywhere, Keeps, Leaves, Stays, Still};
ghost use Rattle.ring_images.specs.Headers.{IsSize};
ghost use Rattle.ring_journal.specs.State.{IsSettled};
ghost use Rattle.store_files.specs.News.{IsNew};
ghost use Rattle.store_files.specs.Stores.{IsStore, IsUsable};
ghost use Rattle.store_files.specs.Steps.{AllIn, Among, IsBare, Unfinished, store_items, store_paths};
ghost use Rattle.store_files.specs.Texts.{IsFsid};
ghost use Rattle.store_making.specs.Making.{IsMade, IsRefusal, MakesEmpty, TellsNew, TellsSize, Unmade, VersionLast};

use crate::fault::MakeFault;
use dev_api::Device;
use fs_names::Settings;
use ring_journal::{Ring, is_size};
use std::alloc::Global;
use store_files::is_new;
use tree_api::{FileTree, TreeError};

// Whether nothing stands in the tree.
fn look<T: FileTree>(alloc: Global, tree: &mut T) -> Result<(), MakeFault>
    ensures told { T.tells tree.new → T.tells tree.old }
    ensures still { T.tells tree.new → Still (T.disk tree.old) (T.disk tree.new) }
    ensures fits { T.tells tree.new → TellsNew (T.disk tree.old).tree result }
    ensures size { (size : ℕ) → result ≡ Err (MakeFault.DeviceSize size) → ⊥ }
    ensures device { result ≡ Err MakeFault.Device → ⊥ }
    ensures faults { (T.disk tree.old).faults ≤ (T.disk tree.new).faults }
    ensures cause { IsErrOf result MakeFault.Tree → Counted (T.disk tree.old).faults (T.disk tree.new).faults }
{
    match is_new(alloc, tree) {
        Ok(true) => Ok(()),
        Ok(false) => Err(MakeFault::NotEmpty),
        Err(TreeError::Refused) => Err(MakeFault::Tree),
        Err(TreeError::Memory) => Err(MakeFault::Memory),
    }
}

// Nothing else is left by a crash.
fn settle<T: FileTree>(tree: &mut T) -> Result<(), MakeFault>
    ensures told { T.tells tree.new → T.tells tree.old }
    ensures stays { T.tells tree.new → Stays (T.disk tree.old) (T.disk tree.new) }
    ensures bare { T.tells tree.new → IsNew (T.disk tree.old).tree → OnOk result (Everywhere (T.disk tree.new) IsBare) }
    ensures refusal { IfErr result (λ fault. fault ≡ MakeFault.Tree) }
    ensures faults { (T.disk tree.old).faults ≤ (T.disk tree.new).faults }
    ensures cause { IsErrOf result MakeFault.Tree → Counted (T.disk tree.old).faults (T.disk tree.new).faults }
{
    match tree.sync_all() {
        Ok(()) => Ok(()),
        Err(_) => Err(MakeFault::Tree),
    }
}

fn make_ring<D: Device>(dev: &mut D, fsid: &[u8; 16]) -> Result<(), MakeFault>
    requires size { IsSize (D.state dev.old).size }
    ensures made { D.tells dev.new → OnOk result (IsMade fsid.now (D.state dev.old).size (D.state dev.new).disk) }
    ensures settled { D.tells dev.new → OnOk result (IsSettled (D.state dev.new).disk) }
    ensures refusal { IfErr result (λ fault. IsRefusal fault → ⊥) }
    ensures tree { result ≡ Err MakeFault.Tree → ⊥ }
    ensures honest { D.tells dev.new → D.tells dev.old }
    ensures extent { (D.state dev.new).size ≡ (D.state dev.old).size }
    ensures faults { (D.state dev.old).faults ≤ (D.state dev.new).faults }
    ensures cause { IsErrOf result MakeFault.Device → Counted (D.state dev.old).faults (D.state dev.new).faults }
{
    Ring::make(dev, fsid)?;
    Ok(())
}

fn make_files<T: FileTree>(
    alloc: Global,
    tree: &mut T,
    fsid: &[u8; 16],
    set: &Settings,
) -> Result<(), MakeFault>
    ensures told { T.tells tree.new → T.tells tree.old }
    ensures fits { T.tells tree.new → TellsNew (T.disk tree.old).tree result }
    ensures leaves { T.tells tree.new → Leaves (Among store_paths) (T.disk tree.old) (T.disk tree.new) }
    ensures each { T.tells tree.new → Everywhere (T.disk tree.old) IsBare → Keeps (Unfinished fsid.now set.now) (T.disk tree.old) (T.disk tree.new) }
    ensures stand { T.tells tree.new → OnOk result (Everywhere (T.disk tree.new) (AllIn (store_items fsid.now set.now))) }
    ensures size { (size : ℕ) → result ≡ Err (MakeFault.DeviceSize size) → ⊥ }
    ensures device { result ≡ Err MakeFault.Device → ⊥ }
    ensures faults { (T.disk tree.old).faults ≤ (T.disk tree.new).faults }
    ensures cause { IsErrOf result MakeFault.Tree → Counted (T.disk tree.old).faults (T.disk tree.new).faults }
{
    match store_files::make_store(alloc, tree, fsid, set) {
        Ok(()) => Ok(()),
        Err(fault) => Err(MakeFault::from(fault)),
    }
}

fn are_bytes(bytes: &[u8])
    ensures { All (λ b. b < 256) bytes.now }
{}

// An identity has 16 bytes.
fn is_fsid(fsid: &[u8; 16])
    ensures { IsFsid fsid.now }
{
    are_bytes(fsid.as_slice());
}

/// Makes a store in a new tree and on a device of a ring's size, and refuses all others untouched.
///
/// The ring is made first, and the version is written last: no image of the tree has a version before the ring is there.
pub fn make_store<T: FileTree, D: Device>(
    alloc: Global,
    tree: &mut T,
    dev: &mut D,
    fsid: &[u8; 16],
    set: &Settings,
) -> Result<(), MakeFault>
    ensures size { TellsSize (D.state dev.old).size result }
    ensures fits { T.tells tree.new → TellsNew (T.disk tree.old).tree result }
    ensures refused { T.tells tree.new → IfErr result (λ fault. IsRefusal fault → Still (T.disk tree.old) (T.disk tree.new)) }
    ensures untouched { T.tells tree.new → IfErr result (λ fault. IsRefusal fault → D.state dev.new ≡ D.state dev.old) }
    ensures each { T.tells tree.new → Everywhere (T.disk tree.old) IsBare → Keeps (Unfinished fsid.now set.now) (T.disk tree.old) (T.disk tree.new) }
    ensures order { T.tells tree.new → D.tells dev.new → Everywhere (T.disk tree.old) IsBare
        → Keeps (VersionLast fsid.now set.now (D.state dev.old).size (D.state dev.new).disk) (T.disk tree.old) (T.disk tree.new) }
    ensures stores { T.tells tree.new → IsUsable set.now → OnOk result (Everywhere (T.disk tree.new) (λ t. IsStore t fsid.now set.now)) }
    ensures closed { T.tells tree.new → D.tells dev.new → IsUsable set.now → OnOk result
        (Everywhere (T.disk tree.new) (λ t. MakesEmpty fsid.now set.now t (D.state dev.new).disk)) }
    ensures ring { D.tells dev.new → OnOk result (IsMade fsid.now (D.state dev.old).size (D.state dev.new).disk) }
    ensures settled { D.tells dev.new → OnOk result (IsSettled (D.state dev.new).disk) }
    ensures each_pair { T.tells tree.new → D.tells dev.new → Everywhere (T.disk tree.old) IsBare → IsUsable set.now
        → Everywhere (T.disk tree.new) (λ t. Unmade fsid.now set.now (D.state dev.old).size t (D.state dev.new).disk) }
    ensures told { T.tells tree.new → T.tells tree.old }
    ensures honest { D.tells dev.new → D.tells dev.old }
    ensures extent { (D.state dev.new).size ≡ (D.state dev.old).size }
    ensures tree_cause { IsErrOf result MakeFault.Tree → Counted (T.disk tree.old).faults (T.disk tree.new).faults }
    ensures device_cause { IsErrOf result MakeFault.Device → Counted (D.state dev.old).faults (D.state dev.new).faults }
    ensures tree_faults { (T.disk tree.old).faults ≤ (T.disk tree.new).faults }
    ensures device_faults { (D.state dev.old).faults ≤ (D.state dev.new).faults }
{
    is_fsid(fsid);
    let size = dev.size();
    if !is_size(size) {
        return Err(MakeFault::DeviceSize { size });
    }
    match look(alloc, tree) {
        Ok(()) => {}
        Err(fault) => return Err(fault),
    }
    match settle(tree) {
        Ok(()) => {}
        Err(fault) => return Err(fault),
    }
    match make_ring(dev, fsid) {
        Ok(()) => {}
        Err(fault) => return Err(fault),
    }
    match make_files(alloc, tree, fsid, set) {
        Ok(()) => {}
        Err(fault) => return Err(fault),
    }
    Ok(())
}
