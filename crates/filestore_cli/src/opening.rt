// The store that a command runs its script on.
ghost use Rattle.std.specs.Prelude.{◌≡◌, ◌≤◌, IfOk, IfErr, OnOk};
ghost use Rattle.store_files.specs.Stores.{IsUsable};
ghost use Rattle.file_store.specs.Store.{Works, IsItsTree, IsItsDevice};
ghost use Rattle.filestore_cli.specs.Seen.{store_seen};
ghost use Rattle.filestore_cli.specs.Opened.{Opens};
ghost use Rattle.filestore_cli.specs.Run.{Begun, CanStart, CouldStart, KeepsStore, Unstarted, new_identity, IsStartCaused, IsStartStop};

use crate::command::Command;
use crate::stop::{Stop, make_stop, mount_stop};
use dev_api::Device;
use fs_names::{Mode, Settings};
use script_store::ScriptStore;
use std::alloc::Global;
use store_files::{Identity, one_law};
use store_making::make_store;
use store_opening::mount;
use tree_api::FileTree;

// Mounts the store that is there.
fn mount_store<T: FileTree, D: Device>(
    alloc: Global,
    tree: &mut T,
    dev: &mut D,
) -> Result<ScriptStore, Stop>
    ensures keeps { (store_seen T.FileTree D.Device tree.old tree.new dev.old dev.new).told → KeepsStore Command.Run (store_seen T.FileTree D.Device tree.old tree.new dev.old dev.new) }
    ensures opens { (store_seen T.FileTree D.Device tree.old tree.new dev.old dev.new).told → IfOk result (λ store. Begun Command.Run (store_seen T.FileTree D.Device tree.old tree.new dev.old dev.new) (Opens store (store_seen T.FileTree D.Device tree.old tree.new dev.old dev.new).new)) }
    ensures works { IfOk result (λ store. Works store.store) }
    ensures tree { IfOk result (λ store. IsItsTree store.store (T.tells tree.new) (T.disk tree.new)) }
    ensures device { IfOk result (λ store. IsItsDevice store.store (D.tells dev.new) (D.state dev.new)) }
    ensures could { (store_seen T.FileTree D.Device tree.old tree.new dev.old dev.new).told → OnOk result (CouldStart Command.Run (store_seen T.FileTree D.Device tree.old tree.new dev.old dev.new).old) }
    ensures refused { (store_seen T.FileTree D.Device tree.old tree.new dev.old dev.new).told → IfErr result (Unstarted Command.Run (store_seen T.FileTree D.Device tree.old tree.new dev.old dev.new)) }
    ensures free { (store_seen T.FileTree D.Device tree.old tree.new dev.old dev.new).told → CanStart Command.Run (store_seen T.FileTree D.Device tree.old tree.new dev.old dev.new).old → IfErr result IsStartStop }
    ensures cause { IfErr result (IsStartCaused (store_seen T.FileTree D.Device tree.old tree.new dev.old dev.new)) }
    ensures told { T.tells tree.new → T.tells tree.old }
    ensures honest { D.tells dev.new → D.tells dev.old }
    ensures tree_faults { (T.disk tree.old).faults ≤ (T.disk tree.new).faults }
    ensures faults { (D.state dev.old).faults ≤ (D.state dev.new).faults }
    ensures extent { (D.state dev.new).size ≡ (D.state dev.old).size }
{
    one_law();
    match mount(alloc, tree, dev) {
        Ok(store) => Ok(ScriptStore {
            store,
            opened: None,
        }),
        Err(fault) => Err(mount_stop(fault)),
    }
}

// What a new store is.
fn new_identity() -> Identity
    ensures is { result ≡ new_identity }
    ensures usable { IsUsable result.settings }
{
    Identity {
        fsid: [0; 16],
        settings: Settings {
            merge: 10,
            split: 2,
            lfn: 40,
            mode: Mode::WriteAhead,
        },
    }
}

// Makes the new store, and mounts it.
fn make_with<T: FileTree, D: Device>(
    alloc: Global,
    tree: &mut T,
    dev: &mut D,
    identity: &Identity,
) -> Result<ScriptStore, Stop>
    requires is { identity.now ≡ new_identity }
    requires usable { IsUsable identity.now.settings }
    ensures opens { (store_seen T.FileTree D.Device tree.old tree.new dev.old dev.new).told → IfOk result (λ store. Begun Command.RunNew (store_seen T.FileTree D.Device tree.old tree.new dev.old dev.new) (Opens store (store_seen T.FileTree D.Device tree.old tree.new dev.old dev.new).new)) }
    ensures works { IfOk result (λ store. Works store.store) }
    ensures tree { IfOk result (λ store. IsItsTree store.store (T.tells tree.new) (T.disk tree.new)) }
    ensures device { IfOk result (λ store. IsItsDevice store.store (D.tells dev.new) (D.state dev.new)) }
    ensures could { (store_seen T.FileTree D.Device tree.old tree.new dev.old dev.new).told → OnOk result (CouldStart Command.RunNew (store_seen T.FileTree D.Device tree.old tree.new dev.old dev.new).old) }
    ensures refused { (store_seen T.FileTree D.Device tree.old tree.new dev.old dev.new).told → IfErr result (Unstarted Command.RunNew (store_seen T.FileTree D.Device tree.old tree.new dev.old dev.new)) }
    ensures free { (store_seen T.FileTree D.Device tree.old tree.new dev.old dev.new).told → CanStart Command.RunNew (store_seen T.FileTree D.Device tree.old tree.new dev.old dev.new).old → IfErr result IsStartStop }
    ensures cause { IfErr result (IsStartCaused (store_seen T.FileTree D.Device tree.old tree.new dev.old dev.new)) }
    ensures told { T.tells tree.new → T.tells tree.old }
    ensures honest { D.tells dev.new → D.tells dev.old }
    ensures tree_faults { (T.disk tree.old).faults ≤ (T.disk tree.new).faults }
    ensures faults { (D.state dev.old).faults ≤ (D.state dev.new).faults }
    ensures extent { (D.state dev.new).size ≡ (D.state dev.old).size }
{
    match make_store(alloc, tree, dev, &identity.fsid, &identity.settings) {
        Ok(()) => mount_store(alloc, tree, dev),
        Err(fault) => Err(make_stop(fault)),
    }
}

// Makes a new store and mounts it.
fn make_new<T: FileTree, D: Device>(
    alloc: Global,
    tree: &mut T,
    dev: &mut D,
) -> Result<ScriptStore, Stop>
    ensures opens { (store_seen T.FileTree D.Device tree.old tree.new dev.old dev.new).told → IfOk result (λ store. Begun Command.RunNew (store_seen T.FileTree D.Device tree.old tree.new dev.old dev.new) (Opens store (store_seen T.FileTree D.Device tree.old tree.new dev.old dev.new).new)) }
    ensures works { IfOk result (λ store. Works store.store) }
    ensures tree { IfOk result (λ store. IsItsTree store.store (T.tells tree.new) (T.disk tree.new)) }
    ensures device { IfOk result (λ store. IsItsDevice store.store (D.tells dev.new) (D.state dev.new)) }
    ensures could { (store_seen T.FileTree D.Device tree.old tree.new dev.old dev.new).told → OnOk result (CouldStart Command.RunNew (store_seen T.FileTree D.Device tree.old tree.new dev.old dev.new).old) }
    ensures refused { (store_seen T.FileTree D.Device tree.old tree.new dev.old dev.new).told → IfErr result (Unstarted Command.RunNew (store_seen T.FileTree D.Device tree.old tree.new dev.old dev.new)) }
    ensures free { (store_seen T.FileTree D.Device tree.old tree.new dev.old dev.new).told → CanStart Command.RunNew (store_seen T.FileTree D.Device tree.old tree.new dev.old dev.new).old → IfErr result IsStartStop }
    ensures cause { IfErr result (IsStartCaused (store_seen T.FileTree D.Device tree.old tree.new dev.old dev.new)) }
    ensures told { T.tells tree.new → T.tells tree.old }
    ensures honest { D.tells dev.new → D.tells dev.old }
    ensures tree_faults { (T.disk tree.old).faults ≤ (T.disk tree.new).faults }
    ensures faults { (D.state dev.old).faults ≤ (D.state dev.new).faults }
    ensures extent { (D.state dev.new).size ≡ (D.state dev.old).size }
{
    let identity = new_identity();
    make_with(alloc, tree, dev, &identity)
}

/// The store that a command runs its script on.
pub fn start<T: FileTree, D: Device>(
    alloc: Global,
    command: Command,
    tree: &mut T,
    dev: &mut D,
) -> Result<ScriptStore, Stop>
    ensures opens { (store_seen T.FileTree D.Device tree.old tree.new dev.old dev.new).told → IfOk result (λ store. Begun command (store_seen T.FileTree D.Device tree.old tree.new dev.old dev.new) (Opens store (store_seen T.FileTree D.Device tree.old tree.new dev.old dev.new).new)) }
    ensures works { IfOk result (λ store. Works store.store) }
    ensures tree { IfOk result (λ store. IsItsTree store.store (T.tells tree.new) (T.disk tree.new)) }
    ensures device { IfOk result (λ store. IsItsDevice store.store (D.tells dev.new) (D.state dev.new)) }
    ensures could { (store_seen T.FileTree D.Device tree.old tree.new dev.old dev.new).told → OnOk result (CouldStart command (store_seen T.FileTree D.Device tree.old tree.new dev.old dev.new).old) }
    ensures refused { (store_seen T.FileTree D.Device tree.old tree.new dev.old dev.new).told → IfErr result (Unstarted command (store_seen T.FileTree D.Device tree.old tree.new dev.old dev.new)) }
    ensures free { (store_seen T.FileTree D.Device tree.old tree.new dev.old dev.new).told → CanStart command (store_seen T.FileTree D.Device tree.old tree.new dev.old dev.new).old → IfErr result IsStartStop }
    ensures cause { IfErr result (IsStartCaused (store_seen T.FileTree D.Device tree.old tree.new dev.old dev.new)) }
    ensures told { T.tells tree.new → T.tells tree.old }
    ensures honest { D.tells dev.new → D.tells dev.old }
    ensures tree_faults { (T.disk tree.old).faults ≤ (T.disk tree.new).faults }
    ensures faults { (D.state dev.old).faults ≤ (D.state dev.new).faults }
    ensures extent { (D.state dev.new).size ≡ (D.state dev.old).size }
{
    match command {
        Command::RunNew => make_new(alloc, tree, dev),
        Command::Run => mount_store(alloc, tree, dev),
    }
}
