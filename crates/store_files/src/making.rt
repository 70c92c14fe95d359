// The directories of a store.
ghost use Rattle.std.specs.Prelude.{◌≡◌, OnOk, IsErrOf};
ghost use Rattle.tree_api.specs.Counts.{Counts};
ghost use Rattle.tree_api.specs.Disk.{Everywhere, Keeps, Leaves};
ghost use Rattle.store_files.specs.Steps.{Among, AllIn, IsBare, dir_paths, dir_items, store_items, store_paths, Unfinished};

use crate::paths::{
    aside, current, fsid_path, key_path, number_path, omap, settings_path, trash, version_path,
};
use crate::settings::settings_text;
use crate::steps::{add_dir, add_file};
use crate::texts::{fsid_text, version_text, zero_text};
use fs_names::Settings;
use std::alloc::Global;
use tree_api::{FileTree, TreeError};

/// Makes the directories of a store in a tree where nothing stands.
pub(crate) fn make_dirs<T: FileTree>(alloc: Global, tree: &mut T) -> Result<(), TreeError>
    requires bare { T.tells tree.old → IsBare (T.disk tree.old).tree }
    ensures told { T.tells tree.new → T.tells tree.old }
    ensures counts { Counts (IsErrOf result TreeError.Refused) 0 0 (T.disk tree.old) (T.disk tree.new) }
    ensures leaves { T.tells tree.new → Leaves (Among dir_paths) (T.disk tree.old) (T.disk tree.new) }
    ensures stand { T.tells tree.new → OnOk result (Everywhere (T.disk tree.new) (AllIn dir_items)) }
{
    let current = current(alloc)?;
    let omap = omap(alloc)?;
    let aside = aside(alloc)?;
    let trash = trash(alloc)?;
    add_dir(tree, &current)?;
    add_dir(tree, &omap)?;
    add_dir(tree, &aside)?;
    add_dir(tree, &trash)?;
    Ok(())
}

/// Makes a store's files in a tree where nothing stands. The version is written last, so that at no moment a crash leaves
/// an image with a version that lacks anything else.
pub(crate) fn make_files<T: FileTree>(
    alloc: Global,
    tree: &mut T,
    fsid: &[u8; 16],
    set: &Settings,
) -> Result<(), TreeError>
    requires bare { T.tells tree.old → IsBare (T.disk tree.old).tree }
    ensures told { T.tells tree.new → T.tells tree.old }
    ensures counts { Counts (IsErrOf result TreeError.Refused) 0 0 (T.disk tree.old) (T.disk tree.new) }
    ensures leaves { T.tells tree.new → Leaves (Among store_paths) (T.disk tree.old) (T.disk tree.new) }
    ensures each { T.tells tree.new → Everywhere (T.disk tree.old) IsBare → Keeps (Unfinished fsid.now set.now) (T.disk tree.old) (T.disk tree.new) }
    ensures stand { T.tells tree.new → OnOk result (Everywhere (T.disk tree.new) (AllIn (store_items fsid.now set.now))) }
{
    let number = number_path(alloc)?;
    let zero = zero_text(alloc)?;
    let key = key_path(alloc)?;
    let fsid_file = fsid_path(alloc)?;
    let fsid_bytes = fsid_text(alloc, fsid)?;
    let settings_file = settings_path(alloc)?;
    let settings_bytes = settings_text(alloc, set)?;
    let version_file = version_path(alloc)?;
    let version_bytes = version_text(alloc, 1)?;
    make_dirs(alloc, tree)?;
    add_file(tree, &number, &zero)?;
    add_file(tree, &key, b"")?;
    add_file(tree, &fsid_file, &fsid_bytes)?;
    add_file(tree, &settings_file, &settings_bytes)?;
    add_file(tree, &version_file, &version_bytes)?;
    Ok(())
}
