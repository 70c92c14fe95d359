// What a tree spells of a store.
ghost use Rattle.std.specs.Prelude.{◌≡◌, ◌<◌, MatchBool, IfOk, IsErrOf};
ghost use Rattle.fs_names.specs.declared.settings.Settings.{Settings};
ghost use Rattle.tree_api.specs.Tree.{IsDir};
ghost use Rattle.tree_api.specs.Counts.{Counts};
ghost use Rattle.tree_api.specs.Disk.{Still};
ghost use Rattle.store_files.specs.Texts.{settings_text, IsSpelled};
ghost use Rattle.store_files.specs.Stores.{TellsText, Reads, IsUsable, HasVersion, HasFsid, HasSettings, StoreDirs, Told};

use crate::fault::StoreFault;
use crate::paths::{aside, current, fsid_path, omap, settings_path, trash, version_path};
use crate::settings::settings_of;
use crate::texts::{fsid_of, version_of};
use fs_names::{Mode, Settings};
use std::alloc::Global;
use tree_api::{FileTree, Kind, TreeError, TreePath};

/// Which store a tree is.
#[derive(Clone, Copy, Debug, PartialEq, Eq)]
pub struct Identity {
    pub fsid: [u8; 16],
    pub settings: Settings,
}

// The text of a file of at most 64 bytes. All texts of a store are as short.
fn short_text<T: FileTree>(
    alloc: Global,
    tree: &mut T,
    path: &TreePath,
) -> Result<Option<Vec<u8>>, TreeError>
    ensures told { T.tells tree.new → T.tells tree.old }
    ensures still { T.tells tree.new → Still (T.disk tree.old) (T.disk tree.new) }
    ensures counts { Counts (IsErrOf result TreeError.Refused) 1 0 (T.disk tree.old) (T.disk tree.new) }
    ensures text { T.tells tree.new → IfOk result (TellsText (T.disk tree.old).tree path.now) }
{
    let Some(stat) = tree.stat(path)? else {
        return Ok(None);
    };
    if stat.kind != Kind::File || stat.len > 64 {
        return Ok(None);
    }
    let mut bytes = [0; 64];
    let count = tree.read_at(path, 0, &mut bytes)?;
    let front = &bytes[..count];
    let text = Vec::from_slice(alloc, front)?;
    Ok(Some(text))
}

fn read_version<T: FileTree>(alloc: Global, tree: &mut T) -> Result<Option<u64>, TreeError>
    ensures told { T.tells tree.new → T.tells tree.old }
    ensures still { T.tells tree.new → Still (T.disk tree.old) (T.disk tree.new) }
    ensures counts { Counts (IsErrOf result TreeError.Refused) 1 0 (T.disk tree.old) (T.disk tree.new) }
    ensures version { T.tells tree.new → IfOk result (λ o. Reads (HasVersion (T.disk tree.old).tree) o) }
{
    let path = version_path(alloc)?;
    let Some(text) = short_text(alloc, tree, &path)? else {
        return Ok(None);
    };
    Ok(version_of(&text))
}

fn read_fsid<T: FileTree>(alloc: Global, tree: &mut T) -> Result<Option<[u8; 16]>, TreeError>
    ensures told { T.tells tree.new → T.tells tree.old }
    ensures still { T.tells tree.new → Still (T.disk tree.old) (T.disk tree.new) }
    ensures counts { Counts (IsErrOf result TreeError.Refused) 1 0 (T.disk tree.old) (T.disk tree.new) }
    ensures fsid { T.tells tree.new → IfOk result (λ o. Reads (HasFsid (T.disk tree.old).tree) o) }
{
    let path = fsid_path(alloc)?;
    let Some(text) = short_text(alloc, tree, &path)? else {
        return Ok(None);
    };
    let fsid = fsid_of(alloc, &text)?;
    Ok(fsid)
}

// Settings of the mode that is built.
fn usable_settings(text: &[u8]) -> Option<Settings>
    ensures { IsSpelled settings_text IsUsable text.now result }
{
    let settings = settings_of(text)?;
    match settings.mode {
        Mode::WriteAhead => Some(settings),
        Mode::Parallel => None,
    }
}

fn read_settings<T: FileTree>(alloc: Global, tree: &mut T) -> Result<Option<Settings>, TreeError>
    ensures told { T.tells tree.new → T.tells tree.old }
    ensures still { T.tells tree.new → Still (T.disk tree.old) (T.disk tree.new) }
    ensures counts { Counts (IsErrOf result TreeError.Refused) 1 0 (T.disk tree.old) (T.disk tree.new) }
    ensures settings { T.tells tree.new → IfOk result (λ o. Reads (HasSettings (T.disk tree.old).tree) o) }
{
    let path = settings_path(alloc)?;
    let Some(text) = short_text(alloc, tree, &path)? else {
        return Ok(None);
    };
    Ok(usable_settings(&text))
}

fn is_dir<T: FileTree>(tree: &mut T, path: &TreePath) -> Result<bool, TreeError>
    ensures told { T.tells tree.new → T.tells tree.old }
    ensures still { T.tells tree.new → Still (T.disk tree.old) (T.disk tree.new) }
    ensures counts { Counts (IsErrOf result TreeError.Refused) 1 0 (T.disk tree.old) (T.disk tree.new) }
    ensures dir { T.tells tree.new → IfOk result (λ b. MatchBool b (IsDir (T.disk tree.old).tree path.now) (IsDir (T.disk tree.old).tree path.now → ⊥)) }
{
    match tree.stat(path)? {
        Some(stat) => Ok(stat.kind == Kind::Dir),
        None => Ok(false),
    }
}

fn has_dirs<T: FileTree>(alloc: Global, tree: &mut T) -> Result<bool, TreeError>
    ensures told { T.tells tree.new → T.tells tree.old }
    ensures still { T.tells tree.new → Still (T.disk tree.old) (T.disk tree.new) }
    ensures counts { Counts (IsErrOf result TreeError.Refused) 4 0 (T.disk tree.old) (T.disk tree.new) }
    ensures dirs { T.tells tree.new → IfOk result (λ b. MatchBool b (StoreDirs (T.disk tree.old).tree) (StoreDirs (T.disk tree.old).tree → ⊥)) }
{
    let current = current(alloc)?;
    let omap = omap(alloc)?;
    let aside = aside(alloc)?;
    let trash = trash(alloc)?;
    if !is_dir(tree, &current)? {
        return Ok(false);
    }
    if !is_dir(tree, &omap)? {
        return Ok(false);
    }
    if !is_dir(tree, &aside)? {
        return Ok(false);
    }
    if !is_dir(tree, &trash)? {
        return Ok(false);
    }
    Ok(true)
}

/// The identity of the store that a tree is, or the first reason why it is none that can be used.
pub fn read_store<T: FileTree>(alloc: Global, tree: &mut T) -> Result<Identity, StoreFault>
    ensures told { T.tells tree.new → T.tells tree.old }
    ensures still { T.tells tree.new → Still (T.disk tree.old) (T.disk tree.new) }
    ensures counts { Counts (IsErrOf result StoreFault.Tree) 7 0 (T.disk tree.old) (T.disk tree.new) }
    ensures tells { T.tells tree.new → Told (T.disk tree.old).tree result }
{
    let Some(version) = read_version(alloc, tree)? else {
        return Err(StoreFault::NotAStore);
    };
    let Some(fsid) = read_fsid(alloc, tree)? else {
        return Err(StoreFault::NotAStore);
    };
    if version != 1 {
        return Err(StoreFault::WrongVersion { found: version });
    }
    let Some(settings) = read_settings(alloc, tree)? else {
        return Err(StoreFault::BadSettings);
    };
    if !has_dirs(alloc, tree)? {
        return Err(StoreFault::NotAStore);
    }
    Ok(Identity { fsid, settings })
}
