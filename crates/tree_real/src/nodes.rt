// Nodes: what they are and hold, and how they come and go.
ghost use Rattle.std.specs.Prelude.{◌≡◌, ◌≢◌, ◌≤◌, length, IfOk};
ghost use Rattle.std.specs.IoError.{error_kind};
ghost use Rattle.tree_api.specs.declared.tree.TreeError.TheVariants.{Memory, Refused};

use crate::disk;
use crate::layout::{Layout, Place};
use std::collections::BTreeMap;
use std::fs::Metadata;
use std::io::ErrorKind;
use std::rt::Files;
use std::{fs, io};
use tree_api::{Bytes, Entry, Kind, Stat, TreeError, TreePath, is_step};

/// Why a reading gave up.
pub fn fault(error: io::Error) -> TreeError
    ensures memory { error_kind error ≡ ErrorKind.OutOfMemory → result ≡ Memory }
    ensures refused { error_kind error ≢ ErrorKind.OutOfMemory → result ≡ Refused }
{
    match error.kind() {
        ErrorKind::OutOfMemory => TreeError::Memory,
        _ => TreeError::Refused,
    }
}

/// Why a change gave up that may have been made in part. Want of memory counts as refused there.
pub fn cut_off(_: io::Error) -> TreeError
    ensures { result ≡ Refused }
{
    TreeError::Refused
}

// What stands there. A link, say, is neither of the two.
fn kind_of(found: &Metadata) -> Result<Kind, TreeError> {
    if found.is_file() {
        Ok(Kind::File)
    } else if found.is_dir() {
        Ok(Kind::Dir)
    } else {
        Err(TreeError::Refused)
    }
}

pub fn stat(rt: &impl Files, layout: &Layout, path: &TreePath) -> Result<Option<Stat>, TreeError> {
    let node = layout.place(path)?.node;
    let Some(found) = disk::look(rt, &node).map_err(fault)? else {
        return Ok(None);
    };
    let kind = kind_of(&found)?;
    let len = match kind {
        Kind::File => found.len(),
        Kind::Dir => 0,
    };
    Ok(Some(Stat { kind, len }))
}

// What stands in a folder, by name.
fn kinds_in<R: Files + AllocGlobal + Clone + Drop>(
    rt: &R,
    folder: &str,
) -> Result<BTreeMap<Bytes, Kind>, TreeError> {
    let mut kinds = BTreeMap::new(rt.alloc());
    for entry in fs::read_dir(rt, folder).map_err(fault)? {
        let entry = entry.map_err(fault)?;
        let kind = kind_of(&entry.metadata().map_err(fault)?)?;
        kinds.insert(Bytes::new(rt.alloc(), entry.file_name().as_bytes())?, kind)?;
    }
    Ok(kinds)
}

pub fn list<R: Files + AllocGlobal + Clone + Drop>(
    rt: &R,
    layout: &Layout,
    dir: &TreePath,
) -> Result<Vec<Entry>, TreeError> {
    let kinds = kinds_in(rt, &layout.place(dir)?.node)?;
    let root = TreePath::root(rt.alloc());
    let mut entries = Vec::new(rt.alloc());
    for (name, kind) in &kinds {
        if !is_step(name.slice()) {
            return Err(TreeError::Refused);
        }
        let step = root.join(name.slice())?;
        entries.push(Entry { step, kind: *kind })?;
    }
    Ok(entries)
}

// Takes away what a node that went may have left beside this free place.
fn clear(rt: &(impl Files + AllocGlobal), place: &Place) -> io::Result<()> {
    if disk::is_there(rt, &place.node)? {
        return Err(io::Error::from(ErrorKind::AlreadyExists));
    }
    clear_side(rt, place)
}

// Takes away a side folder, where there is one.
fn clear_side(rt: &(impl Files + AllocGlobal), place: &Place) -> io::Result<()> {
    if !disk::is_there(rt, &place.side)? {
        return Ok(());
    }
    disk::remove_all(rt, &place.side)
}

pub fn make_dir(
    rt: &(impl Files + AllocGlobal),
    layout: &Layout,
    path: &TreePath,
) -> Result<(), TreeError> {
    let place = layout.place(path)?;
    clear(rt, &place).map_err(cut_off)?;
    disk::make_dir(rt, &place.node).map_err(cut_off)
}

pub fn create(
    rt: &(impl Files + AllocGlobal),
    layout: &Layout,
    path: &TreePath,
) -> Result<(), TreeError> {
    let place = layout.place(path)?;
    clear(rt, &place).map_err(cut_off)?;
    disk::make_file(rt, &place.node).map_err(cut_off)
}

pub fn remove_file(
    rt: &(impl Files + AllocGlobal),
    layout: &Layout,
    path: &TreePath,
) -> Result<(), TreeError> {
    let place = layout.place(path)?;
    fs::remove_file(rt, &place.node).map_err(cut_off)?;
    gone(rt, &place).map_err(cut_off)
}

pub fn remove_dir(
    rt: &(impl Files + AllocGlobal),
    layout: &Layout,
    path: &TreePath,
) -> Result<(), TreeError> {
    let place = layout.place(path)?;
    fs::remove_dir(rt, &place.node).map_err(cut_off)?;
    gone(rt, &place).map_err(cut_off)
}

// The name went; now what the node has beside it.
fn gone(rt: &(impl Files + AllocGlobal), place: &Place) -> io::Result<()> {
    disk::sync_name(rt, &place.node)?;
    clear_side(rt, place)
}

pub fn read_at(
    rt: &impl Files,
    layout: &Layout,
    path: &TreePath,
    at: u64,
    into: &mut [u8],
) -> Result<usize, TreeError>
    ensures within { IfOk result (λ n. n ≤ length into.old) }
{
    let node = layout.place(path)?.node;
    disk::read_at(rt, &node, at, into).map_err(fault)
}

pub fn write_at(
    rt: &impl Files,
    layout: &Layout,
    path: &TreePath,
    at: u64,
    bytes: &[u8],
) -> Result<(), TreeError> {
    let node = layout.place(path)?.node;
    disk::write_at(rt, &node, at, bytes).map_err(cut_off)
}

pub fn set_len(
    rt: &impl Files,
    layout: &Layout,
    path: &TreePath,
    len: u64,
) -> Result<(), TreeError> {
    let node = layout.place(path)?.node;
    disk::set_len(rt, &node, len).map_err(cut_off)
}
