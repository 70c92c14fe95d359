// Side folders: the attributes of nodes, each a file of its value.
//
// A node's attributes are those of the side folder of its path. The side folder of a free path means nothing, and goes
// before a node is made there. A file of a value is never written in place, so it may stand in two side folders.
ghost use Rattle.std.specs.Prelude.{◌≡◌, ◌≢◌, ◌++◌, List, ℕ, Ok, IfOk, IsErrOf};
ghost use Rattle.hex.specs.Hex.{decode_of};
ghost use Rattle.tree_api.specs.declared.tree.TreeError.TheVariants.{Refused};

use crate::disk;
use crate::layout::{Layout, above, joined};
use crate::nodes::{cut_off, fault};
use hex::FromHexError;
use std::alloc::Global;
use std::collections::BTreeSet;
use std::rt::Files;
use std::{fs, io};
use tree_api::{AttrName, Bytes, TreeError, TreePath};

pub fn attr<R: Files + AllocGlobal>(
    rt: &R,
    layout: &Layout,
    path: &TreePath,
    name: &[u8],
) -> Result<Option<Vec<u8>>, TreeError> {
    let file = layout.attr(path, name)?;
    if !disk::is_there(rt, &file).map_err(fault)? {
        return Ok(None);
    }
    Ok(Some(fs::read(rt, &file).map_err(fault)?))
}

pub fn set_attr(
    rt: &impl Files,
    layout: &Layout,
    path: &TreePath,
    name: &[u8],
    value: &[u8],
) -> Result<(), TreeError> {
    let file = layout.attr(path, name)?;
    let new = layout.beside(&file)?;
    disk::make_dirs(rt, above(&file)).map_err(cut_off)?;
    disk::replace(rt, &file, &new, value).map_err(cut_off)
}

pub fn remove_attr(
    rt: &impl Files,
    layout: &Layout,
    path: &TreePath,
    name: &[u8],
) -> Result<(), TreeError> {
    let file = layout.attr(path, name)?;
    disk::remove_file(rt, &file).map_err(cut_off)
}

// A folder of attributes, whose names begin so.
#[derive(Drop)]
struct Folder {
    path: String,
    begin: Vec<u8>,
}

pub fn names<R: Files + AllocGlobal + Clone + Drop>(
    rt: &R,
    layout: &Layout,
    path: &TreePath,
) -> Result<Vec<AttrName>, TreeError> {
    let mut names = Vec::new(rt.alloc());
    for bytes in found_below(rt, layout.place(path)?.side)? {
        names.push(AttrName { bytes })?;
    }
    Ok(names)
}

// The names of the attributes in a side folder and in its folders of long names. No tree has so many that the loop ends
// early.
fn found_below<R: Files + AllocGlobal + Clone + Drop>(
    rt: &R,
    dir: String,
) -> Result<BTreeSet<Bytes>, TreeError> {
    let mut found = BTreeSet::new(rt.alloc());
    if !disk::is_there(rt, &dir).map_err(fault)? {
        return Ok(found);
    }
    let mut todo = Vec::new(rt.alloc());
    todo.push(Folder {
        path: dir,
        begin: Vec::new(rt.alloc()),
    })?;
    for _ in 0..u64::MAX {
        let Some(folder) = todo.pop() else {
            break;
        };
        read_folder(rt, &folder, &mut found, &mut todo)?;
    }
    Ok(found)
}

// The names in a folder, and the folders of long names in it. A file `new` is what a change that was cut off has left.
fn read_folder<R: Files + AllocGlobal + Clone + Drop>(
    rt: &R,
    folder: &Folder,
    found: &mut BTreeSet<Bytes>,
    todo: &mut Vec<Folder>,
) -> Result<(), TreeError> {
    for entry in fs::read_dir(rt, &folder.path).map_err(fault)? {
        let entry = entry.map_err(fault)?;
        let name = entry.file_name();
        if let Some(digits) = name.strip_prefix('_') {
            found.insert(Bytes::from_vec(longer(rt.alloc(), &folder.begin, digits)?))?;
        } else if let Some(digits) = name.strip_prefix('-') {
            todo.push(Folder {
                path: joined(rt.alloc(), &folder.path, name)?,
                begin: longer(rt.alloc(), &folder.begin, digits)?,
            })?;
        }
    }
    Ok(())
}

// These bytes, followed by those that the digits spell.
fn longer(alloc: Global, begin: &[u8], digits: &str) -> Result<Vec<u8>, TreeError>
    ensures bytes { IfOk result (λ bytes. (more : List ℕ) × (decode_of digits.now ≡ Ok more) × (bytes.items ≡ begin.now ++ more)) }
    ensures refused { IsErrOf result Refused → (more : List ℕ) → decode_of digits.now ≢ Ok more }
{
    let mut bytes = Vec::from_slice(alloc, begin)?;
    match hex::decode(alloc, digits) {
        Ok(more) => bytes.extend_from_slice(&more)?,
        Err(FromHexError::OutOfMemory) => return Err(TreeError::Memory),
        Err(_) => return Err(TreeError::Refused),
    }
    Ok(bytes)
}

/// The files of a side folder stand in a new one too, which is stable. Answers false, with a part of it done perhaps, where
/// there are folders among them, or where a file can't be linked.
pub fn link_all<R: Files + AllocGlobal + Clone + Drop>(
    rt: &R,
    from: &str,
    to: &str,
) -> io::Result<bool> {
    disk::make_dirs(rt, to)?;
    for entry in fs::read_dir(rt, from)? {
        let entry = entry?;
        let file = joined(rt.alloc(), from, entry.file_name())?;
        let link = joined(rt.alloc(), to, entry.file_name())?;
        if fs::hard_link(rt, &file, &link).is_err() {
            return Ok(false);
        }
    }
    disk::sync(rt, to)?;
    Ok(true)
}
