// What is done with files and folders. What a call has changed is stable once it has answered.
ghost use Rattle.std.specs.Prelude.{◌≤◌, length, IfOk};

use crate::layout::above;
use std::fs::{Metadata, OpenFile, OpenOptions};
use std::io::{ErrorKind, Read, Seek, SeekFrom, Write};
use std::rt::Files;
use std::{fs, io};

/// What stands at this path, or none.
pub fn look(rt: &impl Files, path: &str) -> io::Result<Option<Metadata>> {
    match fs::symlink_metadata(rt, path) {
        Ok(found) => Ok(Some(found)),
        Err(error) => match error.kind() {
            ErrorKind::NotFound | ErrorKind::NotADirectory => Ok(None),
            _ => Err(error),
        },
    }
}

/// Whether something stands at this path.
pub fn is_there(rt: &impl Files, path: &str) -> io::Result<bool> {
    Ok(look(rt, path)?.is_some())
}

/// Makes what a file holds, or the names in a folder, stable.
pub fn sync(rt: &impl Files, path: &str) -> io::Result<()> {
    fs::open(rt, path)?.sync_all()
}

/// The name of this path is stable, whether it is there or not. Without a folder above there is none to keep.
pub fn sync_name(rt: &impl Files, path: &str) -> io::Result<()> {
    if !is_there(rt, above(path))? {
        return Ok(());
    }
    sync(rt, above(path))
}

/// The names of these two paths are stable. Folders stand above both.
pub fn sync_names(rt: &impl Files, from: &str, to: &str) -> io::Result<()> {
    sync(rt, above(to))?;
    if above(from) == above(to) {
        return Ok(());
    }
    sync(rt, above(from))
}

/// A new folder.
pub fn make_dir(rt: &impl Files, path: &str) -> io::Result<()> {
    fs::create_dir(rt, path)?;
    sync(rt, above(path))
}

// A folder, where nothing stands.
fn make_missing(rt: &impl Files, path: &str) -> io::Result<()> {
    if is_there(rt, path)? {
        return Ok(());
    }
    make_dir(rt, path)
}

/// A folder and those above it, where they are missing. Those that stand are taken as stable.
pub fn make_dirs(rt: &impl Files, path: &str) -> io::Result<()> {
    if is_there(rt, path)? {
        return Ok(());
    }
    for end in 1..path.len() {
        if let Some((dir, rest)) = path.split_at_checked(end)
            && rest.starts_with('/')
        {
            make_missing(rt, dir)?;
        }
    }
    make_missing(rt, path)
}

// A folder. One that stands may be the work of a killed process, so its name is synced too, but in a folder above that
// may not be read: that one is another's.
fn settle_dir(rt: &impl Files, path: &str) -> io::Result<()> {
    if !is_there(rt, path)? {
        return make_dir(rt, path);
    }
    match sync(rt, above(path)) {
        Err(error) if error.kind() == ErrorKind::PermissionDenied => Ok(()),
        done => done,
    }
}

/// A folder and those above it, each made where it is missing, and all stable.
pub fn settle_dirs(rt: &impl Files, path: &str) -> io::Result<()> {
    for end in 1..path.len() {
        if let Some((dir, rest)) = path.split_at_checked(end)
            && rest.starts_with('/')
        {
            settle_dir(rt, dir)?;
        }
    }
    settle_dir(rt, path)
}

/// A new file. It has no bytes, so its name is all that is to be stable.
pub fn make_file(rt: &impl Files, path: &str) -> io::Result<()> {
    let mut options = OpenOptions::new();
    options.write(true).create_new(true);
    options.open(rt, path)?;
    sync(rt, above(path))
}

/// A file has these bytes from now on, or after a crash what it had before. It is written at `new` first.
pub fn replace(rt: &impl Files, path: &str, new: &str, bytes: &[u8]) -> io::Result<()> {
    let mut file = fs::create(rt, new)?;
    file.write_all(bytes)?;
    file.sync_all()?;
    fs::rename(rt, new, path)?;
    sync(rt, above(path))
}

/// A file goes. One that has gone already is made to stay away.
pub fn remove_file(rt: &impl Files, path: &str) -> io::Result<()> {
    if is_there(rt, path)? {
        fs::remove_file(rt, path)?;
    }
    sync_name(rt, path)
}

/// A folder goes with all that it has. One that has gone already is made to stay away.
pub fn remove_all(rt: &(impl Files + AllocGlobal), path: &str) -> io::Result<()> {
    if is_there(rt, path)? {
        fs::remove_dir_all(rt, path)?;
    }
    sync_name(rt, path)
}

/// A file or folder moves.
pub fn rename(rt: &impl Files, from: &str, to: &str) -> io::Result<()> {
    fs::rename(rt, from, to)?;
    sync_names(rt, from, to)
}

/// The bytes of a file from a place on, as many as there are and fit. Answers how many.
pub fn read_at(rt: &impl Files, path: &str, at: u64, into: &mut [u8]) -> io::Result<usize>
    ensures within { IfOk result (λ n. n ≤ length into.old) }
{
    let mut file = fs::open(rt, path)?;
    file.seek(SeekFrom::Start(at))?;
    fill(&mut file, into)
}

// Reads until the end or until the piece is full.
fn fill(file: &mut impl Read, into: &mut [u8]) -> io::Result<usize>
    ensures within { IfOk result (λ n. n ≤ length into.old) }
{
    let mut done = 0;
    while done < into.len() {
        let count = file.read(&mut into[done..])?;
        if count == 0 {
            break;
        }
        done += count;
    }
    Ok(done)
}

/// Writes bytes at a place of a file.
pub fn write_at(rt: &impl Files, path: &str, at: u64, bytes: &[u8]) -> io::Result<()> {
    let mut file = OpenOptions::new().write(true).open(rt, path)?;
    file.seek(SeekFrom::Start(at))?;
    file.write_all(bytes)?;
    file.sync_data()
}

/// A file has this length.
pub fn set_len(rt: &impl Files, path: &str, len: u64) -> io::Result<()> {
    let file = OpenOptions::new().write(true).open(rt, path)?;
    file.set_len(len)?;
    file.sync_data()
}
