// A device on a file of the operating system.
ghost use Rattle.std.specs.Prelude.{◌≡◌, [], IfOk};
ghost use Rattle.dev_file.specs.Device.{history_of, faults_of};

use crate::{FileDevice, NotedFile, Start};
use dev_edge::EdgeFault;
use std::fs::{OpenFile, OpenOptions};
use std::io::ErrorKind;
use std::os::unix::fs::FileExt;
use std::path::Path;
use std::rt::Files;
use std::{fs, io};

/// The bytes of a file that is made because there was none.
const NEW_SIZE: u64 = 67_108_864;

// Makes the names in the folder that has this path stable.
fn sync_folder(rt: &impl Files, path: &str) -> io::Result<()> {
    let folder = match Path::new(path).parent() {
        Some(folder) if !folder.as_str().is_empty() => folder,
        _ => Path::new("."),
    };
    fs::open(rt, folder)?.sync_all()
}

// Opens the file, with its length, and makes both and its name stable, whoever made them. An empty file is one that a
// crash left while it was made, so it counts as missing.
fn open_sized<R: Files>(rt: &R, path: &str) -> io::Result<(R::File, u64)> {
    let mut options = OpenOptions::new();
    options.read(true).write(true).create(true);
    let file = options.open(rt, path)?;
    let mut size = file.metadata()?.len();
    if size == 0 {
        file.set_len(NEW_SIZE)?;
        size = NEW_SIZE;
    }
    file.sync_all()?;
    sync_folder(rt, path)?;
    Ok((file, size))
}

impl<R: Files, S: Start> FileDevice<NotedFile<R>, S>
where
    R::File: FileExt,
{
    /// The device on this file, which is made of 67,108,864 zero bytes where it is missing or empty.
    ///
    /// What an earlier process wrote and didn't sync is synced first, so that what the file reads as is stable where
    /// its record of calls begins. `start` stands for what the file then holds. It is used up, so that code over any
    /// `S` opens one device with it.
    pub fn at(rt: &R, path: &str, _start: S) -> Result<Self, EdgeFault>
        ensures calls { IfOk result (λ d. history_of d ≡ []) }
        ensures faults { IfOk result (λ d. faults_of d ≡ 0) }
    {
        match open_sized(rt, path) {
            Ok((file, size)) => Ok(FileDevice::new(NotedFile::new(file), size)),
            Err(error) if error.kind() == ErrorKind::OutOfMemory => Err(EdgeFault::Memory),
            Err(_) => Err(EdgeFault::Outside),
        }
    }
}
