//! Each method makes one call of the system, and then notes it with its answer.
ghost use Rattle.std.specs.Prelude.{◌≡◌, ◌<◌, ◌≤◌, [], length, IfOk};
ghost use Rattle.dev_file.specs.Notes.{calls_of};

use crate::Calls;
use crate::record::{ASKED, FAILED, GAVE, NOT_SYNCED, Record, SYNCED, WROTE};
use std::fs::OpenFile;
use std::io;
use std::io::ErrorKind;
use std::os::unix::fs::FileExt;
use std::rt::Files;

/// An open file of the operating system, which notes the calls on it.
#[derive(Drop)]
pub struct NotedFile<R: Files> {
    file: R::File,
    log: Record,
}

impl<R: Files> NotedFile<R> {
    /// This file, from which nothing has been asked.
    pub(crate) fn new(file: R::File) -> Self
        ensures { calls_of result.log.notes ≡ [] }
    {
        NotedFile {
            file,
            log: Record::new(),
        }
    }
}

// A call that gives no byte has failed: the file is shorter than it was.
fn read(file: &impl FileExt, at: u64, into: &mut [u8]) -> io::Result<usize>
    ensures { IfOk result (λ n. (0 < n) × (n ≤ length into.old)) }
{
    let got = file.read_at(into, at)?;
    if got == 0 {
        return Err(ErrorKind::UnexpectedEof.into());
    }
    Ok(got)
}

// A call that takes no byte has failed.
fn write(file: &impl FileExt, at: u64, bytes: &[u8]) -> io::Result<usize>
    ensures { IfOk result (λ n. (0 < n) × (n ≤ length bytes.now)) }
{
    let taken = file.write_at(bytes, at)?;
    if taken == 0 {
        return Err(ErrorKind::WriteZero.into());
    }
    Ok(taken)
}

impl<R: Files> Calls for NotedFile<R>
where
    R::File: FileExt,
{
    ghost history = { λ f. calls_of f.log.notes };

    fn ask(&mut self, at: u64, bytes: &[u8]) {
        self.log.note(&[ASKED, at], bytes);
    }

    fn write_some(&mut self, at: u64, bytes: &[u8]) -> io::Result<usize> {
        let answer = write(&self.file, at, bytes);
        match answer {
            Ok(n) => self.log.note(&[WROTE, at], &bytes[..n]),
            Err(_) => self.log.note(&[FAILED, at], &[]),
        }
        answer
    }

    fn read_some(&mut self, at: u64, into: &mut [u8]) -> io::Result<usize> {
        let answer = read(&self.file, at, into);
        match answer {
            Ok(n) => self.log.note(&[GAVE, at], &into[..n]),
            Err(_) => self.log.note(&[FAILED, at], &[]),
        }
        answer
    }

    fn flush(&mut self) -> io::Result<()> {
        let answer = self.file.sync_data();
        match answer {
            Ok(()) => self.log.note(&[SYNCED, 0], &[]),
            Err(_) => self.log.note(&[NOT_SYNCED, 0], &[]),
        }
        answer
    }
}
