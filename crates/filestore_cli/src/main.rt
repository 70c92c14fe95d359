//! FileStore: an object store that keeps each object as a file, with a journal before it.
//!
//! `ROOT JOURNAL WORD..` runs a command on the tree of files at ROOT, whose journal is the file JOURNAL.
#![tactic(auto)]

mod closing;
mod command;
mod opening;
mod run;
mod status;
mod stop;
#[cfg(test)]
mod tests;

use command::read_command;
use dev_edge::EdgeFault;
use dev_file::{FileDevice, Start, Unknown};
use io_edge::{RealSink, RealSource, Text};
use run::run;
use status::Status;
use std::alloc::AllocError;
use std::fs::Files;
use std::io::ErrorKind;
use std::os::unix::fs::FileExt;
use std::process::ExitCode;
use std::rt::Env;
use std::{env, io};
use stop::{Stop, end};
use tree_real::RealTree;

/// What the command line says.
#[derive(Drop)]
struct Arguments {
    root: String,
    journal: String,
    words: Vec<Text>,
}

/// Reads the command line. None where it lacks ROOT or JOURNAL.
fn read_arguments(rt: &(impl Env + AllocGlobal)) -> io::Result<Option<Arguments>> {
    let mut args = env::args(rt)?.skip(1);
    let Some(root) = args.next() else {
        return Ok(None);
    };
    let Some(journal) = args.next() else {
        return Ok(None);
    };
    let mut words = Vec::new(rt.alloc());
    for word in args {
        words.push(Text::from_vec(word.into_bytes()))?;
    }
    Ok(Some(Arguments {
        root,
        journal,
        words,
    }))
}

/// Runs the command of the command line over standard input and output, the tree at its root and the file of the journal.
/// `start` stands for what that file holds as it is opened.
fn status_of<R: Env + AllocGlobal + Files + Input + Print + Clone + Drop, S: Start>(
    rt: &R,
    start: S,
) -> Result<Status, AllocError>
where
    R::File: FileExt,
{
    let mut source = RealSource::new(rt.clone()?);
    let mut sink = RealSink::new(rt.clone()?);
    let arguments = match read_arguments(rt) {
        Ok(Some(arguments)) if read_command(&arguments.words).is_some() => arguments,
        Err(error) if error.kind() == ErrorKind::OutOfMemory => {
            return Ok(end(rt.alloc(), &mut sink, Stop::Memory));
        }
        // Words that aren't text are no command. Nothing is opened for words that aren't one.
        Ok(_) | Err(_) => return Ok(end(rt.alloc(), &mut sink, Stop::Usage)),
    };
    let mut tree = match RealTree::at(rt.clone()?, arguments.root.as_str()) {
        Ok(tree) => tree,
        Err(EdgeFault::Outside) => return Ok(end(rt.alloc(), &mut sink, Stop::Tree)),
        Err(EdgeFault::Memory) => return Ok(end(rt.alloc(), &mut sink, Stop::Memory)),
    };
    let mut device = match FileDevice::at(rt, arguments.journal.as_str(), start) {
        Ok(device) => device,
        Err(EdgeFault::Outside) => return Ok(end(rt.alloc(), &mut sink, Stop::Device)),
        Err(EdgeFault::Memory) => return Ok(end(rt.alloc(), &mut sink, Stop::Memory)),
    };
    Ok(run(
        rt.alloc(),
        &arguments.words,
        &mut source,
        &mut tree,
        &mut device,
        &mut sink,
    ))
}

fn main(rt: HostRuntime) -> ExitCode {
    ExitCode::from(status_of(&rt, Unknown).unwrap_or(Status::MEMORY).0)
}
