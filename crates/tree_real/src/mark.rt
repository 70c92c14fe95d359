// Whether the last user of a tree ended in order.
//
// The file `dirty` below the root is the mark. It is made, and its name synced, before the first change of a process, and
// it is taken away by a process that ends in order, each change of which is stable then. So where no mark stands, all
// that reads below `tree` and `side` is stable. Where one stands, a killed process may have left a change that reads and
// that a loss of power would take away: all is synced before the tree is used, and then the mark goes. If that is cut off
// too, the mark still stands.
//
// After a loss of power what reads is what the disk has, so a mark that it brings back costs a walk and no more.

use crate::layout::{Layout, joined};
use crate::{disk, moves};
use std::alloc::AllocError;
use std::rt::Files;
use std::{fs, io};

/// The mark of a process on its tree.
#[derive(Debug, Drop)]
pub struct Mark {
    file: String,
    stands: bool,
}

impl Mark {
    /// The mark of a tree which this process hasn't changed.
    pub fn new(layout: &Layout) -> Result<Mark, AllocError> {
        Ok(Mark {
            file: layout.below("dirty")?,
            stands: false,
        })
    }

    /// Before a change.
    pub fn set(&mut self, rt: &impl Files) -> io::Result<()> {
        if self.stands {
            return Ok(());
        }
        disk::make_file(rt, &self.file)?;
        self.stands = true;
        Ok(())
    }

    /// At the end, where each change was answered and none refused.
    pub fn lift(&mut self, rt: &impl Files) -> io::Result<()> {
        if !self.stands {
            return Ok(());
        }
        disk::remove_file(rt, &self.file)?;
        self.stands = false;
        Ok(())
    }
}

/// Where a mark stands, or the note of a move: syncs each file and folder, ends the move, and takes the mark away.
/// Answers how many it synced.
pub fn settle<R: Files + AllocGlobal + Clone + Drop>(rt: &R, layout: &Layout) -> io::Result<u64> {
    let mark = layout.below("dirty")?;
    if !(disk::is_there(rt, &mark)? || moves::is_noted(rt, layout)?) {
        return Ok(0);
    }
    let nodes = sync_below(rt, layout.below("tree")?)?;
    let sides = sync_below(rt, layout.below("side")?)?;
    moves::finish(rt, layout)?;
    disk::remove_file(rt, &mark)?;
    Ok(nodes.saturating_add(sides))
}

// Syncs this folder, and each file and folder below it. Answers how many. No tree has so many that the loop ends early.
fn sync_below<R: Files + AllocGlobal + Clone + Drop>(rt: &R, dir: String) -> io::Result<u64> {
    let mut todo = Vec::new(rt.alloc());
    todo.push(dir)?;
    for count in 0..u64::MAX {
        let Some(path) = todo.pop() else {
            return Ok(count);
        };
        sync_one(rt, &path, &mut todo)?;
    }
    Ok(u64::MAX)
}

// Syncs a file or a folder, whose entries are to follow. A link, say, is none of the tree's.
fn sync_one<R: Files + AllocGlobal + Clone + Drop>(
    rt: &R,
    path: &str,
    todo: &mut Vec<String>,
) -> io::Result<()> {
    match disk::look(rt, path)? {
        Some(found) if found.is_dir() => push_entries(rt, path, todo)?,
        Some(found) if found.is_file() => {}
        _ => return Ok(()),
    }
    disk::sync(rt, path)
}

fn push_entries<R: Files + AllocGlobal + Clone + Drop>(
    rt: &R,
    dir: &str,
    todo: &mut Vec<String>,
) -> io::Result<()> {
    for entry in fs::read_dir(rt, dir)? {
        let entry = entry?;
        todo.push(joined(rt.alloc(), dir, entry.file_name())?)?;
    }
    Ok(())
}
