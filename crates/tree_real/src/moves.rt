// Nodes that move, with their side folders.
//
// A node has at each moment the attributes of its side folder, and those alone, though its name and that folder move one
// after the other. A file with attributes that moves to a free place has its side folder at both places meanwhile: the one
// of a free place means nothing. Of any other move with a side folder a note is made first, and where the move was cut
// off behind the node's rename, the side folder follows when the tree is opened again.

use crate::layout::{Layout, Place, above};
use crate::nodes::{cut_off, fault};
use crate::note::Note;
use crate::{disk, side};
use std::rt::Files;
use std::{fs, io};
use tree_api::{TreeError, TreePath};

/// How a node moves.
#[derive(Clone, Copy)]
enum Way {
    /// It has no side folder, and none is in its way.
    Bare,
    /// A file with a side folder that moves to a free place.
    Beside,
    /// With a note.
    Noted { has_side: bool },
}

// How this node moves.
fn way_of(rt: &impl Files, old: &Place, new: &Place) -> io::Result<Way> {
    let has_side = disk::is_there(rt, &old.side)?;
    if !has_side && !disk::is_there(rt, &new.side)? {
        return Ok(Way::Bare);
    }
    let is_file = match disk::look(rt, &old.node)? {
        Some(found) => found.is_file(),
        None => false,
    };
    if has_side && is_file && !disk::is_there(rt, &new.node)? {
        Ok(Way::Beside)
    } else {
        Ok(Way::Noted { has_side })
    }
}

/// A node moves, and its side folder follows.
pub fn rename<R: Files + AllocGlobal + Clone + Drop>(
    rt: &R,
    layout: &Layout,
    from: &TreePath,
    to: &TreePath,
) -> Result<(), TreeError> {
    let old = layout.place(from)?;
    let new = layout.place(to)?;
    if old.node == new.node {
        return fs::rename(rt, &old.node, &new.node).map_err(cut_off);
    }
    match way_of(rt, &old, &new).map_err(fault)? {
        Way::Bare => disk::rename(rt, &old.node, &new.node).map_err(cut_off),
        Way::Beside => move_beside(rt, layout, &old, &new).map_err(cut_off),
        Way::Noted { has_side } => move_noted(rt, layout, &old, &new, has_side).map_err(cut_off),
    }
}

// The files of the side folder are linked at the new place first, and those of the old place go last.
fn move_beside<R: Files + AllocGlobal + Clone + Drop>(
    rt: &R,
    layout: &Layout,
    old: &Place,
    new: &Place,
) -> io::Result<()> {
    if disk::is_there(rt, &new.side)? {
        disk::remove_all(rt, &new.side)?;
    }
    if !side::link_all(rt, &old.side, &new.side)? {
        return move_noted(rt, layout, old, new, true);
    }
    disk::rename(rt, &old.node, &new.node)?;
    disk::remove_all(rt, &old.side)
}

// Where the rename is refused the note stays: it may have been made all the same.
fn move_noted<R: Files + AllocGlobal>(
    rt: &R,
    layout: &Layout,
    old: &Place,
    new: &Place,
    has_side: bool,
) -> io::Result<()> {
    let note = Note::new(rt.alloc(), layout, old, new, has_side)?;
    note.write(rt)?;
    disk::rename(rt, &old.node, &new.node)?;
    let side = if has_side {
        Some(old.side.as_str())
    } else {
        None
    };
    follow(rt, side, &new.side)?;
    note.remove(rt)
}

// The side folder, where the node had one, comes to stand at `to` in place of what is there.
fn follow(rt: &(impl Files + AllocGlobal), side: Option<&str>, to: &str) -> io::Result<()> {
    let Some(from) = side else {
        return disk::remove_all(rt, to);
    };
    if !disk::is_there(rt, from)? {
        return disk::sync_names(rt, from, to);
    }
    disk::remove_all(rt, to)?;
    disk::make_dirs(rt, above(to))?;
    disk::rename(rt, from, to)
}

/// Whether the note of a move stands.
pub fn is_noted(rt: &impl Files, layout: &Layout) -> io::Result<bool> {
    let note = layout.below("move")?;
    disk::is_there(rt, &note)
}

/// Ends a move that was cut off.
pub fn finish<R: Files + AllocGlobal>(rt: &R, layout: &Layout) -> io::Result<()> {
    let note = layout.below("move")?;
    if !disk::is_there(rt, &note)? {
        return disk::sync_name(rt, &note);
    }
    let text = fs::read_to_string(rt, &note)?;
    let mut lines = text.lines();
    if let (Some(node), Some(to), Some(side), Some(aim)) = (
        lines.next(),
        lines.next(),
        lines.next(),
        lines.next(),
    ) {
        let node = layout.outside(node)?;
        let to = layout.outside(to)?;
        if has_moved(rt, &node, &to)? {
            finish_move(rt, layout, side, aim)?;
        }
    }
    disk::remove_file(rt, &note)
}

// Whether a node stands at its new place alone. Both names are stable then.
fn has_moved(rt: &impl Files, node: &str, to: &str) -> io::Result<bool> {
    if disk::is_there(rt, node)? || !disk::is_there(rt, to)? {
        return Ok(false);
    }
    disk::sync_names(rt, node, to)?;
    Ok(true)
}

fn finish_move<R: Files + AllocGlobal>(
    rt: &R,
    layout: &Layout,
    side: &str,
    aim: &str,
) -> io::Result<()> {
    let from = layout.outside(side)?;
    let to = layout.outside(aim)?;
    follow(
        rt,
        if side.is_empty() {
            None
        } else {
            Some(from.as_str())
        },
        &to,
    )
}
