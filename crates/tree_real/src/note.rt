// The note of a move: the file `move` below the root.
//
// It stands, stable, from before a node's rename until its side folder has followed. Its four lines are paths that begin
// after the root: the node, its new place, its side folder or an empty line where it has none, and where that folder
// comes to stand.
ghost use Rattle.std.specs.Prelude.{◌≡◌, ◌++◌, List, [], ℕ, if◌then◌else◌, codes, IfOk, OnOk, string_bytes};
ghost use Rattle.tree_real.specs.Places.{joined, note_text};

use crate::disk;
use crate::layout::{Layout, Place};
use std::alloc::{AllocError, Global};
use std::io;
use std::rt::Files;

/// A note that isn't written yet.
#[derive(Drop)]
pub struct Note {
    file: String,
    new: String,
    text: String,
}

impl Note {
    pub fn new(
        alloc: Global,
        layout: &Layout,
        from: &Place,
        to: &Place,
        has_side: bool,
    ) -> Result<Note, AllocError>
        ensures file { IfOk result (λ note. string_bytes note.file ≡ joined (string_bytes layout.now.root) (codes "move")) }
        ensures new { IfOk result (λ note. string_bytes note.new ≡ joined (string_bytes layout.now.root) (codes "move.new")) }
        ensures text { (node goal side aim : List ℕ)
            → string_bytes from.now.node ≡ string_bytes layout.now.root ++ node
            → string_bytes to.now.node ≡ string_bytes layout.now.root ++ goal
            → string_bytes from.now.side ≡ string_bytes layout.now.root ++ side
            → string_bytes to.now.side ≡ string_bytes layout.now.root ++ aim
            → IfOk result (λ note. string_bytes note.text ≡ note_text node goal (if has_side then side else []) aim) }
    {
        let side = side_inside(layout, from, has_side);
        Ok(Note {
            file: layout.below("move")?,
            new: layout.below("move.new")?,
            text: note_text(
                alloc,
                layout.inside(&from.node),
                layout.inside(&to.node),
                side,
                layout.inside(&to.side),
            )?,
        })
    }

    /// Writes it.
    pub fn write(&self, rt: &impl Files) -> io::Result<()> {
        disk::replace(rt, &self.file, &self.new, self.text.as_bytes())
    }

    /// Takes it away.
    pub fn remove(&self, rt: &impl Files) -> io::Result<()> {
        disk::remove_file(rt, &self.file)
    }
}

// The lines of a note.
fn note_text(
    alloc: Global,
    node: &str,
    to: &str,
    side: &str,
    aim: &str,
) -> Result<String, AllocError>
    ensures { IfOk result (λ text. string_bytes text ≡ note_text node.now to.now side.now aim.now) }
{
    let mut text = String::new(alloc);
    push_line(&mut text, node)?;
    push_line(&mut text, to)?;
    push_line(&mut text, side)?;
    push_line(&mut text, aim)?;
    Ok(text)
}

fn push_line(text: &mut String, line: &str) -> Result<(), AllocError>
    ensures { OnOk result (string_bytes text.new ≡ string_bytes text.old ++ (line.now ++ codes "\n")) }
{
    text.push_str(line)?;
    text.push_str("\n")
}

// The side folder as a note has it, or nothing where there is none.
fn side_inside<'a>(layout: &Layout, place: &'a Place, has_side: bool) -> &'a str
    ensures { (side : List ℕ) → string_bytes place.now.side ≡ string_bytes layout.now.root ++ side → result.now ≡ (if has_side then side else []) }
{
    if has_side {
        layout.inside(&place.side)
    } else {
        ""
    }
}
