// Single changes of a tree, as words of the command line say them.
ghost use Rattle.std.specs.Prelude.{◌≡◌};
ghost use Rattle.tree_steps.specs.Faults.{HasCause};

use crate::fault::Fault;
use std::alloc::Global;
use tree_api::{FileTree, TreePath, is_step};

/// The most bytes that one step writes.
const MOST: usize = 1 << 24;

/// A change of the tree.
#[derive(Debug, Drop)]
pub enum Step {
    MakeDir(TreePath),
    Create(TreePath),
    RemoveFile(TreePath),
    RemoveDir(TreePath),
    Rename(TreePath, TreePath),
    Write(TreePath, u32, Vec<u8>),
    SetLen(TreePath, u32),
    SetAttr(TreePath, String, String),
    RemoveAttr(TreePath, String),
}

fn read_path(alloc: Global, text: &str) -> Result<TreePath, Fault> {
    let mut path = TreePath::root(alloc);
    for step in text.split('/') {
        let step = step.as_bytes();
        if !is_step(step) {
            return Err(Fault::Usage);
        }
        path = path.join(step)?;
    }
    Ok(path)
}

fn read_number(text: &str) -> Result<u32, Fault> {
    match text.parse::<u32>() {
        Ok(number) => Ok(number),
        Err(_) => Err(Fault::Usage),
    }
}

// So many bytes, each the first of this text.
fn bytes_of(alloc: Global, count: &str, text: &str) -> Result<Vec<u8>, Fault> {
    let byte = match text.as_bytes().first() {
        Some(byte) => *byte,
        None => 0,
    };
    let mut bytes = Vec::new(alloc);
    for _ in 0..read_number(count)? {
        bytes.push(byte)?;
    }
    Ok(bytes)
}

// A change of names.
fn read_name_step(
    alloc: Global,
    kind: &str,
    path: TreePath,
    more: &str,
) -> Result<Option<Step>, Fault> {
    Ok(if kind == "dir" {
        Some(Step::MakeDir(path))
    } else if kind == "file" {
        Some(Step::Create(path))
    } else if kind == "gone" {
        Some(Step::RemoveFile(path))
    } else if kind == "nodir" {
        Some(Step::RemoveDir(path))
    } else if kind == "move" {
        Some(Step::Rename(path, read_path(alloc, more)?))
    } else {
        None
    })
}

// A change of what a node holds.
fn read_node_step(
    alloc: Global,
    kind: &str,
    path: TreePath,
    more: [&str; 3],
) -> Result<Step, Fault> {
    let [first, second, third] = more;
    if kind == "put" {
        let bytes = bytes_of(alloc, second, third)?;
        Ok(Step::Write(path, read_number(first)?, bytes))
    } else if kind == "cut" {
        Ok(Step::SetLen(path, read_number(first)?))
    } else if kind == "set" {
        let name = String::from_str(alloc, first)?;
        Ok(Step::SetAttr(path, name, String::from_str(alloc, second)?))
    } else if kind == "unset" {
        Ok(Step::RemoveAttr(path, String::from_str(alloc, first)?))
    } else {
        Err(Fault::Usage)
    }
}

/// Reads a step: its kind, a path, and up to three more words, with a blank between each.
pub fn read_step(alloc: Global, text: &str) -> Result<Step, Fault> {
    let mut words = text.split(' ');
    let kind = words.next().unwrap_or("");
    let path = words.next().unwrap_or("");
    let first = words.next().unwrap_or("");
    let second = words.next().unwrap_or("");
    let third = words.next().unwrap_or("");
    if let Some(step) = read_name_step(alloc, kind, read_path(alloc, path)?, first)? {
        return Ok(step);
    }
    read_node_step(alloc, kind, read_path(alloc, path)?, [first, second, third])
}

fn write<T: FileTree>(tree: &mut T, path: &TreePath, at: u32, bytes: &[u8]) -> Result<(), Fault>
    requires untold { T.tells tree.old → ⊥ }
    ensures told { T.tells tree.new → T.tells tree.old }
    ensures cause { HasCause (T.disk tree.old).faults (T.disk tree.new).faults result }
    ensures syncs { (T.disk tree.new).syncs ≡ (T.disk tree.old).syncs }
{
    if bytes.len() > MOST {
        return Err(Fault::Usage);
    }
    tree.write_at(path, u64::from(at), bytes)?;
    Ok(())
}

fn set_len<T: FileTree>(tree: &mut T, path: &TreePath, len: u32) -> Result<(), Fault>
    requires untold { T.tells tree.old → ⊥ }
    ensures told { T.tells tree.new → T.tells tree.old }
    ensures cause { HasCause (T.disk tree.old).faults (T.disk tree.new).faults result }
    ensures syncs { (T.disk tree.new).syncs ≡ (T.disk tree.old).syncs }
{
    tree.set_len(path, u64::from(len))?;
    Ok(())
}

fn remove_dir<T: FileTree>(tree: &mut T, path: &TreePath) -> Result<(), Fault>
    requires untold { T.tells tree.old → ⊥ }
    ensures told { T.tells tree.new → T.tells tree.old }
    ensures cause { HasCause (T.disk tree.old).faults (T.disk tree.new).faults result }
    ensures syncs { (T.disk tree.new).syncs ≡ (T.disk tree.old).syncs }
{
    if path.steps() == 0 {
        return Err(Fault::Usage);
    }
    tree.remove_dir(path)?;
    Ok(())
}

/// Makes this change.
pub fn do_step<T: FileTree>(tree: &mut T, step: &Step) -> Result<(), Fault>
    requires untold { T.tells tree.old → ⊥ }
    ensures told { T.tells tree.new → T.tells tree.old }
    ensures cause { HasCause (T.disk tree.old).faults (T.disk tree.new).faults result }
    ensures syncs { (T.disk tree.new).syncs ≡ (T.disk tree.old).syncs }
{
    match step {
        Step::MakeDir(path) => tree.make_dir(path)?,
        Step::Create(path) => tree.create(path)?,
        Step::RemoveFile(path) => tree.remove_file(path)?,
        Step::RemoveDir(path) => remove_dir(tree, path)?,
        Step::Rename(from, to) => tree.rename(from, to)?,
        Step::Write(path, at, bytes) => write(tree, path, *at, bytes)?,
        Step::SetLen(path, len) => set_len(tree, path, *len)?,
        Step::SetAttr(path, name, value) => {
            tree.set_attr(path, name.as_bytes(), value.as_bytes())?;
        }
        Step::RemoveAttr(path, name) => tree.remove_attr(path, name.as_bytes())?,
    }
    Ok(())
}
