//! Calls on a tree for tests, which look first whether they may be made.
//!
//! Each answers `Memory` where what it needs isn't there, so a test needs no proof that it is.
#![tactic(auto)]

ghost use Rattle.std.specs.Prelude.{◌≡◌, IfOk, IfSome, OnOk};
ghost use Rattle.tree_api.specs.Tree.{IsDir, IsFile, IsFree};
ghost use Rattle.tree_trials.specs.Seen.{IsSeen, IsRoom};

use index_fault::IndexFault;
use tree_api::{FileTree, Kind, TreePath, is_step};

/// What is of which kind at a path.
pub fn seen<T: FileTree>(tree: &mut T, path: &TreePath) -> Result<Option<Kind>, IndexFault>
    ensures told { T.tells tree.new → T.tells tree.old }
    ensures same { T.tells tree.new → (T.disk tree.new).tree ≡ (T.disk tree.old).tree }
    ensures kind { T.tells tree.new → IfOk result (λ k. IsSeen (T.disk tree.old).tree path.now k) }
{
    match tree.stat(path)? {
        Some(stat) => Ok(Some(stat.kind)),
        None => Ok(None),
    }
}

/// A directory is there.
pub fn need_dir<T: FileTree>(tree: &mut T, path: &TreePath) -> Result<(), IndexFault>
    ensures told { T.tells tree.new → T.tells tree.old }
    ensures same { T.tells tree.new → (T.disk tree.new).tree ≡ (T.disk tree.old).tree }
    ensures dir { T.tells tree.new → OnOk result (IsDir (T.disk tree.old).tree path.now) }
{
    match seen(tree, path)? {
        Some(Kind::Dir) => Ok(()),
        _ => Err(IndexFault::Memory),
    }
}

/// A file is there.
pub fn need_file<T: FileTree>(tree: &mut T, path: &TreePath) -> Result<(), IndexFault>
    ensures told { T.tells tree.new → T.tells tree.old }
    ensures same { T.tells tree.new → (T.disk tree.new).tree ≡ (T.disk tree.old).tree }
    ensures file { T.tells tree.new → OnOk result (IsFile (T.disk tree.old).tree path.now) }
{
    match seen(tree, path)? {
        Some(Kind::File) => Ok(()),
        _ => Err(IndexFault::Memory),
    }
}

/// No directory is there.
pub fn need_free<T: FileTree>(tree: &mut T, path: &TreePath) -> Result<(), IndexFault>
    ensures told { T.tells tree.new → T.tells tree.old }
    ensures same { T.tells tree.new → (T.disk tree.new).tree ≡ (T.disk tree.old).tree }
    ensures free { T.tells tree.new → OnOk result (IsFree (T.disk tree.old).tree path.now) }
{
    match seen(tree, path)? {
        None => Ok(()),
        Some(Kind::File) => Ok(()),
        Some(Kind::Dir) => Err(IndexFault::Memory),
    }
}

/// A free path in a directory.
pub fn room<T: FileTree>(
    tree: &mut T,
    dir: &TreePath,
    step: &[u8],
) -> Result<Option<TreePath>, IndexFault>
    ensures { T.tells tree.new → IfOk result (λ o. IfSome o (λ p. IsRoom (T.disk tree.new).tree p)) }
{
    if !is_step(step) {
        return Ok(None);
    }
    let path = dir.join(step)?;
    need_dir(tree, dir)?;
    match seen(tree, &path)? {
        None => Ok(Some(path)),
        Some(_) => Ok(None),
    }
}

/// A new directory at this step.
pub fn add_dir<T: FileTree>(
    tree: &mut T,
    dir: &TreePath,
    step: &[u8],
) -> Result<TreePath, IndexFault> {
    match room(tree, dir, step)? {
        Some(path) => {
            tree.make_dir(&path)?;
            Ok(path)
        }
        None => Err(IndexFault::Memory),
    }
}

/// A new file at this step.
pub fn add_file<T: FileTree>(
    tree: &mut T,
    dir: &TreePath,
    step: &[u8],
) -> Result<TreePath, IndexFault> {
    match room(tree, dir, step)? {
        Some(path) => {
            tree.create(&path)?;
            Ok(path)
        }
        None => Err(IndexFault::Memory),
    }
}

/// An attribute of a file is set.
pub fn set_file_attr<T: FileTree>(
    tree: &mut T,
    path: &TreePath,
    name: &[u8],
    value: &[u8],
) -> Result<(), IndexFault> {
    need_file(tree, path)?;
    Ok(tree.set_attr(path, name, value)?)
}

/// Whether a file has this attribute.
pub fn has_file_attr<T: FileTree>(
    tree: &mut T,
    path: &TreePath,
    name: &[u8],
) -> Result<bool, IndexFault> {
    need_file(tree, path)?;
    Ok(tree.attr(path, name)?.is_some())
}
