// Paths, and the steps that come after a directory's.
ghost use Rattle.std.specs.Prelude.{◌≡◌, ◌++◌, drop, is_some, IfOk};
ghost use Rattle.tree_memory.specs.Paths.{strip};

use std::alloc::{AllocError, Global};
use tree_api::TreePath;

// The steps of a path from the i-th on.
fn rest_from(alloc: Global, path: &TreePath, first: usize) -> Result<TreePath, AllocError>
    ensures { IfOk result (λ p. p ≡ drop first path.now) }
{
    let mut rest = TreePath::root(alloc);
    for i in first..path.steps() {
        rest = rest.join(path.step(i))?;
    }
    Ok(rest)
}

// Whether the path begins with all steps of the directory's.
fn leads_to(dir: &TreePath, path: &TreePath) -> bool
    ensures { result ≡ is_some (strip dir.now path.now) }
{
    if path.steps() < dir.steps() {
        return false;
    }
    for i in 0..dir.steps() {
        if !dir.step_bytes(i).cmp(path.step_bytes(i)).is_eq() {
            return false;
        }
    }
    true
}

/// The steps of a path that come after a directory's, none where it leads elsewhere.
pub fn rest_of(
    alloc: Global,
    dir: &TreePath,
    path: &TreePath,
) -> Result<Option<TreePath>, AllocError>
    ensures { IfOk result (λ r. r ≡ strip dir.now path.now) }
{
    if !leads_to(dir, path) {
        return Ok(None);
    }
    Ok(Some(rest_from(alloc, path, dir.steps())?))
}

/// A directory's path with further steps.
pub fn joined(dir: &TreePath, rest: &TreePath) -> Result<TreePath, AllocError>
    ensures { IfOk result (λ p. p ≡ dir.now ++ rest.now) }
{
    let mut path = dir.copy()?;
    for i in 0..rest.steps() {
        path = path.join(rest.step(i))?;
    }
    Ok(path)
}
