// A file moves within its collection.
ghost use Rattle.std.specs.Prelude.{◌≡◌, ◌⊎◌, ◌<◌, ◌≤◌, length, IfOk, OnOk, IsErrOf};
ghost use Rattle.fs_names.specs.Text.{oid_text};
ghost use Rattle.tree_api.specs.Step.{IsStep};
ghost use Rattle.tree_api.specs.Counts.{Counts};
ghost use Rattle.tree_api.specs.Tree.{Path, IsDir, IsFile};
ghost use Rattle.tree_api.specs.Disk.{Leaves, Still};
ghost use Rattle.lfn_index.specs.Directory.{entry};
ghost use Rattle.lfn_index.specs.Moving.{Same, ShortMove};
ghost use Rattle.lfn_index.specs.Maps.{KeepsOthersLevel};
ghost use Rattle.lfn_index.specs.Room.{IsRoom, Shifted, ObjectShifts, ObjectShifted};

use crate::file_name::{SHORT, stem};
use crate::making::free_path;
use fs_names::{Oid, Settings, encode_oid};
use index_fault::IndexFault;
use std::alloc::Global;
use tree_api::{FileTree, TreeError, TreePath};

/// The first free long name for this text.
fn long_room<T: FileTree>(
    alloc: Global,
    tree: &mut T,
    set: &Settings,
    dir: &TreePath,
    text: &[u8],
    step: &[u8],
) -> Result<TreePath, TreeError>
    requires text { IsStep text.now }
    requires long { 200 < length text.now }
    requires dir { T.tells tree.old → IsDir (T.disk tree.old).tree dir.now }
    ensures told { T.tells tree.new → T.tells tree.old }
    ensures counts { Counts (IsErrOf result TreeError.Refused) 1 0 (T.disk tree.old) (T.disk tree.new) }
    ensures still { T.tells tree.new → Still (T.disk tree.old) (T.disk tree.new) }
    ensures room { T.tells tree.new → IfOk result (IsRoom set.now (T.disk tree.old).tree dir.now text.now step.now) }
{
    let _step = step;
    let stem = stem(alloc, set, text)?;
    free_path(alloc, tree, dir, &stem)
}

/// Where a file of the object with this name may be renamed to in the directory: to its own name, where that is free,
/// and else, where it has a long name, to the one with the least free number.
///
/// Answers `Damaged` where a short name is taken.
#[tactic(auto, using(crate::proofs::Texts::oid_step))]
fn room<T: FileTree>(
    alloc: Global,
    tree: &mut T,
    set: &Settings,
    dir: &TreePath,
    oid: &Oid,
    step: &[u8],
) -> Result<TreePath, IndexFault>
    requires step { IsStep step.now }
    requires dir { T.tells tree.old → IsDir (T.disk tree.old).tree dir.now }
    ensures told { T.tells tree.new → T.tells tree.old }
    ensures counts { Counts (IsErrOf result IndexFault.Tree) 2 0 (T.disk tree.old) (T.disk tree.new) }
    ensures still { T.tells tree.new → Still (T.disk tree.old) (T.disk tree.new) }
    ensures room { T.tells tree.new → IfOk result (IsRoom set.now (T.disk tree.old).tree dir.now (oid_text oid.now) step.now) }
    ensures damaged { T.tells tree.new → (p : Path) → IsErrOf result (IndexFault.Damaged p) → (length (oid_text oid.now) ≤ 200) × (p ≡ entry dir.now step.now) }
{
    oid.fits();
    let path = dir.join(step)?;
    if tree.stat(&path)?.is_none() {
        return Ok(path);
    }
    let text = encode_oid(alloc, oid)?;
    if text.slice().len() <= SHORT {
        return Err(IndexFault::Damaged { path });
    }
    Ok(long_room(alloc, tree, set, dir, text.slice(), step)?)
}

/// Renames the object's file, which has this name, to another directory of its collection, and answers its path. It
/// keeps its name where that is free, and else, where it has a long name, gets the least free number; its attributes
/// stay. The names aren't synced afterwards.
///
/// Answers `Damaged` where a short name is taken.
pub fn shift<T: FileTree>(
    alloc: Global,
    tree: &mut T,
    set: &Settings,
    from: &TreePath,
    dir: &TreePath,
    oid: &Oid,
    step: &[u8],
) -> Result<TreePath, IndexFault>
    requires file { T.tells tree.old → IsFile (T.disk tree.old).tree from.now }
    requires step { IsStep step.now }
    requires dir { T.tells tree.old → IsDir (T.disk tree.old).tree dir.now }
    ensures told { T.tells tree.new → T.tells tree.old }
    ensures counts { Counts (IsErrOf result IndexFault.Tree) 2 0 (T.disk tree.old) (T.disk tree.new) }
    ensures leaves { T.tells tree.new → Leaves Same (T.disk tree.old) (T.disk tree.new) ⊎ ((p : Path) × IsRoom set.now (T.disk tree.old).tree dir.now (oid_text oid.now) step.now p × ShortMove from.now p (T.disk tree.old) (T.disk tree.new)) }
    ensures moved { T.tells tree.new → IfOk result (Shifted set.now from.now dir.now (oid_text oid.now) step.now (T.disk tree.old).tree (T.disk tree.new).tree) }
    ensures object { T.tells tree.new → ObjectShifts set.now from.now dir.now oid.now step.now (T.disk tree.old) (T.disk tree.new) }
    ensures reads { T.tells tree.new → OnOk result (ObjectShifted set.now from.now dir.now oid.now step.now (T.disk tree.old) (T.disk tree.new)) }
    ensures level { T.tells tree.new → OnOk result (KeepsOthersLevel from.now (T.disk tree.old) (T.disk tree.new)) }
    ensures damaged { T.tells tree.new → (p : Path) → IsErrOf result (IndexFault.Damaged p) → (length (oid_text oid.now) ≤ 200) × (p ≡ entry dir.now step.now) }
{
    oid.fits();
    let path = room(alloc, tree, set, dir, oid, step)?;
    tree.rename(from, &path)?;
    Ok(path)
}
