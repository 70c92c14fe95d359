// Calls for tests. Each answers `Memory` where what it needs isn't there.
ghost use Rattle.std.specs.Prelude.{◌≡◌, All, IfOk, IsTrue, OnOk};
ghost use Rattle.fs_names.specs.Text.{oid_text};
ghost use Rattle.tree_api.specs.Tree.{IsDir, IsFile};
ghost use Rattle.tree_api.specs.Disk.{Still};
ghost use Rattle.tree_stands.specs.Trees.{dir_of};
ghost use Rattle.op_effects.specs.Ready.{Ready};
ghost use Rattle.object_ops.specs.Trials.{IsKnown, HasOnly, IsBare};

use fs_names::{Coll, Oid, Settings, encode_coll};
use index_fault::IndexFault;
use lfn_index::find;
use object_file::{AttrPair, attr_pairs, read};
use op_effects::coll_path;
use std::alloc::Global;
use tree_api::{Bytes, Entry, FileTree, TreePath};
use tree_trials::need_dir;

// Whether the entry is the directory of files being built, or this.
fn is_known(entry: &Entry, text: &[u8]) -> bool
    ensures { IsTrue result → IsKnown text.now entry.now }
{
    if entry.step.steps() == 0 {
        return false;
    }
    let step = entry.step.step(0);
    if step == b"aside".as_slice() {
        return true;
    }
    step == text
}

fn are_known(entries: &[Entry], text: &[u8]) -> bool
    ensures { IsTrue result → All (IsKnown text.now) entries.now }
{
    for entry in entries {
        if !is_known(entry, text) {
            return false;
        }
    }
    true
}

fn need_only<T: FileTree>(tree: &mut T, dir: &TreePath, text: &[u8]) -> Result<(), IndexFault>
    ensures told { T.tells tree.new → T.tells tree.old }
    ensures same { T.tells tree.new → (T.disk tree.new).tree ≡ (T.disk tree.old).tree }
    ensures only { T.tells tree.new → OnOk result (HasOnly (T.disk tree.old).tree dir.now text.now) }
{
    need_dir(tree, dir)?;
    let entries = tree.list(dir)?;
    if !are_known(&entries, text) {
        return Err(IndexFault::Memory);
    }
    Ok(())
}

fn need_bare<T: FileTree>(tree: &mut T, dir: &TreePath) -> Result<(), IndexFault>
    ensures told { T.tells tree.new → T.tells tree.old }
    ensures same { T.tells tree.new → (T.disk tree.new).tree ≡ (T.disk tree.old).tree }
    ensures dir { T.tells tree.new → OnOk result (IsDir (T.disk tree.old).tree dir.now) }
    ensures bare { T.tells tree.new → OnOk result (IsBare (T.disk tree.old).tree dir.now) }
{
    need_dir(tree, dir)?;
    let entries = tree.list(dir)?;
    if !entries.is_empty() {
        return Err(IndexFault::Memory);
    }
    Ok(())
}

// A store of one collection, which is empty. All is made stable.
pub(crate) fn need_store<T: FileTree>(
    alloc: Global,
    tree: &mut T,
    set: &Settings,
    coll: &Coll,
) -> Result<(), IndexFault>
    ensures told { T.tells tree.new → T.tells tree.old }
    ensures ready { T.tells tree.new → OnOk result (Ready set.now (T.disk tree.new)) }
    ensures there { T.tells tree.new → OnOk result (IsDir (T.disk tree.new).tree (dir_of coll.now)) }
{
    let text = encode_coll(alloc, coll)?;
    let current = TreePath::root(alloc).join(b"current")?;
    let aside = current.join(b"aside")?;
    let own = coll_path(alloc, coll)?;
    need_only(tree, &current, text.slice())?;
    need_bare(tree, &aside)?;
    need_bare(tree, &own)?;
    let Ok(()) = tree.sync_all() else {
        return Err(IndexFault::Tree);
    };
    Ok(())
}

// The object's file.
fn file_of<T: FileTree>(
    alloc: Global,
    tree: &mut T,
    set: &Settings,
    coll: &Coll,
    oid: &Oid,
) -> Result<TreePath, IndexFault>
    requires there { T.tells tree.old → IsDir (T.disk tree.old).tree (dir_of coll.now) }
    ensures told { T.tells tree.new → T.tells tree.old }
    ensures still { T.tells tree.new → Still (T.disk tree.old) (T.disk tree.new) }
    ensures file { T.tells tree.new → IfOk result (IsFile (T.disk tree.new).tree) }
{
    let dir = coll_path(alloc, coll)?;
    let Some(path) = find(alloc, tree, set, &dir, oid)? else {
        return Err(IndexFault::Memory);
    };
    Ok(path)
}

pub(crate) fn is_there<T: FileTree>(
    alloc: Global,
    tree: &mut T,
    set: &Settings,
    coll: &Coll,
    oid: &Oid,
) -> Result<bool, IndexFault>
    requires ready { T.tells tree.old → Ready set.now (T.disk tree.old) }
    requires there { T.tells tree.old → IsDir (T.disk tree.old).tree (dir_of coll.now) }
    ensures told { T.tells tree.new → T.tells tree.old }
    ensures ready { T.tells tree.new → Ready set.now (T.disk tree.new) }
    ensures there { T.tells tree.new → IsDir (T.disk tree.new).tree (dir_of coll.now) }
{
    let dir = coll_path(alloc, coll)?;
    Ok(find(alloc, tree, set, &dir, oid)?.is_some())
}

// The object's bytes, of at most 1,000.
pub(crate) fn bytes_of<T: FileTree>(
    alloc: Global,
    tree: &mut T,
    set: &Settings,
    coll: &Coll,
    oid: &Oid,
) -> Result<Bytes, IndexFault>
    requires ready { T.tells tree.old → Ready set.now (T.disk tree.old) }
    requires there { T.tells tree.old → IsDir (T.disk tree.old).tree (dir_of coll.now) }
    ensures told { T.tells tree.new → T.tells tree.old }
    ensures ready { T.tells tree.new → Ready set.now (T.disk tree.new) }
    ensures there { T.tells tree.new → IsDir (T.disk tree.new).tree (dir_of coll.now) }
{
    let path = file_of(alloc, tree, set, coll, oid)?;
    read(alloc, tree, &path, 0, 1000)
}

pub(crate) fn pairs_of<T: FileTree>(
    alloc: Global,
    tree: &mut T,
    set: &Settings,
    coll: &Coll,
    oid: &Oid,
) -> Result<Vec<AttrPair>, IndexFault>
    requires ready { T.tells tree.old → Ready set.now (T.disk tree.old) }
    requires there { T.tells tree.old → IsDir (T.disk tree.old).tree (dir_of coll.now) }
    ensures told { T.tells tree.new → T.tells tree.old }
    ensures ready { T.tells tree.new → Ready set.now (T.disk tree.new) }
    ensures there { T.tells tree.new → IsDir (T.disk tree.new).tree (dir_of coll.now) }
{
    let path = file_of(alloc, tree, set, coll, oid)?;
    attr_pairs(alloc, tree, &path)
}
