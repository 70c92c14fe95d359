// The attributes of an object.
ghost use Rattle.std.specs.Prelude.{◌≡◌, ◌≢◌, ℕ, ◌∷◌, Err, OnOk, IsOk, IsErrOf, MatchOption};
ghost use Rattle.std.specs.List.{fold, list_any};
ghost use Rattle.fs_names.specs.Text.{oid_text};
ghost use Rattle.tree_api.specs.Counts.{Counts};
ghost use Rattle.tree_api.specs.Disk.{Leaves};
ghost use Rattle.tree_api.specs.Passing.{Passing};
ghost use Rattle.tree_api.specs.Tree.{Path, Version, IsDir, IsFile};
ghost use Rattle.object_file.specs.Attrs.{attr_name, IsOurs};
ghost use Rattle.object_file.specs.Counts.{IsFileAnswer};
ghost use Rattle.object_file.specs.Passing.{FileGoes};
ghost use Rattle.tree_stands.specs.Files.{set_pair, without_ours, attrs_file, attr_gone_file, attrs_gone_file};
ghost use Rattle.tree_stands.specs.Standing.{ObjectCrash};
ghost use Rattle.tree_stands.specs.Trees.{dir_of, name_at, ForObject};
ghost use Rattle.op_effects.specs.Clear.{KeepsFree};
ghost use Rattle.op_effects.specs.Ready.{Ready, OffStays};
ghost use Rattle.fs_cells.specs.Parts.{same_bytes};
ghost use Rattle.object_ops.specs.Attributes.{Setting, Dropping, Drops, DropsAll};

use crate::finding::{name_fits, open};
use fs_model::{Blob, Pair};
use fs_names::{Coll, Oid, Pos, Settings};
use index_fault::IndexFault;
use std::alloc::Global;
use tree_api::{AttrName, FileTree, TreeError, TreePath};

/// Whether one of these pairs has the key.
fn has_key(pairs: &[Pair], key: &Blob) -> bool
    ensures { result ≡ list_any (λ p. same_bytes key.now p.key) pairs.now }
{
    pairs.iter().any(|pair| *key == pair.key)
}

// The pair is set, but where its key comes again.
fn set_one<T: FileTree>(
    alloc: Global,
    tree: &mut T,
    path: &TreePath,
    pair: &Pair,
    later: &[Pair],
) -> Result<(), IndexFault>
    requires file { T.tells tree.old → IsFile (T.disk tree.old).tree path.now }
    ensures file { T.tells tree.new → IsFile (T.disk tree.new).tree path.now }
    ensures way { T.tells tree.new → (n : ℕ) (a b : Version) → Setting path.now n a b (pair.now ∷ later.now) (T.disk tree.old).tree
        → Leaves (Passing n a b) (T.disk tree.old) (T.disk tree.new) × OnOk result (Setting path.now n a b later.now (T.disk tree.new).tree) }
    ensures told { T.tells tree.new → T.tells tree.old }
    ensures only { IsFileAnswer result }
    ensures counts { Counts (IsErrOf result IndexFault.Tree) 0 0 (T.disk tree.old) (T.disk tree.new) }
{
    if has_key(later, &pair.key) {
        return Ok(());
    }
    object_file::set_attr(alloc, tree, path, pair.key.slice(), pair.value.slice())
}

// Each key gets the value of its last pair, and is set once.
fn set_all<T: FileTree>(
    alloc: Global,
    tree: &mut T,
    path: &TreePath,
    pairs: &[Pair],
) -> Result<(), IndexFault>
    requires file { T.tells tree.old → IsFile (T.disk tree.old).tree path.now }
    ensures goes { T.tells tree.new → FileGoes path.now (λ a b. b ≡ fold set_pair a pairs.now) (T.disk tree.old) (T.disk tree.new) (IsOk result) }
    ensures told { T.tells tree.new → T.tells tree.old }
    ensures only { IsFileAnswer result }
    ensures counts { Counts (IsErrOf result IndexFault.Tree) 0 0 (T.disk tree.old) (T.disk tree.new) }
{
    let mut rest = pairs;
    while let Some((pair, later)) = rest.split_first() {
        set_one(alloc, tree, path, pair, later)?;
        rest = later;
    }
    Ok(())
}

/// The name of an attribute of the object, or none where the attribute isn't the object's.
fn object_name(name: &[u8]) -> Option<&[u8]>
    ensures { MatchOption result (IsOurs name.now → ⊥) (λ part. name.now ≡ attr_name part.now) }
{
    name.strip_prefix(b"a:")
}

// The attribute goes, where it is the object's.
fn drop_one<T: FileTree>(tree: &mut T, path: &TreePath, name: &[u8]) -> Result<(), TreeError>
    requires file { T.tells tree.old → IsFile (T.disk tree.old).tree path.now }
    ensures file { T.tells tree.new → IsFile (T.disk tree.new).tree path.now }
    ensures way { T.tells tree.new → (n : ℕ) (a b : Version) → Dropping path.now n a b (T.disk tree.old).tree
        → Leaves (Passing n a b) (T.disk tree.old) (T.disk tree.new) × OnOk result (Drops b name.now ((T.disk tree.old).tree.node n) ((T.disk tree.new).tree.node n)) }
    ensures told { T.tells tree.new → T.tells tree.old }
    ensures counts { Counts (IsErrOf result TreeError.Refused) 0 0 (T.disk tree.old) (T.disk tree.new) }
{
    let Some(_part) = object_name(name) else {
        return Ok(());
    };
    tree.remove_attr(path, name)
}

// Those of these attributes that are the object's go.
fn drop_each<T: FileTree>(
    tree: &mut T,
    path: &TreePath,
    names: &[AttrName],
) -> Result<(), TreeError>
    requires file { T.tells tree.old → IsFile (T.disk tree.old).tree path.now }
    ensures way { T.tells tree.new → (n : ℕ) (a b : Version) → Dropping path.now n a b (T.disk tree.old).tree
        → Leaves (Passing n a b) (T.disk tree.old) (T.disk tree.new) × OnOk result (DropsAll b names.now ((T.disk tree.old).tree.node n) ((T.disk tree.new).tree.node n)) }
    ensures told { T.tells tree.new → T.tells tree.old }
    ensures counts { Counts (IsErrOf result TreeError.Refused) 0 0 (T.disk tree.old) (T.disk tree.new) }
{
    for name in names {
        drop_one(tree, path, name.bytes.slice())?;
    }
    Ok(())
}

// All attributes of the object go.
fn drop_all<T: FileTree>(tree: &mut T, path: &TreePath) -> Result<(), IndexFault>
    requires file { T.tells tree.old → IsFile (T.disk tree.old).tree path.now }
    ensures goes { T.tells tree.new → FileGoes path.now (λ a b. b ≡ without_ours a) (T.disk tree.old) (T.disk tree.new) (IsOk result) }
    ensures told { T.tells tree.new → T.tells tree.old }
    ensures only { IsFileAnswer result }
    ensures counts { Counts (IsErrOf result IndexFault.Tree) 0 0 (T.disk tree.old) (T.disk tree.new) }
{
    let names = tree.attrs(path)?;
    Ok(drop_each(tree, path, &names)?)
}

/// Each of these attributes gets its value, in an object that is made where there is none. Of pairs with one key the last
/// counts.
pub fn set_attrs<T: FileTree>(
    alloc: Global,
    tree: &mut T,
    set: &Settings,
    coll: &Coll,
    oid: &Oid,
    pairs: &[Pair],
    pos: Pos,
) -> Result<(), IndexFault>
    requires ready { T.tells tree.old → Ready set.now (T.disk tree.old) }
    requires there { T.tells tree.old → IsDir (T.disk tree.old).tree (dir_of coll.now) }
    ensures told { T.tells tree.new → T.tells tree.old }
    ensures counts { Counts (IsErrOf result IndexFault.Tree) 3 0 (T.disk tree.old) (T.disk tree.new) }
    ensures crash { T.tells tree.new → ObjectCrash set.now (name_at coll.now oid.now) (attrs_file (oid_text oid.now) pairs.now) (T.disk tree.old) (T.disk tree.new) }
    ensures off { T.tells tree.new → Leaves (OffStays (dir_of coll.now)) (T.disk tree.old) (T.disk tree.new) }
    ensures free { T.tells tree.new → Leaves KeepsFree (T.disk tree.old) (T.disk tree.new) }
    ensures done { T.tells tree.new → OnOk result (ForObject set.now (name_at coll.now oid.now) (λ x y. y ≡ attrs_file (oid_text oid.now) pairs.now x) (T.disk tree.old).tree (T.disk tree.new).tree) }
    ensures there { T.tells tree.new → IsDir (T.disk tree.new).tree (dir_of coll.now) }
    ensures ready { T.tells tree.new → OnOk result (Ready set.now (T.disk tree.new)) }
    ensures undamaged { T.tells tree.new → (p : Path) → result ≢ Err (IndexFault.Damaged p) }
{
    name_fits(coll, oid);
    let path = open(alloc, tree, set, coll, oid, pos)?;
    set_all(alloc, tree, &path, pairs)
}

/// The attribute goes, where it is there. The object is made where there is none.
pub fn rm_attr<T: FileTree>(
    alloc: Global,
    tree: &mut T,
    set: &Settings,
    coll: &Coll,
    oid: &Oid,
    name: &[u8],
    pos: Pos,
) -> Result<(), IndexFault>
    requires ready { T.tells tree.old → Ready set.now (T.disk tree.old) }
    requires there { T.tells tree.old → IsDir (T.disk tree.old).tree (dir_of coll.now) }
    ensures told { T.tells tree.new → T.tells tree.old }
    ensures counts { Counts (IsErrOf result IndexFault.Tree) 3 0 (T.disk tree.old) (T.disk tree.new) }
    ensures crash { T.tells tree.new → ObjectCrash set.now (name_at coll.now oid.now) (attr_gone_file (oid_text oid.now) name.now) (T.disk tree.old) (T.disk tree.new) }
    ensures off { T.tells tree.new → Leaves (OffStays (dir_of coll.now)) (T.disk tree.old) (T.disk tree.new) }
    ensures free { T.tells tree.new → Leaves KeepsFree (T.disk tree.old) (T.disk tree.new) }
    ensures done { T.tells tree.new → OnOk result (ForObject set.now (name_at coll.now oid.now) (λ x y. y ≡ attr_gone_file (oid_text oid.now) name.now x) (T.disk tree.old).tree (T.disk tree.new).tree) }
    ensures there { T.tells tree.new → IsDir (T.disk tree.new).tree (dir_of coll.now) }
    ensures ready { T.tells tree.new → OnOk result (Ready set.now (T.disk tree.new)) }
    ensures undamaged { T.tells tree.new → (p : Path) → result ≢ Err (IndexFault.Damaged p) }
{
    name_fits(coll, oid);
    let path = open(alloc, tree, set, coll, oid, pos)?;
    object_file::remove_attr(alloc, tree, &path, name)
}

/// All attributes of the object go. It is made where there is none.
pub fn rm_attrs<T: FileTree>(
    alloc: Global,
    tree: &mut T,
    set: &Settings,
    coll: &Coll,
    oid: &Oid,
    pos: Pos,
) -> Result<(), IndexFault>
    requires ready { T.tells tree.old → Ready set.now (T.disk tree.old) }
    requires there { T.tells tree.old → IsDir (T.disk tree.old).tree (dir_of coll.now) }
    ensures told { T.tells tree.new → T.tells tree.old }
    ensures counts { Counts (IsErrOf result IndexFault.Tree) 3 0 (T.disk tree.old) (T.disk tree.new) }
    ensures crash { T.tells tree.new → ObjectCrash set.now (name_at coll.now oid.now) (attrs_gone_file (oid_text oid.now)) (T.disk tree.old) (T.disk tree.new) }
    ensures off { T.tells tree.new → Leaves (OffStays (dir_of coll.now)) (T.disk tree.old) (T.disk tree.new) }
    ensures free { T.tells tree.new → Leaves KeepsFree (T.disk tree.old) (T.disk tree.new) }
    ensures done { T.tells tree.new → OnOk result (ForObject set.now (name_at coll.now oid.now) (λ x y. y ≡ attrs_gone_file (oid_text oid.now) x) (T.disk tree.old).tree (T.disk tree.new).tree) }
    ensures there { T.tells tree.new → IsDir (T.disk tree.new).tree (dir_of coll.now) }
    ensures ready { T.tells tree.new → OnOk result (Ready set.now (T.disk tree.new)) }
    ensures undamaged { T.tells tree.new → (p : Path) → result ≢ Err (IndexFault.Damaged p) }
{
    name_fits(coll, oid);
    let path = open(alloc, tree, set, coll, oid, pos)?;
    drop_all(tree, &path)
}
