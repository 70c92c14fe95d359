// What is read of one object.
ghost use Rattle.std.specs.Prelude.{◌≡◌, ◌≢◌, ◌+◌, ◌<◌, ◌^◌, ℕ, List, length, take, drop, Err, IfOk, IsErrOf};
ghost use Rattle.std.specs.Option.{option_map};
ghost use Rattle.fs_model.specs.Objects.{Objects, look};
ghost use Rattle.tree_api.specs.Counts.{Counts};
ghost use Rattle.tree_api.specs.Disk.{Still};
ghost use Rattle.tree_api.specs.Tree.{Path};
ghost use Rattle.tree_stands.specs.Trees.{AllWhole};
ghost use Rattle.op_effects.specs.Clear.{IsClear};
ghost use Rattle.tree_shows.specs.Shows.{Shows};
ghost use Rattle.file_readings.specs.Pairs.{pairs_of};

use crate::finding::find_file;
use crate::pairs::to_pairs;
use fs_model::{Blob, PairList};
use fs_names::{Coll, Oid, Settings};
use index_fault::IndexFault;
use object_file::{attr_pairs, size};
use std::alloc::Global;
use tree_api::FileTree;

// No file has more bytes.
const MOST: u64 = (1 << 63) - 1;

// A place and a length at which each file has the bytes that it has at these.
fn within_files(at: u64, len: u64) -> (u64, u64)
    ensures place { result.0 + result.1 < 2 ^ 63 }
    ensures same { (bytes : List ℕ) → length bytes < 2 ^ 63 → take result.1 (drop result.0 bytes) ≡ take len (drop at bytes) }
{
    let first = at.min(MOST);
    (first, len.min(MOST - first))
}

/// The bytes of an object from a place up to its end, at most `len`. None where the object or its collection is missing.
///
/// It takes no memory for more than is there.
pub fn read<T: FileTree>(
    alloc: Global,
    tree: &mut T,
    set: &Settings,
    c: &Coll,
    o: &Oid,
    at: u64,
    len: u64,
) -> Result<Option<Blob>, IndexFault>
    ensures told { T.tells tree.new → T.tells tree.old }
    ensures still { T.tells tree.new → Still (T.disk tree.old) (T.disk tree.new) }
    ensures counts { Counts (IsErrOf result IndexFault.Tree) 3 0 (T.disk tree.old) (T.disk tree.new) }
    ensures undamaged { T.tells tree.new → AllWhole set.now (T.disk tree.old).tree → IsClear (T.disk tree.old).tree
        → (p : Path) → result ≢ Err (IndexFault.Damaged p) }
    ensures reads { T.tells tree.new → (O : Objects) → Shows set.now O (T.disk tree.old).tree → IsClear (T.disk tree.old).tree
        → IfOk result (λ bytes. bytes ≡ option_map (λ x. take len (drop at x.bytes)) (look O c.now o.now)) }
{
    let Some(path) = find_file(alloc, tree, set, c, o)? else {
        return Ok(None);
    };
    let (first, most) = within_files(at, len);
    let bytes = object_file::read(alloc, tree, &path, first, most)?;
    Ok(Some(Blob::new(alloc, bytes.slice())?))
}

/// The length of an object. None where the object or its collection is missing.
pub fn stat<T: FileTree>(
    alloc: Global,
    tree: &mut T,
    set: &Settings,
    c: &Coll,
    o: &Oid,
) -> Result<Option<u64>, IndexFault>
    ensures told { T.tells tree.new → T.tells tree.old }
    ensures still { T.tells tree.new → Still (T.disk tree.old) (T.disk tree.new) }
    ensures counts { Counts (IsErrOf result IndexFault.Tree) 3 0 (T.disk tree.old) (T.disk tree.new) }
    ensures undamaged { T.tells tree.new → AllWhole set.now (T.disk tree.old).tree → IsClear (T.disk tree.old).tree
        → (p : Path) → result ≢ Err (IndexFault.Damaged p) }
    ensures reads { T.tells tree.new → (O : Objects) → Shows set.now O (T.disk tree.old).tree → IsClear (T.disk tree.old).tree
        → IfOk result (λ len. len ≡ option_map (λ x. length x.bytes) (look O c.now o.now)) }
{
    let Some(path) = find_file(alloc, tree, set, c, o)? else {
        return Ok(None);
    };
    Ok(Some(size(tree, &path)?))
}

/// The attributes of an object, by name. None where the object or its collection is missing.
pub fn attrs<T: FileTree>(
    alloc: Global,
    tree: &mut T,
    set: &Settings,
    c: &Coll,
    o: &Oid,
) -> Result<Option<PairList>, IndexFault>
    ensures told { T.tells tree.new → T.tells tree.old }
    ensures still { T.tells tree.new → Still (T.disk tree.old) (T.disk tree.new) }
    ensures counts { Counts (IsErrOf result IndexFault.Tree) 2 0 (T.disk tree.old) (T.disk tree.new) }
    ensures undamaged { T.tells tree.new → AllWhole set.now (T.disk tree.old).tree → IsClear (T.disk tree.old).tree
        → (p : Path) → result ≢ Err (IndexFault.Damaged p) }
    ensures reads { T.tells tree.new → (O : Objects) → Shows set.now O (T.disk tree.old).tree → IsClear (T.disk tree.old).tree
        → IfOk result (λ pairs. pairs ≡ option_map (λ x. pairs_of x.attrs) (look O c.now o.now)) }
{
    let Some(path) = find_file(alloc, tree, set, c, o)? else {
        return Ok(None);
    };
    let attrs = attr_pairs(alloc, tree, &path)?;
    Ok(Some(to_pairs(alloc, &attrs)?))
}

/// The omap header of an object, and its omap pairs by key. None where the object or its collection is missing.
///
/// Both are empty, since no object of a tree has an omap yet.
pub fn omap<T: FileTree>(
    alloc: Global,
    tree: &mut T,
    set: &Settings,
    c: &Coll,
    o: &Oid,
) -> Result<Option<(Blob, PairList)>, IndexFault>
    ensures told { T.tells tree.new → T.tells tree.old }
    ensures still { T.tells tree.new → Still (T.disk tree.old) (T.disk tree.new) }
    ensures counts { Counts (IsErrOf result IndexFault.Tree) 2 0 (T.disk tree.old) (T.disk tree.new) }
    ensures undamaged { T.tells tree.new → AllWhole set.now (T.disk tree.old).tree → IsClear (T.disk tree.old).tree
        → (p : Path) → result ≢ Err (IndexFault.Damaged p) }
    ensures reads { T.tells tree.new → (O : Objects) → Shows set.now O (T.disk tree.old).tree → IsClear (T.disk tree.old).tree
        → IfOk result (λ omap. omap ≡ option_map (λ x. (x.header, pairs_of x.omap)) (look O c.now o.now)) }
{
    let Some(_path) = find_file(alloc, tree, set, c, o)? else {
        return Ok(None);
    };
    let header = Blob::from_vec(Vec::new(alloc));
    let pairs = PairList::from_vec(Vec::new(alloc));
    Ok(Some((header, pairs)))
}
