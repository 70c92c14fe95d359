// The bytes of an object.
ghost use Rattle.std.specs.Prelude.{◌≡◌, ◌≢◌, ◌<◌, ◌+◌, ◌^◌, length, Err, OnOk, IsErrOf};
ghost use Rattle.fs_names.specs.Text.{oid_text};
ghost use Rattle.tree_api.specs.Counts.{Counts};
ghost use Rattle.tree_api.specs.Disk.{Leaves};
ghost use Rattle.tree_api.specs.Tree.{Path, IsDir, zeros};
ghost use Rattle.tree_stands.specs.Files.{written_file, cut_file};
ghost use Rattle.tree_stands.specs.Standing.{ObjectCrash};
ghost use Rattle.tree_stands.specs.Trees.{dir_of, name_at, ForObject};
ghost use Rattle.op_effects.specs.Clear.{KeepsFree};
ghost use Rattle.op_effects.specs.Ready.{Ready, OffStays};

use crate::finding::{name_fits, open};
use fs_names::{Coll, Oid, Pos, Settings};
use index_fault::IndexFault;
use std::alloc::Global;
use tree_api::FileTree;

/// The bytes from `at` on become these, in an object that is made where there is none. The length rises to their end, and a
/// gap is zeros. Of no bytes nothing comes but the object.
pub fn write<T: FileTree>(
    alloc: Global,
    tree: &mut T,
    set: &Settings,
    coll: &Coll,
    oid: &Oid,
    at: u64,
    bytes: &[u8],
    pos: Pos,
) -> Result<(), IndexFault>
    requires ready { T.tells tree.old → Ready set.now (T.disk tree.old) }
    requires there { T.tells tree.old → IsDir (T.disk tree.old).tree (dir_of coll.now) }
    requires place { at + length bytes.now < 2 ^ 63 }
    ensures told { T.tells tree.new → T.tells tree.old }
    ensures counts { Counts (IsErrOf result IndexFault.Tree) 3 0 (T.disk tree.old) (T.disk tree.new) }
    ensures crash { T.tells tree.new → ObjectCrash set.now (name_at coll.now oid.now) (written_file (oid_text oid.now) at bytes.now) (T.disk tree.old) (T.disk tree.new) }
    ensures off { T.tells tree.new → Leaves (OffStays (dir_of coll.now)) (T.disk tree.old) (T.disk tree.new) }
    ensures free { T.tells tree.new → Leaves KeepsFree (T.disk tree.old) (T.disk tree.new) }
    ensures done { T.tells tree.new → OnOk result (ForObject set.now (name_at coll.now oid.now) (λ x y. y ≡ written_file (oid_text oid.now) at bytes.now x) (T.disk tree.old).tree (T.disk tree.new).tree) }
    ensures there { T.tells tree.new → IsDir (T.disk tree.new).tree (dir_of coll.now) }
    ensures ready { T.tells tree.new → OnOk result (Ready set.now (T.disk tree.new)) }
    ensures undamaged { T.tells tree.new → (p : Path) → result ≢ Err (IndexFault.Damaged p) }
{
    name_fits(coll, oid);
    let path = open(alloc, tree, set, coll, oid, pos)?;
    object_file::write(tree, &path, at, bytes)
}

/// `len` bytes from `at` on become zeros, in an object that is made where there is none. The length rises to their end.
pub fn zero<T: FileTree>(
    alloc: Global,
    tree: &mut T,
    set: &Settings,
    coll: &Coll,
    oid: &Oid,
    at: u64,
    len: u64,
    pos: Pos,
) -> Result<(), IndexFault>
    requires ready { T.tells tree.old → Ready set.now (T.disk tree.old) }
    requires there { T.tells tree.old → IsDir (T.disk tree.old).tree (dir_of coll.now) }
    requires place { at + len < 2 ^ 63 }
    ensures told { T.tells tree.new → T.tells tree.old }
    ensures counts { Counts (IsErrOf result IndexFault.Tree) 4 0 (T.disk tree.old) (T.disk tree.new) }
    ensures crash { T.tells tree.new → ObjectCrash set.now (name_at coll.now oid.now) (written_file (oid_text oid.now) at (zeros len)) (T.disk tree.old) (T.disk tree.new) }
    ensures off { T.tells tree.new → Leaves (OffStays (dir_of coll.now)) (T.disk tree.old) (T.disk tree.new) }
    ensures free { T.tells tree.new → Leaves KeepsFree (T.disk tree.old) (T.disk tree.new) }
    ensures done { T.tells tree.new → OnOk result (ForObject set.now (name_at coll.now oid.now) (λ x y. y ≡ written_file (oid_text oid.now) at (zeros len) x) (T.disk tree.old).tree (T.disk tree.new).tree) }
    ensures there { T.tells tree.new → IsDir (T.disk tree.new).tree (dir_of coll.now) }
    ensures ready { T.tells tree.new → OnOk result (Ready set.now (T.disk tree.new)) }
    ensures undamaged { T.tells tree.new → (p : Path) → result ≢ Err (IndexFault.Damaged p) }
{
    name_fits(coll, oid);
    let path = open(alloc, tree, set, coll, oid, pos)?;
    object_file::zero(alloc, tree, &path, at, len)
}

/// The length becomes `len`, of an object that is made where there is none. New bytes are zeros.
pub fn truncate<T: FileTree>(
    alloc: Global,
    tree: &mut T,
    set: &Settings,
    coll: &Coll,
    oid: &Oid,
    len: u64,
    pos: Pos,
) -> Result<(), IndexFault>
    requires ready { T.tells tree.old → Ready set.now (T.disk tree.old) }
    requires there { T.tells tree.old → IsDir (T.disk tree.old).tree (dir_of coll.now) }
    requires place { len < 2 ^ 63 }
    ensures told { T.tells tree.new → T.tells tree.old }
    ensures counts { Counts (IsErrOf result IndexFault.Tree) 3 0 (T.disk tree.old) (T.disk tree.new) }
    ensures crash { T.tells tree.new → ObjectCrash set.now (name_at coll.now oid.now) (cut_file (oid_text oid.now) len) (T.disk tree.old) (T.disk tree.new) }
    ensures off { T.tells tree.new → Leaves (OffStays (dir_of coll.now)) (T.disk tree.old) (T.disk tree.new) }
    ensures free { T.tells tree.new → Leaves KeepsFree (T.disk tree.old) (T.disk tree.new) }
    ensures done { T.tells tree.new → OnOk result (ForObject set.now (name_at coll.now oid.now) (λ x y. y ≡ cut_file (oid_text oid.now) len x) (T.disk tree.old).tree (T.disk tree.new).tree) }
    ensures there { T.tells tree.new → IsDir (T.disk tree.new).tree (dir_of coll.now) }
    ensures ready { T.tells tree.new → OnOk result (Ready set.now (T.disk tree.new)) }
    ensures undamaged { T.tells tree.new → (p : Path) → result ≢ Err (IndexFault.Damaged p) }
{
    name_fits(coll, oid);
    let path = open(alloc, tree, set, coll, oid, pos)?;
    object_file::truncate(tree, &path, len)
}
