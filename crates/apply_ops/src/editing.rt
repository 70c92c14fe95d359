// Operations on one object.
ghost use Rattle.std.specs.Prelude.{◌≡◌, ◌≢◌, Some, Err, OnOk, IsErrOf};
ghost use Rattle.fs_model.specs.Check.{IsWithinLimits};
ghost use Rattle.tree_api.specs.Counts.{Counts};
ghost use Rattle.tree_api.specs.Disk.{Leaves};
ghost use Rattle.tree_api.specs.Tree.{Path, IsDir};
ghost use Rattle.tree_stands.specs.Names.{Name, NameFits};
ghost use Rattle.tree_stands.specs.Standing.{ObjectCrash};
ghost use Rattle.tree_stands.specs.Trees.{dir_of};
ghost use Rattle.op_effects.specs.Clear.{KeepsFree};
ghost use Rattle.op_effects.specs.Ready.{Ready, OffStays};
ghost use Rattle.apply_ops.specs.Editing.{edited, file_after, IsEdited};
ghost use Rattle.apply_ops.specs.Next.{Spot, IsNext, IsReady, SpotKept, SpotDone, StaysStore};

use crate::looking::is_there;
use fs_model::Op;
use fs_names::{Pos, Settings};
use index_fault::IndexFault;
use std::alloc::Global;
use tree_api::FileTree;

// Values of the types can have the object's name.
fn name_fits(op: &Op)
    ensures { (n : Name) → edited op.now ≡ Some n → NameFits n }
{
    match op {
        Op::Touch { c, o }
        | Op::Write { c, o, .. }
        | Op::Zero { c, o, .. }
        | Op::Truncate { c, o, .. }
        | Op::Remove { c, o }
        | Op::SetAttrs { c, o, .. }
        | Op::RmAttr { c, o, .. }
        | Op::RmAttrs { c, o } => {
            c.fits();
            o.fits();
        }
        _ => {}
    }
}

// The object's collection is there.
fn edit_object<T: FileTree>(
    alloc: Global,
    tree: &mut T,
    set: &Settings,
    pos: Pos,
    op: &Op,
) -> Result<(), IndexFault>
    requires ready { T.tells tree.old → Ready set.now (T.disk tree.old) }
    requires there { T.tells tree.old → (n : Name) → edited op.now ≡ Some n → IsDir (T.disk tree.old).tree (dir_of n.coll) }
    requires fit { IsWithinLimits op.now }
    ensures told { T.tells tree.new → T.tells tree.old }
    ensures counts { Counts (IsErrOf result IndexFault.Tree) 4 0 (T.disk tree.old) (T.disk tree.new) }
    ensures crash { T.tells tree.new → (n : Name) → edited op.now ≡ Some n → ObjectCrash set.now n (file_after op.now) (T.disk tree.old) (T.disk tree.new) }
    ensures off { T.tells tree.new → (n : Name) → edited op.now ≡ Some n → Leaves (OffStays (dir_of n.coll)) (T.disk tree.old) (T.disk tree.new) }
    ensures free { T.tells tree.new → Leaves KeepsFree (T.disk tree.old) (T.disk tree.new) }
    ensures done { T.tells tree.new → (n : Name) → edited op.now ≡ Some n → OnOk result (IsEdited set.now n op.now (T.disk tree.old).tree (T.disk tree.new).tree) }
    ensures ready { T.tells tree.new → OnOk result (Ready set.now (T.disk tree.new)) }
    ensures undamaged { T.tells tree.new → (p : Path) → result ≢ Err (IndexFault.Damaged p) }
{
    match op {
        Op::Touch { c, o } => object_ops::touch(alloc, tree, set, c, o, pos),
        Op::Write { c, o, at, bytes } => {
            object_ops::write(alloc, tree, set, c, o, *at, bytes.slice(), pos)
        }
        Op::Zero { c, o, at, len } => object_ops::zero(alloc, tree, set, c, o, *at, *len, pos),
        Op::Truncate { c, o, len } => object_ops::truncate(alloc, tree, set, c, o, *len, pos),
        Op::Remove { c, o } => object_ops::remove(alloc, tree, set, c, o),
        Op::SetAttrs { c, o, pairs } => {
            object_ops::set_attrs(alloc, tree, set, c, o, pairs.slice(), pos)
        }
        Op::RmAttr { c, o, name } => {
            object_ops::rm_attr(alloc, tree, set, c, o, name.slice(), pos)
        }
        Op::RmAttrs { c, o } => object_ops::rm_attrs(alloc, tree, set, c, o, pos),
        _ => Ok(()),
    }
}

/// Does an operation on one object. Nothing is done where the object's collection isn't there.
pub fn edit<T: FileTree>(
    alloc: Global,
    tree: &mut T,
    set: &Settings,
    pos: Pos,
    op: &Op,
) -> Result<(), IndexFault>
    requires ready { T.tells tree.old → IsReady set.now (T.disk tree.old) }
    requires fit { IsWithinLimits op.now }
    requires edits { (n : Name) × (edited op.now ≡ Some n) }
    ensures told { T.tells tree.new → T.tells tree.old }
    ensures counts { Counts (IsErrOf result IndexFault.Tree) 5 0 (T.disk tree.old) (T.disk tree.new) }
    ensures keeps { T.tells tree.new → (s : Spot) → IsNext set.now s op.now (T.disk tree.old) → SpotKept set.now s (T.disk tree.old) (T.disk tree.new) }
    ensures done { T.tells tree.new → (s : Spot) → IsNext set.now s op.now (T.disk tree.old) → OnOk result (SpotDone set.now s (T.disk tree.old) (T.disk tree.new)) }
    ensures ready { T.tells tree.new → OnOk result (IsReady set.now (T.disk tree.new)) }
    ensures stores { T.tells tree.new → StaysStore (T.disk tree.old) (T.disk tree.new) }
    ensures undamaged { T.tells tree.new → (p : Path) → result ≢ Err (IndexFault.Damaged p) }
{
    name_fits(op);
    let (coll, _) = op.colls();
    if !is_there(alloc, tree, &coll)? {
        return Ok(());
    }
    edit_object(alloc, tree, set, pos, op)
}
