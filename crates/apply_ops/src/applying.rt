// Any operation that is built.
ghost use Rattle.std.specs.Prelude.{◌≡◌, ◌≢◌, ◌≤◌, true, Err, OnOk, IsErrOf};
ghost use Rattle.fs_model.specs.Check.{IsWithinLimits};
ghost use Rattle.fault_count.specs.Counted.{Counted};
ghost use Rattle.tree_api.specs.Tree.{Path};
ghost use Rattle.built_ops.specs.Built.{is_built};
ghost use Rattle.apply_ops.specs.Next.{Spot, IsNext, IsReady, SpotKept, SpotDone, StaysStore};

use crate::editing::edit;
use coll_ops::{drop_coll, make_coll};
use fs_model::Op;
use fs_names::{Pos, Settings};
use index_fault::IndexFault;
use std::alloc::Global;
use tree_api::FileTree;

/// Does an operation. One that names a collection which isn't there does nothing, but for the making of a collection.
pub fn apply<T: FileTree>(
    alloc: Global,
    tree: &mut T,
    set: &Settings,
    pos: Pos,
    op: &Op,
) -> Result<(), IndexFault>
    requires ready { T.tells tree.old → IsReady set.now (T.disk tree.old) }
    requires fit { IsWithinLimits op.now }
    requires built { is_built op.now ≡ true }
    ensures told { T.tells tree.new → T.tells tree.old }
    ensures faults { (T.disk tree.old).faults ≤ (T.disk tree.new).faults }
    ensures cause { IsErrOf result IndexFault.Tree → Counted (T.disk tree.old).faults (T.disk tree.new).faults }
    ensures syncs { (T.disk tree.new).syncs ≡ (T.disk tree.old).syncs }
    ensures keeps { T.tells tree.new → (s : Spot) → IsNext set.now s op.now (T.disk tree.old) → SpotKept set.now s (T.disk tree.old) (T.disk tree.new) }
    ensures done { T.tells tree.new → (s : Spot) → IsNext set.now s op.now (T.disk tree.old) → OnOk result (SpotDone set.now s (T.disk tree.old) (T.disk tree.new)) }
    ensures ready { T.tells tree.new → OnOk result (IsReady set.now (T.disk tree.new)) }
    ensures stores { T.tells tree.new → StaysStore (T.disk tree.old) (T.disk tree.new) }
    ensures undamaged { T.tells tree.new → (p : Path) → result ≢ Err (IndexFault.Damaged p) }
{
    match op {
        Op::MkColl { c } => {
            c.fits();
            make_coll(alloc, tree, c)
        }
        Op::RmColl { c } => {
            c.fits();
            let _grew = drop_coll(alloc, tree, c, pos)?;
            Ok(())
        }
        Op::Touch { .. }
        | Op::Write { .. }
        | Op::Zero { .. }
        | Op::Truncate { .. }
        | Op::Remove { .. }
        | Op::SetAttrs { .. }
        | Op::RmAttr { .. }
        | Op::RmAttrs { .. } => edit(alloc, tree, set, pos, op),
        Op::Clone { .. }
        | Op::CloneRange { .. }
        | Op::MoveRename { .. }
        | Op::OmapClear { .. }
        | Op::OmapSet { .. }
        | Op::OmapRemove { .. }
        | Op::OmapRange { .. } => Ok(()),
    }
}
