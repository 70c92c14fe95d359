// A whole transaction.
ghost use Rattle.std.specs.Prelude.{◌≡◌, ◌≢◌, ◌≤◌, ◌^◌, length, Err, OnOk, IsErrOf};
ghost use Rattle.fault_count.specs.Counted.{Counted};
ghost use Rattle.built_ops.specs.Built.{AllFit};
ghost use Rattle.tree_api.specs.Tree.{Path};
ghost use Rattle.apply_ops.specs.Next.{IsReady, StaysStore, TxnKept, TxnDone};

use crate::applying::apply;
use fs_model::Op;
use fs_names::{Pos, Settings};
use index_fault::IndexFault;
use std::alloc::Global;
use tree_api::FileTree;

/// Does the operations of the transaction `seq`, in order, live or on replay.
pub fn apply_all<T: FileTree>(
    alloc: Global,
    tree: &mut T,
    set: &Settings,
    seq: u64,
    ops: &[Op],
) -> Result<(), IndexFault>
    requires ready { T.tells tree.old → IsReady set.now (T.disk tree.old) }
    requires fit { AllFit ops.now }
    requires few { length ops.now ≤ 2 ^ 32 }
    ensures told { T.tells tree.new → T.tells tree.old }
    ensures faults { (T.disk tree.old).faults ≤ (T.disk tree.new).faults }
    ensures cause { IsErrOf result IndexFault.Tree → Counted (T.disk tree.old).faults (T.disk tree.new).faults }
    ensures syncs { (T.disk tree.new).syncs ≡ (T.disk tree.old).syncs }
    ensures keeps { T.tells tree.new → TxnKept set.now seq ops.now (T.disk tree.old) (T.disk tree.new) }
    ensures done { T.tells tree.new → TxnDone set.now seq ops.now result (T.disk tree.old) (T.disk tree.new) }
    ensures ready { T.tells tree.new → OnOk result (IsReady set.now (T.disk tree.new)) }
    ensures stores { T.tells tree.new → StaysStore (T.disk tree.old) (T.disk tree.new) }
    ensures undamaged { T.tells tree.new → (p : Path) → result ≢ Err (IndexFault.Damaged p) }
{
    for (i, op) in ops.iter().enumerate() {
        let pos = Pos {
            seq,
            txn: 0,
            op: i as u32,
        };
        apply(alloc, tree, set, pos, op)?;
    }
    Ok(())
}
