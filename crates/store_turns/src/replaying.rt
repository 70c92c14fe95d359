// Entries above the committed number are done again.
ghost use Rattle.std.specs.Prelude.{◌≡◌, ◌≢◌, ◌<◌, ◌≤◌, List, Ok, Err, OnOk, IsErrOf};
ghost use Rattle.fault_count.specs.Counted.{Counted};
ghost use Rattle.fs_model.specs.declared.op.Op.{Op};
ghost use Rattle.txn_codec.specs.Reading.{decoded};
ghost use Rattle.tree_api.specs.Tree.{Path};
ghost use Rattle.tree_api.specs.Disk.{Keeps};
ghost use Rattle.store_turns.specs.Calls.{WhereReplayed};
ghost use Rattle.store_turns.specs.Fault.{redo_of};
ghost use Rattle.store_turns.specs.declared.numbers.How.TheVariants.{Replay};

use crate::numbers::How;
use crate::side::Side;
use index_fault::IndexFault;
use std::alloc::Global;
use tree_api::{FileTree, TreePath};
use txn_codec::{CodecFault, decode_txn};

/// Why an entry was not done again.
#[derive(Debug, Drop)]
pub enum RedoFault {
    /// What stands at this path is nothing that a store leaves there.
    Damaged {
        /// The path.
        path: TreePath,
    },
    /// The tree refused a call.
    Tree,
    /// Want of memory.
    Memory,
    /// Its payload is no transaction, or one that can't be done.
    BadEntry,
}

impl From<IndexFault> for RedoFault {
    ghost from_gives = { λ error fault. fault ≡ redo_of error };

    fn from(error: IndexFault) -> RedoFault {
        match error {
            IndexFault::Memory => RedoFault::Memory,
            IndexFault::Tree => RedoFault::Tree,
            IndexFault::Damaged { path } => RedoFault::Damaged { path },
        }
    }
}

/// Does the transaction of an entry again, where its number is above the committed one.
pub fn redo<T: FileTree, S: Side<T>>(
    alloc: Global,
    side: &S,
    tree: &mut T,
    seq: u64,
    payload: &[u8],
    committed: u64,
) -> Result<(), RedoFault>
    requires ready { T.tells tree.old → S.ready (S.set side.now) (T.disk tree.old) }
    ensures ready { T.tells tree.new → OnOk result (S.ready (S.set side.now) (T.disk tree.new)) }
    ensures skipped { seq ≤ committed → tree.new ≡ tree.old }
    ensures keeps { T.tells tree.new → committed < seq
        → WhereReplayed (S.image (S.set side.now)) (S.reads (S.set side.now)) committed seq payload.now (T.disk tree.old)
        (λ h hi. Keeps (S.image (S.set side.now) h committed committed hi) (T.disk tree.old) (T.disk tree.new)) }
    ensures done { T.tells tree.new → committed < seq
        → WhereReplayed (S.image (S.set side.now)) (S.reads (S.set side.now)) committed seq payload.now (T.disk tree.old)
        (λ h hi. OnOk result (S.reads (S.set side.now) Replay h seq (T.disk tree.new).tree)) }
    ensures spelled { committed < seq → OnOk result ((ops : List Op) × (decoded payload.now ≡ Ok ops) × S.fits ops) }
    ensures bad { IsErrOf result RedoFault.BadEntry → (ops : List Op) → decoded payload.now ≡ Ok ops → S.fits ops → ⊥ }
    ensures above { IsErrOf result RedoFault.BadEntry → committed < seq }
    ensures undamaged { T.tells tree.new → (p : Path) → result ≢ Err (RedoFault.Damaged p) }
    ensures told { T.tells tree.new → T.tells tree.old }
    ensures faults { (T.disk tree.old).faults ≤ (T.disk tree.new).faults }
    ensures cause { IsErrOf result RedoFault.Tree → Counted (T.disk tree.old).faults (T.disk tree.new).faults }
{
    if seq <= committed {
        return Ok(());
    }
    let txn = match decode_txn(alloc, payload) {
        Ok(txn) => txn,
        Err(CodecFault::Memory) => return Err(RedoFault::Memory),
        Err(_) => return Err(RedoFault::BadEntry),
    };
    if !side.is_fit(txn.ops.slice()) {
        return Err(RedoFault::BadEntry);
    }
    side.apply(alloc, tree, How::Replay, seq, txn.ops.slice())?;
    Ok(())
}
