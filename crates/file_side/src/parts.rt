// The tree's side of a store of files.
ghost use Rattle.std.specs.Prelude.{◌≡◌, ◌≢◌, ◌⊎◌, ◌↔◌, ℕ, ◌-◌, ◌<◌, ◌≤◌, ◌^◌, List, Err, IfOk, OnOk, IfSome, IfNone, IsTrue, IsOk, IsErr, IsErrOf};
ghost use Rattle.built_ops.specs.Built.{CanDo};
ghost use Rattle.commit_point.specs.Number.{HasNumber};
ghost use Rattle.tree_places.specs.Images.{StoreImage, IsLaid, reads as tree_reads};
ghost use Rattle.tree_places.proofs.Ready.{ready as ready_alone};
ghost use Rattle.tree_places.proofs.Theory.{theory_law};
ghost use Rattle.apply_ops.specs.Next.{IsReady};

use apply_ops::apply_all;
use built_ops::can_do;
use fs_model::Op;
use index_fault::IndexFault;
use std::alloc::Global;
use store_files::Identity;
use store_turns::{How, Side};
use tree_api::{Failed, FileTree};

/// What a store has beside its tree and its journal.
#[derive(Clone, Copy, Debug, PartialEq, Eq)]
pub struct Parts {
    /// Which store it is, with its settings, which never change.
    pub identity: Identity,
}

impl<T: FileTree> Side<T> for Parts {
    ghost set = { λ parts. parts.identity };

    ghost image = { StoreImage };

    ghost reads = { λ id. tree_reads id.settings };

    ghost number = { HasNumber };

    ghost laid = { λ id. IsLaid id.settings };

    ghost ready = { λ id. IsReady id.settings };

    ghost fits = { CanDo };

    fn is_fit(&self, ops: &[Op]) -> bool {
        can_do(ops)
    }

    fn look_over(&self, alloc: Global, tree: &mut T) -> Result<(), IndexFault> {
        store_walk::look_over(alloc, tree, &self.identity.settings)
    }

    fn apply(
        &self,
        alloc: Global,
        tree: &mut T,
        _how: How,
        seq: u64,
        ops: &[Op],
    ) -> Result<(), IndexFault> {
        apply_all(alloc, tree, &self.identity.settings, seq, ops)
    }

    fn sync_all(&self, tree: &mut T) -> Result<(), Failed> {
        tree.sync_all()
    }

    fn write_seq(&self, alloc: Global, tree: &mut T, seq: u64) -> Result<(), IndexFault> {
        commit_point::write_seq(alloc, tree, seq)
    }

    fn read_seq(&self, alloc: Global, tree: &mut T) -> Result<Option<u64>, IndexFault> {
        commit_point::read_seq(alloc, tree)
    }

    fn tidy(&self, alloc: Global, tree: &mut T) -> Result<(), IndexFault> {
        store_walk::tidy(alloc, tree)
    }

    ghost ready_is = { λ id t tells laid only. record { ready = ready_alone id.settings (T.disk t) (T.sound t tells) only laid; own = laid.own } };

    ghost theory = { theory_law };
}
