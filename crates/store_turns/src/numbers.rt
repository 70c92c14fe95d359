// The numbers of a store between two transactions.
ghost use Rattle.std.specs.Prelude.{◌≡◌};
ghost use Rattle.store_turns.specs.Fault.{of_index, of_journal};

use fs_model::{Blob, Txn};
use index_fault::IndexFault;
use store_journal::JournalFault;
use tree_api::TreePath;

/// How operations are done.
#[derive(Clone, Copy, Debug, PartialEq, Eq)]
pub enum How {
    /// For the first time, on a tree that has all transactions before.
    Live,
    /// After a crash, on a tree that may have a part of them, and of later ones too.
    Replay,
}

/// What is journalled is synced, acknowledged and applied.
#[derive(Clone, Copy, Debug, PartialEq, Eq)]
pub struct Numbers {
    /// The number of the last transaction that was entered.
    pub journalled: u64,
    /// The number that the tree has.
    pub committed: u64,
}

/// Whose fault it was. The store is mounted again before use.
#[derive(Debug, Drop)]
pub enum StoreFault {
    /// What stands at this path is nothing that a store leaves there.
    Damaged {
        /// The path.
        path: TreePath,
    },
    /// The tree refused a call.
    Tree,
    /// The device refused a call.
    Device,
    /// Want of memory.
    Memory,
}

impl From<IndexFault> for StoreFault {
    ghost from_gives = { λ error fault. fault ≡ of_index error };

    fn from(error: IndexFault) -> StoreFault {
        match error {
            IndexFault::Memory => StoreFault::Memory,
            IndexFault::Tree => StoreFault::Tree,
            IndexFault::Damaged { path } => StoreFault::Damaged { path },
        }
    }
}

impl From<JournalFault> for StoreFault {
    ghost from_gives = { λ error fault. fault ≡ of_journal error };

    fn from(error: JournalFault) -> StoreFault {
        match error {
            JournalFault::Memory => StoreFault::Memory,
            JournalFault::Device => StoreFault::Device,
        }
    }
}

/// A transaction that waits, with its payload.
#[derive(Drop)]
pub struct Queued {
    /// What is journalled.
    pub payload: Blob,
    /// What it spells.
    pub txn: Txn,
}
