//! Why a call gives up.
ghost use Rattle.std.specs.Prelude.{◌≡◌};
ghost use Rattle.file_store.specs.Faults.{first_of, of_index, of_queue, of_sweep, of_turn};

use fs_model::Why;
use index_fault::IndexFault;
use store_turns::StoreFault;
use tree_api::TreePath;

/// What a store met first. It is mounted again before use.
#[derive(Clone, Copy, Debug, PartialEq, Eq)]
pub enum First {
    /// The tree refused a call.
    Tree,
    /// The device refused a call.
    Device,
    /// Something stood in the tree that no store leaves there.
    Damaged,
    /// Want of memory.
    Memory,
}

/// Why a transaction isn't queued. Nothing has changed then.
#[derive(Clone, Copy, Debug, PartialEq, Eq)]
pub enum QueueFault {
    /// A drain met this fault before.
    Broken(First),
    /// The first operation with a reason against it.
    Txn {
        /// Its place.
        op: u32,
        /// The reason.
        why: Why,
    },
    /// The first operation that isn't built.
    NotBuilt {
        /// Its place.
        op: u32,
    },
    /// Its journal entry needs more bytes than the ring has, or its payload has 2^32 bytes or more.
    TooLarge {
        /// What the entry needs.
        need: u64,
        /// What the ring has.
        size: u64,
    },
    /// As many transactions wait as may.
    QueueFull,
    /// The last number that there is was given away.
    NumbersSpent,
    /// Want of memory.
    Memory,
}

/// Why a drain gives up.
#[derive(Debug, Drop)]
pub enum TurnFault {
    /// An earlier drain met this fault; nothing has changed.
    Broken(First),
    /// The tree refused a call.
    Tree,
    /// The device refused a call.
    Device,
    /// What stands at this path is nothing that a store leaves there.
    Damaged {
        /// The path.
        path: TreePath,
    },
    /// Want of memory.
    Memory,
}

/// Why a reading gives up. Nothing has changed then.
#[derive(Debug, Drop)]
pub enum ReadFault {
    /// A drain met this fault before.
    Broken(First),
    /// The tree refused a call.
    Tree,
    /// What stands at this path is nothing that a store leaves there.
    Damaged {
        /// The path.
        path: TreePath,
    },
    /// Want of memory.
    Memory,
}

impl TurnFault {
    /// What the store has met first, once it was answered.
    pub fn first(&self) -> First
        ensures { result ≡ first_of self.now }
    {
        match self {
            TurnFault::Broken(first) => *first,
            TurnFault::Tree => First::Tree,
            TurnFault::Device => First::Device,
            TurnFault::Damaged { .. } => First::Damaged,
            TurnFault::Memory => First::Memory,
        }
    }
}

impl From<StoreFault> for TurnFault {
    ghost from_gives = { λ error fault. fault ≡ of_turn error };

    fn from(error: StoreFault) -> TurnFault {
        match error {
            StoreFault::Damaged { path } => TurnFault::Damaged { path },
            StoreFault::Tree => TurnFault::Tree,
            StoreFault::Device => TurnFault::Device,
            StoreFault::Memory => TurnFault::Memory,
        }
    }
}

impl From<IndexFault> for TurnFault {
    ghost from_gives = { λ error fault. fault ≡ of_sweep error };

    fn from(error: IndexFault) -> TurnFault {
        match error {
            IndexFault::Memory => TurnFault::Memory,
            IndexFault::Tree => TurnFault::Tree,
            IndexFault::Damaged { path } => TurnFault::Damaged { path },
        }
    }
}

impl From<IndexFault> for ReadFault {
    ghost from_gives = { λ error fault. fault ≡ of_index error };

    fn from(error: IndexFault) -> ReadFault {
        match error {
            IndexFault::Memory => ReadFault::Memory,
            IndexFault::Tree => ReadFault::Tree,
            IndexFault::Damaged { path } => ReadFault::Damaged { path },
        }
    }
}

impl From<queue_rules::QueueFault> for QueueFault {
    ghost from_gives = { λ error fault. fault ≡ of_queue error };

    fn from(error: queue_rules::QueueFault) -> QueueFault {
        match error {
            queue_rules::QueueFault::Txn { op, why } => QueueFault::Txn { op, why },
            queue_rules::QueueFault::NotBuilt { op } => QueueFault::NotBuilt { op },
            queue_rules::QueueFault::TooLarge { need, size } => QueueFault::TooLarge { need, size },
            queue_rules::QueueFault::QueueFull => QueueFault::QueueFull,
            queue_rules::QueueFault::NumbersSpent => QueueFault::NumbersSpent,
            queue_rules::QueueFault::Memory => QueueFault::Memory,
        }
    }
}
