//! Why a mount gives up.
ghost use Rattle.std.specs.Prelude.{◌≡◌};
ghost use Rattle.store_mount.specs.Fault.{of_index, of_journal, of_redo, of_ring};

use index_fault::IndexFault;
use ring_journal::RingFault;
use store_journal::JournalFault;
use store_turns::RedoFault;
use tree_api::TreePath;

/// Why a store can't be mounted. `Tree`, `Device` and `Memory` say nothing of what it holds.
#[derive(Debug, Drop)]
pub enum MountFault {
    /// Neither header block of the ring is sealed, or the device's size isn't one of a ring.
    NoHeader,
    /// The ring is another store's.
    WrongFsid {
        /// The store's.
        tree: [u8; 16],
        /// The ring's.
        ring: [u8; 16],
    },
    /// The newer header's generation or epoch is 2^63 or more.
    Spent,
    /// No committed number below 2^63 stands in the tree.
    BadSeq,
    /// Transactions are missing between the committed number and the ring's first one.
    JournalGap {
        /// The ring's first number.
        start: u64,
        /// The committed number.
        committed: u64,
    },
    /// What stands at this path is nothing that a store leaves there.
    Damaged {
        /// The path.
        path: TreePath,
    },
    /// The entry above the committed number whose payload is no transaction, or one that can't be done.
    BadEntry {
        /// Its number.
        seq: u64,
    },
    /// The tree refused a call.
    Tree,
    /// The device refused a call.
    Device,
    /// Want of memory.
    Memory,
}

impl From<IndexFault> for MountFault {
    ghost from_gives = { λ error fault. fault ≡ of_index error };

    fn from(error: IndexFault) -> MountFault {
        match error {
            IndexFault::Memory => MountFault::Memory,
            IndexFault::Tree => MountFault::Tree,
            IndexFault::Damaged { path } => MountFault::Damaged { path },
        }
    }
}

impl From<JournalFault> for MountFault {
    ghost from_gives = { λ error fault. fault ≡ of_journal error };

    fn from(error: JournalFault) -> MountFault {
        match error {
            JournalFault::Memory => MountFault::Memory,
            JournalFault::Device => MountFault::Device,
        }
    }
}

/// What it is to a mount that a ring refuses to load for an fsid.
pub fn load_fault(fault: RingFault, fsid: &[u8; 16]) -> MountFault
    ensures { result ≡ of_ring fsid.now fault }
{
    match fault {
        RingFault::NoHeader => MountFault::NoHeader,
        RingFault::WrongRing { found } => MountFault::WrongFsid {
            tree: *fsid,
            ring: found,
        },
        RingFault::Spent => MountFault::Spent,
        RingFault::Dev => MountFault::Device,
        RingFault::Memory | RingFault::Full { .. } | RingFault::TooLarge { .. } => {
            MountFault::Memory
        }
    }
}

/// What it is to a mount that the entry of a number was not done again.
pub fn redo_fault(fault: RedoFault, seq: u64) -> MountFault
    ensures { result ≡ of_redo seq fault }
{
    match fault {
        RedoFault::Memory => MountFault::Memory,
        RedoFault::Tree => MountFault::Tree,
        RedoFault::BadEntry => MountFault::BadEntry { seq },
        RedoFault::Damaged { path } => MountFault::Damaged { path },
    }
}
