ghost use Rattle.std.specs.Prelude.{◌≡◌};
ghost use Rattle.store_opening.specs.Faults.{of_files, of_index, of_mount};

use index_fault::IndexFault;
use store_files::StoreFault;
use tree_api::TreePath;

/// Why a store can't be mounted. `Tree`, `Device` and `Memory` say nothing of what it holds.
#[derive(Debug, Drop)]
pub enum MountFault {
    /// The version or the identity is missing or misspelt, or a directory that each store has is missing.
    NotAStore,
    /// A store of another version.
    WrongVersion {
        /// That version.
        found: u64,
    },
    /// The settings are missing, misspelt, outside the limits, or of a mode that isn't built.
    BadSettings,
    /// Neither header block of the ring is sealed, or the device's size isn't one of a ring.
    NoHeader,
    /// The ring is another store's.
    WrongFsid {
        /// The store's.
        tree: [u8; 16],
        /// The ring's.
        ring: [u8; 16],
    },
    /// The newer header's generation or epoch is 2^63 or more.
    Spent,
    /// No committed number below 2^63 stands in the tree.
    BadSeq,
    /// Transactions are missing between the committed number and the ring's first one.
    JournalGap {
        /// The ring's first number.
        start: u64,
        /// The committed number.
        committed: u64,
    },
    /// What stands at this path is nothing that a store leaves there.
    Damaged {
        /// The path.
        path: TreePath,
    },
    /// The entry above the committed number whose payload is no transaction, or one that can't be done.
    BadEntry {
        /// Its number.
        seq: u64,
    },
    /// The tree refused a call.
    Tree,
    /// The device refused a call.
    Device,
    /// Want of memory.
    Memory,
}

impl From<StoreFault> for MountFault {
    ghost from_gives = { λ error fault. fault ≡ of_files error };

    fn from(error: StoreFault) -> MountFault {
        match error {
            StoreFault::NotAStore => MountFault::NotAStore,
            StoreFault::WrongVersion { found } => MountFault::WrongVersion { found },
            StoreFault::BadSettings => MountFault::BadSettings,
            StoreFault::Tree => MountFault::Tree,
            StoreFault::Memory => MountFault::Memory,
        }
    }
}

impl From<store_mount::MountFault> for MountFault {
    ghost from_gives = { λ error fault. fault ≡ of_mount error };

    fn from(error: store_mount::MountFault) -> MountFault {
        match error {
            store_mount::MountFault::NoHeader => MountFault::NoHeader,
            store_mount::MountFault::WrongFsid { tree, ring } => {
                MountFault::WrongFsid { tree, ring }
            }
            store_mount::MountFault::Spent => MountFault::Spent,
            store_mount::MountFault::BadSeq => MountFault::BadSeq,
            store_mount::MountFault::JournalGap { start, committed } => {
                MountFault::JournalGap { start, committed }
            }
            store_mount::MountFault::Damaged { path } => MountFault::Damaged { path },
            store_mount::MountFault::BadEntry { seq } => MountFault::BadEntry { seq },
            store_mount::MountFault::Tree => MountFault::Tree,
            store_mount::MountFault::Device => MountFault::Device,
            store_mount::MountFault::Memory => MountFault::Memory,
        }
    }
}

impl From<IndexFault> for MountFault {
    ghost from_gives = { λ error fault. fault ≡ of_index error };

    fn from(error: IndexFault) -> MountFault {
        match error {
            IndexFault::Memory => MountFault::Memory,
            IndexFault::Tree => MountFault::Tree,
            IndexFault::Damaged { path } => MountFault::Damaged { path },
        }
    }
}
