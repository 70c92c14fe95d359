ghost use Rattle.std.specs.Prelude.{◌≡◌};

use std::alloc::AllocError;
use tree_api::TreeError;

/// Why a tree isn't read as a store.
#[derive(Clone, Copy, Debug, PartialEq, Eq)]
pub enum StoreFault {
    /// The version or the identity is missing or misspelt, or a directory that each store has is missing.
    NotAStore,
    /// A store of another version.
    WrongVersion {
        /// That version.
        found: u64,
    },
    /// The settings are missing, misspelt, outside the limits, or of a mode that isn't built.
    BadSettings,
    /// The tree has failed, and has counted a fault.
    Tree,
    Memory,
}

impl From<AllocError> for StoreFault {
    ghost use Rattle.store_files.specs.declared.fault.StoreFault.TheVariants.{Memory};

    ghost from_gives = { λ _ fault. fault ≡ Memory };

    fn from(_: AllocError) -> StoreFault {
        StoreFault::Memory
    }
}

impl From<TreeError> for StoreFault {
    ghost use Rattle.store_files.specs.Faults.{fault_of};

    ghost from_gives = { λ error fault. fault ≡ fault_of error };

    fn from(error: TreeError) -> StoreFault {
        match error {
            TreeError::Memory => StoreFault::Memory,
            TreeError::Refused => StoreFault::Tree,
        }
    }
}

/// Why no store was made.
#[derive(Clone, Copy, Debug, PartialEq, Eq)]
pub enum MakeFault {
    /// Something stands in the tree, or a snapshot is kept.
    NotEmpty,
    /// The tree has failed, and has counted a fault.
    Tree,
    Memory,
}

impl From<AllocError> for MakeFault {
    ghost use Rattle.store_files.specs.declared.fault.MakeFault.TheVariants.{Memory};

    ghost from_gives = { λ _ fault. fault ≡ Memory };

    fn from(_: AllocError) -> MakeFault {
        MakeFault::Memory
    }
}

impl From<TreeError> for MakeFault {
    ghost use Rattle.store_files.specs.Faults.{make_fault_of};

    ghost from_gives = { λ error fault. fault ≡ make_fault_of error };

    fn from(error: TreeError) -> MakeFault {
        match error {
            TreeError::Memory => MakeFault::Memory,
            TreeError::Refused => MakeFault::Tree,
        }
    }
}
