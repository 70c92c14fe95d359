//! Why a call on a store's tree gave up: of a directory's index, of a guard, of an object's file.
#![tactic(auto)]

ghost use Rattle.std.specs.Prelude.{◌≡◌};
ghost use Rattle.index_fault.specs.Fault.{fault_of};

use std::alloc::{AllocError, AllocFailed};
use tree_api::{TreeError, TreePath};

/// Why a call on a store's tree gave up.
#[derive(Debug, Drop)]
pub enum IndexFault {
    /// Want of memory.
    Memory,
    /// The tree has failed, and has counted a fault.
    Tree,
    /// What stands at this path is nothing that a store leaves there.
    Damaged {
        /// The path.
        path: TreePath,
    },
}

impl From<AllocError> for IndexFault {
    ghost use Rattle.index_fault.specs.declared.IndexFault.TheVariants.{Memory};

    ghost from_gives = { λ _ fault. fault ≡ Memory };

    fn from(_: AllocError) -> IndexFault {
        IndexFault::Memory
    }
}

impl<T: Drop> From<AllocFailed<T>> for IndexFault {
    ghost use Rattle.index_fault.specs.declared.IndexFault.TheVariants.{Memory};

    ghost from_gives = { λ _ fault. fault ≡ Memory };

    fn from(_: AllocFailed<T>) -> IndexFault {
        IndexFault::Memory
    }
}

impl From<TreeError> for IndexFault {
    ghost from_gives = { λ error fault. fault ≡ fault_of error };

    fn from(error: TreeError) -> IndexFault {
        match error {
            TreeError::Memory => IndexFault::Memory,
            TreeError::Refused => IndexFault::Tree,
        }
    }
}
