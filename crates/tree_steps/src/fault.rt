// Why a change was not made.
ghost use Rattle.std.specs.Prelude.{◌≡◌};

use dev_edge::EdgeFault;
use std::alloc::{AllocError, AllocFailed};
use tree_api::TreeError;

/// Why a change was not made.
#[derive(Clone, Copy, Debug)]
pub enum Fault {
    /// The words are no changes.
    Usage,
    /// The tree was not opened.
    Edge,
    /// The tree has failed, and has counted a fault.
    Tree,
    Memory,
}

impl From<EdgeFault> for Fault {
    ghost use Rattle.tree_steps.specs.declared.fault.Fault.TheVariants.{Edge};

    ghost from_gives = { λ _ f. f ≡ Edge };

    fn from(_fault: EdgeFault) -> Fault {
        Fault::Edge
    }
}

impl From<TreeError> for Fault {
    ghost use Rattle.tree_steps.specs.Faults.{of_tree};

    ghost from_gives = { λ fault f. f ≡ of_tree fault };

    fn from(fault: TreeError) -> Fault {
        match fault {
            TreeError::Refused => Fault::Tree,
            TreeError::Memory => Fault::Memory,
        }
    }
}

impl From<AllocError> for Fault {
    ghost use Rattle.tree_steps.specs.declared.fault.Fault.TheVariants.{Memory};

    ghost from_gives = { λ _ f. f ≡ Memory };

    fn from(_fault: AllocError) -> Fault {
        Fault::Memory
    }
}

impl<T: Drop> From<AllocFailed<T>> for Fault {
    ghost use Rattle.tree_steps.specs.declared.fault.Fault.TheVariants.{Memory};

    ghost from_gives = { λ _ f. f ≡ Memory };

    fn from(_fault: AllocFailed<T>) -> Fault {
        Fault::Memory
    }
}
