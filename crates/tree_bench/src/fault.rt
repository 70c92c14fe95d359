// Why a command was not done.
ghost use Rattle.std.specs.Prelude.{◌≡◌};

use dev_edge::EdgeFault;
use fs_names::NameFault;
use index_fault::IndexFault;
use std::alloc::AllocError;
use tree_api::TreeError;

/// Why a command was not done.
#[derive(Clone, Copy, Debug)]
pub enum Fault {
    /// The words are no command.
    Usage,
    /// The tree was not opened.
    Edge,
    /// The tree has failed, and has counted a fault.
    Tree,
    /// An object's file isn't there, or something else is.
    Objects,
    Name(NameFault),
    Memory,
}

impl From<EdgeFault> for Fault {
    ghost use Rattle.tree_bench.specs.declared.fault.Fault.TheVariants.{Edge};

    ghost from_gives = { λ _ f. f ≡ Edge };

    fn from(_fault: EdgeFault) -> Fault {
        Fault::Edge
    }
}

impl From<TreeError> for Fault {
    ghost use Rattle.tree_bench.specs.Faults.{of_tree};

    ghost from_gives = { λ fault f. f ≡ of_tree fault };

    fn from(fault: TreeError) -> Fault {
        match fault {
            TreeError::Refused => Fault::Tree,
            TreeError::Memory => Fault::Memory,
        }
    }
}

impl From<IndexFault> for Fault {
    ghost use Rattle.tree_bench.specs.Faults.{of_index};

    ghost from_gives = { λ fault f. f ≡ of_index fault };

    fn from(fault: IndexFault) -> Fault {
        match fault {
            IndexFault::Tree => Fault::Tree,
            IndexFault::Damaged { .. } => Fault::Objects,
            IndexFault::Memory => Fault::Memory,
        }
    }
}

impl From<NameFault> for Fault {
    ghost use Rattle.tree_bench.specs.declared.fault.Fault.TheVariants.{Name};

    ghost from_gives = { λ fault f. f ≡ Name fault };

    fn from(fault: NameFault) -> Fault {
        Fault::Name(fault)
    }
}

impl From<AllocError> for Fault {
    ghost use Rattle.tree_bench.specs.declared.fault.Fault.TheVariants.{Memory};

    ghost from_gives = { λ _ f. f ≡ Memory };

    fn from(_fault: AllocError) -> Fault {
        Fault::Memory
    }
}
