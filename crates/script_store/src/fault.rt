//! Why a statement isn't done.
ghost use Rattle.std.specs.Prelude.{◌≢◌};
ghost use Rattle.file_store.specs.declared.fault.First.{First};
ghost use Rattle.script_store.specs.Faults.{IsOfReading, IsOfTurn};

use file_store::{ReadFault, TurnFault};
use std::alloc::AllocError;
use tree_api::TreePath;

/// Why a statement isn't done. The store is mounted again before use.
#[derive(Debug, Drop)]
pub enum StepFault {
    /// The tree refused a call.
    Tree,
    /// The device refused a call.
    Device,
    /// What stands at this path is nothing that a store leaves there.
    Damaged {
        /// The path.
        path: TreePath,
    },
    /// Want of memory.
    Memory,
}

impl From<AllocError> for StepFault {
    ghost use Rattle.std.specs.Prelude.{◌≡◌};
    ghost use Rattle.script_store.specs.declared.fault.StepFault.TheVariants.{Memory};

    ghost from_gives = { λ _ fault. fault ≡ Memory };

    fn from(_: AllocError) -> StepFault {
        StepFault::Memory
    }
}

/// The fault of a reading of a store that works.
pub fn of_reading(fault: ReadFault) -> StepFault
    requires { (first : First) → fault ≢ ReadFault.Broken first }
    ensures { IsOfReading fault result }
{
    match fault {
        ReadFault::Broken(_) => unreachable!(),
        ReadFault::Tree => StepFault::Tree,
        ReadFault::Damaged { path } => StepFault::Damaged { path },
        ReadFault::Memory => StepFault::Memory,
    }
}

/// The fault of a drain of a store that worked before.
pub fn of_turn(fault: TurnFault) -> StepFault
    requires { (first : First) → fault ≢ TurnFault.Broken first }
    ensures { IsOfTurn fault result }
{
    match fault {
        TurnFault::Broken(_) => unreachable!(),
        TurnFault::Tree => StepFault::Tree,
        TurnFault::Device => StepFault::Device,
        TurnFault::Damaged { path } => StepFault::Damaged { path },
        TurnFault::Memory => StepFault::Memory,
    }
}
