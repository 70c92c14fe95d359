ghost use Rattle.std.specs.Prelude.{◌≡◌};
ghost use Rattle.store_making.specs.Making.{of_files, of_ring};
ghost use Rattle.store_making.specs.declared.fault.MakeFault.TheVariants.{Tree as TreeFailed, Memory as NoMemory};
ghost use Rattle.tree_api.specs.declared.tree.TreeError.TheVariants as failed;

use ring_journal::RingFault;
use tree_api::TreeError;

/// Why no store was made.
#[derive(Clone, Copy, Debug, PartialEq, Eq)]
pub enum MakeFault {
    /// Something stands in the tree, or a snapshot is kept.
    NotEmpty,
    /// The device has another size than a ring's.
    DeviceSize {
        /// Its bytes.
        size: u64,
    },
    /// The tree refused a call.
    Tree,
    /// The device refused a call.
    Device,
    /// Want of memory.
    Memory,
}

impl From<store_files::MakeFault> for MakeFault {
    ghost from_gives = { λ error fault. fault ≡ of_files error };

    fn from(error: store_files::MakeFault) -> MakeFault {
        match error {
            store_files::MakeFault::NotEmpty => MakeFault::NotEmpty,
            store_files::MakeFault::Tree => MakeFault::Tree,
            store_files::MakeFault::Memory => MakeFault::Memory,
        }
    }
}

impl From<RingFault> for MakeFault {
    ghost from_gives = { λ error fault. fault ≡ of_ring error };

    fn from(error: RingFault) -> MakeFault {
        match error {
            RingFault::Dev => MakeFault::Device,
            _ => MakeFault::Memory,
        }
    }
}
