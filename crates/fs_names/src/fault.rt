ghost use Rattle.std.specs.Prelude.{◌≡◌};

use std::alloc::AllocError;

/// Why bytes are no name, or a text is no spelling of an object's name.
#[derive(Debug, Drop, Clone, Copy, PartialEq, Eq)]
pub enum NameFault {
    /// At this place of the text, counted from 0, begins something in the name, the key or the namespace that spells no
    /// byte there.
    BadEscape { at: u64 },
    /// This field is no spelling. Fields are counted from 0; 6 says that there aren't six.
    BadField { n: u8 },
    /// This field has more than 1,024 bytes.
    TooLong { field: u8 },
    /// Not enough memory.
    Memory,
}

/// Why a text is no name of a collection.
#[derive(Debug, Drop, Clone, Copy, PartialEq, Eq)]
pub enum CollFault {
    /// No collection is spelled so.
    NotColl,
    /// Not enough memory.
    Memory,
}

impl From<AllocError> for NameFault {
    ghost use Rattle.fs_names.specs.declared.fault.NameFault.TheVariants.{Memory};

    ghost from_gives = { λ _ fault. fault ≡ Memory };

    fn from(_: AllocError) -> NameFault {
        NameFault::Memory
    }
}
