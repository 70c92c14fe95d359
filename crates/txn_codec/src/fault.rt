use std::alloc::{AllocError, AllocFailed};

/// Why bytes are no payload: the first field that is wrong, read from the left, by the place where it begins.
///
/// A tag, a flag, a number, a length, a count and the bytes behind a length are each a field of their own.
#[derive(Debug, Clone, Copy, PartialEq, Eq)]
pub enum CodecFault {
    /// The field isn't whole.
    Short { at: u64 },
    /// A tag or a flag isn't listed.
    BadTag { at: u64 },
    /// A name has more than 1,024 bytes, or there are more than 4,096 operations.
    BadLength { at: u64 },
    /// Bytes follow the last operation.
    Trailing { at: u64 },
    Memory,
}

impl From<AllocError> for CodecFault {
    ghost use Rattle.std.specs.Prelude.{◌≡◌};
    ghost use Rattle.txn_codec.specs.declared.fault.CodecFault.TheVariants.{Memory};

    ghost from_gives = { λ _ fault. fault ≡ Memory };

    fn from(_: AllocError) -> CodecFault {
        CodecFault::Memory
    }
}

impl<T: Drop> From<AllocFailed<T>> for CodecFault {
    ghost use Rattle.std.specs.Prelude.{◌≡◌};
    ghost use Rattle.txn_codec.specs.declared.fault.CodecFault.TheVariants.{Memory};

    ghost from_gives = { λ _ fault. fault ≡ Memory };

    fn from(_: AllocFailed<T>) -> CodecFault {
        CodecFault::Memory
    }
}
