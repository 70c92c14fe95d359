ghost use Rattle.std.specs.Prelude.{◌≡◌};
ghost use Rattle.fs_script.specs.declared.fault.LineFault.TheVariants.{Memory as NoMemory};
ghost use Rattle.fs_script.specs.declared.fault.ScriptFault.TheVariants.{Memory};

use std::alloc::AllocError;

/// Why a line, or a whole script, is refused.
#[derive(Debug, Drop, Clone, Copy, PartialEq, Eq)]
pub enum ScriptWhy {
    /// The first word begins no statement.
    UnknownWord,
    /// Between `begin` and `end` stands something that is no operation.
    NotInTransaction,
    EndWithoutBegin,
    /// The statement takes another number of words.
    WrongCount,
    BadCollection,
    BadObject,
    BadNumber,
    BadBytes,
    /// A `begin` has no `end`; its line is that of the `begin`.
    NoEnd,
    /// The script has more than 67,108,864 bytes; its line is 0.
    TooLong,
}

/// Why a script isn't run.
#[derive(Debug, Drop)]
pub enum ScriptFault {
    /// The first refused line, counted from 1.
    Line { line: u64, why: ScriptWhy },
    Memory,
}

/// Why a field or a line says nothing.
#[derive(Debug, Drop)]
pub enum LineFault {
    Bad(ScriptWhy),
    Memory,
}

impl From<AllocError> for ScriptFault {
    ghost from_gives = { λ _ e. e ≡ Memory };

    fn from(_failed: AllocError) -> ScriptFault {
        ScriptFault::Memory
    }
}

impl From<AllocError> for LineFault {
    ghost from_gives = { λ _ e. e ≡ NoMemory };

    fn from(_failed: AllocError) -> LineFault {
        LineFault::Memory
    }
}
