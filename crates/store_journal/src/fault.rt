ghost use Rattle.std.specs.Prelude.{◌≡◌};
ghost use Rattle.store_journal.specs.Fault.{fault_of};

use ring_journal::RingFault;

/// Why a step on the journal gave up. The ring is loaded again before use.
#[derive(Clone, Copy, Debug, PartialEq, Eq)]
pub enum JournalFault {
    /// The device refused a call.
    Device,
    /// Want of memory.
    Memory,
}

impl From<RingFault> for JournalFault {
    ghost from_gives = { λ ring fault. fault ≡ fault_of ring };

    fn from(fault: RingFault) -> JournalFault {
        match fault {
            RingFault::Dev => JournalFault::Device,
            _ => JournalFault::Memory,
        }
    }
}
