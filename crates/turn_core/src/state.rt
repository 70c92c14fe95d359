ghost use Rattle.std.specs.Prelude.{◌≡◌, ◌≤◌, IfOk};
ghost use Rattle.turn_core.specs.Table.{mounted};

use crate::{Phase, Slots};
use fs_names::Mode;
use std::alloc::{AllocError, Global};

/// The numbers, slots and phase of a store.
#[derive(Debug, Drop)]
pub struct Core {
    pub mode: Mode,
    /// How many queued transactions are not in the journal yet.
    pub waiting: u32,
    /// The last transaction in the journal.
    pub journalled: u64,
    /// The last transaction that a sync of the journal, or a snapshot, made safe.
    pub synced: u64,
    /// The last transaction whose sender was told that it is safe.
    pub acked: u64,
    /// The last transaction that took a slot.
    pub started: u64,
    /// The last transaction that the tree holds whatever crash comes, with all before it.
    pub committed: u64,
    pub slots: Slots,
    pub phase: Phase,
    /// How many trees are in the trash.
    pub trash: u128,
}

impl Core {
    /// The numbers after mount: the journal was replayed up to its last transaction, and nothing is open.
    pub fn mounted(
        alloc: Global,
        mode: Mode,
        committed: u64,
        last: u64,
        trash: u128,
    ) -> Result<Core, AllocError>
        ensures { IfOk result (λ core. core ≡ mounted mode committed last trash) }
    {
        let slots = Slots::free(alloc)?;
        Ok(Core {
            mode,
            waiting: 0,
            journalled: last,
            synced: last,
            acked: last,
            started: last,
            committed,
            slots,
            phase: Phase::Idle,
            trash,
        })
    }
}
