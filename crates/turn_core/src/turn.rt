/// A step of a store.
#[derive(Clone, Copy, Debug, PartialEq, Eq)]
pub enum Turn {
    /// Appends the next waiting transaction to the journal.
    Journal,
    /// Syncs the journal.
    Sync,
    /// Puts the next transaction into the lowest free slot.
    Start,
    /// Does the next operation of a slot's transaction.
    Apply(u8),
    /// Pauses starts, or, once nothing is open, takes the number to commit.
    Commit,
    /// Syncs the key store.
    MapSync,
    /// Syncs the whole tree.
    TreeSync,
    /// Writes the number to the tree.
    Seq,
    /// Takes a snapshot of the tree.
    Snap,
    /// Gives up the journal's entries up to the number.
    Trim,
    /// Removes a tree from the trash.
    Sweep,
}

/// How far a commit is, with the number that it took.
#[derive(Clone, Copy, Debug, PartialEq, Eq)]
pub enum Phase {
    /// No commit runs.
    Idle,
    /// Starts wait until nothing is open.
    Pausing,
    /// The key store is to be synced.
    MapSync(u64),
    /// The tree is to be synced.
    TreeSync(u64),
    /// The number is to be written.
    Seq(u64),
    /// The snapshot is to be taken.
    Snap(u64),
    /// The journal is to be trimmed.
    Trim(u64),
}

/// The first condition that a turn misses.
#[derive(Clone, Copy, Debug, PartialEq, Eq)]
pub enum NotReady {
    NothingQueued,
    NothingToSync,
    /// A commit holds starts back.
    Paused,
    NothingToStart,
    /// Eight transactions are open.
    NoSlot,
    /// The lowest slot whose transaction names a group of the one to start.
    Conflict(u8),
    EmptySlot,
    /// Nothing was started since the last commit.
    NothingApplied,
    /// How many transactions are open.
    StillOpen(u8),
    CommitRunning,
    NotItsPhase,
    NothingToSweep,
}
