ghost use Rattle.std.specs.Prelude.{◌≡◌, ◌<◌, length, None, IfOk, OnOk};
ghost use Rattle.turn_core.specs.Table.{missing, IsWellFormed};

use crate::{Core, Groups, NotReady, Phase, Slot, Turn};
use fs_names::{GroupId, Mode};
use std::alloc::{AllocError, Global};

// A store whose transactions up to 5 are applied and up to 4 committed.
fn store(alloc: Global, mode: Mode) -> Result<Core, AllocError>
    ensures { IfOk result (λ core. IsWellFormed core) }
{
    Core::mounted(alloc, mode, 4, 5, 0)
}

fn group(alloc: Global, seed: u32) -> Result<Groups, AllocError> {
    let mut ids = Vec::new(alloc);
    ids.push(GroupId::Pg(1, seed))?;
    Ok(Groups::from_vec(ids))
}

// Does a turn that needs no slot, where it is ready.
fn run(core: &mut Core, turn: Turn) -> Result<(), NotReady>
    requires { IsWellFormed core.old }
    ensures { IsWellFormed core.new }
{
    core.ready(turn, &[])?;
    match turn {
        Turn::Start => {}
        Turn::Journal => {
            if core.journalled < u64::MAX {
                core.step(turn, None);
            }
        }
        _ => core.step(turn, None),
    }
    Ok(())
}

// Does turns up to the first that is not ready.
fn run_all(core: &mut Core, turns: &[Turn]) -> Result<(), NotReady>
    requires { IsWellFormed core.old }
    ensures { IsWellFormed core.new }
{
    for turn in turns {
        run(core, *turn)?;
    }
    Ok(())
}

// Starts the next transaction, where that is ready.
fn start(core: &mut Core, ops: u32, groups: Groups) -> Result<(), NotReady>
    requires well_formed { IsWellFormed core.old }
    requires some { 0 < ops }
    ensures { IsWellFormed core.new }
{
    core.ready(Turn::Start, groups.slice())?;
    let seq = core.started + 1;
    core.step(
        Turn::Start,
        Some(Slot {
            seq,
            next: 0,
            ops,
            groups,
        }),
    );
    Ok(())
}

// What a Start answers where this many transactions of one group each are open, and the next one has that group.
fn after_starts(alloc: Global, count: u32, seed: u32) -> Result<Result<(), NotReady>, AllocError> {
    let mut core = store(alloc, Mode::WriteAhead)?;
    core.journalled = 100;
    core.synced = 100;
    for i in 0..count {
        let groups = group(alloc, i)?;
        if start(&mut core, 1, groups).is_err() {
            break;
        }
    }
    Ok(start(&mut core, 1, group(alloc, seed)?))
}

// What a turn answers in a phase.
fn in_phase(
    alloc: Global,
    mode: Mode,
    phase: Phase,
    turn: Turn,
) -> Result<Result<(), NotReady>, AllocError> {
    let mut core = store(alloc, mode)?;
    core.phase = phase;
    core.journalled = 6;
    Ok(core.ready(turn, &[]))
}

#[test]
fn a_fresh_store_has_nothing_to_do(rt: HostRuntime) -> Result<(), AllocError> {
    let mut core = store(rt.alloc(), Mode::WriteAhead)?;
    core.committed = 5;
    assert_eq!(rt;
        core.ready(Turn::Journal, &[]),
        Err(NotReady::NothingQueued)
    );
    assert_eq!(rt; core.ready(Turn::Sync, &[]), Err(NotReady::NothingToSync));
    assert_eq!(rt; core.ready(Turn::Start, &[]), Err(NotReady::NothingToStart));
    assert_eq!(rt; core.ready(Turn::Apply(0), &[]), Err(NotReady::EmptySlot));
    assert_eq!(rt; core.ready(Turn::Apply(8), &[]), Err(NotReady::EmptySlot));
    assert_eq!(rt;
        core.ready(Turn::Commit, &[]),
        Err(NotReady::NothingApplied)
    );
    assert_eq!(rt; core.ready(Turn::Sweep, &[]), Err(NotReady::NothingToSweep));
    Ok(())
}

#[test]
fn turns_of_a_commit_wait_for_their_phase(rt: HostRuntime) -> Result<(), AllocError> {
    let alloc = rt.alloc();
    let wal = Mode::WriteAhead;
    let late = Err(NotReady::NotItsPhase);
    let paused = Err(NotReady::Paused);
    assert_eq!(rt; in_phase(alloc, wal, Phase::Idle, Turn::MapSync)?, late);
    assert_eq!(rt;
        in_phase(alloc, wal, Phase::MapSync(5), Turn::TreeSync)?,
        late
    );
    assert_eq!(rt; in_phase(alloc, wal, Phase::TreeSync(5), Turn::Seq)?, late);
    assert_eq!(rt; in_phase(alloc, wal, Phase::Seq(5), Turn::Snap)?, late);
    assert_eq!(rt; in_phase(alloc, wal, Phase::Seq(5), Turn::Trim)?, late);
    assert_eq!(rt;
        in_phase(alloc, wal, Phase::Trim(5), Turn::Commit)?,
        Err(NotReady::CommitRunning)
    );
    assert_eq!(rt; in_phase(alloc, wal, Phase::Pausing, Turn::Start)?, paused);
    assert_eq!(rt;
        in_phase(alloc, Mode::Parallel, Phase::Snap(5), Turn::Start)?,
        paused
    );
    Ok(())
}

#[test]
fn a_parallel_start_waits_for_the_journal_alone(rt: HostRuntime) -> Result<(), AllocError> {
    let alloc = rt.alloc();
    let nothing = Err(NotReady::NothingToStart);
    assert_eq!(rt;
        in_phase(alloc, Mode::Parallel, Phase::Idle, Turn::Start)?,
        Ok(())
    );
    assert_eq!(rt;
        in_phase(alloc, Mode::WriteAhead, Phase::Idle, Turn::Start)?,
        nothing
    );
    Ok(())
}

#[test]
fn a_start_wants_a_free_slot_and_groups_of_its_own(rt: HostRuntime) -> Result<(), AllocError> {
    let alloc = rt.alloc();
    assert_eq!(rt; after_starts(alloc, 3, 3)?, Ok(()));
    assert_eq!(rt; after_starts(alloc, 3, 2)?, Err(NotReady::Conflict(2)));
    assert_eq!(rt; after_starts(alloc, 8, 9)?, Err(NotReady::NoSlot));
    Ok(())
}

// The numbers of a store: journalled, synced, acknowledged, started, committed.
fn numbers(core: &Core) -> (u64, u64, u64, u64, u64) {
    (
        core.journalled,
        core.synced,
        core.acked,
        core.started,
        core.committed,
    )
}

#[test]
fn a_transaction_goes_its_way_write_ahead(rt: HostRuntime) -> Result<(), AllocError> {
    let alloc = rt.alloc();
    let mut core = store(alloc, Mode::WriteAhead)?;
    core.waiting = 1;
    assert_eq!(rt; run_all(&mut core, &[Turn::Journal]), Ok(()));
    assert_eq!(rt; numbers(&core), (6, 5, 5, 5, 4));
    assert_eq!(rt; run_all(&mut core, &[Turn::Sync]), Ok(()));
    assert_eq!(rt; numbers(&core), (6, 6, 6, 5, 4));
    assert_eq!(rt; start(&mut core, 2, group(alloc, 0)?), Ok(()));
    assert_eq!(rt;
        run_all(&mut core, &[Turn::Apply(0), Turn::Commit, Turn::Commit]),
        Err(NotReady::StillOpen(1))
    );
    let rest = [
        Turn::Apply(0),
        Turn::Commit,
        Turn::MapSync,
        Turn::TreeSync,
        Turn::Seq,
        Turn::Trim,
    ];
    assert_eq!(rt; run_all(&mut core, &rest), Ok(()));
    assert_eq!(rt; numbers(&core), (6, 6, 6, 6, 6));
    Ok(())
}

#[test]
fn a_snapshot_acknowledges_in_parallel_mode(rt: HostRuntime) -> Result<(), AllocError> {
    let alloc = rt.alloc();
    let mut core = store(alloc, Mode::Parallel)?;
    core.waiting = 1;
    assert_eq!(rt; run_all(&mut core, &[Turn::Journal]), Ok(()));
    assert_eq!(rt; start(&mut core, 1, group(alloc, 0)?), Ok(()));
    let turns = [
        Turn::Apply(0),
        Turn::Commit,
        Turn::Commit,
        Turn::MapSync,
        Turn::Seq,
    ];
    assert_eq!(rt; run_all(&mut core, &turns), Ok(()));
    assert_eq!(rt; numbers(&core), (6, 5, 5, 6, 4));
    assert_eq!(rt; run_all(&mut core, &[Turn::Snap, Turn::Trim]), Ok(()));
    assert_eq!(rt; numbers(&core), (6, 6, 6, 6, 6));
    Ok(())
}

#[test]
fn groups_and_slots_are_lists(rt: HostRuntime) -> Result<(), AllocError> {
    let alloc = rt.alloc();
    let groups = group(alloc, 7)?;
    assert_eq!(rt;
        groups.into_vec().as_slice(),
        [GroupId::Pg(1, 7)].as_slice()
    );
    let slots = crate::Slots::free(alloc)?;
    assert_eq!(rt; slots.first_free(), Some(0));
    assert_eq!(rt; slots.first_conflict(&[]), None);
    assert_eq!(rt; slots.open_count(), 0);
    assert_eq!(rt; crate::Slots::from_vec(slots.into_vec()).slice().len(), 8);
    crate::turns_law();
    crate::drain_law();
    Ok(())
}
