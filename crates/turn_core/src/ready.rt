ghost use Rattle.std.specs.Prelude.{◌≡◌, length, [], not, None, OnOk};
ghost use Rattle.turn_core.specs.Phases.{is_paused};
ghost use Rattle.turn_core.specs.Table.{start_limit, when, missing, commit_missing, answer_of};

use crate::{Core, NotReady, Phase, Turn};
use fs_names::{GroupId, Mode};

/// Whether starts are held back.
fn is_paused(mode: Mode, phase: Phase) -> bool
    ensures { result ≡ is_paused mode phase }
{
    match (phase, mode) {
        (Phase::Pausing, _) => true,
        (Phase::MapSync(_) | Phase::Seq(_) | Phase::Snap(_), Mode::Parallel) => true,
        _ => false,
    }
}

/// The answer where one condition is all that may be missing.
fn refuse_if(is_missing: bool, why: NotReady) -> Result<(), NotReady>
    ensures { result ≡ answer_of (when is_missing why None) }
{
    if is_missing { Err(why) } else { Ok(()) }
}

fn in_phase(is_its_phase: bool) -> Result<(), NotReady>
    ensures { result ≡ answer_of (when (not is_its_phase) NotReady.NotItsPhase None) }
{
    refuse_if(!is_its_phase, NotReady::NotItsPhase)
}

impl Core {
    /// The last transaction that may start.
    pub fn start_limit(&self) -> u64
        ensures { result ≡ start_limit self.now }
    {
        match self.mode {
            Mode::WriteAhead => self.synced,
            Mode::Parallel => self.journalled,
        }
    }

    /// Whether a turn is ready, and else the first condition that it misses.
    ///
    /// `front` has the groups of the next transaction to start, and is empty where there is none.
    pub fn ready(&self, turn: Turn, front: &[GroupId]) -> Result<(), NotReady>
        requires eight { length self.now.slots ≡ 8 }
        ensures row { result ≡ answer_of (missing self.now turn front.now) }
        ensures none_missing { OnOk result (missing self.now turn front.now ≡ None) }
    {
        match turn {
            Turn::Journal => refuse_if(self.waiting == 0, NotReady::NothingQueued),
            Turn::Sync => refuse_if(self.journalled <= self.synced, NotReady::NothingToSync),
            Turn::Start => self.start_ready(front),
            Turn::Apply(place) => self.apply_ready(place),
            Turn::Commit => self.commit_ready(),
            Turn::Sweep => refuse_if(self.trash == 0, NotReady::NothingToSweep),
            Turn::MapSync => in_phase(matches!(self.phase, Phase::MapSync(_))),
            Turn::TreeSync => in_phase(matches!(self.phase, Phase::TreeSync(_))),
            Turn::Seq => in_phase(matches!(self.phase, Phase::Seq(_))),
            Turn::Snap => in_phase(matches!(self.phase, Phase::Snap(_))),
            Turn::Trim => in_phase(matches!(self.phase, Phase::Trim(_))),
        }
    }

    fn start_ready(&self, front: &[GroupId]) -> Result<(), NotReady>
        requires eight { length self.now.slots ≡ 8 }
        ensures row { result ≡ answer_of (missing self.now Turn.Start front.now) }
    {
        if is_paused(self.mode, self.phase) {
            return Err(NotReady::Paused);
        }
        if self.start_limit() <= self.started {
            return Err(NotReady::NothingToStart);
        }
        if self.slots.first_free().is_none() {
            return Err(NotReady::NoSlot);
        }
        match self.slots.first_conflict(front) {
            Some(place) => Err(NotReady::Conflict(place as u8)),
            None => Ok(()),
        }
    }

    fn apply_ready(&self, place: u8) -> Result<(), NotReady>
        requires eight { length self.now.slots ≡ 8 }
        ensures row { result ≡ answer_of (missing self.now (Turn.Apply place) []) }
    {
        if place < 8 && self.slots.is_open(place as usize) {
            Ok(())
        } else {
            Err(NotReady::EmptySlot)
        }
    }

    fn commit_ready(&self) -> Result<(), NotReady>
        requires eight { length self.now.slots ≡ 8 }
        ensures row { result ≡ answer_of (commit_missing self.now self.now.phase) }
    {
        match self.phase {
            Phase::Idle => refuse_if(self.started == self.committed, NotReady::NothingApplied),
            Phase::Pausing => {
                let count = self.slots.open_count();
                refuse_if(count > 0, NotReady::StillOpen(count as u8))
            }
            _ => Err(NotReady::CommitRunning),
        }
    }
}
