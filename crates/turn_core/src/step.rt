ghost use Rattle.std.specs.Prelude.{◌≡◌, None};
ghost use Rattle.turn_core.specs.Phases.{target};
ghost use Rattle.turn_core.specs.Table.{missing, after, after_commit, IsWellFormed, IsGiven, front_of};

use crate::{Core, Phase, Slot, Turn};
use fs_names::Mode;

/// The number that the running commit took, else the committed one.
fn target(committed: u64, phase: Phase) -> u64
    ensures { result ≡ target committed phase }
{
    match phase {
        Phase::Idle | Phase::Pausing => committed,
        Phase::MapSync(number)
        | Phase::TreeSync(number)
        | Phase::Seq(number)
        | Phase::Snap(number)
        | Phase::Trim(number) => number,
    }
}

fn after_commit(started: u64, phase: Phase) -> Phase
    ensures { result ≡ after_commit started phase }
{
    match phase {
        Phase::Pausing => Phase::MapSync(started),
        _ => Phase::Pausing,
    }
}

impl Core {
    /// Does a turn that is ready. A slot is handed in at Start alone.
    pub fn step(&mut self, turn: Turn, slot: Option<Slot>)
        requires well_formed { IsWellFormed self.old }
        requires is_ready { missing self.old turn (front_of slot) ≡ None }
        requires given { IsGiven self.old turn slot }
        ensures row { self.new ≡ after self.old turn slot }
        ensures well_formed { IsWellFormed self.new }
    {
        let number = target(self.committed, self.phase);
        match turn {
            Turn::Journal => {
                self.waiting -= 1;
                self.journalled += 1;
            }
            Turn::Sync => {
                self.synced = self.journalled;
                self.acked = self.acked.max(self.journalled);
            }
            Turn::Start => {
                self.started += 1;
                if let Some(place) = self.slots.first_free() {
                    self.slots.put(place, slot);
                }
            }
            Turn::Apply(place) => self.slots.advance(place as usize),
            Turn::Commit => self.phase = after_commit(self.started, self.phase),
            Turn::MapSync => {
                self.phase = match self.mode {
                    Mode::WriteAhead => Phase::TreeSync(number),
                    Mode::Parallel => Phase::Seq(number),
                };
            }
            Turn::TreeSync => self.phase = Phase::Seq(number),
            Turn::Seq => match self.mode {
                Mode::WriteAhead => {
                    self.committed = number;
                    self.phase = Phase::Trim(number);
                }
                Mode::Parallel => self.phase = Phase::Snap(number),
            },
            Turn::Snap => {
                self.committed = number;
                self.acked = self.acked.max(number);
                self.synced = self.synced.max(number);
                self.phase = Phase::Trim(number);
            }
            Turn::Trim => self.phase = Phase::Idle,
            Turn::Sweep => self.trash -= 1,
        }
    }
}
