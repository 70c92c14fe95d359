ghost use Rattle.std.specs.Prelude.{◌≡◌, ◌<◌, ◌≤◌, ◌^◌, ◌++◌, ◌↔◌, length, take, drop, min, is_err, IsErr, IfOk, OnErr};
ghost use Rattle.io_edge.specs.Memory.{FailsNext, first_plan, after_call};

use crate::{IoFailed, Source};
use fault_count::Schedule;
use std::marker::Model;

/// A source in memory.
#[derive(Debug, Drop)]
pub struct MemorySource {
    bytes: Vec<u8>,
    read: usize,
    schedule: Schedule,
}

impl Model for MemorySource {
    ghost use Rattle.std.specs.Prelude.{drop, vec_len, ◌≤◌, ◌<◌, ◌^◌};
    ghost use Rattle.io_edge.specs.Memory.{Incoming};

    ghost Value = { Incoming };

    ghost view = { λ s. record { left = drop s.read s.bytes.items; plan = s.schedule } };

    ghost invariant = { λ s. (s.read ≤ vec_len s.bytes) × (s.schedule.faults < 2 ^ 64) };
}

impl MemorySource {
    /// Gives these bytes, and fails these reads, the first of which is number 1.
    pub fn new(bytes: Vec<u8>, fail: Vec<u64>) -> Self
        ensures { result ≡ record { left = bytes.items; plan = first_plan fail.items } }
    {
        MemorySource {
            bytes,
            read: 0,
            schedule: Schedule::new(fail),
        }
    }

    /// How many reads were asked for.
    pub fn calls(&self) -> u64
        ensures { result ≡ self.now.plan.calls }
    {
        self.schedule.calls()
    }
}

impl Source for MemorySource {
    ghost tells = { λ _. Unit {0} };

    ghost inflow = { λ s. record { left = s.left; faults = s.plan.faults } };

    fn read(&mut self, into: &mut [u8]) -> Result<usize, IoFailed>
        ensures fails { IsErr result ↔ FailsNext self.old.plan }
        ensures count { IfOk result (λ n. n ≡ min (length self.old.left) (length into.old)) }
        ensures piece { IfOk result (λ n. into.new ≡ take n self.old.left ++ drop n into.old) }
        ensures left { IfOk result (λ n. self.new.left ≡ drop n self.old.left) }
        ensures err { OnErr result ((self.new.left ≡ self.old.left) × (into.new ≡ into.old)) }
        ensures plan { self.new.plan ≡ after_call (is_err result) self.old.plan }
        ensures later { self.old.plan.faults ≤ self.new.plan.faults }
    {
        if self.schedule.next() {
            return Err(IoFailed);
        }
        let left = &self.bytes[self.read..];
        let count = left.len().min(into.len());
        into[..count].copy_from_slice(&left[..count]);
        self.read += count;
        Ok(count)
    }
}
