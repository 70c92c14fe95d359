ghost use Rattle.std.specs.Prelude.{◌≡◌, ◌<◌, ◌≤◌, ◌-◌, ◌^◌, ◌++◌, ◌⊎◌, ◌↔◌, [], length, take, min, is_err, IsErr, IfOk, OnErr};
ghost use Rattle.io_edge.specs.Memory.{FailsNext, IsFull, first_plan, after_call};

use crate::{IoFailed, Sink};
use fault_count::Schedule;
use std::alloc::{AllocError, Global};
use std::marker::Model;

/// A sink in memory. It takes its whole room when it is made, so no write takes memory.
#[derive(Debug, Drop)]
pub struct MemorySink {
    bytes: Vec<u8>,
    room: usize,
    schedule: Schedule,
}

impl Model for MemorySink {
    ghost use Rattle.std.specs.Prelude.{vec_len, vec_capacity, ◌≤◌, ◌<◌, ◌^◌};
    ghost use Rattle.io_edge.specs.Memory.{Outgoing};

    ghost Value = { Outgoing };

    ghost view = { λ s. record { written = s.bytes.items; room = s.room; plan = s.schedule } };

    ghost invariant = { λ s.
        (vec_len s.bytes ≤ s.room) × (s.room ≤ vec_capacity s.bytes) × (s.schedule.faults < 2 ^ 64) };
}

impl MemorySink {
    /// Has room for so many bytes, and fails these writes, the first of which is number 1.
    pub fn new(alloc: Global, room: usize, fail: Vec<u64>) -> Result<Self, AllocError>
        ensures { IfOk result (λ sink.
            sink ≡ record { written = []; room = room; plan = first_plan fail.items }) }
    {
        Ok(MemorySink {
            bytes: Vec::with_capacity(alloc, room)?,
            room,
            schedule: Schedule::new(fail),
        })
    }

    pub fn written(&self) -> &[u8]
        ensures { result.now ≡ self.now.written }
    {
        self.bytes.as_slice()
    }

    /// How many writes were asked for.
    pub fn calls(&self) -> u64
        ensures { result ≡ self.now.plan.calls }
    {
        self.schedule.calls()
    }
}

impl Sink for MemorySink {
    ghost tells = { λ _. Unit {0} };

    ghost out = { λ s. record { written = s.written; faults = s.plan.faults } };

    fn write(&mut self, piece: &[u8]) -> Result<usize, IoFailed>
        ensures fails { IsErr result ↔ (FailsNext self.old.plan ⊎ IsFull self.old piece.now) }
        ensures count { IfOk result (λ n.
            n ≡ min (length piece.now) (self.old.room - length self.old.written)) }
        ensures progress { IfOk result (λ n. 0 < length piece.now → 0 < n) }
        ensures written { IfOk result (λ n. self.new.written ≡ self.old.written ++ take n piece.now) }
        ensures err { OnErr result (self.new.written ≡ self.old.written) }
        ensures room { self.new.room ≡ self.old.room }
        ensures plan { self.new.plan ≡ after_call (is_err result) self.old.plan }
        ensures later { self.old.plan.faults ≤ self.new.plan.faults }
    {
        if self.schedule.next() {
            return Err(IoFailed);
        }
        let count = piece.len().min(self.room - self.bytes.len());
        if count == 0 && !piece.is_empty() {
            self.schedule.fault();
            return Err(IoFailed);
        }
        self.bytes.extend_from_slice(&piece[..count]).unwrap();
        Ok(count)
    }
}
