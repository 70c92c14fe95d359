ghost use Rattle.std.specs.Prelude.{◌≡◌, ◌≤◌, ◌↔◌, if◌then◌else◌, Contains, IsTrue};
ghost use Rattle.fault_count.specs.Counted.{Counted, one_more};

use std::marker::Model;

/// The calls of an object in memory, numbered from 1, some of which are to fail.
#[derive(Debug, Drop)]
pub struct Schedule {
    fail: Vec<u64>,
    calls: u64,
    faults: u64,
}

impl Model for Schedule {
    ghost use Rattle.fault_count.specs.Plan.{Plan};

    ghost Value = { Plan };

    ghost view = { λ s. record { fail = s.fail.items; calls = s.calls; faults = s.faults } };
}

impl Schedule {
    /// No call yet, and the numbers of those that are to fail.
    pub fn new(fail: Vec<u64>) -> Self
        ensures { result ≡ record { fail = fail.items; calls = 0; faults = 0 } }
    {
        Schedule {
            fail,
            calls: 0,
            faults: 0,
        }
    }

    /// The next call. Answers whether it is one that fails, and then counts a fault.
    pub fn next(&mut self) -> bool
        ensures named { IsTrue result ↔ Contains self.old.fail self.new.calls }
        ensures number { self.new.calls ≡ one_more self.old.calls }
        ensures counts { self.new.faults ≡ (if result then one_more self.old.faults else self.old.faults) }
        ensures same { self.new.fail ≡ self.old.fail }
    {
        self.calls = self.calls.saturating_add(1);
        let fails = self.fail.contains(&self.calls);
        if fails {
            self.faults = self.faults.saturating_add(1);
        }
        fails
    }

    /// Counts a fault that was not scheduled.
    pub fn fault(&mut self)
        ensures { self.new ≡ record self.old { faults = one_more self.old.faults } }
    {
        self.faults = self.faults.saturating_add(1);
    }

    /// The number of the last call, 0 at first.
    pub fn calls(&self) -> u64
        ensures { result ≡ self.now.calls }
    {
        self.calls
    }

    pub fn faults(&self) -> u64
        ensures { result ≡ self.now.faults }
    {
        self.faults
    }
}

#[cfg(test)]
mod tests {
    use crate::{FaultCount, Schedule};
    use std::test::Fail;

    #[test]
    fn scheduled_calls_fail_and_are_counted(rt: HostRuntime) -> Result<(), Fail> {
        let mut schedule = Schedule::new(vec![in rt.alloc(); 2, 4]?);
        for (fails, calls, faults) in [(false, 1, 0), (true, 2, 1), (false, 3, 1), (true, 4, 2)] {
            assert_eq!(rt; schedule.next(), fails);
            assert_eq!(rt; schedule.calls(), calls);
            assert_eq!(rt; schedule.faults(), faults);
        }
        schedule.fault();
        assert_eq!(rt; schedule.faults(), 3);
        let mut count = FaultCount::new();
        count.rise();
        assert_eq!(rt; count.get(), 1);
        Ok(())
    }
}
