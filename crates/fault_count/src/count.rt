ghost use Rattle.std.specs.Prelude.{◌≡◌, ℕ};
ghost use Rattle.fault_count.specs.Counted.{Counted, one_more};

use std::marker::Model;

/// How many faults were counted so far.
#[derive(Debug, Drop)]
pub struct FaultCount {
    count: u64,
}

impl Model for FaultCount {
    ghost Value = { ℕ };

    ghost view = { λ f. f.count };
}

impl FaultCount {
    pub fn new() -> Self
        ensures { result ≡ 0 }
    {
        FaultCount { count: 0 }
    }

    /// Counts one fault more.
    pub fn rise(&mut self)
        ensures next { self.new ≡ one_more self.old }
        ensures counted { Counted self.old self.new }
    {
        self.count = self.count.saturating_add(1);
    }

    pub fn get(&self) -> u64
        ensures { result ≡ self.now }
    {
        self.count
    }
}
