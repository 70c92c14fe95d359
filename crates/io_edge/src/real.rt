ghost use Rattle.std.specs.Prelude.{◌≡◌, ◌<◌, ◌≤◌, [], length, is_err, IfOk, if◌then◌else◌};
ghost use Rattle.fault_count.specs.Counted.{one_more};

use crate::{IoFailed, Sink, Source};
use fault_count::FaultCount;
use std::io::Read;
use std::marker::Model;

/// Standard input, as the runtime has it.
#[derive(Drop)]
pub struct RealSource<R> {
    rt: R,
    faults: FaultCount,
}

impl<R> Model for RealSource<R> {
    ghost use Rattle.std.specs.Prelude.{ℕ, ◌<◌, ◌^◌};

    ghost Value = { ℕ };

    ghost view = { λ s. s.faults };

    ghost invariant = { λ s. s.faults < 2 ^ 64 };
}

impl<R: Input> RealSource<R> {
    pub fn new(rt: R) -> Self
        ensures { result ≡ 0 }
    {
        RealSource {
            rt,
            faults: FaultCount::new(),
        }
    }
}

impl<R: Input> Source for RealSource<R> {
    ghost tells = { λ _. ⊥ };

    ghost inflow = { λ faults. record { left = []; faults = faults } };

    fn read(&mut self, into: &mut [u8]) -> Result<usize, IoFailed>
        ensures within { IfOk result (λ n. n ≤ length into.old) }
        ensures counts { self.new ≡ (if is_err result then one_more self.old else self.old) }
        ensures later { self.old ≤ self.new }
    {
        match self.rt.reader().read(into) {
            Ok(count) => Ok(count),
            Err(_) => {
                self.faults.rise();
                Err(IoFailed)
            }
        }
    }
}

/// Standard output, as the runtime has it. It keeps nothing back: what it takes is written.
#[derive(Drop)]
pub struct RealSink<R> {
    rt: R,
    faults: FaultCount,
}

impl<R> Model for RealSink<R> {
    ghost use Rattle.std.specs.Prelude.{ℕ, ◌<◌, ◌^◌};

    ghost Value = { ℕ };

    ghost view = { λ s. s.faults };

    ghost invariant = { λ s. s.faults < 2 ^ 64 };
}

impl<R: Print> RealSink<R> {
    pub fn new(rt: R) -> Self
        ensures { result ≡ 0 }
    {
        RealSink {
            rt,
            faults: FaultCount::new(),
        }
    }
}

impl<R: Print> Sink for RealSink<R> {
    ghost tells = { λ _. ⊥ };

    ghost out = { λ faults. record { written = []; faults = faults } };

    fn write(&mut self, piece: &[u8]) -> Result<usize, IoFailed>
        ensures within { IfOk result (λ n. n ≤ length piece.now) }
        ensures progress { IfOk result (λ n. 0 < length piece.now → 0 < n) }
        ensures counts { self.new ≡ (if is_err result then one_more self.old else self.old) }
        ensures later { self.old ≤ self.new }
    {
        match self.rt.write_some(piece) {
            Ok(count) if count > 0 || piece.is_empty() => Ok(count),
            _ => {
                self.faults.rise();
                Err(IoFailed)
            }
        }
    }
}
