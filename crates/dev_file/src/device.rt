ghost use Rattle.std.specs.Prelude.{◌≡◌, ◌<◌, ◌^◌, [], length};
ghost use Rattle.dev_file.specs.Honest.{replay, has_failed, IsHonest};
ghost use Rattle.dev_file.specs.Kept.{KeptIfHonest};

use crate::{Calls, Start};
use dev_api::{DevError, DevFailed, Device};
use fault_count::FaultCount;
use std::io::ErrorKind;
use std::marker::PhantomData;

/// A device over the calls on a file of this length.
#[derive(Drop)]
pub struct FileDevice<C: Calls, S: Start> {
    calls: C,
    size: u64,
    faults: FaultCount,
    // A sync has failed. The kernel may have dropped what was written, and would not say so again.
    unsure: bool,
    start: PhantomData<S>,
    ghost few: { faults < 2 ^ 64 },
    ghost known: { unsure ≡ has_failed (C.Calls.history calls) },
    ghost kept: { KeptIfHonest size S.Start.first (C.Calls.history calls) },
}

impl<C: Calls, S: Start> FileDevice<C, S> {
    ghost use Rattle.dev_file.specs.Device.{history_of, faults_of, size_of};

    /// A device of this many bytes, over a file of which nothing has been asked yet.
    #[tactic(auto, using(crate::proofs::Sound::kept_if_honest))]
    pub fn new(calls: C, size: u64) -> Self
        requires { C.Calls.history calls ≡ [] }
        ensures calls { history_of result ≡ [] }
        ensures faults { faults_of result ≡ 0 }
        ensures size { size_of result ≡ size }
    {
        FileDevice {
            calls,
            size,
            faults: FaultCount::new(),
            unsure: false,
            start: PhantomData,
        }
    }
}

impl<C: Calls, S: Start> Device for FileDevice<C, S> {
    ghost tells = { λ d. (length S.first ≡ d.size) × IsHonest S.first (C.Calls.history d.calls) };

    ghost state = { λ d. record {
      disk = (replay S.first (C.Calls.history d.calls)).disk;
      past = (replay S.first (C.Calls.history d.calls)).past;
      faults = d.faults;
      size = d.size;
    } };

    fn size(&self) -> u64 {
        self.size
    }

    #[tactic(auto, using(crate::proofs::Sound::kept_if_honest))]
    fn read_at(&mut self, at: u64, into: &mut [u8]) -> Result<(), DevFailed> {
        let mut done = 0;
        for _ in 0..u64::MAX {
            if done == into.len() {
                return Ok(());
            }
            match self.calls.read_some(at + done as u64, &mut into[done..]) {
                Ok(n) => done += n,
                Err(error) if error.kind() == ErrorKind::Interrupted => {}
                Err(_) => {
                    self.faults.rise();
                    return Err(DevFailed);
                }
            }
        }
        self.faults.rise();
        Err(DevFailed)
    }

    #[tactic(auto, using(crate::proofs::Sound::kept_if_honest))]
    fn write_at(&mut self, at: u64, bytes: &[u8]) -> Result<(), DevError> {
        self.calls.ask(at, bytes);
        let mut done = 0;
        for _ in 0..u64::MAX {
            if done == bytes.len() {
                return Ok(());
            }
            match self.calls.write_some(at + done as u64, &bytes[done..]) {
                Ok(n) => done += n,
                Err(error) if error.kind() == ErrorKind::Interrupted => {}
                Err(_) => {
                    self.faults.rise();
                    return Err(DevError::Refused);
                }
            }
        }
        self.faults.rise();
        Err(DevError::Refused)
    }

    /// Once a sync has failed each later one fails too.
    #[tactic(auto, using(crate::proofs::Sound::kept_if_honest))]
    fn sync(&mut self) -> Result<(), DevFailed> {
        if self.unsure {
            self.faults.rise();
            return Err(DevFailed);
        }
        match self.calls.flush() {
            Ok(()) => Ok(()),
            Err(_) => {
                self.unsure = true;
                self.faults.rise();
                Err(DevFailed)
            }
        }
    }

    ghost has_size = { λ d told. (d.kept told.0 told.1).size };

    ghost reads_image = { λ d told. (d.kept told.0 told.1).image };

    ghost asked_image = { λ d told. (d.kept told.0 told.1).asked_image };
}
