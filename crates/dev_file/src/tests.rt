ghost use Rattle.std.specs.Prelude.{◌≡◌, []};
ghost use Rattle.dev_file.specs.Notes.{calls_of};

use crate::record::{ASKED, FAILED, GAVE, NOT_SYNCED, Record, WROTE};
use crate::{Calls, FileDevice, Unknown};
use dev_api::{DevFailed, Device};
use dev_edge::EdgeFault;
use std::io::ErrorKind;
use std::test::Fail;
use std::{fs, io};

// A file of sevens that takes or gives one byte a call, and is interrupted at every second one.
#[derive(Drop)]
struct Halting {
    interrupted: bool,
    log: Record,
}

impl Halting {
    fn new() -> Self
        ensures { calls_of result.log.notes ≡ [] }
    {
        Halting {
            interrupted: false,
            log: Record::new(),
        }
    }
}

impl Calls for Halting {
    ghost history = { λ f. calls_of f.log.notes };

    fn ask(&mut self, at: u64, bytes: &[u8]) {
        self.log.note(&[ASKED, at], bytes);
    }

    fn write_some(&mut self, at: u64, bytes: &[u8]) -> io::Result<usize> {
        self.interrupted = !self.interrupted;
        if self.interrupted {
            self.log.note(&[FAILED, at], &[]);
            return Err(ErrorKind::Interrupted.into());
        }
        self.log.note(&[WROTE, at], &bytes[..1]);
        Ok(1)
    }

    fn read_some(&mut self, at: u64, into: &mut [u8]) -> io::Result<usize> {
        self.interrupted = !self.interrupted;
        if self.interrupted {
            self.log.note(&[FAILED, at], &[]);
            return Err(ErrorKind::Interrupted.into());
        }
        into[0] = 7;
        self.log.note(&[GAVE, at], &into[..1]);
        Ok(1)
    }

    fn flush(&mut self) -> io::Result<()> {
        self.log.note(&[NOT_SYNCED, 0], &[]);
        Err(ErrorKind::Other.into())
    }
}

// Interrupted calls are made again, and so is what is left of a piece. A sync that fails does so for good.
#[test]
fn goes_on_after_an_interruption(rt: HostRuntime) -> Result<(), Fail> {
    let mut device = FileDevice::<Halting, Unknown>::new(Halting::new(), 8);
    let mut bytes = [0; 3];
    assert_eq!(rt; device.write_at(2, &[7, 7]), Ok(()));
    assert_eq!(rt; device.read_at(1, &mut bytes), Ok(()));
    assert_eq!(rt; bytes, [7, 7, 7]);
    assert_eq!(rt; device.sync(), Err(DevFailed));
    assert_eq!(rt; device.sync(), Err(DevFailed));
    Ok(())
}

// A missing file is made of 67,108,864 zeros, and keeps what was written.
#[test]
fn makes_a_missing_file(rt: HostRuntime) -> Result<(), Fail> {
    let mut bytes = [9; 4];
    {
        let mut device = FileDevice::at(&rt, "made", Unknown)?;
        assert_eq!(rt; device.size(), 67108864);
        assert_eq!(rt; device.read_at(67108860, &mut bytes), Ok(()));
        assert_eq!(rt; bytes, [0; 4]);
        assert_eq!(rt; device.write_at(67108861, &[1, 2, 3]), Ok(()));
        assert_eq!(rt; device.sync(), Ok(()));
    }
    let mut device = FileDevice::at(&rt, "made", Unknown)?;
    assert_eq!(rt; device.size(), 67108864);
    assert_eq!(rt; device.read_at(67108860, &mut bytes), Ok(()));
    assert_eq!(rt; bytes, [0, 1, 2, 3]);
    fs::remove_file(&rt, "made")?;
    Ok(())
}

#[test]
fn makes_a_missing_file_in_a_folder(rt: HostRuntime) -> Result<(), Fail> {
    fs::create_dir(&rt, "folder")?;
    let device = FileDevice::at(&rt, "folder/made", Unknown)?;
    assert_eq!(rt; device.size(), 67108864);
    fs::remove_file(&rt, "folder/made")?;
    fs::remove_dir(&rt, "folder")?;
    Ok(())
}

// An empty file is what a crash left of one that was being made.
#[test]
fn makes_an_empty_file_anew(rt: HostRuntime) -> Result<(), Fail> {
    fs::write(&rt, "empty", "")?;
    let mut device = FileDevice::at(&rt, "empty", Unknown)?;
    assert_eq!(rt; device.size(), 67108864);
    assert_eq!(rt; device.sync(), Ok(()));
    fs::remove_file(&rt, "empty")?;
    Ok(())
}

// The file's length counts when it is opened. A read that finds fewer bytes is refused.
#[test]
fn opens_a_file_of_its_length(rt: HostRuntime) -> Result<(), Fail> {
    fs::write(&rt, "there", "hello")?;
    let mut device = FileDevice::at(&rt, "there", Unknown)?;
    let mut bytes = [0; 4];
    assert_eq!(rt; device.size(), 5);
    assert_eq!(rt; device.read_at(1, &mut bytes), Ok(()));
    assert_eq!(rt; bytes, *b"ello");
    fs::write(&rt, "there", "")?;
    assert_eq!(rt; device.read_at(1, &mut bytes), Err(DevFailed));
    assert_eq!(rt;
        FileDevice::at(&rt, "no/folder", Unknown).err(),
        Some(EdgeFault::Outside)
    );
    assert_eq!(rt;
        FileDevice::at(&rt, ".", Unknown).err(),
        Some(EdgeFault::Outside)
    );
    fs::remove_file(&rt, "there")?;
    Ok(())
}
