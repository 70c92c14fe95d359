ghost use Rattle.std.specs.Prelude.{◌≡◌, ◌≤◌, IsErrOf};
ghost use Rattle.fault_count.specs.Counted.{Counted};
ghost use Rattle.ring_bench.specs.Command.{command_of};
ghost use Rattle.ring_bench.specs.declared.work.Fault.TheVariants.{Edge, Ring, Memory};

use dev_api::Device;
use dev_edge::{EdgeFault, RealDevice, told_on_a_file};
use ring_journal::{Ring, RingFault, is_size};
use std::alloc::{AllocError, Global};
use std::os::unix::fs::FileExt;
use std::rt::Files;

const FSID: [u8; 16] = *b"the bench's ring";

const ENTRIES: u64 = 10_000;

/// Entries between two syncs.
const GROUP: u64 = 100;

/// Bytes of a payload.
const LENGTH: usize = 4_000;

/// Why a command was not done.
#[derive(Clone, Copy, Debug)]
pub enum Fault {
    /// The words are no command.
    Usage,
    /// The file was not opened.
    Edge,
    Ring(RingFault),
    /// The file has no ring size, or the ring's entries aren't those that the command wants.
    Entries,
    Memory,
}

impl From<EdgeFault> for Fault {
    ghost from_gives = { λ _ f. f ≡ Edge };

    fn from(_fault: EdgeFault) -> Fault {
        Fault::Edge
    }
}

impl From<RingFault> for Fault {
    ghost from_gives = { λ fault f. f ≡ Ring fault };

    fn from(fault: RingFault) -> Fault {
        Fault::Ring(fault)
    }
}

impl From<AllocError> for Fault {
    ghost from_gives = { λ _ f. f ≡ Memory };

    fn from(_fault: AllocError) -> Fault {
        Fault::Memory
    }
}

#[derive(Clone, Copy, Debug)]
pub enum Command {
    Make,
    Append,
    Read,
}

pub fn read_command(word: &[u8]) -> Option<Command>
    ensures { result ≡ command_of word.now }
{
    if word == b"make".as_slice() {
        Some(Command::Make)
    } else if word == b"append".as_slice() {
        Some(Command::Append)
    } else if word == b"read".as_slice() {
        Some(Command::Read)
    } else {
        None
    }
}

fn make<R: Files>(device: &mut RealDevice<R>) -> Result<(), Fault>
where
    R::File: FileExt,
    ensures faults { device.old.faults ≤ device.new.faults }
    ensures cause { IsErrOf result (Fault.Ring RingFault.Dev) → Counted device.old.faults device.new.faults }
{
    if !is_size(device.size()) {
        return Err(Fault::Entries);
    }
    Ring::make(device, &FSID)?;
    Ok(())
}

fn append<R: Files>(alloc: Global, device: &mut RealDevice<R>) -> Result<(), Fault>
where
    R::File: FileExt,
    ensures faults { device.old.faults ≤ device.new.faults }
    ensures cause { IsErrOf result (Fault.Ring RingFault.Dev) → Counted device.old.faults device.new.faults }
{
    told_on_a_file::<R>();
    let payload = vec![in alloc; 0x5au8; LENGTH]?;
    let mut ring = Ring::load(device, &FSID)?;
    // A made ring has clean blocks, so it takes entries without a new epoch.
    if ring.next(alloc, device)?.is_some() {
        return Err(Fault::Entries);
    }
    for number in 1..ENTRIES + 1 {
        let last = ring.last_seq();
        if last >= (1 << 63) - 1 {
            return Err(Fault::Entries);
        }
        ring.append(alloc, device, last + 1, &payload)?;
        if number % GROUP == 0 {
            ring.sync(device)?;
        }
    }
    Ok(())
}

fn read<R: Files>(alloc: Global, device: &mut RealDevice<R>) -> Result<(), Fault>
where
    R::File: FileExt,
    ensures faults { device.old.faults ≤ device.new.faults }
    ensures cause { IsErrOf result (Fault.Ring RingFault.Dev) → Counted device.old.faults device.new.faults }
{
    told_on_a_file::<R>();
    let mut ring = Ring::load(device, &FSID)?;
    for _ in 0..ENTRIES {
        let Some(stored) = ring.next(alloc, device)? else {
            return Err(Fault::Entries);
        };
        if stored.payload.slice().len() != LENGTH {
            return Err(Fault::Entries);
        }
    }
    Ok(())
}

pub fn do_command<R: Files>(
    alloc: Global,
    command: Command,
    device: &mut RealDevice<R>,
) -> Result<(), Fault>
where
    R::File: FileExt,
    ensures faults { device.old.faults ≤ device.new.faults }
    ensures cause { IsErrOf result (Fault.Ring RingFault.Dev) → Counted device.old.faults device.new.faults }
{
    match command {
        Command::Make => make(device),
        Command::Append => append(alloc, device),
        Command::Read => read(alloc, device),
    }
}
