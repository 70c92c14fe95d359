ghost use Rattle.std.specs.Prelude.{◌≡◌, ◌+◌, ◌<◌, ◌^◌, IfOk, OnOk};
ghost use Rattle.dev_edge.specs.Told.{disk_of, size_of};
ghost use Rattle.ring_journal.specs.State.{Ended, Holds, IsUnspent};

use super::*;
use dev_api::Device;
use dev_edge::MemoryDevice;
use ring_frame::need;
use ring_journal::{Ring, RingFault};
use std::alloc::Global;
use std::test::Fail;

const FSID: [u8; 16] = *b"0123456789abcdef";

// The bytes of a device whose ring has 16,384.
const SIZE: u64 = 24_576;

// The payload of a transaction that makes the collection `1.0_head`.
const MAKE: [u8; 19] = [0, 0, 0, 1, 12, 1, 0, 0, 0, 0, 0, 0, 0, 1, 0, 0, 0, 0, 0];

// A ring all of whose entries were told, and their numbers.
#[derive(Drop)]
struct Listing {
    ring: Ring,
    numbers: Vec<u64>,
}

// What a device's ring tells. A ring of these tests has at most four entries.
fn told(alloc: Global, device: &mut MemoryDevice) -> Result<Listing, RingFault>
    ensures ended { IfOk result (λ t. Ended t.ring (disk_of device.new)) }
    ensures extent { IfOk result (λ t. size_of device.new ≡ t.ring.head.size) }
    ensures unspent { IfOk result (λ t. IsUnspent t.ring.head) }
{
    let mut ring = Ring::load(device, &FSID)?;
    let mut numbers = Vec::new(alloc);
    for _ in 0..5 {
        match ring.next(alloc, device)? {
            None => return Ok(Listing { ring, numbers }),
            Some(entry) => {
                if numbers.push(entry.seq).is_err() {
                    return Err(RingFault::Memory);
                }
            }
        }
    }
    Err(RingFault::Memory)
}

// A journal that goes on behind a committed number.
fn opened(alloc: Global, device: &mut MemoryDevice, committed: u64) -> Result<Ring, RingFault>
    requires small { committed < 2 ^ 62 }
    ensures holds { IfOk result (λ r. Holds r (disk_of device.new)) }
    ensures extent { IfOk result (λ r. size_of device.new ≡ r.head.size) }
    ensures rises { IfOk result (λ r. r.head.generation + 1 < 2 ^ 64) }
{
    let mut ring = told(alloc, device)?.ring;
    if ring.start_seq() > committed + 1 {
        return Err(RingFault::Spent);
    }
    match reopen(&mut ring, device, committed) {
        Ok(()) => Ok(ring),
        Err(_) => Err(RingFault::Dev),
    }
}

// The next transaction is entered.
fn entered(alloc: Global, device: &mut MemoryDevice, ring: &mut Ring) -> Result<(), RingFault>
    requires holds { Holds ring.old (disk_of device.old) }
    requires extent { size_of device.old ≡ ring.old.head.size }
    ensures holds { OnOk result (Holds ring.new (disk_of device.new)) }
    ensures extent { OnOk result (size_of device.new ≡ ring.new.head.size) }
    ensures head { OnOk result (ring.new.head ≡ ring.old.head) }
{
    let last = ring.last_seq();
    if last >= (1 << 63) - 1 || need(19) > ring.free() {
        return Err(RingFault::Spent);
    }
    match enter(alloc, ring, device, last + 1, &MAKE) {
        Ok(()) => Ok(()),
        Err(_) => Err(RingFault::Dev),
    }
}

// The transactions up to a number are given up.
fn given_up(device: &mut MemoryDevice, ring: &mut Ring, number: u64) -> Result<(), RingFault>
    requires small { number < 2 ^ 62 }
    requires holds { Holds ring.old (disk_of device.old) }
    requires extent { size_of device.old ≡ ring.old.head.size }
    requires rises { ring.old.head.generation + 1 < 2 ^ 64 }
{
    if ring.start_seq() > number + 1 || number > ring.last_seq() {
        return Err(RingFault::Spent);
    }
    match give_up(ring, device, number) {
        Ok(()) => Ok(()),
        Err(_) => Err(RingFault::Dev),
    }
}

// A device whose journal holds transactions 1 and 2.
fn two(alloc: Global) -> Result<MemoryDevice, RingFault> {
    let mut device = MemoryDevice::new(alloc, SIZE, Vec::new(alloc))?;
    if device.size() == SIZE {
        Ring::make(&mut device, &FSID)?;
    }
    let mut ring = opened(alloc, &mut device, 0)?;
    entered(alloc, &mut device, &mut ring)?;
    entered(alloc, &mut device, &mut ring)?;
    Ok(device)
}

// The numbers that a crash leaves.
fn left(alloc: Global, device: &MemoryDevice, choice: u64) -> Result<Vec<u64>, RingFault> {
    let mut left = device.leave(choice, Vec::new(alloc))?;
    Ok(told(alloc, &mut left)?.numbers)
}

// The numbers that a crash leaves of transactions 1 and 2, once the first was committed.
fn trimmed(alloc: Global, choice: u64) -> Result<Vec<u64>, RingFault> {
    let mut device = two(alloc)?;
    let mut ring = opened(alloc, &mut device, 0)?;
    given_up(&mut device, &mut ring, 1)?;
    left(alloc, &device, choice)
}

// The same once the journal was opened behind the first, and took one more.
fn reopened(alloc: Global, choice: u64) -> Result<Vec<u64>, RingFault> {
    let mut device = two(alloc)?;
    let mut ring = opened(alloc, &mut device, 1)?;
    entered(alloc, &mut device, &mut ring)?;
    left(alloc, &device, choice)
}

#[test]
fn a_crash_leaves_what_was_entered_and_not_given_up(rt: HostRuntime) -> Result<(), Fail> {
    let alloc = rt.alloc();
    for choice in 0..4 {
        let device = two(alloc)?;
        assert_eq!(rt; left(alloc, &device, choice)?.as_slice(), [1, 2].as_slice());
        assert_eq!(rt; trimmed(alloc, choice)?.as_slice(), [2].as_slice());
        assert_eq!(rt; reopened(alloc, choice)?.as_slice(), [2, 3].as_slice());
    }
    Ok(())
}
