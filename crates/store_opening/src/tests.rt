use super::*;
use dev_api::Device;
use dev_edge::MemoryDevice;
use fs_names::{Mode, Settings};
use ring_journal::{Ring, RingFault};
use std::alloc::Global;
use std::test::Fail;
use store_files::{MakeFault, make_store};
use tree_memory::MemoryTree;

const FSID: [u8; 16] = *b"0123456789abcdef";

const SETTINGS: Settings = Settings {
    merge: 10,
    split: 2,
    lfn: 40,
    mode: Mode::WriteAhead,
};

// The bytes of a device whose ring has 16,384.
const SIZE: u64 = 24_576;

// A device with a ring that has no entries.
fn ringed(alloc: Global, fsid: &[u8; 16]) -> Result<MemoryDevice, RingFault> {
    let mut device = MemoryDevice::new(alloc, SIZE, Vec::new(alloc))?;
    if device.size() == SIZE {
        Ring::make(&mut device, fsid)?;
    }
    Ok(device)
}

// A tree that is a new store.
fn stored(alloc: Global) -> Result<MemoryTree, MakeFault> {
    let mut tree = MemoryTree::new(alloc, Vec::new(alloc))?;
    make_store(alloc, &mut tree, &FSID, &SETTINGS)?;
    Ok(tree)
}

// The number of the last transaction of the store that they are.
fn last_of(
    alloc: Global,
    tree: &mut MemoryTree,
    device: &mut MemoryDevice,
) -> Result<u64, MountFault> {
    let store = mount(alloc, tree, device)?;
    Ok(store.last())
}

#[test]
fn a_new_store_is_mounted_and_again(rt: HostRuntime) -> Result<(), Fail> {
    let alloc = rt.alloc();
    let mut tree = stored(alloc)?;
    let mut device = ringed(alloc, &FSID)?;
    let first = last_of(alloc, &mut tree, &mut device)?;
    let second = last_of(alloc, &mut tree, &mut device)?;
    assert_eq!(rt; (first, second), (0, 0));
    Ok(())
}

#[test]
fn an_empty_tree_is_no_store(rt: HostRuntime) -> Result<(), Fail> {
    let alloc = rt.alloc();
    let mut tree = MemoryTree::new(alloc, Vec::new(alloc))?;
    let mut device = ringed(alloc, &FSID)?;
    let last = last_of(alloc, &mut tree, &mut device);
    assert!(rt; matches!(&last, Err(MountFault::NotAStore)));
    Ok(())
}

#[test]
fn the_ring_of_another_store_is_refused(rt: HostRuntime) -> Result<(), Fail> {
    let alloc = rt.alloc();
    let mut tree = stored(alloc)?;
    let mut device = ringed(alloc, b"fedcba9876543210")?;
    let last = last_of(alloc, &mut tree, &mut device);
    assert!(rt; matches!(&last, Err(MountFault::WrongFsid { .. })));
    Ok(())
}
