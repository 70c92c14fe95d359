//! Entries and headers of a journal ring on a device, with their seals.
//!
//! The device is counted in blocks of 4,096 bytes. Blocks 0 and 1 hold a header each, entries lie behind them. A seal
//! finds bytes that a crash tore, and bytes that stand at another place, in another ring or on a device of another
//! size. It is no proof against bytes that were made to fit.
#![tactic(auto)]

mod bytes;
mod head;
mod laws;
mod reading;
mod spelling;

pub use head::{BLOCK, BLOCK_SIZE, HEADS_SIZE, RingHead, read_head, write_head};
pub use laws::{
    entry_begins_with_magic, entry_fills_its_blocks, entry_is_read_back, entry_stands_alone,
    head_is_read_back,
};
pub use reading::{EntryHead, FrameFault, Framed, read_entry};
pub use spelling::{need, seal};

#[cfg(test)]
mod tests;
