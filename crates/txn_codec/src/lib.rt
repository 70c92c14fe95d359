//! Transactions as bytes, as they stand in the entries of a journal.
//!
//! Numbers are big-endian. A payload is the number of operations (4 bytes) and the operations, each a tag and its fields in the
//! order of `Op`. A list of bytes stands behind its length of 4, a list of pairs or keys behind its number of 4. Places and
//! lengths of an operation have 8 bytes. An omap header is 0, or 1 and its bytes. A collection is 0 for the one without a
//! pool, or 1, pool of 8, seed of 4, and 0 or 1 for a temporary one. An object is its name, key and namespace, each behind a
//! length of 2; its snapshot, which is 0 for the head, 1 for the snapshots' directory, or 2 and 8 bytes; its hash of 4; and
//! its pool, which is 0, or 1 and 8 bytes.
//!
//! Tags: 1 touch, 2 write, 3 zero, 4 truncate, 5 remove, 6 set attributes, 7 remove an attribute, 8 remove all attributes,
//! 9 clone, 10 clone a range, 11 move, 12 make a collection, 13 remove a collection, 14 clear the omap, 15 set omap pairs,
//! 16 remove omap keys, 17 remove a range of omap keys.
#![tactic(auto)]

mod fault;
mod laws;
mod reader;
mod reading;
mod tags;
mod writing;

pub use fault::CodecFault;
pub use laws::{encodable_law, payload_law};
pub use reading::decode_txn;
pub use writing::encode_txn;

#[cfg(test)]
mod tests;
