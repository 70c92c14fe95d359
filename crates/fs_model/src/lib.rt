//! The operations on objects and what they mean: which transactions are taken, and objects kept plainly in memory.
#![tactic(auto)]

mod blob;
mod blobs;
mod check;
mod coll_names;
mod coll_order;
mod edit;
mod laws;
mod limits;
mod object;
mod oids;
mod op;
mod page;
mod pair;
mod pair_map;
mod plain;
mod shelf;

pub use blob::Blob;
pub use blobs::BlobList;
pub use check::{CollChange, CollList, check_txn};
pub use coll_names::CollNames;
pub use laws::{colls_law, names_law, overwrite_law, refusal_law};
pub use limits::{
    ATTR_NAME_BYTES, OBJECT_BYTES, OMAP_KEY_BYTES, OP_PAIRS, TXN_OPS, VALUE_BYTES, WRITE_BYTES,
};
pub use object::PlainObject;
pub use oids::OidList;
pub use op::{Op, OpList, Txn, TxnFault, Why};
pub use page::Page;
pub use pair::{Pair, PairList};
pub use pair_map::PairMap;
pub use plain::PlainObjects;

#[cfg(test)]
mod check_tests;
#[cfg(test)]
mod trial_ops;
#[cfg(test)]
mod type_tests;
