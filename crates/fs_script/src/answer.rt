use fs_model::{Blob, CollNames, OidList, PairList, Why};
use fs_names::Oid;

/// What a statement answers.
#[derive(Drop)]
pub enum Answer {
    /// The transaction has this number.
    Queued { seq: u64 },
    /// The transaction's lowest refused operation, and why.
    RefusedOp { op: u32, why: Why },
    /// An operation of the transaction is one that a store of files doesn't do so far.
    NotBuilt,
    /// The entry of the transaction takes `need` bytes, and the journal's ring has `size` for entries in all; or the
    /// payload has 2^32 bytes or more, which no entry can spell.
    TooLarge { need: u64, size: u64 },
    /// 1,024 transactions wait.
    QueueFull,
    /// The last number is 2^63 - 1.
    NumbersSpent,
    /// All transactions up to these numbers are acknowledged and applied.
    Drained { acked: u64, seq: u64 },
    Bytes(Blob),
    /// An object's length.
    Size(u64),
    Attrs(PairList),
    Omap { header: Blob, pairs: PairList },
    /// A page of a listing, and the object that follows it.
    Listed { oids: OidList, next: Option<Oid> },
    Colls(CollNames),
    /// The highest number that is acknowledged.
    Acked { acked: u64 },
    /// The object or the collection isn't there.
    Missing,
}
