use fs_model::Op;
use fs_names::{Coll, Oid};
use hash_order::Cursor;

/// What a line of a script says.
#[derive(Drop)]
pub enum Statement {
    /// An operation: one of the open transaction, or a transaction of its own.
    Do(Op),
    /// `begin`: a transaction, up to the next `end`.
    Begin,
    /// `end`: the transaction is queued.
    End,
    /// `drain`: all that was queued is applied.
    Drain,
    /// `read O AT LEN`: the bytes from a place up to the object's end, at most so many.
    Read { c: Coll, o: Oid, at: u64, len: u64 },
    /// `stat O`: the object's length.
    Stat { c: Coll, o: Oid },
    /// `attrs O`: the object's attributes, by name.
    Attrs { c: Coll, o: Oid },
    /// `omap O`: the object's omap header and pairs, by key.
    Omap { c: Coll, o: Oid },
    /// `list C CURSOR MAX`: at most so many objects from the cursor on, in hash order.
    List { c: Coll, cursor: Cursor, max: u32 },
    /// `colls`: the collections, by their texts.
    Colls,
    /// `acked`: the highest number that is acknowledged.
    Acked,
}

/// A statement, and the number of its line, counted from 1.
#[derive(Drop)]
pub struct Line {
    pub number: u64,
    pub statement: Statement,
}
