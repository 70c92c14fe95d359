//! The operations, and the transactions that they make.
ghost use Rattle.std.specs.Prelude.{◌≡◌};

use crate::{Blob, BlobList, PairList};
use fs_names::{Coll, Oid};
use std::alloc::AllocError;
use std::marker::Model;

/// An operation on the objects of a store. `c` is the collection and `o` the name of the object that it is about,
/// `c2` and `o2` those of the object that it makes from that one. Places and lengths count bytes.
#[derive(Drop)]
pub enum Op {
    /// Makes an object, empty, where there is none.
    Touch {
        c: Coll,
        o: Oid,
    },
    /// Writes bytes from a place on.
    Write {
        c: Coll,
        o: Oid,
        at: u64,
        bytes: Blob,
    },
    /// Writes zeros from a place on.
    Zero {
        c: Coll,
        o: Oid,
        at: u64,
        len: u64,
    },
    /// Gives the object a length; new bytes are 0.
    Truncate {
        c: Coll,
        o: Oid,
        len: u64,
    },
    /// Takes the object away, with its attributes and its omap.
    Remove {
        c: Coll,
        o: Oid,
    },
    /// Sets attributes, one after the other.
    SetAttrs {
        c: Coll,
        o: Oid,
        pairs: PairList,
    },
    /// Takes an attribute away.
    RmAttr {
        c: Coll,
        o: Oid,
        name: Blob,
    },
    /// Takes all attributes away.
    RmAttrs {
        c: Coll,
        o: Oid,
    },
    /// Makes the second object a copy of the first.
    Clone {
        c: Coll,
        o: Oid,
        c2: Coll,
        o2: Oid,
    },
    /// Writes the first object's bytes from `from` on, at most `len` of them, into the second from `to` on.
    CloneRange {
        c: Coll,
        o: Oid,
        c2: Coll,
        o2: Oid,
        from: u64,
        len: u64,
        to: u64,
    },
    /// Makes the second object what the first was, and takes the first away.
    MoveRename {
        c: Coll,
        o: Oid,
        c2: Coll,
        o2: Oid,
    },
    /// Makes a collection, empty.
    MkColl {
        c: Coll,
    },
    /// Takes a collection away, with all in it.
    RmColl {
        c: Coll,
    },
    /// Takes all omap pairs away and empties the omap header.
    OmapClear {
        c: Coll,
        o: Oid,
    },
    /// Sets the omap header, where one is given, and then omap pairs, one after the other.
    OmapSet {
        c: Coll,
        o: Oid,
        header: Option<Blob>,
        pairs: PairList,
    },
    /// Takes omap pairs away, by their keys.
    OmapRemove {
        c: Coll,
        o: Oid,
        keys: BlobList,
    },
    /// Takes the omap pairs away whose keys are from `from` up to, not including, `to`, in byte order.
    OmapRange {
        c: Coll,
        o: Oid,
        from: Blob,
        to: Blob,
    },
}

/// A list of operations.
#[derive(Drop)]
pub struct OpList {
    ops: Vec<Op>,
}

impl Model for OpList {
    ghost use Rattle.std.specs.Prelude.{List};
    ghost use Rattle.fs_model.specs.declared.op.Op.{Op};

    ghost Value = { List Op };

    ghost view = { λ l. l.ops.items };
}

impl OpList {
    pub fn from_vec(ops: Vec<Op>) -> OpList
        ensures { result ≡ ops.items }
    {
        OpList { ops }
    }

    pub fn slice(&self) -> &[Op]
        ensures { result.now ≡ self.now }
    {
        &self.ops
    }

    pub fn into_vec(self) -> Vec<Op>
        ensures { result.items ≡ self }
    {
        self.ops
    }
}

/// Operations that are done together, in order.
#[derive(Drop)]
pub struct Txn {
    pub ops: OpList,
}

/// Why an operation is refused. Where several reasons hold, the first of this list counts.
#[derive(Debug, Clone, Copy, PartialEq, Eq)]
pub enum Why {
    /// There is no operation.
    Empty,
    /// It names a collection that isn't there after the operations before it.
    NoCollection,
    /// It makes a collection that is there.
    CollectionExists,
    /// It copies or moves an object onto itself.
    SameObject,
    /// A quantity is above its limit, or an attribute's name is empty.
    TooBig,
    /// There are too many operations before it.
    TooMany,
}

/// Why a transaction is refused.
#[derive(Debug, Clone, Copy, PartialEq, Eq)]
pub enum TxnFault {
    /// The lowest refused operation, the first being 0.
    At { op: u32, why: Why },
    Memory,
}

impl From<AllocError> for TxnFault {
    ghost use Rattle.std.specs.Prelude.{◌≡◌};
    ghost use Rattle.fs_model.specs.declared.op.TxnFault.TheVariants.{Memory};

    ghost from_gives = { λ _ fault. fault ≡ Memory };

    fn from(_: AllocError) -> TxnFault {
        TxnFault::Memory
    }
}
