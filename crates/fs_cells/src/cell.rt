ghost use Rattle.std.specs.Prelude.{◌≡◌};
ghost use Rattle.fs_cells.specs.Actions.{in_coll, is_of};

use fs_model::Blob;
use fs_names::{Coll, Oid};

/// A part of an object.
#[derive(Debug, Drop)]
pub enum Part {
    /// Whether the object is there.
    Exists,
    /// The number of its bytes.
    Length,
    /// The byte at a place, 0 past the end.
    Byte(u64),
    /// The value of an attribute.
    Attr(Blob),
    OmapHeader,
    /// The value of an omap key.
    OmapKey(Blob),
}

/// A part of a named object.
#[derive(Debug, Drop)]
pub struct Cell {
    pub c: Coll,
    pub o: Oid,
    pub part: Part,
}

impl Cell {
    /// Whether it is of an object of this collection.
    #[tactic(auto, using(crate::proofs::Ties::coll_tie))]
    pub fn is_in(&self, c: &Coll) -> bool
        ensures { result ≡ in_coll c.now self.now }
    {
        self.c == *c
    }

    /// Whether it is a part of this object.
    pub fn is_of(&self, c: &Coll, o: &Oid) -> bool
        ensures { result ≡ is_of c.now o.now self.now }
    {
        self.is_in(c) && self.o == *o
    }
}

/// What an operation does to a cell.
#[derive(Debug, Drop, Clone, Copy, PartialEq, Eq)]
pub enum Act {
    /// The cell stays as it is.
    Leaves,
    /// The cell gets a value that the operation alone gives.
    Sets,
    /// The length becomes at least a number that the operation alone gives.
    Raises,
    /// The cells of the operation's other name decide whether it is left, set or raised, and to what.
    Copies,
}
