ghost use Rattle.std.specs.Prelude.{◌≡◌};
ghost use Rattle.hash_order.specs.Listing.{at_or_after};

use crate::order;
use fs_names::Oid;

/// Where a listing begins.
#[derive(Debug, Drop)]
pub enum Cursor {
    /// At the first object.
    Start,
    /// At this object, or at the first one after it where there is none of this name.
    At(Oid),
}

/// Whether a listing that begins at a cursor holds an object.
pub fn at_or_after(oid: &Oid, cursor: &Cursor) -> bool
    ensures { result ≡ at_or_after cursor.now oid.now }
{
    match cursor {
        Cursor::Start => true,
        Cursor::At(first) => order(oid, first).is_ge(),
    }
}
