// Attributes as a list of pairs.
ghost use Rattle.std.specs.Prelude.{◌≡◌, IfOk, map as map_list};
ghost use Rattle.file_readings.specs.Pairs.{pair_of};

use fs_model::{Blob, Pair, PairList};
use object_file::AttrPair;
use std::alloc::{AllocError, Global};

fn pair_of(alloc: Global, attr: &AttrPair) -> Result<Pair, AllocError>
    ensures { IfOk result (λ pair. pair ≡ pair_of attr.now) }
{
    let key = Blob::new(alloc, attr.name.slice())?;
    let value = Blob::new(alloc, attr.value.slice())?;
    Ok(Pair { key, value })
}

/// The attributes as pairs, in the same order.
pub(crate) fn to_pairs(alloc: Global, attrs: &[AttrPair]) -> Result<PairList, AllocError>
    ensures { IfOk result (λ pairs. pairs ≡ map_list pair_of attrs.now) }
{
    let mut pairs = Vec::new(alloc);
    for attr in attrs {
        pairs.push(pair_of(alloc, attr)?)?;
    }
    Ok(PairList::from_vec(pairs))
}
