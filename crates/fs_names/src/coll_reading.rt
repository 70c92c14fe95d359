ghost use Rattle.std.specs.Prelude.{◌≡◌};
ghost use Rattle.std.specs.Option.{ok_or};
ghost use Rattle.fs_names.specs.Numbers.{number_of};
ghost use Rattle.fs_names.specs.Reading.{coll_of, pg_of, pg_from, seed_of, kind_of, below_32_bits};

use crate::split::split_once;
use crate::{Coll, CollFault, decimal, hexadecimal};

/// The collection that a text names. It takes no memory, and never answers `Memory`.
pub fn decode_coll(text: &[u8]) -> Result<Coll, CollFault>
    ensures { result ≡ ok_or (coll_of text.now) CollFault.NotColl }
{
    read_coll(text).ok_or(CollFault::NotColl)
}

#[tactic(auto, unfolding(crate::specs::Reading::coll_of))]
fn read_coll(text: &[u8]) -> Option<Coll>
    ensures { result ≡ coll_of text.now }
{
    if text == b"meta".as_slice() {
        return Some(Coll::Meta);
    }
    read_pg(text)
}

#[tactic(auto, using(crate::proofs::Colls::no_group))]
fn read_pg(text: &[u8]) -> Option<Coll>
    ensures { result ≡ pg_of text.now }
{
    let (pool, group) = split_once(text, b'.')?;
    let (seed, kind) = split_once(group, b'_')?;
    pg_from(pool, seed, kind)
}

fn pg_from(pool: &[u8], seed: &[u8], kind: &[u8]) -> Option<Coll>
    ensures { result ≡ pg_from (number_of 10 pool.now) (seed_of seed.now) (kind_of kind.now) }
{
    let pool = decimal(pool)?;
    let seed = read_seed(seed)?;
    let temp = read_kind(kind)?;
    Some(Coll::Pg { pool, seed, temp })
}

fn read_seed(text: &[u8]) -> Option<u32>
    ensures { result ≡ seed_of text.now }
{
    below_32_bits(hexadecimal(text)?)
}

fn below_32_bits(n: u64) -> Option<u32>
    ensures { result ≡ below_32_bits n }
{
    u32::try_from(n).ok()
}

fn read_kind(text: &[u8]) -> Option<bool>
    ensures { result ≡ kind_of text.now }
{
    if text == b"head".as_slice() {
        return Some(false);
    }
    (text == b"TEMP".as_slice()).then_some(true)
}
