ghost use Rattle.std.specs.Prelude.{◌≡◌, ◌++◌, false, codes, IfOk, string_bytes};
ghost use Rattle.std.specs.Fmt.{digits};
ghost use Rattle.fs_names.specs.Text.{coll_text};

use crate::Coll;
use std::alloc::{AllocError, Global};
use std::marker::Model;

/// The text of a collection: `meta`, `POOL.SEED_head` or `POOL.SEED_TEMP`.
#[derive(Debug, Drop)]
pub struct CollText {
    bytes: Vec<u8>,
}

impl Model for CollText {
    ghost use Rattle.std.specs.Prelude.{List, ℕ};

    ghost Value = { List ℕ };

    ghost view = { λ t. t.bytes.items };
}

impl CollText {
    /// A copy of these bytes, whatever they spell.
    pub fn new(alloc: Global, bytes: &[u8]) -> Result<CollText, AllocError>
        ensures { IfOk result (λ text. text ≡ bytes.now) }
    {
        Ok(CollText {
            bytes: bytes.to_vec(alloc)?,
        })
    }

    pub fn slice(&self) -> &[u8]
        ensures { result.now ≡ self.now }
    {
        &self.bytes
    }
}

impl From<Vec<u8>> for CollText {
    ghost from_gives = { λ bytes text. text ≡ bytes.items };

    fn from(bytes: Vec<u8>) -> CollText {
        CollText { bytes }
    }
}

impl From<CollText> for Vec<u8> {
    ghost from_gives = { λ text bytes. bytes.items ≡ text };

    fn from(text: CollText) -> Vec<u8> {
        text.bytes
    }
}

/// The text of a collection.
pub fn encode_coll(alloc: Global, coll: &Coll) -> Result<CollText, AllocError>
    ensures { IfOk result (λ text. text ≡ coll_text coll.now) }
{
    Ok(CollText::from(coll_string(alloc, *coll)?.into_bytes()))
}

#[tactic(auto, unfolding(crate::specs::Text::coll_text))]
fn coll_string(alloc: Global, coll: Coll) -> Result<String, AllocError>
    ensures { IfOk result (λ text. string_bytes text ≡ coll_text coll) }
{
    match coll {
        Coll::Meta => String::from_str(alloc, "meta"),
        Coll::Pg { pool, seed, temp } => {
            if temp {
                pg_string(alloc, pool, seed, "_TEMP")
            } else {
                pg_string(alloc, pool, seed, "_head")
            }
        }
    }
}

fn pg_string(alloc: Global, pool: u64, seed: u32, kind: &str) -> Result<String, AllocError>
    ensures { IfOk result (λ text. string_bytes text
        ≡ digits 10 false pool ++ (codes "." ++ (digits 16 false seed ++ kind.now))) }
{
    format!(in alloc; "{pool}.{seed:x}{kind}")
}
