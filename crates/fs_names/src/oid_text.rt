ghost use Rattle.std.specs.Prelude.{◌≡◌, ◌∷◌, ◌++◌, IfOk, OnOk};
ghost use Rattle.fs_names.specs.Text.{oid_text};

use crate::Oid;
use crate::hash::hash_text;
use crate::short_text::ShortText;
use crate::spelling::{field_len, name_len, spell_field, spell_name};
use std::alloc::{AllocError, Global};
use std::marker::Model;

/// The text of an object's name: `name_key_snap_HASH_nspace_pool`.
#[derive(Debug, Drop)]
pub struct OidText {
    bytes: Vec<u8>,
}

impl Model for OidText {
    ghost use Rattle.std.specs.Prelude.{List, ℕ};

    ghost Value = { List ℕ };

    ghost view = { λ t. t.bytes.items };
}

impl OidText {
    /// A copy of these bytes, whatever they spell.
    pub fn new(alloc: Global, bytes: &[u8]) -> Result<OidText, AllocError>
        ensures { IfOk result (λ text. text ≡ bytes.now) }
    {
        Ok(OidText {
            bytes: bytes.to_vec(alloc)?,
        })
    }

    pub fn slice(&self) -> &[u8]
        ensures { result.now ≡ self.now }
    {
        &self.bytes
    }
}

impl From<Vec<u8>> for OidText {
    ghost from_gives = { λ bytes text. text ≡ bytes.items };

    fn from(bytes: Vec<u8>) -> OidText {
        OidText { bytes }
    }
}

impl From<OidText> for Vec<u8> {
    ghost from_gives = { λ text bytes. bytes.items ≡ text };

    fn from(text: OidText) -> Vec<u8> {
        text.bytes
    }
}

/// The text of an object's name, in a vector of just its length.
pub fn encode_oid(alloc: Global, oid: &Oid) -> Result<OidText, AllocError>
    ensures { IfOk result (λ text. text ≡ oid_text oid.now) }
{
    let snap = ShortText::of_snap(oid.snap);
    let pool = ShortText::of_pool(oid.pool);
    let mut bytes = Vec::with_capacity(alloc, text_len(oid, &snap, &pool))?;
    spell_name(&mut bytes, oid.name.bytes())?;
    bytes.push(b'_')?;
    spell_field(&mut bytes, oid.key.bytes())?;
    push_field(&mut bytes, snap.slice())?;
    push_field(&mut bytes, &hash_text(oid.hash))?;
    bytes.push(b'_')?;
    spell_field(&mut bytes, oid.nspace.bytes())?;
    push_field(&mut bytes, pool.slice())?;
    Ok(OidText { bytes })
}

/// How many bytes a text has.
fn text_len(oid: &Oid, snap: &ShortText, pool: &ShortText) -> usize {
    let names = name_len(oid.name.bytes())
        + field_len(oid.key.bytes())
        + field_len(oid.nspace.bytes());
    names + snap.slice().len() + 8 + pool.slice().len() + 5
}

/// Appends `_` and a field.
fn push_field(text: &mut Vec<u8>, field: &[u8]) -> Result<(), AllocError>
    ensures { OnOk result (text.new.items ≡ text.old.items ++ 95 ∷ field.now) }
{
    text.push(b'_')?;
    text.extend_from_slice(field)
}
