// The texts of a version and of an identity.
ghost use Rattle.std.specs.Prelude.{◌≡◌, ◌≢◌, ◌<◌, ◌^◌, ◌++◌, ◌∷◌, [], ℕ, List, All, IfOk, Some, MatchOption};
ghost use Rattle.commit_point.specs.Number.{spelled};
ghost use Rattle.store_files.specs.Texts.{version_text, fsid_text, IsFsid, IsSpelled};

use crate::values::number;
use std::alloc::{AllocError, Global};

/// The text of a version.
pub fn version_text(alloc: Global, version: u64) -> Result<Vec<u8>, AllocError>
    ensures { IfOk result (λ text. text.items ≡ version_text version) }
{
    let text = format!(in alloc; "{version}\n")?;
    Vec::from_slice(alloc, text.as_bytes())
}

/// The text of the number 0.
pub(crate) fn zero_text(alloc: Global) -> Result<Vec<u8>, AllocError>
    ensures { IfOk result (λ text. text.items ≡ spelled 0) }
{
    let digits = hex::encode(alloc, 0_u64.to_be_bytes().as_slice())?;
    let mut text = Vec::from_slice(alloc, digits.as_bytes())?;
    text.push(b'\n')?;
    Ok(text)
}

fn before_newline(text: &[u8]) -> Option<&[u8]>
    ensures { MatchOption result ((rest : _) → text.now ≢ rest ++ 10 ∷ []) (λ rest. text.now ≡ rest.now ++ 10 ∷ []) }
{
    text.strip_suffix(b"\n")
}

/// The version that a text spells.
pub fn version_of(text: &[u8]) -> Option<u64>
    ensures { IsSpelled version_text (λ n. n < 2 ^ 64) text.now result }
{
    number(before_newline(text)?)
}

/// The text of an identity.
pub fn fsid_text(alloc: Global, fsid: &[u8; 16]) -> Result<Vec<u8>, AllocError>
    ensures { IfOk result (λ text. text.items ≡ fsid_text fsid.now) }
{
    let digits = hex::encode(alloc, fsid.as_slice())?;
    let mut text = Vec::from_slice(alloc, digits.as_bytes())?;
    text.push(b'\n')?;
    Ok(text)
}

// The bytes of the first 32 digits, where they are.
fn digits_fsid(text: &[u8]) -> Option<[u8; 16]>
    ensures is { (fsid : List ℕ) → IsFsid fsid → text.now ≡ fsid_text fsid → result ≡ Some fsid }
{
    if text.len() != 33 {
        return None;
    }
    let digits = &text[..32];
    let mut bytes = [0; 16];
    if hex::decode_to_slice(digits, &mut bytes).is_err() {
        return None;
    }
    Some(bytes)
}

fn are_bytes(bytes: &[u8])
    ensures { All (λ b. b < 256) bytes.now }
{}

/// An identity has 16 bytes.
pub(crate) fn is_fsid(fsid: &[u8; 16])
    ensures { IsFsid fsid.now }
{
    are_bytes(fsid.as_slice());
}

/// The identity that a text spells.
pub fn fsid_of(alloc: Global, text: &[u8]) -> Result<Option<[u8; 16]>, AllocError>
    ensures { IfOk result (IsSpelled fsid_text IsFsid text.now) }
{
    let Some(fsid) = digits_fsid(text) else {
        return Ok(None);
    };
    is_fsid(&fsid);
    if fsid_text(alloc, &fsid)?.as_slice() == text {
        Ok(Some(fsid))
    } else {
        Ok(None)
    }
}
