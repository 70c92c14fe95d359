// The fields of statements.
ghost use Rattle.std.specs.Prelude.{◌≡◌, ◌<◌, ◌++◌, ◌∷◌, [], length, OnOk, IfOk, IfSome, codes};
ghost use Rattle.std.specs.Option.{ok_or};
ghost use Rattle.std.specs.Str.{bytes_eq};
ghost use Rattle.fs_script.specs.declared.fault.ScriptWhy.TheVariants.{BadBytes};
ghost use Rattle.fs_script.specs.Bytes.{digit_value, byte_of, bytes_of_digits};
ghost use Rattle.fs_script.specs.Fields.{TellsFirst, coll_field, name_field, object_field, number_field, small_field, bytes_field, cursor_field, header_field, key_fields, pair_fields};
ghost use Rattle.fs_script.specs.Reading.{Tells};
ghost use Rattle.fs_script.specs.Words.{pieces_left};

use crate::cut::cut;
use crate::fault::{LineFault, ScriptWhy};
use fs_model::{Blob, BlobList, Pair, PairList};
use fs_names::{Coll, NameFault, Oid, decimal, decode_coll, decode_oid};
use hash_order::Cursor;
use std::alloc::{AllocError, Global};

pub fn collection(word: &[u8]) -> Result<Coll, LineFault>
    ensures { Tells (coll_field word.now) result }
{
    match decode_coll(word) {
        Ok(c) => Ok(c),
        Err(_) => Err(LineFault::Bad(ScriptWhy::BadCollection)),
    }
}

/// The name of an object.
pub fn name(alloc: Global, word: &[u8]) -> Result<Oid, LineFault>
    ensures { Tells (name_field word.now) result }
{
    match decode_oid(alloc, word) {
        Ok(oid) => Ok(oid),
        Err(NameFault::Memory) => Err(LineFault::Memory),
        Err(_) => Err(LineFault::Bad(ScriptWhy::BadObject)),
    }
}

/// A number of 64 bits.
pub fn number(word: &[u8]) -> Result<u64, LineFault>
    ensures { Tells (number_field word.now) result }
{
    match decimal(word) {
        Some(n) => Ok(n),
        None => Err(LineFault::Bad(ScriptWhy::BadNumber)),
    }
}

/// A number of 32 bits.
pub fn small_number(word: &[u8]) -> Result<u32, LineFault>
    ensures { Tells (small_field word.now) result }
{
    let n = number(word)?;
    match u32::try_from(n) {
        Ok(n) => Ok(n),
        Err(_) => Err(LineFault::Bad(ScriptWhy::BadNumber)),
    }
}

/// The place of an object: its collection and its name.
#[tactic(auto, using(crate::proofs::Counts::counts))]
pub fn object(alloc: Global, word: &[u8]) -> Result<(Coll, Oid), LineFault>
    ensures { Tells (object_field word.now) result }
{
    let (first, rest) = cut(word, b'/');
    let Some(rest) = rest else {
        return Err(LineFault::Bad(ScriptWhy::BadObject));
    };
    let (second, None) = cut(rest, b'/') else {
        return Err(LineFault::Bad(ScriptWhy::BadObject));
    };
    let Ok(c) = decode_coll(first) else {
        return Err(LineFault::Bad(ScriptWhy::BadObject));
    };
    let oid = name(alloc, second)?;
    Ok((c, oid))
}

/// The value of a lower-case hexadecimal digit.
fn digit_value(digit: u8) -> Option<u8>
    ensures value { result ≡ digit_value digit }
    ensures below { IfSome result (λ value. value < 16) }
{
    match digit {
        b'0'..=b'9' => Some(digit - b'0'),
        b'a'..=b'f' => Some(digit - 87),
        _ => None,
    }
}

// The byte of two digits.
fn byte(high: u8, low: u8) -> Option<u8>
    ensures { result ≡ byte_of (digit_value high) (digit_value low) }
{
    match (digit_value(high), digit_value(low)) {
        (Some(high), Some(low)) => Some(high * 16 + low),
        _ => None,
    }
}

fn push<T: Drop>(items: &mut Vec<T>, item: T) -> Result<(), AllocError>
    ensures { OnOk result (items.new.items ≡ items.old.items ++ item ∷ []) }
{
    items.push(item)?;
    Ok(())
}

// The bytes of pairs of digits.
#[tactic(auto, using(crate::proofs::Digits::digits), unfolding(crate::specs::Bytes::bytes_of_digits))]
fn decode(alloc: Global, digits: &[u8]) -> Result<Blob, LineFault>
    ensures { Tells (ok_or (bytes_of_digits digits.now) BadBytes) result }
{
    let mut bytes = Vec::with_capacity(alloc, digits.len() / 2)?;
    let mut rest = digits;
    while let [high, low, more @ ..] = rest {
        let Some(byte) = byte(*high, *low) else {
            return Err(LineFault::Bad(ScriptWhy::BadBytes));
        };
        bytes.push_reserved(byte);
        rest = more;
    }
    if rest.is_empty() {
        Ok(Blob::from_vec(bytes))
    } else {
        Err(LineFault::Bad(ScriptWhy::BadBytes))
    }
}

/// Bytes: `x` and two lower-case digits for each.
#[tactic(auto, unfolding(crate::specs::Bytes::bytes_of))]
pub fn bytes(alloc: Global, word: &[u8]) -> Result<Blob, LineFault>
    ensures { Tells (bytes_field word.now) result }
{
    match word {
        [b'x', digits @ ..] => decode(alloc, digits),
        _ => Err(LineFault::Bad(ScriptWhy::BadBytes)),
    }
}

fn is_dash(word: &[u8]) -> bool
    ensures { result ≡ bytes_eq word.now (codes "-") }
{
    word == b"-".as_slice()
}

/// Where a listing begins: `-`, or the name of an object.
pub fn cursor(alloc: Global, word: &[u8]) -> Result<Cursor, LineFault>
    ensures { Tells (cursor_field word.now) result }
{
    if is_dash(word) {
        return Ok(Cursor::Start);
    }
    let oid = name(alloc, word)?;
    Ok(Cursor::At(oid))
}

/// An omap header: `-` for none, or bytes.
pub fn header(alloc: Global, word: &[u8]) -> Result<Option<Blob>, LineFault>
    ensures { Tells (header_field word.now) result }
{
    if is_dash(word) {
        return Ok(None);
    }
    let header = bytes(alloc, word)?;
    Ok(Some(header))
}

// The first word as a key, and what stands behind it.
#[tactic(auto, unfolding(crate::specs::Fields::key_fields))]
fn key(alloc: Global, text: &[u8]) -> Result<(Blob, Option<&[u8]>), LineFault>
    ensures key { TellsFirst key_fields text.now result }
    ensures shorter { IfOk result (λ w. IfSome w.1 (λ rest. length rest.now < length text.now)) }
{
    let (key, rest) = cut(text, b' ');
    let key = bytes(alloc, key)?;
    Ok((key, rest))
}

/// Keys, one a word.
pub fn keys(alloc: Global, words: Option<&[u8]>) -> Result<BlobList, LineFault>
    ensures { Tells (key_fields (pieces_left 32 words.entry)) result }
{
    let mut keys = Vec::new(alloc);
    let mut rest = words;
    while let Some(text) = rest {
        let (key, more) = key(alloc, text)?;
        push(&mut keys, key)?;
        rest = more;
    }
    Ok(BlobList::from_vec(keys))
}

// The first two words as a name and its value, and what stands behind them.
#[tactic(auto, unfolding(crate::specs::Fields::pair_fields))]
fn pair(alloc: Global, text: &[u8]) -> Result<(Pair, Option<&[u8]>), LineFault>
    ensures pair { TellsFirst pair_fields text.now result }
    ensures shorter { IfOk result (λ w. IfSome w.1 (λ rest. length rest.now < length text.now)) }
{
    let (key, rest) = cut(text, b' ');
    let Some(rest) = rest else {
        return Err(LineFault::Bad(ScriptWhy::WrongCount));
    };
    let (value, rest) = cut(rest, b' ');
    let key = bytes(alloc, key)?;
    let value = bytes(alloc, value)?;
    Ok((Pair { key, value }, rest))
}

/// Pairs of a name and its value, two words each.
pub fn pairs(alloc: Global, words: Option<&[u8]>) -> Result<PairList, LineFault>
    ensures { Tells (pair_fields (pieces_left 32 words.entry)) result }
{
    let mut pairs = Vec::new(alloc);
    let mut rest = words;
    while let Some(text) = rest {
        let (pair, more) = pair(alloc, text)?;
        push(&mut pairs, pair)?;
        rest = more;
    }
    Ok(PairList::from_vec(pairs))
}
