//! The text of a name, a key or a namespace, read unit by unit: first counted and judged, then read.
ghost use Rattle.std.specs.Prelude.{◌≡◌, ◌+◌, ◌≤◌, ◌<◌, ◌^◌, ◌++◌, ◌≢◌, ℕ, List, Ok, Err, Some, length, OnOk, IfOk, IfNone, IfSome};
ghost use Rattle.fs_names.specs.Text.{spelled};
ghost use Rattle.std.specs.List.{list_all};
ghost use Rattle.fs_names.specs.Likely.{byte_of_digits, byte_of_letter, byte_of_escape, is_plain, likely_byte, value_of_digit};
ghost use Rattle.fs_names.specs.Units.{unit_byte, field_of, name_of, counted};

use crate::NameFault;
use crate::unit::Unit;
use std::alloc::AllocError;

/// The value of a hexadecimal digit, in either case.
fn value_of_digit(digit: u8) -> Option<u8>
    ensures { result ≡ value_of_digit digit }
{
    let value = char::from(digit).to_digit(16)?;
    Some(value as u8)
}

/// The byte that two digits spell.
fn byte_of_digits(text: &[u8]) -> Option<u8>
    ensures { result ≡ byte_of_digits text.now }
{
    let (high, rest) = text.split_first()?;
    let (low, _) = rest.split_first()?;
    Some(value_of_digit(*high)? * 16 + value_of_digit(*low)?)
}

/// The byte that a letter after `\` spells.
fn byte_of_letter(letter: u8) -> Option<u8>
    ensures { result ≡ byte_of_letter letter }
{
    match letter {
        b'\\' => Some(b'\\'),
        b's' => Some(b'/'),
        b'u' => Some(b'_'),
        b'n' => Some(0),
        _ => None,
    }
}

/// The byte that is spelled by what follows `\`.
fn byte_of_escape(text: &[u8]) -> Option<u8>
    ensures { result ≡ byte_of_escape text.now }
{
    let (letter, rest) = text.split_first()?;
    if *letter == b'x' {
        byte_of_digits(rest)
    } else {
        byte_of_letter(*letter)
    }
}

/// The only byte whose spelling may begin a text.
fn likely_byte(text: &[u8]) -> Option<u8>
    ensures { result ≡ likely_byte text.now }
{
    let (first, rest) = text.split_first()?;
    if *first == b'\\' {
        byte_of_escape(rest)
    } else {
        Some(*first)
    }
}

/// A byte that spells itself.
fn is_plain(byte: u8) -> bool
    ensures { result ≡ is_plain byte }
{
    byte.is_ascii_graphic() && byte != b'\\' && byte != b'/' && byte != b'_'
}

/// Each byte spells itself.
fn are_plain(text: &[u8]) -> bool
    ensures { result ≡ list_all is_plain text.now }
{
    text.iter().all(|byte| is_plain(*byte))
}

/// The byte whose spelling begins a text, and what follows it.
fn next_unit(text: &[u8]) -> Option<(u8, &[u8])>
    ensures none { IfNone result (unit_byte text.now ≡ None) }
    ensures byte { IfSome result (λ u. unit_byte text.now ≡ Some u.0) }
    ensures rest { IfSome result (λ u. text.now ≡ spelled u.0 ++ u.1.now) }
{
    let Some(byte) = likely_byte(text) else {
        return None;
    };
    let Some(rest) = text.strip_prefix(Unit::of(byte).slice()) else {
        return None;
    };
    Some((byte, rest))
}

/// How many bytes the units of a text at a place spell.
pub(crate) fn count_units(at: usize, text: &[u8]) -> Result<usize, NameFault>
    requires { at + length text.now < 2 ^ 64 }
    ensures value { result ≡ counted (field_of at text.now) }
    ensures few { IfOk result (λ count. count ≤ length text.now) }
    ensures never { result ≢ Err NameFault.Memory }
{
    if are_plain(text) {
        return Ok(text.len());
    }
    let mut place = at;
    let mut rest = text;
    let mut count = 0usize;
    while let Some((_, following)) = next_unit(rest) {
        place += rest.len() - following.len();
        rest = following;
        count += 1;
    }
    if rest.is_empty() {
        return Ok(count);
    }
    Err(NameFault::BadEscape { at: place as u64 })
}

/// How many bytes the name that a text spells has.
pub(crate) fn count_name(text: &[u8]) -> Result<usize, NameFault>
    requires { length text.now + 2 < 2 ^ 64 }
    ensures value { result ≡ counted (name_of text.now) }
    ensures never { result ≢ Err NameFault.Memory }
{
    if text.starts_with(b"\\d") {
        return Ok(4 + count_units(2, &text[2..])?);
    }
    if text.starts_with(b"\\.") {
        return Ok(1 + count_units(2, &text[2..])?);
    }
    if text.starts_with(b".") || text.starts_with(b"DIR\\u") {
        return Err(NameFault::BadEscape { at: 0 });
    }
    count_units(0, text)
}

/// Appends the bytes that the units of a text spell.
pub(crate) fn push_units(out: &mut Vec<u8>, text: &[u8]) -> Result<(), AllocError>
    ensures { (at : ℕ) (bytes : List ℕ) → field_of at text.now ≡ Ok bytes → OnOk result (out.new.items ≡ out.old.items ++ bytes) }
{
    if are_plain(text) {
        return out.extend_from_slice(text);
    }
    let mut rest = text;
    while let Some((byte, following)) = next_unit(rest) {
        out.push(byte)?;
        rest = following;
    }
    Ok(())
}

/// Appends the name that a text spells.
pub(crate) fn push_name(out: &mut Vec<u8>, text: &[u8]) -> Result<(), AllocError>
    ensures { (bytes : List ℕ) → name_of text.now ≡ Ok bytes → OnOk result (out.new.items ≡ out.old.items ++ bytes) }
{
    if text.starts_with(b"\\d") {
        out.extend_from_slice(b"DIR_")?;
        return push_units(out, &text[2..]);
    }
    if text.starts_with(b"\\.") {
        out.push(b'.')?;
        return push_units(out, &text[2..]);
    }
    push_units(out, text)
}
