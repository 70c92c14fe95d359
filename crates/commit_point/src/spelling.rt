// The text of a number.
ghost use Rattle.std.specs.Prelude.{◌≡◌, ◌≢◌, ℕ, ◌<◌, ◌^◌, Some, IfOk, IfSome, IfNone};
ghost use Rattle.commit_point.specs.Number.{spelled};

use std::alloc::{AllocError, Global};

/// The 16 digits of a number and a newline.
pub fn spelled(alloc: Global, number: u64) -> Result<Vec<u8>, AllocError>
    ensures { IfOk result (λ text. text.items ≡ spelled number) }
{
    let digits = hex::encode(alloc, number.to_be_bytes().as_slice())?;
    let mut text = Vec::from_slice(alloc, digits.as_bytes())?;
    text.push(b'\n')?;
    Ok(text)
}

/// The number below 2^63 that a text spells.
pub fn number_of(alloc: Global, text: &[u8]) -> Result<Option<u64>, AllocError>
    ensures some { IfOk result (λ o. IfSome o (λ n. (text.now ≡ spelled n) × (n < 2 ^ 63))) }
    ensures none { IfOk result (λ o. IfNone o ((n : ℕ) → n < 2 ^ 63 → text.now ≢ spelled n)) }
{
    let Some(number) = digits_number(text) else {
        return Ok(None);
    };
    if number < 1 << 63 && spelled(alloc, number)?.as_slice() == text {
        Ok(Some(number))
    } else {
        Ok(None)
    }
}

// The number of the first 16 digits, where they are.
fn digits_number(text: &[u8]) -> Option<u64>
    ensures is { (n : ℕ) → n < 2 ^ 63 → text.now ≡ spelled n → result ≡ Some n }
{
    if text.len() != 17 {
        return None;
    }
    let digits = &text[..16];
    let mut bytes = [0; 8];
    if hex::decode_to_slice(digits, &mut bytes).is_err() {
        return None;
    }
    Some(u64::from_be_bytes(bytes))
}
