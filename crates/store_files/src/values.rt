// The values of settings.
ghost use Rattle.std.specs.Prelude.{◌≡◌, ◌≢◌, ◌<◌, ◌^◌, ◌∷◌, ℕ, ℤ, MatchOption};
ghost use Rattle.std.specs.Fmt.{decimal, signed_decimal};
ghost use Rattle.fs_names.specs.declared.settings.Mode.{Mode};
ghost use Rattle.store_files.specs.Texts.{IsWithin, IsMerge, mode_word};

use fs_names::{Mode, decimal};

/// A number of 64 bits.
pub(crate) fn number(text: &[u8]) -> Option<u64>
    ensures { MatchOption result ((n : ℕ) → n < 2 ^ 64 → text.now ≢ decimal n) (λ n. (n < 2 ^ 64) × (text.now ≡ decimal n)) }
{
    decimal(text)
}

/// A number from 1 to this.
pub(crate) fn within(text: &[u8], most: u16) -> Option<u16>
    ensures { MatchOption result ((n : ℕ) → IsWithin most n → text.now ≢ decimal n) (λ n. IsWithin most n × (text.now ≡ decimal n)) }
{
    let number = number(text)?;
    if number == 0 || number > u64::from(most) {
        return None;
    }
    Some(number as u16)
}

fn after_dash(text: &[u8]) -> Option<&[u8]>
    ensures { MatchOption result ((rest : _) → text.now ≢ 45 ∷ rest) (λ rest. text.now ≡ 45 ∷ rest.now) }
{
    text.strip_prefix(b"-")
}

/// A number from -1,000 to 1,000, but not 0.
pub(crate) fn merge(text: &[u8]) -> Option<i32>
    ensures { MatchOption result ((z : ℤ) → IsMerge z → text.now ≢ signed_decimal z) (λ z. IsMerge z × (text.now ≡ signed_decimal z)) }
{
    match after_dash(text) {
        Some(digits) => Some(-i32::from(within(digits, 1000)?)),
        None => Some(i32::from(within(text, 1000)?)),
    }
}

pub(crate) fn mode(text: &[u8]) -> Option<Mode>
    ensures { MatchOption result ((mode : Mode) → text.now ≢ mode_word mode) (λ mode. text.now ≡ mode_word mode) }
{
    if text == b"wal".as_slice() {
        return Some(Mode::WriteAhead);
    }
    (text == b"parallel".as_slice()).then_some(Mode::Parallel)
}
