ghost use Rattle.std.specs.Prelude.{◌≡◌, ◌<◌, ◌^◌, true};
ghost use Rattle.std.specs.Cmp.Lexicographic.{slice_cmp};
ghost use Rattle.std.specs.Fmt.{digit_glyph};
ghost use Rattle.std.specs.Ordering.{nat_cmp};
ghost use Rattle.fs_names.specs.Numbers.{upper_value};
ghost use Rattle.fs_names.specs.Text.{digit_at, hash_digits, hash_text};

use std::cmp::Ordering;

fn sixteens(level: u8) -> u32
    requires { level < 8 }
    ensures value { result ≡ 16 ^ level }
    ensures positive { 0 < result }
{
    match level {
        0 => 1,
        1 => 16,
        2 => 256,
        3 => 4_096,
        4 => 65_536,
        5 => 1_048_576,
        6 => 16_777_216,
        _ => 268_435_456,
    }
}

/// The digit of a hash that the directories of a level go by. Level 0 goes by the least significant one.
pub fn digit(hash: u32, level: u8) -> u8
    requires { level < 8 }
    ensures { result ≡ digit_at hash level }
{
    let shifted = hash / sixteens(level);
    (shifted % 16) as u8
}

/// A digit in upper case.
fn upper_digit(value: u8) -> u8
    requires { value < 16 }
    ensures { result ≡ digit_glyph true value }
{
    if value < 10 {
        b'0' + value
    } else {
        b'A' + (value - 10)
    }
}

/// The value of an upper-case digit.
pub(crate) fn upper_value(byte: u8) -> Option<u32>
    ensures { result ≡ upper_value byte }
{
    match byte {
        b'0'..=b'9' => Some(u32::from(byte - b'0')),
        b'A'..=b'F' => Some(u32::from(byte - 55)),
        _ => None,
    }
}

/// The eight digits of a hash, the most significant first.
pub(crate) fn hash_text(hash: u32) -> [u8; 8]
    ensures { result ≡ hash_text hash }
{
    [
        upper_digit(digit(hash, 7)),
        upper_digit(digit(hash, 6)),
        upper_digit(digit(hash, 5)),
        upper_digit(digit(hash, 4)),
        upper_digit(digit(hash, 3)),
        upper_digit(digit(hash, 2)),
        upper_digit(digit(hash, 1)),
        upper_digit(digit(hash, 0)),
    ]
}

fn order_digit(a: u32, b: u32, level: u8) -> Ordering
    requires { level < 8 }
    ensures { result ≡ nat_cmp (digit_at a level) (digit_at b level) }
{
    digit(a, level).cmp(&digit(b, level))
}

/// Compares the digits of two hashes, the least significant first.
#[tactic(auto, using(crate::proofs::Parts::hash_parts))]
pub fn order_hash(a: u32, b: u32) -> Ordering
    ensures { result ≡ slice_cmp nat_cmp (hash_digits a) (hash_digits b) }
{
    order_digit(a, b, 0)
        .then(order_digit(a, b, 1))
        .then(order_digit(a, b, 2))
        .then(order_digit(a, b, 3))
        .then(order_digit(a, b, 4))
        .then(order_digit(a, b, 5))
        .then(order_digit(a, b, 6))
        .then(order_digit(a, b, 7))
}
