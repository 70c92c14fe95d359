ghost use Rattle.std.specs.Prelude.{◌≡◌, ◌≤◌, ◌<◌, ◌+◌, ◌*◌, length, slice_index};
ghost use Rattle.fs_names.specs.Numbers.{number_of, lower_value, below_64_bits, IsSpelledByDigits};

/// The number that decimal digits spell, without a sign or a leading zero. Numbers have 64 bits.
pub fn decimal(text: &[u8]) -> Option<u64>
    ensures { result ≡ number_of 10 text.now }
{
    number(text, 10)
}

/// The number that lower-case hexadecimal digits spell, without a sign or a leading zero. Numbers have 64 bits.
pub fn hexadecimal(text: &[u8]) -> Option<u64>
    ensures { result ≡ number_of 16 text.now }
{
    number(text, 16)
}

/// The value of a digit of a base, in lower case.
fn lower_value(byte: u8, base: u64) -> Option<u64>
    requires high { base ≤ 16 }
    ensures { result ≡ lower_value base byte }
{
    let value = match byte {
        b'0'..=b'9' => byte - b'0',
        b'a'..=b'f' => byte - 87,
        _ => return None,
    };
    let value = u64::from(value);
    (value < base).then_some(value)
}

/// A number, and a digit behind it, where they have 64 bits.
fn with_digit(number: u64, base: u64, digit: u64) -> Option<u64>
    ensures { result ≡ below_64_bits (number * base + digit) }
{
    number.checked_mul(base)?.checked_add(digit)
}

/// The number that digits spell, of which no zero stands before others.
fn unpadded(text: &[u8], base: u64) -> Option<u64>
    requires low { 2 ≤ base }
    requires high { base ≤ 16 }
    requires some { 0 < length text.now }
    requires nonzero { slice_index text.now 0 ≡ 48 → length text.now ≤ 1 }
    ensures { result ≡ number_of base text.now }
{
    let mut number = 0u64;
    for byte in text {
        let Some(digit) = lower_value(*byte, base) else {
            return None;
        };
        let Some(longer) = with_digit(number, base, digit) else {
            return None;
        };
        number = longer;
    }
    Some(number)
}

fn number(text: &[u8], base: u64) -> Option<u64>
    requires low { 2 ≤ base }
    requires high { base ≤ 16 }
    ensures { result ≡ number_of base text.now }
{
    if text.is_empty() {
        return None;
    }
    if text.len() > 1 && text[0] == b'0' {
        return None;
    }
    unpadded(text, base)
}

/// A number below 2 ^ 64 is spelled by its digits, and by nothing else.
pub fn number_law()
    ensures decimal { IsSpelledByDigits 10 }
    ensures hexadecimal { IsSpelledByDigits 16 }
{}
