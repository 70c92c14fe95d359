ghost use Rattle.std.specs.Prelude.{◌≡◌, ◌<◌, ◌≤◌, ◌/◌, ◌%◌, [], ◌∷◌, List, ℕ, false, length, take};
ghost use Rattle.std.specs.Fmt.{digit_glyph};
ghost use Rattle.std.specs.List.{All};
ghost use Rattle.fs_names.specs.Order.{unit_at};
ghost use Rattle.fs_names.specs.Text.{spelled};

use std::marker::Model;

/// The spelling of one byte: one, two or four bytes.
#[derive(Debug, Drop)]
pub(crate) struct Unit {
    bytes: [u8; 4],
    len: usize,
}

impl Model for Unit {
    ghost use Rattle.std.specs.Prelude.{List, ℕ, ◌≤◌, take};

    ghost Value = { List ℕ };

    ghost view = { λ u. take u.len u.bytes };

    ghost invariant = { λ u. u.len ≤ 4 };
}

impl Unit {
    pub(crate) fn plain(byte: u8) -> Unit
        ensures { result ≡ byte ∷ [] }
    {
        Unit {
            bytes: [byte, 0, 0, 0],
            len: 1,
        }
    }

    pub(crate) fn letter(byte: u8) -> Unit
        ensures { result ≡ 92 ∷ byte ∷ [] }
    {
        Unit {
            bytes: [b'\\', byte, 0, 0],
            len: 2,
        }
    }

    fn digits(byte: u8) -> Unit
        ensures { result ≡ 92 ∷ 120 ∷ digit_glyph false (byte / 16) ∷ digit_glyph false (byte % 16) ∷ [] }
    {
        Unit {
            bytes: [b'\\', b'x', lower_digit(byte / 16), lower_digit(byte % 16)],
            len: 4,
        }
    }

    /// The spelling of a byte.
    pub(crate) fn of(byte: u8) -> Unit
        ensures { result ≡ spelled byte }
    {
        match byte {
            b'\\' => Unit::letter(b'\\'),
            b'/' => Unit::letter(b's'),
            b'_' => Unit::letter(b'u'),
            0 => Unit::letter(b'n'),
            _ if byte.is_ascii_graphic() => Unit::plain(byte),
            _ => Unit::digits(byte),
        }
    }

    /// The spelling of the byte at a place, or `_` at the end.
    pub(crate) fn at(bytes: &[u8], place: usize) -> Unit
        ensures { result ≡ unit_at bytes.now place }
    {
        if place < bytes.len() {
            Unit::of(bytes[place])
        } else {
            Unit::plain(b'_')
        }
    }

    pub(crate) fn slice(&self) -> &[u8]
        ensures value { result.now ≡ self.now }
        ensures short { length self.now ≤ 4 }
    {
        &self.bytes[..self.len]
    }
}

/// A digit in lower case.
pub(crate) fn lower_digit(value: u8) -> u8
    requires { value < 16 }
    ensures { result ≡ digit_glyph false value }
{
    if value < 10 {
        b'0' + value
    } else {
        b'a' + (value - 10)
    }
}

/// Every byte is below 256.
pub(crate) fn are_bytes(bytes: &[u8])
    ensures { All (λ b. b < 256) bytes.now }
{}
