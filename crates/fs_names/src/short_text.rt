ghost use Rattle.std.specs.Prelude.{◌≡◌, ◌≤◌, ◌+◌, ◌*◌, ◌^◌, ◌<◌, ◌∷◌, List, ℕ, false, length, drop, codes};
ghost use Rattle.std.specs.Fmt.{digits};
ghost use Rattle.fs_names.specs.Text.{snap_text, pool_text};

use crate::Snap;
use crate::unit::lower_digit;
use std::marker::Model;

/// The text of a snapshot or of a pool, kept without memory of its own.
#[derive(Debug, Drop)]
pub(crate) struct ShortText {
    /// The text stands at the end.
    bytes: [u8; 16],
    from: usize,
}

impl Model for ShortText {
    ghost use Rattle.std.specs.Prelude.{List, ℕ, ◌≤◌, drop};

    ghost Value = { List ℕ };

    ghost view = { λ t. drop t.from t.bytes };

    ghost invariant = { λ t. t.from ≤ 16 };
}

impl ShortText {
    pub(crate) fn of_snap(snap: Snap) -> ShortText
        ensures { result ≡ snap_text snap }
    {
        match snap {
            Snap::Head => ShortText {
                bytes: *b"            head",
                from: 12,
            },
            Snap::Dir => ShortText {
                bytes: *b"         snapdir",
                from: 9,
            },
            Snap::Id(id) => ShortText::hexadecimal(id),
        }
    }

    pub(crate) fn of_pool(pool: Option<u64>) -> ShortText
        ensures { result ≡ pool_text pool }
    {
        match pool {
            None => ShortText {
                bytes: *b"            none",
                from: 12,
            },
            Some(id) => ShortText::hexadecimal(id),
        }
    }

    fn hexadecimal(number: u64) -> ShortText
        ensures { result ≡ digits 16 false number }
    {
        let mut bytes = [0u8; 16];
        let mut from = 15usize;
        bytes[from] = lower_digit((number % 16) as u8);
        let mut rest = number / 16;
        while rest > 0 {
            from -= 1;
            bytes[from] = lower_digit((rest % 16) as u8);
            rest /= 16;
        }
        ShortText { bytes, from }
    }

    pub(crate) fn slice(&self) -> &[u8]
        ensures value { result.now ≡ self.now }
        ensures short { length self.now ≤ 16 }
    {
        &self.bytes[self.from..]
    }
}
