// Pieces of a text, one after another.
ghost use Rattle.std.specs.Prelude.{◌≡◌, ◌∷◌, ◌==◌, length, IfSome, ◌<◌};
ghost use Rattle.std.specs.List.{slice_split, position};
ghost use Rattle.fs_script.specs.Words.{pieces_left};

use memchr::memchr;

// The place of the first such byte.
fn place_of(text: &[u8], byte: u8) -> Option<usize>
    ensures { result ≡ position (λ b. b == byte) text.now }
{
    memchr(byte, text)
}

/// What stands before the first such byte, and what stands behind it, if there is one.
pub fn cut(text: &[u8], byte: u8) -> (&[u8], Option<&[u8]>)
    ensures pieces { slice_split (λ b. b == byte) text.now ≡ result.0.now ∷ pieces_left byte result.1 }
    ensures shorter { IfSome result.1 (λ rest. length rest.now < length text.now) }
{
    match place_of(text, byte) {
        None => (text, None),
        Some(end) => (&text[..end], Some(&text[end + 1..])),
    }
}
