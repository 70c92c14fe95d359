// Lines of a text.
ghost use Rattle.std.specs.Prelude.{ℕ, Bool, ◌≡◌, ◌≢◌, ◌==◌, ◌<◌, ◌++◌, MatchOption, length, position};
ghost use Rattle.std.specs.List.{position_or_len, before_first, after_first};
ghost use Rattle.store_files.specs.Lines.{IsLine, NoLine};

fn newline_at(text: &[u8]) -> Option<usize>
    ensures { result ≡ position (λ b. b == 10) text.now }
{
    text.iter().position(|b| *b == b'\n')
}

// What stands before the first newline and after it.
#[tactic(auto, using(fs_names::proofs::Splits::place_of_none, fs_names::proofs::Splits::place_of_some))]
fn split_line(text: &[u8]) -> Option<(&[u8], &[u8])>
    ensures { let is : ℕ → Bool = λ b. b == 10 in
        MatchOption result
        (position_or_len is text.now ≡ length text.now)
        (λ parts. (position_or_len is text.now < length text.now)
        × (parts.0.now ≡ before_first is text.now) × (parts.1.now ≡ after_first is text.now)) }
{
    let at = newline_at(text)?;
    Some((&text[..at], &text[at + 1..]))
}

fn after_word<'a>(text: &'a [u8], word: &[u8]) -> Option<&'a [u8]>
    ensures { MatchOption result ((rest : _) → text.now ≢ word.now ++ rest) (λ rest. text.now ≡ word.now ++ rest.now) }
{
    text.strip_prefix(word)
}

/// The value of a first line that begins with this word, and what follows the line.
pub(crate) fn line<'a>(text: &'a [u8], word: &[u8]) -> Option<(&'a [u8], &'a [u8])>
    ensures { MatchOption result (NoLine word.now text.now) (λ parts. IsLine word.now text.now parts.0.now parts.1.now) }
{
    let rest = after_word(text, word)?;
    split_line(rest)
}
