ghost use Rattle.std.specs.Prelude.{ℕ, Bool, ◌≡◌, ◌==◌, ◌<◌, MatchOption, length, position};
ghost use Rattle.std.specs.List.{position_or_len, before_first, after_first};

fn first_place(text: &[u8], byte: u8) -> Option<usize>
    ensures { result ≡ position (λ b. b == byte) text.now }
{
    text.iter().position(|b| *b == byte)
}

/// What stands before the first of these bytes and after it, or none where there is no such byte.
#[tactic(auto, using(crate::proofs::Splits::place_of_none, crate::proofs::Splits::place_of_some))]
pub(crate) fn split_once(text: &[u8], separator: u8) -> Option<(&[u8], &[u8])>
    ensures { let is : ℕ → Bool = λ b. b == separator in
        MatchOption result
        (position_or_len is text.now ≡ length text.now)
        (λ parts. (position_or_len is text.now < length text.now)
        × (parts.0.now ≡ before_first is text.now) × (parts.1.now ≡ after_first is text.now)) }
{
    let at = first_place(text, separator)?;
    Some((&text[..at], &text[at + 1..]))
}
