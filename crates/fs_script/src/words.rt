#![tactic(auto, using(crate::proofs::Counts::counts))]
// So many words, and no more.
ghost use Rattle.std.specs.Prelude.{◌≡◌};
ghost use Rattle.fs_script.specs.Reading.{Tells};
ghost use Rattle.fs_script.specs.Words.{pieces_left, no_word, some_word, is_even, paired, GivesOne, GivesTwo, GivesThree, GivesFive, GivesFirst};

use crate::cut::cut;
use crate::fault::{LineFault, ScriptWhy};

pub fn none(rest: Option<&[u8]>) -> Result<(), LineFault>
    ensures { Tells (no_word (pieces_left 32 rest.entry)) result }
{
    match rest {
        None => Ok(()),
        Some(_) => Err(LineFault::Bad(ScriptWhy::WrongCount)),
    }
}

/// One word or more.
pub fn some(rest: Option<&[u8]>) -> Result<(), LineFault>
    ensures { Tells (some_word (pieces_left 32 rest.entry)) result }
{
    match rest {
        None => Err(LineFault::Bad(ScriptWhy::WrongCount)),
        Some(_) => Ok(()),
    }
}

fn is_even(words: Option<&[u8]>) -> bool
    ensures { result ≡ is_even (pieces_left 32 words.entry) }
{
    let mut even = true;
    let mut rest = words;
    while let Some(text) = rest {
        let (_, more) = cut(text, b' ');
        even = !even;
        rest = more;
    }
    even
}

/// Two words each.
pub fn paired(words: Option<&[u8]>) -> Result<(), LineFault>
    ensures { Tells (paired (pieces_left 32 words.entry)) result }
{
    if is_even(words) {
        Ok(())
    } else {
        Err(LineFault::Bad(ScriptWhy::WrongCount))
    }
}

/// The first word, and what stands behind it.
pub fn first(rest: Option<&[u8]>) -> Result<(&[u8], Option<&[u8]>), LineFault>
    ensures { GivesFirst (pieces_left 32 rest.entry) result }
{
    match rest {
        None => Err(LineFault::Bad(ScriptWhy::WrongCount)),
        Some(text) => Ok(cut(text, b' ')),
    }
}

pub fn one(rest: Option<&[u8]>) -> Result<&[u8], LineFault>
    ensures { GivesOne (pieces_left 32 rest.entry) result }
{
    let (word, rest) = first(rest)?;
    match rest {
        None => Ok(word),
        Some(_) => Err(LineFault::Bad(ScriptWhy::WrongCount)),
    }
}

pub fn two(rest: Option<&[u8]>) -> Result<(&[u8], &[u8]), LineFault>
    ensures { GivesTwo (pieces_left 32 rest.entry) result }
{
    let (word, rest) = first(rest)?;
    let second = one(rest)?;
    Ok((word, second))
}

pub fn three(rest: Option<&[u8]>) -> Result<(&[u8], &[u8], &[u8]), LineFault>
    ensures { GivesThree (pieces_left 32 rest.entry) result }
{
    let (word, rest) = first(rest)?;
    let (second, third) = two(rest)?;
    Ok((word, second, third))
}

pub fn five(rest: Option<&[u8]>) -> Result<(&[u8], &[u8], &[u8], &[u8], &[u8]), LineFault>
    ensures { GivesFive (pieces_left 32 rest.entry) result }
{
    let (word, rest) = first(rest)?;
    let (second, rest) = first(rest)?;
    let (third, fourth, fifth) = three(rest)?;
    Ok((word, second, third, fourth, fifth))
}
