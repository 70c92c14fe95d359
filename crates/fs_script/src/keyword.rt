// The first words of statements.
ghost use Rattle.std.specs.Prelude.{◌≡◌};
ghost use Rattle.fs_script.specs.Keywords.{op_word_of, other_word_of, keyword_of, misplaced};

use crate::fault::ScriptWhy;

/// The operations, by their words.
#[derive(Drop, Clone, Copy)]
pub enum OpWord {
    Touch,
    Write,
    Zero,
    Truncate,
    Remove,
    SetAttr,
    RmAttr,
    RmAttrs,
    Clone,
    CloneRange,
    Move,
    MkColl,
    RmColl,
    OmapClear,
    OmapSet,
    OmapRm,
    OmapRange,
}

/// The statements, by their first words.
#[derive(Drop, Clone, Copy)]
pub enum Keyword {
    Op(OpWord),
    Begin,
    End,
    Drain,
    Read,
    Stat,
    Attrs,
    Omap,
    List,
    Colls,
    Acked,
}

// The operation of this word.
#[tactic(auto, unfolding(crate::specs::Keywords::op_word_of))]
fn op_word(word: &[u8]) -> Option<OpWord>
    ensures { result ≡ op_word_of word.now }
{
    if word == b"touch".as_slice() {
        Some(OpWord::Touch)
    } else if word == b"write".as_slice() {
        Some(OpWord::Write)
    } else if word == b"zero".as_slice() {
        Some(OpWord::Zero)
    } else if word == b"truncate".as_slice() {
        Some(OpWord::Truncate)
    } else if word == b"remove".as_slice() {
        Some(OpWord::Remove)
    } else if word == b"setattr".as_slice() {
        Some(OpWord::SetAttr)
    } else if word == b"rmattr".as_slice() {
        Some(OpWord::RmAttr)
    } else if word == b"rmattrs".as_slice() {
        Some(OpWord::RmAttrs)
    } else if word == b"clone".as_slice() {
        Some(OpWord::Clone)
    } else if word == b"clonerange".as_slice() {
        Some(OpWord::CloneRange)
    } else if word == b"move".as_slice() {
        Some(OpWord::Move)
    } else if word == b"mkcoll".as_slice() {
        Some(OpWord::MkColl)
    } else if word == b"rmcoll".as_slice() {
        Some(OpWord::RmColl)
    } else if word == b"omapclear".as_slice() {
        Some(OpWord::OmapClear)
    } else if word == b"omapset".as_slice() {
        Some(OpWord::OmapSet)
    } else if word == b"omaprm".as_slice() {
        Some(OpWord::OmapRm)
    } else if word == b"omaprange".as_slice() {
        Some(OpWord::OmapRange)
    } else {
        None
    }
}

// The statement of this word, where it is no operation.
#[tactic(auto, unfolding(crate::specs::Keywords::other_word_of))]
fn other_word(word: &[u8]) -> Option<Keyword>
    ensures { result ≡ other_word_of word.now }
{
    if word == b"begin".as_slice() {
        Some(Keyword::Begin)
    } else if word == b"end".as_slice() {
        Some(Keyword::End)
    } else if word == b"drain".as_slice() {
        Some(Keyword::Drain)
    } else if word == b"read".as_slice() {
        Some(Keyword::Read)
    } else if word == b"stat".as_slice() {
        Some(Keyword::Stat)
    } else if word == b"attrs".as_slice() {
        Some(Keyword::Attrs)
    } else if word == b"omap".as_slice() {
        Some(Keyword::Omap)
    } else if word == b"list".as_slice() {
        Some(Keyword::List)
    } else if word == b"colls".as_slice() {
        Some(Keyword::Colls)
    } else if word == b"acked".as_slice() {
        Some(Keyword::Acked)
    } else {
        None
    }
}

impl Keyword {
    /// The statement that this word begins.
    #[tactic(auto, unfolding(crate::specs::Keywords::keyword_of))]
    pub fn of(word: &[u8]) -> Option<Keyword>
        ensures { result ≡ keyword_of word.now }
    {
        match op_word(word) {
            Some(op) => Some(Keyword::Op(op)),
            None => other_word(word),
        }
    }

    /// Why a statement may not stand inside a transaction, or outside.
    pub fn misplaced(self, inside: bool) -> Option<ScriptWhy>
        ensures { result ≡ misplaced inside self }
    {
        match (self, inside) {
            (Keyword::Op(_), _) | (Keyword::End, true) => None,
            (Keyword::End, false) => Some(ScriptWhy::EndWithoutBegin),
            (_, true) => Some(ScriptWhy::NotInTransaction),
            (_, false) => None,
        }
    }
}
