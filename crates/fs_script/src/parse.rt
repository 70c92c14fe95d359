ghost use Rattle.std.specs.List.{slice_split};
ghost use Rattle.std.specs.Prelude.{◌≡◌, ◌==◌, ◌≤◌, ◌++◌, length, None, OnOk};
ghost use Rattle.fs_script.specs.Reading.{Tells};
ghost use Rattle.fs_script.specs.Words.{pieces_left, words_of};
ghost use Rattle.fs_script.specs.Statements.{alone_said, read_said, stat_said, attrs_said, omap_said, list_said};
ghost use Rattle.fs_script.specs.Keywords.{keyword_said};
ghost use Rattle.fs_script.specs.Kept.{statement_of};
ghost use Rattle.fs_script.specs.Grammar.{statement_said, TellsLine, line_said, TellsScript, ended, lines_said, line_if, opened_after, script_said, script_limit};

use crate::cut::cut;
use crate::fault::{LineFault, ScriptFault, ScriptWhy};
use crate::keyword::Keyword;
use crate::operation::operation;
use crate::script::{Form, Said};
use crate::{Script, Statement, field, words};
use std::alloc::{AllocError, Global};

/// The most bytes that a script may have.
pub const SCRIPT_LIMIT: usize = 67_108_864;

// A statement that is one word.
fn alone(rest: Option<&[u8]>, form: Form) -> Result<Said, LineFault>
    ensures { Tells (alone_said (statement_of form) (pieces_left 32 rest.entry)) result }
{
    words::none(rest)?;
    Ok(Said::word(form))
}

fn read(alloc: Global, rest: Option<&[u8]>) -> Result<Said, LineFault>
    ensures { Tells (read_said (pieces_left 32 rest.entry)) result }
{
    let (place, at, len) = words::three(rest)?;
    let (c, o) = field::object(alloc, place)?;
    let at = field::number(at)?;
    let len = field::number(len)?;
    let said = Said::new(alloc, Statement::Read { c, o, at, len })?;
    Ok(said)
}

fn stat(alloc: Global, rest: Option<&[u8]>) -> Result<Said, LineFault>
    ensures { Tells (stat_said (pieces_left 32 rest.entry)) result }
{
    let (c, o) = field::object(alloc, words::one(rest)?)?;
    let said = Said::new(alloc, Statement::Stat { c, o })?;
    Ok(said)
}

fn attrs(alloc: Global, rest: Option<&[u8]>) -> Result<Said, LineFault>
    ensures { Tells (attrs_said (pieces_left 32 rest.entry)) result }
{
    let (c, o) = field::object(alloc, words::one(rest)?)?;
    let said = Said::new(alloc, Statement::Attrs { c, o })?;
    Ok(said)
}

fn omap(alloc: Global, rest: Option<&[u8]>) -> Result<Said, LineFault>
    ensures { Tells (omap_said (pieces_left 32 rest.entry)) result }
{
    let (c, o) = field::object(alloc, words::one(rest)?)?;
    let said = Said::new(alloc, Statement::Omap { c, o })?;
    Ok(said)
}

fn list(alloc: Global, rest: Option<&[u8]>) -> Result<Said, LineFault>
    ensures { Tells (list_said (pieces_left 32 rest.entry)) result }
{
    let (c, cursor, max) = words::three(rest)?;
    let c = field::collection(c)?;
    let cursor = field::cursor(alloc, cursor)?;
    let max = field::small_number(max)?;
    let said = Said::new(alloc, Statement::List { c, cursor, max })?;
    Ok(said)
}

// What a statement says, by its first word and the others.
#[tactic(auto, unfolding(crate::specs::Keywords::keyword_said))]
fn known(alloc: Global, keyword: Keyword, rest: Option<&[u8]>) -> Result<Said, LineFault>
    ensures { Tells (keyword_said keyword (pieces_left 32 rest.entry)) result }
{
    match keyword {
        Keyword::Op(word) => operation(alloc, word, rest),
        Keyword::Begin => alone(rest, Form::Begin),
        Keyword::End => alone(rest, Form::End),
        Keyword::Drain => alone(rest, Form::Drain),
        Keyword::Read => read(alloc, rest),
        Keyword::Stat => stat(alloc, rest),
        Keyword::Attrs => attrs(alloc, rest),
        Keyword::Omap => omap(alloc, rest),
        Keyword::List => list(alloc, rest),
        Keyword::Colls => alone(rest, Form::Colls),
        Keyword::Acked => alone(rest, Form::Acked),
    }
}

// What a line says, by its words.
#[tactic(auto, unfolding(crate::specs::Grammar::statement_said))]
fn statement(alloc: Global, line: &[u8], inside: bool) -> Result<Said, LineFault>
    ensures { Tells (statement_said inside (words_of line.now)) result }
{
    let (word, rest) = cut(line, b' ');
    let Some(keyword) = Keyword::of(word) else {
        return Err(LineFault::Bad(ScriptWhy::UnknownWord));
    };
    if let Some(why) = keyword.misplaced(inside) {
        return Err(LineFault::Bad(why));
    }
    known(alloc, keyword, rest)
}

// What a line says, if anything.
fn line(alloc: Global, line: &[u8], inside: bool) -> Result<Option<Said>, LineFault>
    ensures { TellsLine (line_said inside line.now) result }
{
    match line.first() {
        None | Some(b'#') => Ok(None),
        Some(_) => Ok(Some(statement(alloc, line, inside)?)),
    }
}

// Adds the line of this number to a script, if it says anything.
fn add(script: &mut Script, number: u64, said: Option<Said>) -> Result<(), AllocError>
    ensures { OnOk result (script.new ≡ script.old ++ line_if number said) }
{
    match said {
        None => Ok(()),
        Some(said) => script.push(number, said),
    }
}

// The line of the `begin` that has no `end` behind this line, if there is one.
fn opened(number: u64, opened: Option<u64>, said: &Option<Said>) -> Option<u64>
    ensures { result ≡ opened_after number opened said.now }
{
    match said {
        None => opened,
        Some(said) => said.opened(number, opened),
    }
}

// A script behind its last line.
fn ended(script: Script, opened: Option<u64>) -> Result<Script, ScriptFault>
    ensures { TellsScript (ended script opened) result }
{
    match opened {
        None => Ok(script),
        Some(line) => Err(ScriptFault::Line {
            line,
            why: ScriptWhy::NoEnd,
        }),
    }
}

// The lines of a text, the first of them with number 1.
fn lines(alloc: Global, text: &[u8]) -> Result<Script, ScriptFault>
    requires { length text.now ≤ script_limit }
    ensures { TellsScript (lines_said 1 None (slice_split (λ b. b == 10) text.now)) result }
{
    let mut script = Script::new(alloc);
    let mut number: u64 = 1;
    let mut begin = None;
    let mut rest = Some(text);
    while let Some(text) = rest {
        let (first, more) = cut(text, b'\n');
        let said = match line(alloc, first, begin.is_some()) {
            Ok(said) => said,
            Err(LineFault::Bad(why)) => return Err(ScriptFault::Line { line: number, why }),
            Err(LineFault::Memory) => return Err(ScriptFault::Memory),
        };
        begin = opened(number, begin, &said);
        add(&mut script, number, said)?;
        number += 1;
        rest = more;
    }
    ended(script, begin)
}

/// Reads a script. The first refused line counts; a script of more than 67,108,864 bytes is refused before all lines.
#[tactic(auto, unfolding(crate::specs::Grammar::script_said))]
pub fn parse_script(alloc: Global, bytes: &[u8]) -> Result<Script, ScriptFault>
    ensures { TellsScript (script_said bytes.now) result }
{
    if bytes.len() > SCRIPT_LIMIT {
        return Err(ScriptFault::Line {
            line: 0,
            why: ScriptWhy::TooLong,
        });
    }
    lines(alloc, bytes)
}
