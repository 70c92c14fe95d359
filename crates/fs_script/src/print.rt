ghost use Rattle.std.specs.Prelude.{◌≡◌, ◌++◌, IfOk, OnOk, string_bytes};
ghost use Rattle.std.specs.List.{flat_map};
ghost use Rattle.fs_names.specs.Text.{oid_text, coll_text};
ghost use Rattle.fs_script.specs.Bytes.{bytes_text};
ghost use Rattle.fs_script.specs.Printed.{answer_text, line_text, why_text, next_text, pair_text, pairs_text, omap_text, script_why_text, refusal_text};

use crate::{Answer, ScriptWhy};
use fs_model::{Blob, CollNames, OidList, Pair, PairList, Why};
use fs_names::{Coll, Oid, encode_coll, encode_oid};
use std::alloc::{AllocError, Global};

fn why_str(why: Why) -> &'static str
    ensures { result.now ≡ why_text why }
{
    match why {
        Why::Empty => "empty",
        Why::NoCollection => "no collection",
        Why::CollectionExists => "collection exists",
        Why::SameObject => "same object",
        Why::TooBig => "too big",
        Why::TooMany => "too many",
    }
}

fn script_why_str(why: ScriptWhy) -> &'static str
    ensures { result.now ≡ script_why_text why }
{
    match why {
        ScriptWhy::UnknownWord => "unknown word",
        ScriptWhy::NotInTransaction => "not in a transaction",
        ScriptWhy::EndWithoutBegin => "end without begin",
        ScriptWhy::WrongCount => "wrong count",
        ScriptWhy::BadCollection => "bad collection",
        ScriptWhy::BadObject => "bad object",
        ScriptWhy::BadNumber => "bad number",
        ScriptWhy::BadBytes => "bad bytes",
        ScriptWhy::NoEnd => "no end",
        ScriptWhy::TooLong => "too long",
    }
}

fn blob(text: String) -> Blob
    ensures { result ≡ string_bytes text }
{
    Blob::from_vec(text.into_bytes())
}

/// The line of a refused script.
pub fn print_refusal(alloc: Global, line: u64, why: ScriptWhy) -> Result<Blob, AllocError>
    ensures { IfOk result (λ text. text ≡ refusal_text line why) }
{
    let why = script_why_str(why);
    let text = format!(in alloc; "script: line {line}: {why}\n")?;
    Ok(blob(text))
}

// Adds a text and a newline.
fn push_line(text: &mut Vec<u8>, line: &[u8]) -> Result<(), AllocError>
    ensures { OnOk result (text.new.items ≡ text.old.items ++ line_text line.now) }
{
    text.extend_from_slice(line)?;
    text.push(b'\n')?;
    Ok(())
}

// Adds bytes as a script spells them.
fn push_bytes(alloc: Global, text: &mut Vec<u8>, bytes: &Blob) -> Result<(), AllocError>
    ensures { OnOk result (text.new.items ≡ text.old.items ++ bytes_text bytes.now) }
{
    let digits = hex::encode(alloc, bytes.slice())?;
    text.push(b'x')?;
    text.extend_from_slice(digits.as_bytes())?;
    Ok(())
}

// Adds the line of a pair.
fn push_pair(alloc: Global, text: &mut Vec<u8>, word: &[u8], pair: &Pair) -> Result<(), AllocError>
    ensures { OnOk result (text.new.items ≡ text.old.items ++ line_text (pair_text word.now pair.now)) }
{
    text.extend_from_slice(word)?;
    push_bytes(alloc, text, &pair.key)?;
    text.push(b' ')?;
    push_bytes(alloc, text, &pair.value)?;
    text.push(b'\n')?;
    Ok(())
}

// Adds the lines of pairs, each with a word before it.
fn push_pairs(
    alloc: Global,
    text: &mut Vec<u8>,
    word: &[u8],
    pairs: &[Pair],
) -> Result<(), AllocError>
    ensures { OnOk result (text.new.items ≡ text.old.items ++ pairs_text word.now pairs.now) }
{
    for pair in pairs {
        push_pair(alloc, text, word, pair)?;
    }
    Ok(())
}

// Adds the lines of the objects of a page.
fn push_names(alloc: Global, text: &mut Vec<u8>, oids: &[Oid]) -> Result<(), AllocError>
    ensures { OnOk result (text.new.items ≡ text.old.items ++ flat_map (λ oid. line_text (oid_text oid)) oids.now) }
{
    for oid in oids {
        let name = encode_oid(alloc, oid)?;
        push_line(text, name.slice())?;
    }
    Ok(())
}

// Adds the lines of collections.
fn push_colls(alloc: Global, text: &mut Vec<u8>, colls: &[Coll]) -> Result<(), AllocError>
    ensures { OnOk result (text.new.items ≡ text.old.items ++ flat_map (λ c. line_text (coll_text c)) colls.now) }
{
    for c in colls {
        let name = encode_coll(alloc, c)?;
        push_line(text, name.slice())?;
    }
    Ok(())
}

// Adds the line that ends a page.
fn push_next(alloc: Global, text: &mut Vec<u8>, next: &Option<Oid>) -> Result<(), AllocError>
    ensures { OnOk result (text.new.items ≡ text.old.items ++ line_text (next_text next.now)) }
{
    match next {
        None => push_line(text, b"end"),
        Some(oid) => {
            text.extend_from_slice(b"next ")?;
            push_line(text, encode_oid(alloc, oid)?.slice())
        }
    }
}

#[tactic(auto, unfolding(crate::specs::Printed::answer_text))]
fn print_listed(alloc: Global, oids: &OidList, next: &Option<Oid>) -> Result<Blob, AllocError>
    ensures { IfOk result (λ text. text ≡ answer_text (Answer.Listed oids.now next.now)) }
{
    let oids = oids.slice();
    let count = oids.len();
    let mut text = format!(in alloc; "list {count}\n")?.into_bytes();
    push_names(alloc, &mut text, oids)?;
    push_next(alloc, &mut text, next)?;
    Ok(Blob::from_vec(text))
}

#[tactic(auto, unfolding(crate::specs::Printed::answer_text))]
fn print_colls(alloc: Global, colls: &CollNames) -> Result<Blob, AllocError>
    ensures { IfOk result (λ text. text ≡ answer_text (Answer.Colls colls.now)) }
{
    let colls = colls.slice();
    let count = colls.len();
    let mut text = format!(in alloc; "colls {count}\n")?.into_bytes();
    push_colls(alloc, &mut text, colls)?;
    Ok(Blob::from_vec(text))
}

#[tactic(auto, unfolding(crate::specs::Printed::answer_text))]
fn print_attrs(alloc: Global, pairs: &PairList) -> Result<Blob, AllocError>
    ensures { IfOk result (λ text. text ≡ answer_text (Answer.Attrs pairs.now)) }
{
    let pairs = pairs.slice();
    let count = pairs.len();
    let mut text = format!(in alloc; "attrs {count}\n")?.into_bytes();
    push_pairs(alloc, &mut text, b"attr ", pairs)?;
    Ok(Blob::from_vec(text))
}

// The first line of an omap.
fn omap_line(alloc: Global, header: &Blob, count: usize) -> Result<Vec<u8>, AllocError>
    ensures { IfOk result (λ line. line.items ≡ omap_text header.now count) }
{
    let count = format!(in alloc; " {count}\n")?;
    let mut text = Vec::from_slice(alloc, b"omap ")?;
    push_bytes(alloc, &mut text, header)?;
    text.extend_from_slice(count.as_bytes())?;
    Ok(text)
}

#[tactic(auto, unfolding(crate::specs::Printed::answer_text))]
fn print_omap(alloc: Global, header: &Blob, pairs: &PairList) -> Result<Blob, AllocError>
    ensures { IfOk result (λ text. text ≡ answer_text (Answer.Omap header.now pairs.now)) }
{
    let pairs = pairs.slice();
    let mut text = omap_line(alloc, header, pairs.len())?;
    push_pairs(alloc, &mut text, b"pair ", pairs)?;
    Ok(Blob::from_vec(text))
}

#[tactic(auto, unfolding(crate::specs::Printed::answer_text))]
fn print_bytes(alloc: Global, bytes: &Blob) -> Result<Blob, AllocError>
    ensures { IfOk result (λ text. text ≡ answer_text (Answer.Bytes bytes.now)) }
{
    let mut text = Vec::from_slice(alloc, b"data ")?;
    push_bytes(alloc, &mut text, bytes)?;
    text.push(b'\n')?;
    Ok(Blob::from_vec(text))
}

#[tactic(auto, unfolding(crate::specs::Printed::answer_text))]
fn print_too_large(alloc: Global, need: u64, size: u64) -> Result<Blob, AllocError>
    ensures { IfOk result (λ text. text ≡ answer_text (Answer.TooLarge need size)) }
{
    let text = format!(in alloc; "refused too large {need} {size}\n")?;
    Ok(blob(text))
}

/// The lines of an answer, each ended by a newline.
#[tactic(auto, unfolding(crate::specs::Printed::answer_text))]
pub fn print_answer(alloc: Global, answer: &Answer) -> Result<Blob, AllocError>
    ensures { IfOk result (λ text. text ≡ answer_text answer.now) }
{
    let text = match answer {
        Answer::Queued { seq } => format!(in alloc; "queued {seq}\n")?,
        Answer::RefusedOp { op, why } => {
            let why = why_str(*why);
            format!(in alloc; "refused op {op} {why}\n")?
        }
        Answer::NotBuilt => format!(in alloc; "refused not built\n")?,
        Answer::TooLarge { need, size } => return print_too_large(alloc, *need, *size),
        Answer::QueueFull => format!(in alloc; "refused queue full\n")?,
        Answer::NumbersSpent => format!(in alloc; "refused numbers spent\n")?,
        Answer::Drained { acked, seq } => format!(in alloc; "ack {acked}\ndrained {seq}\n")?,
        Answer::Bytes(bytes) => return print_bytes(alloc, bytes),
        Answer::Size(size) => format!(in alloc; "size {size}\n")?,
        Answer::Attrs(pairs) => return print_attrs(alloc, pairs),
        Answer::Omap { header, pairs } => return print_omap(alloc, header, pairs),
        Answer::Listed { oids, next } => return print_listed(alloc, oids, next),
        Answer::Colls(colls) => return print_colls(alloc, colls),
        Answer::Acked { acked } => format!(in alloc; "acked {acked}\n")?,
        Answer::Missing => format!(in alloc; "none\n")?,
    };
    Ok(blob(text))
}
