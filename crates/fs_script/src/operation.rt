// The statements of operations, by the words after the first.
ghost use Rattle.fs_script.specs.Reading.{Tells};
ghost use Rattle.fs_script.specs.Operations.{touch_said, write_said, zero_said, truncate_said, remove_said, setattr_said, rmattr_said, rmattrs_said, clone_said, clonerange_said, move_said, mkcoll_said, rmcoll_said, omapclear_said, omapset_said, omaprm_said, omaprange_said};
ghost use Rattle.fs_script.specs.Words.{pieces_left};
ghost use Rattle.fs_script.specs.Keywords.{op_said, done};

use crate::fault::LineFault;
use crate::keyword::OpWord;
use crate::script::Said;
use crate::{field, words};
use fs_model::Op;
use std::alloc::Global;

fn touch(alloc: Global, rest: Option<&[u8]>) -> Result<Said, LineFault>
    ensures { Tells (done (touch_said (pieces_left 32 rest.entry))) result }
{
    let (c, o) = field::object(alloc, words::one(rest)?)?;
    let said = Said::operation(alloc, Op::Touch { c, o })?;
    Ok(said)
}

fn write(alloc: Global, rest: Option<&[u8]>) -> Result<Said, LineFault>
    ensures { Tells (done (write_said (pieces_left 32 rest.entry))) result }
{
    let (place, at, bytes) = words::three(rest)?;
    let (c, o) = field::object(alloc, place)?;
    let at = field::number(at)?;
    let bytes = field::bytes(alloc, bytes)?;
    let said = Said::operation(alloc, Op::Write { c, o, at, bytes })?;
    Ok(said)
}

fn zero(alloc: Global, rest: Option<&[u8]>) -> Result<Said, LineFault>
    ensures { Tells (done (zero_said (pieces_left 32 rest.entry))) result }
{
    let (place, at, len) = words::three(rest)?;
    let (c, o) = field::object(alloc, place)?;
    let at = field::number(at)?;
    let len = field::number(len)?;
    let said = Said::operation(alloc, Op::Zero { c, o, at, len })?;
    Ok(said)
}

fn truncate(alloc: Global, rest: Option<&[u8]>) -> Result<Said, LineFault>
    ensures { Tells (done (truncate_said (pieces_left 32 rest.entry))) result }
{
    let (place, len) = words::two(rest)?;
    let (c, o) = field::object(alloc, place)?;
    let len = field::number(len)?;
    let said = Said::operation(alloc, Op::Truncate { c, o, len })?;
    Ok(said)
}

fn remove(alloc: Global, rest: Option<&[u8]>) -> Result<Said, LineFault>
    ensures { Tells (done (remove_said (pieces_left 32 rest.entry))) result }
{
    let (c, o) = field::object(alloc, words::one(rest)?)?;
    let said = Said::operation(alloc, Op::Remove { c, o })?;
    Ok(said)
}

fn setattr(alloc: Global, rest: Option<&[u8]>) -> Result<Said, LineFault>
    ensures { Tells (done (setattr_said (pieces_left 32 rest.entry))) result }
{
    let (place, pairs) = words::first(rest)?;
    words::some(pairs)?;
    words::paired(pairs)?;
    let (c, o) = field::object(alloc, place)?;
    let pairs = field::pairs(alloc, pairs)?;
    let said = Said::operation(alloc, Op::SetAttrs { c, o, pairs })?;
    Ok(said)
}

fn rmattr(alloc: Global, rest: Option<&[u8]>) -> Result<Said, LineFault>
    ensures { Tells (done (rmattr_said (pieces_left 32 rest.entry))) result }
{
    let (place, name) = words::two(rest)?;
    let (c, o) = field::object(alloc, place)?;
    let name = field::bytes(alloc, name)?;
    let said = Said::operation(alloc, Op::RmAttr { c, o, name })?;
    Ok(said)
}

fn rmattrs(alloc: Global, rest: Option<&[u8]>) -> Result<Said, LineFault>
    ensures { Tells (done (rmattrs_said (pieces_left 32 rest.entry))) result }
{
    let (c, o) = field::object(alloc, words::one(rest)?)?;
    let said = Said::operation(alloc, Op::RmAttrs { c, o })?;
    Ok(said)
}

fn clone(alloc: Global, rest: Option<&[u8]>) -> Result<Said, LineFault>
    ensures { Tells (done (clone_said (pieces_left 32 rest.entry))) result }
{
    let (place, target) = words::two(rest)?;
    let (c, o) = field::object(alloc, place)?;
    let (c2, o2) = field::object(alloc, target)?;
    let said = Said::operation(alloc, Op::Clone { c, o, c2, o2 })?;
    Ok(said)
}

fn clonerange(alloc: Global, rest: Option<&[u8]>) -> Result<Said, LineFault>
    ensures { Tells (done (clonerange_said (pieces_left 32 rest.entry))) result }
{
    let (place, target, from, len, to) = words::five(rest)?;
    let (c, o) = field::object(alloc, place)?;
    let (c2, o2) = field::object(alloc, target)?;
    let from = field::number(from)?;
    let len = field::number(len)?;
    let to = field::number(to)?;
    let said = Said::operation(
        alloc,
        Op::CloneRange {
            c,
            o,
            c2,
            o2,
            from,
            len,
            to,
        },
    )?;
    Ok(said)
}

fn rename(alloc: Global, rest: Option<&[u8]>) -> Result<Said, LineFault>
    ensures { Tells (done (move_said (pieces_left 32 rest.entry))) result }
{
    let (place, target) = words::two(rest)?;
    let (c, o) = field::object(alloc, place)?;
    let (c2, o2) = field::object(alloc, target)?;
    let said = Said::operation(alloc, Op::MoveRename { c, o, c2, o2 })?;
    Ok(said)
}

fn mkcoll(alloc: Global, rest: Option<&[u8]>) -> Result<Said, LineFault>
    ensures { Tells (done (mkcoll_said (pieces_left 32 rest.entry))) result }
{
    let c = field::collection(words::one(rest)?)?;
    let said = Said::operation(alloc, Op::MkColl { c })?;
    Ok(said)
}

fn rmcoll(alloc: Global, rest: Option<&[u8]>) -> Result<Said, LineFault>
    ensures { Tells (done (rmcoll_said (pieces_left 32 rest.entry))) result }
{
    let c = field::collection(words::one(rest)?)?;
    let said = Said::operation(alloc, Op::RmColl { c })?;
    Ok(said)
}

fn omapclear(alloc: Global, rest: Option<&[u8]>) -> Result<Said, LineFault>
    ensures { Tells (done (omapclear_said (pieces_left 32 rest.entry))) result }
{
    let (c, o) = field::object(alloc, words::one(rest)?)?;
    let said = Said::operation(alloc, Op::OmapClear { c, o })?;
    Ok(said)
}

fn omapset(alloc: Global, rest: Option<&[u8]>) -> Result<Said, LineFault>
    ensures { Tells (done (omapset_said (pieces_left 32 rest.entry))) result }
{
    let (place, rest) = words::first(rest)?;
    let (header, pairs) = words::first(rest)?;
    words::paired(pairs)?;
    let (c, o) = field::object(alloc, place)?;
    let header = field::header(alloc, header)?;
    let pairs = field::pairs(alloc, pairs)?;
    let said = Said::operation(
        alloc,
        Op::OmapSet {
            c,
            o,
            header,
            pairs,
        },
    )?;
    Ok(said)
}

fn omaprm(alloc: Global, rest: Option<&[u8]>) -> Result<Said, LineFault>
    ensures { Tells (done (omaprm_said (pieces_left 32 rest.entry))) result }
{
    let (place, keys) = words::first(rest)?;
    words::some(keys)?;
    let (c, o) = field::object(alloc, place)?;
    let keys = field::keys(alloc, keys)?;
    let said = Said::operation(alloc, Op::OmapRemove { c, o, keys })?;
    Ok(said)
}

fn omaprange(alloc: Global, rest: Option<&[u8]>) -> Result<Said, LineFault>
    ensures { Tells (done (omaprange_said (pieces_left 32 rest.entry))) result }
{
    let (place, from, to) = words::three(rest)?;
    let (c, o) = field::object(alloc, place)?;
    let from = field::bytes(alloc, from)?;
    let to = field::bytes(alloc, to)?;
    let said = Said::operation(alloc, Op::OmapRange { c, o, from, to })?;
    Ok(said)
}

/// What the statement of an operation says, by the words after the first.
#[tactic(auto, unfolding(crate::specs::Keywords::op_said))]
pub(crate) fn operation(alloc: Global, word: OpWord, rest: Option<&[u8]>) -> Result<Said, LineFault>
    ensures { Tells (done (op_said word (pieces_left 32 rest.entry))) result }
{
    match word {
        OpWord::Touch => touch(alloc, rest),
        OpWord::Write => write(alloc, rest),
        OpWord::Zero => zero(alloc, rest),
        OpWord::Truncate => truncate(alloc, rest),
        OpWord::Remove => remove(alloc, rest),
        OpWord::SetAttr => setattr(alloc, rest),
        OpWord::RmAttr => rmattr(alloc, rest),
        OpWord::RmAttrs => rmattrs(alloc, rest),
        OpWord::Clone => clone(alloc, rest),
        OpWord::CloneRange => clonerange(alloc, rest),
        OpWord::Move => rename(alloc, rest),
        OpWord::MkColl => mkcoll(alloc, rest),
        OpWord::RmColl => rmcoll(alloc, rest),
        OpWord::OmapClear => omapclear(alloc, rest),
        OpWord::OmapSet => omapset(alloc, rest),
        OpWord::OmapRm => omaprm(alloc, rest),
        OpWord::OmapRange => omaprange(alloc, rest),
    }
}
