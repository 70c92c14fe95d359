//! Which operations a store of files does so far.
#![tactic(auto)]

ghost use Rattle.std.specs.Prelude.{◌≡◌, ◌↔◌, ◌<◌, not, ◌&&◌, IsTrue, IfSome, length};
ghost use Rattle.std.specs.List.{list_all};
ghost use Rattle.fs_model.specs.Check.{is_unfit};
ghost use Rattle.built_ops.specs.Built.{is_built, unbuilt_in, CanDo};

use fs_model::{Op, TXN_OPS};

/// Whether a store of files does it: all but copies, moves and what concerns the omap.
pub fn is_built(op: &Op) -> bool
    ensures { result ≡ is_built op.now }
{
    !matches!(
        op,
        Op::Clone { .. }
            | Op::CloneRange { .. }
            | Op::MoveRename { .. }
            | Op::OmapClear { .. }
            | Op::OmapSet { .. }
            | Op::OmapRemove { .. }
            | Op::OmapRange { .. }
    )
}

/// The lowest operation that isn't built.
pub fn first_unbuilt(ops: &[Op]) -> Option<usize>
    ensures lowest { result ≡ unbuilt_in ops.now }
    ensures within { IfSome result (λ i. i < length ops.now) }
{
    ops.iter().position(|op| !is_built(op))
}

fn all_fit(ops: &[Op]) -> bool
    ensures { result ≡ list_all (λ op. is_built op && not (is_unfit op)) ops.now }
{
    ops.iter().all(|op| is_built(op) && !op.is_unfit())
}

/// Whether a transaction of these operations can be done.
pub fn can_do(ops: &[Op]) -> bool
    ensures { IsTrue result ↔ CanDo ops.now }
{
    ops.len() <= TXN_OPS && all_fit(ops)
}
