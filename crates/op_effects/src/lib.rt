//! What an operation on a store's tree starts from, and what it owes.
//!
//! `Ready.antt` has what stands between two operations. `Collections.antt` has what making a collection or taking one away
//! does to what is shown; what an operation on one object owes are the clauses of `tree_stands`.
#![tactic(auto)]

ghost use Rattle.std.specs.Prelude.{◌≡◌, IfOk};
ghost use Rattle.tree_stands.specs.Trees.{dir_of};

use fs_names::{Coll, encode_coll};
use std::alloc::{AllocError, Global};
use tree_api::TreePath;

/// The directory in which a collection's objects lie: its text, in `current`.
#[tactic(auto, using(crate::proofs::Steps::coll_step))]
pub fn coll_path(alloc: Global, coll: &Coll) -> Result<TreePath, AllocError>
    ensures { IfOk result (λ path. path ≡ dir_of coll.now) }
{
    coll.fits();
    let text = encode_coll(alloc, coll)?;
    let current = TreePath::root(alloc).join(b"current")?;
    current.join(text.slice())
}
