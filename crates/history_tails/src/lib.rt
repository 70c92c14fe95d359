//! A store's history that gets longer, and the end of one, which is what a store speaks of.
//!
//! A store that was mounted tells its objects from its mount on: the history of its journal began before. `Tails.antt` has
//! both, and what may wait behind a history.
#![tactic(auto)]

ghost use Rattle.std.specs.Prelude.{◌≡◌, ℕ, ◌≤◌, List, [], ◌∷◌, ◌++◌};
ghost use Rattle.fs_model.specs.declared.op.Op.{Op};
ghost use Rattle.fs_model.specs.Objects.{Objects};
ghost use Rattle.fs_model.specs.Colls.{CollSet, colls_of};
ghost use Rattle.fs_model.specs.Check.{IsAccepted, colls_after};
ghost use Rattle.tree_api.specs.Tree.{Tree};
ghost use Rattle.store_files.specs.declared.reading.Identity.{Identity};
ghost use Rattle.store_history.specs.History.{History, at, end_of};
ghost use Rattle.store_history.specs.Pair.{StandsFor};
ghost use Rattle.tree_places.specs.Images.{StoreImage};
ghost use Rattle.history_tails.specs.Tails.{IsTailOf, WaitBehind, begun, with_more};

/// What stands for a long history stands for its end, from where that begins on.
pub fn tail_law()
    ensures itself { (h : History) → IsTailOf h h }
    ensures begun { (long : History) (last : ℕ) (O : Objects) → end_of long ≡ last → at long last ≡ O → IsTailOf (begun last O) long }
    ensures more { (h long : History) (txns : List (List Op)) → IsTailOf h long → IsTailOf (with_more h txns) (with_more long txns) }
    ensures objects { (h long : History) (n : ℕ) → IsTailOf h long → h.base ≤ n → at long n ≡ at h n }
    ensures stands { (id : Identity) (fsid : List ℕ) (h long : History) (acked : ℕ) (t : Tree) (c : List ℕ) → IsTailOf h long → h.base ≤ acked
        → StandsFor (StoreImage id) fsid long acked t c → StandsFor (StoreImage id) fsid h acked t c }
{}

/// What is accepted by the collections may wait behind all that waits, and what is done waits no more.
pub fn wait_law()
    ensures none { (n : ℕ) (O : Objects) → WaitBehind (begun n O) [] (colls_of O) }
    ensures more { (h : History) (txns : List (List Op)) (colls : CollSet) (ops : List Op) → WaitBehind h txns colls → IsAccepted colls ops
        → WaitBehind h (txns ++ ops ∷ []) (colls_after colls ops) }
    ensures done { (h : History) (txns : List (List Op)) (colls : CollSet) → WaitBehind h txns colls → WaitBehind (with_more h txns) [] colls }
{}
