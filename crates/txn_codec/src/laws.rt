//! Laws of payloads. Each is the contract of a function that does nothing.
ghost use Rattle.std.specs.Prelude.{◌≡◌, ◌<◌, ◌≤◌, ℕ, List, length, slice_index, Ok, None};
ghost use Rattle.std.specs.List.{AllByRecursion};
ghost use Rattle.fs_model.specs.declared.op.Op.{Op};
ghost use Rattle.fs_model.specs.Limits.{ops_limit};
ghost use Rattle.fs_model.specs.Colls.{CollSet};
ghost use Rattle.fs_model.specs.Check.{txn_refusal};
ghost use Rattle.txn_codec.specs.Spelling.{payload, OpsFit, IsShort};
ghost use Rattle.txn_codec.specs.Reading.{decoded};

/// Operations are read as they were spelled, what is read was spelled so, and no bytes spell two lists of operations.
pub fn payload_law()
    ensures read { (ops : List Op) → OpsFit ops → decoded (payload ops) ≡ Ok ops }
    ensures spelled { (bytes : List ℕ) (ops : List Op) → ((i : ℕ) → slice_index bytes i < 256) → decoded bytes ≡ Ok ops →
        (payload ops ≡ bytes) × OpsFit ops }
    ensures one { (xs ys : List Op) → OpsFit xs → OpsFit ys → payload xs ≡ payload ys → xs ≡ ys }
{}

/// A transaction that its check accepts has a spelling.
pub fn encodable_law()
    ensures few { (S : CollSet) (ops : List Op) → txn_refusal S ops ≡ None → length ops ≤ ops_limit }
    ensures short { (S : CollSet) (ops : List Op) → txn_refusal S ops ≡ None → AllByRecursion IsShort ops }
{}
