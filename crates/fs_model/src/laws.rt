//! Laws of what operations mean and of which are refused. Each is the contract of a function that does nothing.
ghost use Rattle.std.specs.Prelude.{◌≡◌, ◌≢◌, ◌↔◌, ◌+◌, ◌-◌, ◌<◌, ◌≤◌, [], List, ℕ, length, slice_index, max, Some, None};
ghost use Rattle.std.specs.List.{AllByRecursion};
ghost use Rattle.std.specs.FinSet as set;
ghost use Rattle.std.specs.FinMap as map;
ghost use Rattle.fs_names.specs.declared.coll.Coll.{Coll};
ghost use Rattle.fs_names.specs.declared.oid.Oid.{Oid};
ghost use Rattle.fs_names.specs.Order.{oid_cmp};
ghost use Rattle.fs_model.specs.declared.limits.TheConstants.{TXN_OPS};
ghost use Rattle.fs_model.specs.declared.op.Op.{Op};
ghost use Rattle.fs_model.specs.declared.op.Why.{Why};
ghost use Rattle.fs_model.specs.Objects.{Objects, Shelf};
ghost use Rattle.fs_model.specs.Colls.{CollSet, colls_of};
ghost use Rattle.fs_model.specs.Rows.{row, fold_ops, overwrite};
ghost use Rattle.fs_model.specs.Check.{op_colls, colls_after, txn_refusal, IsFirstRefused, IsAccepted, IsWithinLimits};
ghost use Rattle.fs_model.specs.Listing.{Rises, among};

/// What the check of a transaction answers is its first operation with a reason.
pub fn refusal_law()
    ensures refused { (S : CollSet) (ops : List Op) (k : ℕ) (why : Why) → (txn_refusal S ops ≡ Some (k, why)) ↔ IsFirstRefused S ops k why }
    ensures accepted { (S : CollSet) (ops : List Op) → (txn_refusal S ops ≡ None) ↔ IsAccepted S ops }
    ensures within { (S : CollSet) (ops : List Op) → txn_refusal S ops ≡ None → AllByRecursion IsWithinLimits ops }
    ensures few { (S : CollSet) (ops : List Op) → txn_refusal S ops ≡ None → length ops ≤ TXN_OPS }
{}

/// The collections of objects go by the operations alone.
pub fn colls_law()
    ensures has { (O : Objects) (c : Coll) → set.contains (colls_of O) c ≡ map.contains_key O c }
    ensures none { colls_of map.empty ≡ set.empty }
    ensures row { (O : Objects) (op : Op) → colls_of (row O op) ≡ op_colls (colls_of O) op }
    ensures fold { (O : Objects) (ops : List Op) → colls_of (fold_ops O ops) ≡ colls_after (colls_of O) ops }
{}

/// What a write does to each byte, where a byte past the end counts as 0, and to the length.
pub fn overwrite_law()
    ensures before { (old : List ℕ) (at : ℕ) (bytes : List ℕ) (i : ℕ) → i < at →
        slice_index (overwrite old at bytes) i ≡ slice_index old i }
    ensures within { (old : List ℕ) (at : ℕ) (bytes : List ℕ) (i : ℕ) → at ≤ i → i < at + length bytes →
        slice_index (overwrite old at bytes) i ≡ slice_index bytes (i - at) }
    ensures after { (old : List ℕ) (at : ℕ) (bytes : List ℕ) (i : ℕ) → at + length bytes ≤ i →
        slice_index (overwrite old at bytes) i ≡ slice_index old i }
    ensures length { (old : List ℕ) (at : ℕ) (bytes : List ℕ) → bytes ≢ [] →
        length (overwrite old at bytes) ≡ max (length old) (at + length bytes) }
{}

/// The names of a collection's objects in hash order: they rise, and no other rising list has them all.
pub fn names_law()
    ensures rise { (s : Shelf) → Rises oid_cmp (map.keys s) }
    ensures only { (s : Shelf) (l : List Oid) → Rises oid_cmp l → ((q : Oid) → among l q ≡ map.contains_key s q) → l ≡ map.keys s }
{}
