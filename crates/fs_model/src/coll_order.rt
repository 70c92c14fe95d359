//! Collections in the order of their texts.
ghost use Rattle.std.specs.Prelude.{◌≡◌, ◌||◌, List, ℕ, IfOk, OnOk, Some, refl};
ghost use Rattle.std.specs.List.{list_any};
ghost use Rattle.std.specs.List.Sorted.{IsStrictlySortedBy};
ghost use Rattle.std.specs.Ordering.{eq_by_cmp, as_partial_cmp};
ghost use Rattle.std.specs.Cmp.{eq_by_cmp_equiv, partial_equiv_from_equiv, partial_order_from_total};
ghost use Rattle.fs_names.specs.declared.coll.Coll.{Coll};
ghost use Rattle.fs_names.specs.Order.{coll_cmp, coll_cmp_total};

use crate::CollNames;
use fs_names::{Coll, CollText, encode_coll};
use std::alloc::{AllocError, Global};
use std::cmp::Ordering;
use std::collections::BTreeSet;
use std::marker::Model;

/// A collection beside its text, by which it is ordered.
#[derive(Drop)]
pub(crate) struct PlacedColl {
    coll: Coll,
    text: CollText,
}

impl Model for PlacedColl {
    ghost use Rattle.std.specs.Prelude.{◌≡◌};
    ghost use Rattle.fs_names.specs.declared.coll.Coll.{Coll};
    ghost use Rattle.fs_names.specs.Codes.{coll_code};
    ghost use Rattle.fs_names.specs.Text.{coll_text};

    ghost Value = { Coll };

    ghost coded = { coll_code };

    ghost view = { λ p. p.coll };

    ghost invariant = { λ p. p.text ≡ coll_text p.coll };
}

impl PlacedColl {
    fn new(alloc: Global, coll: Coll) -> Result<PlacedColl, AllocError>
        ensures { IfOk result (λ placed. placed ≡ coll) }
    {
        let text = encode_coll(alloc, &coll)?;
        Ok(PlacedColl { coll, text })
    }

    fn coll(&self) -> Coll
        ensures { result ≡ self.now }
    {
        self.coll
    }
}

impl PartialEq for PlacedColl {
    ghost eq = { eq_by_cmp coll_cmp };

    ghost laws = { partial_equiv_from_equiv (eq_by_cmp_equiv coll_cmp_total) };

    fn eq(&self, other: &PlacedColl) -> bool {
        self.cmp(other).is_eq()
    }
}

impl Eq for PlacedColl {
    ghost laws = { eq_by_cmp_equiv coll_cmp_total };
}

impl PartialOrd for PlacedColl {
    ghost partial_cmp = { as_partial_cmp coll_cmp };

    ghost laws = { partial_order_from_total coll_cmp_total };

    fn partial_cmp(&self, other: &PlacedColl) -> Option<Ordering> {
        Some(self.cmp(other))
    }
}

impl Ord for PlacedColl {
    ghost cmp = { coll_cmp };

    ghost total = { coll_cmp_total };

    ghost matches_partial_cmp = { λ x y. refl };

    ghost matches_eq = { λ x y. refl };

    fn cmp(&self, other: &PlacedColl) -> Ordering {
        let texts = self.text.slice().cmp(other.text.slice());
        texts.then(self.coll.cmp(&other.coll))
    }
}

/// Adds a collection.
pub(crate) fn add(
    alloc: Global,
    set: &mut BTreeSet<PlacedColl>,
    coll: Coll,
) -> Result<(), AllocError>
    ensures added { OnOk result ((q : Coll) → list_any (eq_by_cmp coll_cmp q) set.new.keys ≡ (list_any (eq_by_cmp coll_cmp q) set.old.keys || eq_by_cmp coll_cmp q coll)) }
    ensures ordered { IsStrictlySortedBy coll_cmp set.old.keys → OnOk result (IsStrictlySortedBy coll_cmp set.new.keys) }
{
    let placed = PlacedColl::new(alloc, coll)?;
    set.insert(placed)?;
    Ok(())
}

/// The collections in order.
pub(crate) fn in_order(alloc: Global, set: BTreeSet<PlacedColl>) -> Result<CollNames, AllocError>
    ensures { IfOk result (λ names. names ≡ set.keys) }
{
    let mut left = set;
    let mut names = Vec::new(alloc);
    while let Some(placed) = left.pop_first() {
        names.push(placed.coll())?;
    }
    Ok(CollNames::from_vec(names))
}
