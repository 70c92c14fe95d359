//! Objects are ordered by the digits of their hashes, the least significant first, then by their texts; collections by
//! their fields.
ghost use Rattle.std.specs.Prelude.{◌≡◌, Some, refl};
ghost use Rattle.std.specs.Cmp.{eq_by_cmp_equiv, partial_equiv_from_equiv, partial_order_from_total};
ghost use Rattle.std.specs.Ordering.{eq_by_cmp, as_partial_cmp};
ghost use Rattle.fs_names.specs.Order.{oid_cmp, coll_field_cmp, oid_cmp_total, coll_field_cmp_total};

use crate::text_order::order_texts;
use crate::{Coll, Oid, order_hash};
use std::cmp::Ordering;

impl PartialEq for Oid {
    ghost eq = { eq_by_cmp oid_cmp };

    ghost laws = { partial_equiv_from_equiv (eq_by_cmp_equiv oid_cmp_total) };

    fn eq(&self, other: &Oid) -> bool {
        self.cmp(other).is_eq()
    }
}

impl Eq for Oid {
    ghost laws = { eq_by_cmp_equiv oid_cmp_total };
}

impl PartialOrd for Oid {
    ghost partial_cmp = { as_partial_cmp oid_cmp };

    ghost laws = { partial_order_from_total oid_cmp_total };

    fn partial_cmp(&self, other: &Oid) -> Option<Ordering> {
        Some(self.cmp(other))
    }
}

impl Ord for Oid {
    ghost cmp = { oid_cmp };

    ghost total = { oid_cmp_total };

    ghost matches_partial_cmp = { λ x y. refl };

    ghost matches_eq = { λ x y. refl };

    fn cmp(&self, other: &Oid) -> Ordering {
        self.fits();
        other.fits();
        let digits = order_hash(self.hash, other.hash);
        if digits.is_ne() {
            return digits;
        }
        order_texts(self, other)
    }
}

impl PartialEq for Coll {
    ghost eq = { eq_by_cmp coll_field_cmp };

    ghost laws = { partial_equiv_from_equiv (eq_by_cmp_equiv coll_field_cmp_total) };

    fn eq(&self, other: &Coll) -> bool {
        self.cmp(other).is_eq()
    }
}

impl Eq for Coll {
    ghost laws = { eq_by_cmp_equiv coll_field_cmp_total };
}

impl PartialOrd for Coll {
    ghost partial_cmp = { as_partial_cmp coll_field_cmp };

    ghost laws = { partial_order_from_total coll_field_cmp_total };

    fn partial_cmp(&self, other: &Coll) -> Option<Ordering> {
        Some(self.cmp(other))
    }
}

impl Ord for Coll {
    ghost cmp = { coll_field_cmp };

    ghost total = { coll_field_cmp_total };

    ghost matches_partial_cmp = { λ x y. refl };

    ghost matches_eq = { λ x y. refl };

    #[tactic(auto, using(crate::proofs::Parts::coll_cmp_pg), unfolding(crate::specs::Order::coll_field_cmp))]
    fn cmp(&self, other: &Coll) -> Ordering {
        match (self, other) {
            (Coll::Meta, Coll::Meta) => Ordering::Equal,
            (Coll::Meta, Coll::Pg { .. }) => Ordering::Less,
            (Coll::Pg { .. }, Coll::Meta) => Ordering::Greater,
            (
                Coll::Pg {
                    pool: p,
                    seed: s,
                    temp: t,
                },
                Coll::Pg {
                    pool: q,
                    seed: z,
                    temp: u,
                },
            ) => p.cmp(q).then(s.cmp(z)).then(t.cmp(u)),
        }
    }
}
