// Paths as keys of a map.
ghost use Rattle.std.specs.Prelude.{◌≡◌, ◌≤◌, List, ℕ, length, refl};
ghost use Rattle.std.specs.Ordering.{nat_cmp, eq_by_cmp, as_partial_cmp};
ghost use Rattle.std.specs.Cmp.{eq_by_cmp_equiv, partial_equiv_from_equiv, partial_order_from_total};
ghost use Rattle.std.specs.Cmp.Lexicographic.{slice_cmp};
ghost use Rattle.tree_memory.specs.Paths.{path_cmp, path_cmp_total};

use std::alloc::AllocError;
use std::cmp::Ordering;
use std::marker::Model;
use tree_api::TreePath;

/// A path, ordered by its steps.
#[derive(Debug, Drop)]
pub struct Place {
    pub path: TreePath,
}

impl Model for Place {
    ghost use Rattle.std.specs.Prelude.{List, ℕ};

    ghost Value = { List (List ℕ) };

    ghost view = { λ p. p.path };
}

// The steps one after another, and then the shorter path first.
fn compare(a: &TreePath, b: &TreePath) -> Ordering
    ensures { result ≡ path_cmp a.now b.now }
{
    let mut i = 0;
    while i < a.steps() && i < b.steps() {
        let order = a.step_bytes(i).cmp(b.step_bytes(i));
        if !order.is_eq() {
            return order;
        }
        i += 1;
    }
    a.steps().cmp(&b.steps())
}

impl Clone for Place {
    ghost is_clone = { λ x y. y ≡ x };

    fn clone(&self) -> Result<Place, AllocError> {
        Ok(Place {
            path: self.path.copy()?,
        })
    }
}

impl PartialEq for Place {
    ghost eq = { eq_by_cmp path_cmp };

    ghost laws = { partial_equiv_from_equiv (eq_by_cmp_equiv path_cmp_total) };

    fn eq(&self, other: &Place) -> bool {
        self.cmp(other).is_eq()
    }
}

impl Eq for Place {
    ghost laws = { eq_by_cmp_equiv path_cmp_total };
}

impl PartialOrd for Place {
    ghost partial_cmp = { as_partial_cmp path_cmp };

    ghost laws = { partial_order_from_total path_cmp_total };

    fn partial_cmp(&self, other: &Place) -> Option<Ordering> {
        Some(self.cmp(other))
    }
}

impl Ord for Place {
    ghost cmp = { path_cmp };

    ghost total = { path_cmp_total };

    ghost matches_partial_cmp = { λ x y. refl };

    ghost matches_eq = { λ x y. refl };

    fn cmp(&self, other: &Place) -> Ordering {
        compare(&self.path, &other.path)
    }
}
