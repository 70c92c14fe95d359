ghost use Rattle.std.specs.Prelude.{◌≡◌};
ghost use Rattle.std.specs.Cmp.{IsTotalOrder};
ghost use Rattle.fs_names.specs.Order.{oid_cmp};
ghost use Rattle.hash_order.specs.HashOrder.{hash_order, IsHashOrder, TiesAreEqual};

use fs_names::{Oid, oid_order_law};
use std::cmp::Ordering;

/// Compares two objects by their hashes, read with their eight digits reversed, and then by the bytes of their texts.
/// It takes no memory.
pub fn order(a: &Oid, b: &Oid) -> Ordering
    ensures value { result ≡ hash_order a.now b.now }
    ensures key { result ≡ oid_cmp a.now b.now }
{
    a.fits();
    b.fits();
    oid_order_law();
    a.cmp(b)
}

/// The order is the one in which finite maps keep objects, and only equal objects tie.
pub fn hash_order_law()
    ensures total { IsTotalOrder oid_cmp }
    ensures same { IsHashOrder oid_cmp }
    ensures ties { TiesAreEqual }
{
    oid_order_law();
}
