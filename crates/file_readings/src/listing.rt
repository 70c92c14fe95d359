// The objects of a collection.
ghost use Rattle.std.specs.Prelude.{◌≡◌, ◌≢◌, Err, IfOk, IsErrOf};
ghost use Rattle.std.specs.List.{filter, list_any};
ghost use Rattle.std.specs.List.Sorted.{IsStrictlySortedBy};
ghost use Rattle.std.specs.Option.{option_copied};
ghost use Rattle.std.specs.Ordering.{eq_by_cmp};
ghost use Rattle.fs_names.specs.Order.{oid_cmp};
ghost use Rattle.fs_model.specs.Listing.{at_or_after, listing, page_of};
ghost use Rattle.fs_model.specs.Objects.{Objects};
ghost use Rattle.tree_api.specs.Counts.{Counts};
ghost use Rattle.tree_api.specs.Disk.{Still};
ghost use Rattle.tree_api.specs.Tree.{Path};
ghost use Rattle.tree_stands.specs.Trees.{AllWhole};
ghost use Rattle.op_effects.specs.Clear.{IsClear};
ghost use Rattle.tree_shows.specs.Shows.{Shows};
ghost use Rattle.file_readings.specs.Listed.{oids_of};

use crate::finding::coll_dir;
use fs_model::{OidList, Page};
use fs_names::{Coll, Oid, Settings};
use index_fault::IndexFault;
use lfn_index::{Found, names};
use std::alloc::{AllocError, Global};
use std::collections::BTreeSet;
use tree_api::FileTree;

// The objects of files, in hash order.
fn in_order(alloc: Global, files: Vec<Found>) -> Result<BTreeSet<Oid>, AllocError>
    ensures ordered { IfOk result (λ oids. IsStrictlySortedBy oid_cmp oids.keys) }
    ensures members { IfOk result (λ oids. (q : Oid) → list_any (eq_by_cmp oid_cmp q) oids.keys ≡ list_any (eq_by_cmp oid_cmp q) (oids_of files.items)) }
{
    let mut oids = BTreeSet::new(alloc);
    let mut left = files;
    while let Some(file) = left.pop() {
        oids.insert(file.oid)?;
    }
    Ok(oids)
}

// Whether an object is at the cursor or after it. No cursor is before all objects.
fn is_from(from: Option<&Oid>, oid: &Oid) -> bool
    ensures { result ≡ at_or_after (option_copied from.entry) oid.now }
{
    match from {
        None => true,
        Some(cursor) => oid.cmp(cursor).is_ge(),
    }
}

// A page of objects that are in hash order, from the cursor on.
fn page_from(
    alloc: Global,
    oids: BTreeSet<Oid>,
    from: Option<&Oid>,
    max: u32,
) -> Result<Page, AllocError>
    ensures { IfOk result (λ page. page ≡ page_of (filter (at_or_after (option_copied from.entry)) oids.keys) max) }
{
    let mut left = oids;
    let mut page = Vec::new(alloc);
    while let Some(oid) = left.pop_first() {
        if !is_from(from, &oid) {
            continue;
        }
        if page.len() == max as usize {
            return Ok(Page {
                oids: OidList::from_vec(page),
                next: Some(oid),
            });
        }
        page.push(oid)?;
    }
    Ok(Page {
        oids: OidList::from_vec(page),
        next: None,
    })
}

/// A page of a collection's listing in hash order, from the first object at or after one on, or from the first of all.
/// None where the collection is missing.
///
/// The whole directory is listed, and the attribute of each file with a long name is read.
pub fn list<T: FileTree>(
    alloc: Global,
    tree: &mut T,
    set: &Settings,
    c: &Coll,
    from: Option<&Oid>,
    max: u32,
) -> Result<Option<Page>, IndexFault>
    ensures told { T.tells tree.new → T.tells tree.old }
    ensures still { T.tells tree.new → Still (T.disk tree.old) (T.disk tree.new) }
    ensures counts { Counts (IsErrOf result IndexFault.Tree) 2 0 (T.disk tree.old) (T.disk tree.new) }
    ensures undamaged { T.tells tree.new → AllWhole set.now (T.disk tree.old).tree → IsClear (T.disk tree.old).tree
        → (p : Path) → result ≢ Err (IndexFault.Damaged p) }
    ensures reads { T.tells tree.new → (O : Objects) → Shows set.now O (T.disk tree.old).tree → IsClear (T.disk tree.old).tree
        → IfOk result (λ page. page ≡ listing O c.now (option_copied from.entry) max) }
{
    let Some(dir) = coll_dir(alloc, tree, c)? else {
        return Ok(None);
    };
    let files = names(alloc, tree, set, &dir)?;
    let oids = in_order(alloc, files)?;
    Ok(Some(page_from(alloc, oids, from, max)?))
}
