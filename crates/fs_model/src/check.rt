//! Which transactions are taken.
ghost use Rattle.std.specs.Prelude.{◌≡◌, ◌≤◌, ℕ, Some, None, Err, OnOk, OnErr, IfOk};
ghost use Rattle.std.specs.List.{fold, list_any};
ghost use Rattle.std.specs.FinSet as set;
ghost use Rattle.fs_model.specs.declared.op.Why.{Why};
ghost use Rattle.fs_model.specs.Changes.{changed};
ghost use Rattle.fs_model.specs.Colls.{CollSet};
ghost use Rattle.fs_model.specs.Limits.{ops_limit};
ghost use Rattle.fs_model.specs.Named.{colls_named, gone, made, first_and_second, few};
ghost use Rattle.fs_model.specs.Check.{op_colls, colls_after, is_missing, lacks, remakes, refusal_at, txn_refusal};

use crate::{Op, TXN_OPS, Txn, TxnFault, Why};
use fs_names::Coll;
use std::alloc::{AllocError, Global};
use std::collections::BTreeSet;
use std::marker::Model;

/// Distinct collections.
#[derive(Debug, Drop)]
pub struct CollList {
    colls: BTreeSet<Coll>,
}

impl Model for CollList {
    ghost use Rattle.std.specs.FinSet as set;
    ghost use Rattle.fs_names.specs.Codes.{coll_code};
    ghost use Rattle.fs_model.specs.Colls.{CollSet};

    ghost Value = { CollSet };

    ghost coded = { set.code coll_code };

    ghost view = { λ s. set.from_list s.colls.keys };
}

impl CollList {
    pub fn new(alloc: Global) -> CollList
        ensures { result ≡ set.empty }
    {
        CollList {
            colls: BTreeSet::new(alloc),
        }
    }

    pub fn has(&self, c: &Coll) -> bool
        ensures { result ≡ set.contains self.now c.now }
    {
        self.colls.contains(c)
    }

    pub fn copy(&self) -> Result<CollList, AllocError>
        ensures { IfOk result (λ colls. colls ≡ self.now) }
    {
        Ok(CollList {
            colls: self.colls.clone()?,
        })
    }

    pub(crate) fn insert(&mut self, c: Coll) -> Result<(), AllocError>
        ensures ok { OnOk result (self.new ≡ set.insert self.old c) }
        ensures err { OnErr result (self.new ≡ self.old) }
    {
        self.colls.insert(c)?;
        Ok(())
    }

    fn remove(&mut self, c: &Coll)
        ensures { self.new ≡ set.remove self.old c.now }
    {
        self.colls.remove(c);
    }

    // Those of the list that are not here.
    fn without(&self, alloc: Global, list: &CollList) -> Result<CollList, AllocError>
        ensures { IfOk result (λ rest. rest ≡ set.difference list.now self.now) }
    {
        let mut rest = CollList::new(alloc);
        for c in list.colls.iter() {
            if !self.has(c) {
                rest.insert(*c)?;
            }
        }
        Ok(rest)
    }

    // Takes the collections of a list away.
    fn remove_all(&mut self, list: &CollList)
        ensures { self.new ≡ set.difference self.old list.now }
    {
        for c in list.colls.iter() {
            self.remove(c);
        }
    }

    // Adds collections none of which is here.
    fn add_all(&mut self, list: &CollList) -> Result<(), AllocError>
        requires { set.intersection self.old list.now ≡ set.empty }
        ensures ok { OnOk result (self.new ≡ set.union self.old list.now) }
        ensures err { OnErr result (self.new ≡ self.old) }
    {
        for c in list.colls.iter() {
            if let Err(fault) = self.insert(*c) {
                self.remove_all(list);
                return Err(fault);
            }
        }
        Ok(())
    }

    /// Makes these the collections after a change. An `Err` leaves them as they were. It costs what the change
    /// holds, however many collections there are.
    pub fn apply(&mut self, alloc: Global, change: &CollChange) -> Result<(), AllocError>
        ensures ok { OnOk result (self.new ≡ changed self.old change.now) }
        ensures err { OnErr result (self.new ≡ self.old) }
    {
        let new = self.without(alloc, &change.made)?;
        self.add_all(&new)?;
        self.remove_all(&change.gone);
        Ok(())
    }
}

/// How a transaction changes a set of collections: some come, and then some go.
#[derive(Debug, Drop)]
pub struct CollChange {
    pub made: CollList,
    pub gone: CollList,
}

impl CollChange {
    /// No change.
    pub fn new(alloc: Global) -> CollChange
        ensures made { result.made ≡ set.empty }
        ensures gone { result.gone ≡ set.empty }
    {
        CollChange {
            made: CollList::new(alloc),
            gone: CollList::new(alloc),
        }
    }

    /// Whether a collection is there after the change of those before.
    #[tactic(auto, using(crate::proofs::Changes::contains_changed))]
    pub fn has(&self, before: &CollList, c: &Coll) -> bool
        ensures { result ≡ set.contains (changed before.now self.now) c.now }
    {
        (before.has(c) || self.made.has(c)) && !self.gone.has(c)
    }

    fn make(&mut self, c: Coll) -> Result<(), AllocError>
        ensures { OnOk result ((S : CollSet) → changed S self.new ≡ set.insert (changed S self.old) c) }
    {
        self.gone.remove(&c);
        self.made.insert(c)
    }

    fn take(&mut self, c: Coll) -> Result<(), AllocError>
        ensures { OnOk result ((S : CollSet) → changed S self.new ≡ set.remove (changed S self.old) c) }
    {
        self.gone.insert(c)
    }

    // Whether one or both of the collections are missing.
    fn is_missing(&self, before: &CollList, named: (Coll, Option<Coll>)) -> bool
        ensures { result ≡ list_any (is_missing (changed before.now self.now)) (first_and_second named) }
    {
        let (first, second) = named;
        match second {
            None => !self.has(before, &first),
            Some(second) => !self.has(before, &first) || !self.has(before, &second),
        }
    }

    // Whether an operation names a collection that isn't there.
    fn is_lacking(&self, before: &CollList, op: &Op) -> bool
        ensures { result ≡ lacks (changed before.now self.now) op.now }
    {
        match op.made() {
            Some(_) => false,
            None => self.is_missing(before, op.colls()),
        }
    }

    // Whether an operation makes a collection that is there.
    fn is_remaking(&self, before: &CollList, op: &Op) -> bool
        ensures { result ≡ remakes (changed before.now self.now) op.now }
    {
        match op.made() {
            None => false,
            Some(c) => self.has(before, &c),
        }
    }

    // The first reason against an operation at a place.
    fn reason(&self, before: &CollList, op: &Op, place: usize) -> Option<Why>
        ensures { result ≡ refusal_at (changed before.now self.now) place op.now }
    {
        if self.is_lacking(before, op) {
            Some(Why::NoCollection)
        } else if self.is_remaking(before, op) {
            Some(Why::CollectionExists)
        } else if op.is_onto_itself() {
            Some(Why::SameObject)
        } else if op.is_too_big() {
            Some(Why::TooBig)
        } else if place == TXN_OPS {
            Some(Why::TooMany)
        } else {
            None
        }
    }

    fn make_any(&mut self, c: Option<Coll>) -> Result<(), AllocError>
        ensures { OnOk result ((S : CollSet) → changed S self.new ≡ fold set.insert (changed S self.old) (few c)) }
    {
        match c {
            None => Ok(()),
            Some(c) => self.make(c),
        }
    }

    fn take_any(&mut self, c: Option<Coll>) -> Result<(), AllocError>
        ensures { OnOk result ((S : CollSet) → changed S self.new ≡ fold set.remove (changed S self.old) (few c)) }
    {
        match c {
            None => Ok(()),
            Some(c) => self.take(c),
        }
    }

    // Adds what an operation makes and takes away.
    fn follow(&mut self, op: &Op) -> Result<(), AllocError>
        ensures { OnOk result ((S : CollSet) → changed S self.new ≡ op_colls (changed S self.old) op.now) }
    {
        self.make_any(op.made())?;
        self.take_any(op.gone())?;
        Ok(())
    }

    // Adds what an operation changes, which stands at that place of its transaction.
    fn add(&mut self, before: &CollList, op: &Op, place: usize) -> Result<(), TxnFault>
        requires { place ≤ ops_limit }
        ensures accepted { OnOk result (refusal_at (changed before.now self.old) place op.now ≡ None) }
        ensures added { OnOk result (changed before.now self.new ≡ op_colls (changed before.now self.old) op.now) }
        ensures refused { (at : ℕ) (why : Why) → result ≡ Err (TxnFault.At at why) →
            (at ≡ place) × (refusal_at (changed before.now self.old) place op.now ≡ Some why) }
    {
        if let Some(why) = self.reason(before, op, place) {
            return Err(TxnFault::At {
                op: place as u32,
                why,
            });
        }
        self.follow(op)?;
        Ok(())
    }
}

impl Op {
    /// The collections that the operation names.
    pub fn colls(&self) -> (Coll, Option<Coll>)
        ensures { first_and_second result ≡ colls_named self.now }
    {
        match *self {
            Op::Clone { c, c2, .. } | Op::CloneRange { c, c2, .. } | Op::MoveRename { c, c2, .. } =>
                (c, Some(c2)),
            Op::Touch { c, .. }
            | Op::Write { c, .. }
            | Op::Zero { c, .. }
            | Op::Truncate { c, .. }
            | Op::Remove { c, .. }
            | Op::SetAttrs { c, .. }
            | Op::RmAttr { c, .. }
            | Op::RmAttrs { c, .. }
            | Op::MkColl { c }
            | Op::RmColl { c }
            | Op::OmapClear { c, .. }
            | Op::OmapSet { c, .. }
            | Op::OmapRemove { c, .. }
            | Op::OmapRange { c, .. } => (c, None),
        }
    }

    /// The collection that the operation makes.
    pub fn made(&self) -> Option<Coll>
        ensures { few result ≡ made self.now }
    {
        match *self {
            Op::MkColl { c } => Some(c),
            _ => None,
        }
    }

    /// The collection that the operation takes away.
    pub fn gone(&self) -> Option<Coll>
        ensures { few result ≡ gone self.now }
    {
        match *self {
            Op::RmColl { c } => Some(c),
            _ => None,
        }
    }
}

/// How a transaction changes the collections. It changes nothing itself, and costs what the transaction holds.
pub fn check_txn(alloc: Global, txn: &Txn, colls: &CollList) -> Result<CollChange, TxnFault>
    ensures ok { IfOk result (λ change. (txn_refusal colls.now txn.now.ops ≡ None) × (changed colls.now change ≡ colls_after colls.now txn.now.ops)) }
    ensures refused { (op : ℕ) (why : Why) → result ≡ Err (TxnFault.At op why) → txn_refusal colls.now txn.now.ops ≡ Some (op, why) }
{
    let ops = txn.ops.slice();
    if ops.is_empty() {
        return Err(TxnFault::At {
            op: 0,
            why: Why::Empty,
        });
    }
    let mut change = CollChange::new(alloc);
    for (i, op) in ops.iter().enumerate() {
        if let Err(fault) = change.add(colls, op, i) {
            return Err(fault);
        }
    }
    Ok(change)
}
