// What is read of a store.
ghost use Rattle.std.specs.Prelude.{◌≡◌, ◌≢◌, ◌≤◌, length, take, drop, Err, IfOk, IfErr, IsErrOf};
ghost use Rattle.std.specs.FinMap as map;
ghost use Rattle.std.specs.Option.{option_copied, option_map};
ghost use Rattle.fault_count.specs.Counted.{Counted};
ghost use Rattle.fs_model.specs.Objects.{look};
ghost use Rattle.fs_model.specs.Listing.{listing};
ghost use Rattle.tree_api.specs.Tree.{Path};
ghost use Rattle.tree_api.specs.Disk.{Still};
ghost use Rattle.store_history.specs.History.{History, at as objects_at, end_of};
ghost use Rattle.file_readings.specs.Pairs.{pairs_of};
ghost use Rattle.file_store.specs.Store.{IsItsTree, Works};
ghost use Rattle.file_store.specs.Holds.{Reads};
ghost use Rattle.file_store.specs.Faults.{ReadsBroken};

use crate::fault::ReadFault;
use crate::store::FileStore;
use fs_model::{Blob, CollNames, Page, PairList};
use fs_names::{Coll, Oid};
use tree_api::FileTree;

impl FileStore {
    /// The bytes of an object from a place up to its end, at most `len`. None where the object or its collection is missing.
    pub fn read<T: FileTree>(
        &self,
        tree: &mut T,
        c: &Coll,
        o: &Oid,
        at: u64,
        len: u64,
    ) -> Result<Option<Blob>, ReadFault>
        requires tree { IsItsTree self.now (T.tells tree.old) (T.disk tree.old) }
        ensures tree { IsItsTree self.now (T.tells tree.new) (T.disk tree.new) }
        ensures still { T.tells tree.new → Still (T.disk tree.old) (T.disk tree.new) }
        ensures reads { T.tells tree.new → (h : History) → Reads h self.now (T.disk tree.old)
            → IfOk result (λ r. r ≡ option_map (λ x. take len (drop at x.bytes)) (look (objects_at h (end_of h)) c.now o.now)) }
        ensures broken { IfErr result (ReadsBroken self.now) }
        ensures undamaged { T.tells tree.new → Works self.now → (p : Path) → result ≢ Err (ReadFault.Damaged p) }
        ensures told { T.tells tree.new → T.tells tree.old }
        ensures faults { (T.disk tree.old).faults ≤ (T.disk tree.new).faults }
        ensures cause { IsErrOf result ReadFault.Tree → Counted (T.disk tree.old).faults (T.disk tree.new).faults }
    {
        if let Some(first) = self.first() {
            return Err(ReadFault::Broken(first));
        }
        let (alloc, set) = self.place();
        let found = match file_readings::read(alloc, tree, &set, c, o, at, len) {
            Ok(found) => found,
            Err(fault) => return Err(ReadFault::from(fault)),
        };
        Ok(found)
    }

    /// The length of an object. None where the object or its collection is missing.
    pub fn stat<T: FileTree>(
        &self,
        tree: &mut T,
        c: &Coll,
        o: &Oid,
    ) -> Result<Option<u64>, ReadFault>
        requires tree { IsItsTree self.now (T.tells tree.old) (T.disk tree.old) }
        ensures tree { IsItsTree self.now (T.tells tree.new) (T.disk tree.new) }
        ensures still { T.tells tree.new → Still (T.disk tree.old) (T.disk tree.new) }
        ensures reads { T.tells tree.new → (h : History) → Reads h self.now (T.disk tree.old)
            → IfOk result (λ r. r ≡ option_map (λ x. length x.bytes) (look (objects_at h (end_of h)) c.now o.now)) }
        ensures broken { IfErr result (ReadsBroken self.now) }
        ensures undamaged { T.tells tree.new → Works self.now → (p : Path) → result ≢ Err (ReadFault.Damaged p) }
        ensures told { T.tells tree.new → T.tells tree.old }
        ensures faults { (T.disk tree.old).faults ≤ (T.disk tree.new).faults }
        ensures cause { IsErrOf result ReadFault.Tree → Counted (T.disk tree.old).faults (T.disk tree.new).faults }
    {
        if let Some(first) = self.first() {
            return Err(ReadFault::Broken(first));
        }
        let (alloc, set) = self.place();
        let found = match file_readings::stat(alloc, tree, &set, c, o) {
            Ok(found) => found,
            Err(fault) => return Err(ReadFault::from(fault)),
        };
        Ok(found)
    }

    /// The attributes of an object, by name. None where the object or its collection is missing.
    pub fn attrs<T: FileTree>(
        &self,
        tree: &mut T,
        c: &Coll,
        o: &Oid,
    ) -> Result<Option<PairList>, ReadFault>
        requires tree { IsItsTree self.now (T.tells tree.old) (T.disk tree.old) }
        ensures tree { IsItsTree self.now (T.tells tree.new) (T.disk tree.new) }
        ensures still { T.tells tree.new → Still (T.disk tree.old) (T.disk tree.new) }
        ensures reads { T.tells tree.new → (h : History) → Reads h self.now (T.disk tree.old)
            → IfOk result (λ r. r ≡ option_map (λ x. pairs_of x.attrs) (look (objects_at h (end_of h)) c.now o.now)) }
        ensures broken { IfErr result (ReadsBroken self.now) }
        ensures undamaged { T.tells tree.new → Works self.now → (p : Path) → result ≢ Err (ReadFault.Damaged p) }
        ensures told { T.tells tree.new → T.tells tree.old }
        ensures faults { (T.disk tree.old).faults ≤ (T.disk tree.new).faults }
        ensures cause { IsErrOf result ReadFault.Tree → Counted (T.disk tree.old).faults (T.disk tree.new).faults }
    {
        if let Some(first) = self.first() {
            return Err(ReadFault::Broken(first));
        }
        let (alloc, set) = self.place();
        let found = match file_readings::attrs(alloc, tree, &set, c, o) {
            Ok(found) => found,
            Err(fault) => return Err(ReadFault::from(fault)),
        };
        Ok(found)
    }

    /// The omap of an object: its header, and its pairs by key. None where the object or its collection is missing.
    pub fn omap<T: FileTree>(
        &self,
        tree: &mut T,
        c: &Coll,
        o: &Oid,
    ) -> Result<Option<(Blob, PairList)>, ReadFault>
        requires tree { IsItsTree self.now (T.tells tree.old) (T.disk tree.old) }
        ensures tree { IsItsTree self.now (T.tells tree.new) (T.disk tree.new) }
        ensures still { T.tells tree.new → Still (T.disk tree.old) (T.disk tree.new) }
        ensures reads { T.tells tree.new → (h : History) → Reads h self.now (T.disk tree.old)
            → IfOk result (λ r. r ≡ option_map (λ x. (x.header, pairs_of x.omap)) (look (objects_at h (end_of h)) c.now o.now)) }
        ensures broken { IfErr result (ReadsBroken self.now) }
        ensures undamaged { T.tells tree.new → Works self.now → (p : Path) → result ≢ Err (ReadFault.Damaged p) }
        ensures told { T.tells tree.new → T.tells tree.old }
        ensures faults { (T.disk tree.old).faults ≤ (T.disk tree.new).faults }
        ensures cause { IsErrOf result ReadFault.Tree → Counted (T.disk tree.old).faults (T.disk tree.new).faults }
    {
        if let Some(first) = self.first() {
            return Err(ReadFault::Broken(first));
        }
        let (alloc, set) = self.place();
        let found = match file_readings::omap(alloc, tree, &set, c, o) {
            Ok(found) => found,
            Err(fault) => return Err(ReadFault::from(fault)),
        };
        Ok(found)
    }

    /// A page of a collection's listing in hash order, from the first object at or after one on, or from the first of all.
    /// None where the collection is missing.
    pub fn list<T: FileTree>(
        &self,
        tree: &mut T,
        c: &Coll,
        from: Option<&Oid>,
        max: u32,
    ) -> Result<Option<Page>, ReadFault>
        requires tree { IsItsTree self.now (T.tells tree.old) (T.disk tree.old) }
        ensures tree { IsItsTree self.now (T.tells tree.new) (T.disk tree.new) }
        ensures still { T.tells tree.new → Still (T.disk tree.old) (T.disk tree.new) }
        ensures reads { T.tells tree.new → (h : History) → Reads h self.now (T.disk tree.old)
            → IfOk result (λ r. r ≡ listing (objects_at h (end_of h)) c.now (option_copied from.entry) max) }
        ensures broken { IfErr result (ReadsBroken self.now) }
        ensures undamaged { T.tells tree.new → Works self.now → (p : Path) → result ≢ Err (ReadFault.Damaged p) }
        ensures told { T.tells tree.new → T.tells tree.old }
        ensures faults { (T.disk tree.old).faults ≤ (T.disk tree.new).faults }
        ensures cause { IsErrOf result ReadFault.Tree → Counted (T.disk tree.old).faults (T.disk tree.new).faults }
    {
        if let Some(first) = self.first() {
            return Err(ReadFault::Broken(first));
        }
        let (alloc, set) = self.place();
        let found = match file_readings::list(alloc, tree, &set, c, from, max) {
            Ok(found) => found,
            Err(fault) => return Err(ReadFault::from(fault)),
        };
        Ok(found)
    }

    /// The collections, in the order of their texts.
    pub fn colls<T: FileTree>(&self, tree: &mut T) -> Result<CollNames, ReadFault>
        requires tree { IsItsTree self.now (T.tells tree.old) (T.disk tree.old) }
        ensures tree { IsItsTree self.now (T.tells tree.new) (T.disk tree.new) }
        ensures still { T.tells tree.new → Still (T.disk tree.old) (T.disk tree.new) }
        ensures reads { T.tells tree.new → (h : History) → Reads h self.now (T.disk tree.old)
            → IfOk result (λ r. r ≡ map.keys (objects_at h (end_of h))) }
        ensures broken { IfErr result (ReadsBroken self.now) }
        ensures undamaged { T.tells tree.new → Works self.now → (p : Path) → result ≢ Err (ReadFault.Damaged p) }
        ensures told { T.tells tree.new → T.tells tree.old }
        ensures faults { (T.disk tree.old).faults ≤ (T.disk tree.new).faults }
        ensures cause { IsErrOf result ReadFault.Tree → Counted (T.disk tree.old).faults (T.disk tree.new).faults }
    {
        if let Some(first) = self.first() {
            return Err(ReadFault::Broken(first));
        }
        let (alloc, set) = self.place();
        let found = match file_readings::colls(alloc, tree, &set) {
            Ok(found) => found,
            Err(fault) => return Err(ReadFault::from(fault)),
        };
        Ok(found)
    }
}
