// The calls of a tree in memory.
use crate::event::Event;
use crate::memory::MemoryTree;
use tree_api::{AttrName, Entry, Failed, FileTree, Stat, TreeError, TreePath};

impl FileTree for MemoryTree {
    ghost use Rattle.std.specs.Prelude.{◌≡◌, ◌≢◌, ◌⊎◌, ◌<◌, ◌≤◌, ◌+◌, ◌^◌, [], length, Some, None, IfOk, IsOk, IsErr, IsErrOf};
    ghost use Rattle.tree_api.specs.declared.tree.TreeError.TheVariants.{Refused};
    ghost use Rattle.tree_api.specs.Tree.{look, file_of, IsFile, IsDir, IsAbove, HasParent, MovedFile, MovedDir, Gone, Written, AttrIs, Cut, IsEmptyDir, new_dir, content};
    ghost use Rattle.tree_api.specs.Disk.{Still, NameChange, Creation, Change, Synced, SyncedNames, SyncedAll, SnapChange, Rollback, ReadAt};
    ghost use Rattle.tree_api.specs.Counts.{Counts};
    ghost use Rattle.fault_count.specs.Counted.{one_more};
    ghost use Rattle.tree_api.specs.Answer.{IsStat, HasAttr, HasAttrs, IsListing, AreSnapshots};
    ghost use Rattle.tree_memory.specs.Tells.{disk_of, plan_of, IsNumbered};
    ghost use Rattle.tree_memory.specs.Laws.{tree_sound};

    ghost tells = { λ s. Unit {0} };

    ghost disk = { disk_of };

    fn stat(&mut self, path: &TreePath) -> Result<Option<Stat>, TreeError>
        ensures still { Unit {0} → Still (disk_of self.old) (disk_of self.new) }
        ensures answer { Unit {0} → IfOk result (λ s. IsStat (look (disk_of self.old).tree path.now) s) }
        ensures look { Unit {0} → (disk_of self.new).looks ≡ one_more (disk_of self.old).looks }
        ensures counts { Counts (IsErrOf result Refused) 1 0 (disk_of self.old) (disk_of self.new) }
        ensures plan { IsNumbered (plan_of self.old) (plan_of self.new) (IsErrOf result Refused) }
    {
        self.looks = self.looks.saturating_add(1);
        if self.plan.next() {
            return Err(TreeError::Refused);
        }
        Ok(self.store.stat(path)?)
    }

    fn list(&mut self, dir: &TreePath) -> Result<Vec<Entry>, TreeError>
        requires dir { Unit {0} → IsDir (disk_of self.old).tree dir.now }
        ensures still { Unit {0} → Still (disk_of self.old) (disk_of self.new) }
        ensures entries { Unit {0} → IfOk result (λ es. IsListing (disk_of self.old).tree dir.now es.items) }
        ensures look { Unit {0} → (disk_of self.new).looks ≡ one_more (disk_of self.old).looks }
        ensures counts { Counts (IsErrOf result Refused) 1 0 (disk_of self.old) (disk_of self.new) }
        ensures plan { IsNumbered (plan_of self.old) (plan_of self.new) (IsErrOf result Refused) }
    {
        self.looks = self.looks.saturating_add(1);
        if self.plan.next() {
            return Err(TreeError::Refused);
        }
        Ok(self.store.list(dir)?)
    }

    fn make_dir(&mut self, path: &TreePath) -> Result<(), TreeError>
        requires free { Unit {0} → ((disk_of self.old).tree.at path.now ≡ None) × HasParent (disk_of self.old).tree path.now }
        ensures change { Unit {0} → Creation path.now new_dir (disk_of self.old) (disk_of self.new) result }
        ensures counts { Counts (IsErrOf result Refused) 0 0 (disk_of self.old) (disk_of self.new) }
        ensures plan { IsNumbered (plan_of self.old) (plan_of self.new) (IsErrOf result Refused) }
    {
        let event = self.store.making(path, true);
        self.call(event)
    }

    fn create(&mut self, path: &TreePath) -> Result<(), TreeError>
        requires free { Unit {0} → ((disk_of self.old).tree.at path.now ≡ None) × HasParent (disk_of self.old).tree path.now }
        ensures change { Unit {0} → Creation path.now (file_of []) (disk_of self.old) (disk_of self.new) result }
        ensures counts { Counts (IsErrOf result Refused) 0 0 (disk_of self.old) (disk_of self.new) }
        ensures plan { IsNumbered (plan_of self.old) (plan_of self.new) (IsErrOf result Refused) }
    {
        let event = self.store.making(path, false);
        self.call(event)
    }

    fn remove_file(&mut self, path: &TreePath) -> Result<(), TreeError>
        requires file { Unit {0} → IsFile (disk_of self.old).tree path.now }
        ensures change { Unit {0} → NameChange (Gone path.now) (disk_of self.old) (disk_of self.new) result }
        ensures counts { Counts (IsErrOf result Refused) 0 0 (disk_of self.old) (disk_of self.new) }
        ensures plan { IsNumbered (plan_of self.old) (plan_of self.new) (IsErrOf result Refused) }
    {
        let event = self.store.removing(path);
        self.call(event)
    }

    fn remove_dir(&mut self, path: &TreePath) -> Result<(), TreeError>
        requires named { path.now ≢ [] }
        requires empty { Unit {0} → IsEmptyDir (disk_of self.old).tree path.now }
        ensures change { Unit {0} → NameChange (Gone path.now) (disk_of self.old) (disk_of self.new) result }
        ensures counts { Counts (IsErrOf result Refused) 0 0 (disk_of self.old) (disk_of self.new) }
        ensures plan { IsNumbered (plan_of self.old) (plan_of self.new) (IsErrOf result Refused) }
    {
        let event = self.store.removing(path);
        self.call(event)
    }

    fn rename(&mut self, from: &TreePath, to: &TreePath) -> Result<(), TreeError>
        requires there { Unit {0} → (disk_of self.old).tree.at from.now ≢ None }
        requires off_the_way { Unit {0} → ¬ IsAbove from.now to.now }
        requires target { Unit {0} → ((disk_of self.old).tree.at to.now ≡ None) ⊎ (IsFile (disk_of self.old).tree from.now × IsFile (disk_of self.old).tree to.now) }
        requires parent { Unit {0} → HasParent (disk_of self.old).tree to.now }
        ensures file { Unit {0} → IsFile (disk_of self.old).tree from.now → NameChange (MovedFile from.now to.now) (disk_of self.old) (disk_of self.new) result }
        ensures dir { Unit {0} → IsDir (disk_of self.old).tree from.now → NameChange (MovedDir from.now to.now) (disk_of self.old) (disk_of self.new) result }
        ensures counts { Counts (IsErrOf result Refused) 0 0 (disk_of self.old) (disk_of self.new) }
        ensures plan { IsNumbered (plan_of self.old) (plan_of self.new) (IsErrOf result Refused) }
    {
        let event = self.store.moving(from, to);
        self.call(event)
    }

    fn read_at(&mut self, path: &TreePath, at: u64, into: &mut [u8]) -> Result<usize, TreeError>
        requires file { Unit {0} → IsFile (disk_of self.old).tree path.now }
        requires place { at + length into.old < 2 ^ 63 }
        ensures still { Unit {0} → Still (disk_of self.old) (disk_of self.new) }
        ensures within { IfOk result (λ n. n ≤ length into.old) }
        ensures bytes { Unit {0} → IfOk result (λ n. ReadAt (disk_of self.old).tree path.now at into.old n into.new) }
        ensures counts { Counts (IsErrOf result Refused) 0 0 (disk_of self.old) (disk_of self.new) }
        ensures plan { IsNumbered (plan_of self.old) (plan_of self.new) (IsErrOf result Refused) }
    {
        if self.plan.next() {
            return Err(TreeError::Refused);
        }
        let node = self.store.node_at(path)?;
        let node = &self.store.nodes[node];
        Ok(node.read_at(at as usize, into))
    }

    fn write_at(&mut self, path: &TreePath, at: u64, bytes: &[u8]) -> Result<(), TreeError>
        requires file { Unit {0} → IsFile (disk_of self.old).tree path.now }
        requires place { at + length bytes.now < 2 ^ 63 }
        ensures change { Unit {0} → Change path.now (Written at bytes.now) (disk_of self.old) (disk_of self.new) result }
        ensures counts { Counts (IsErrOf result Refused) 0 0 (disk_of self.old) (disk_of self.new) }
        ensures plan { IsNumbered (plan_of self.old) (plan_of self.new) (IsErrOf result Refused) }
    {
        let event = self.store.writing(path, at, bytes);
        self.call(event)
    }

    fn set_len(&mut self, path: &TreePath, len: u64) -> Result<(), TreeError>
        requires file { Unit {0} → IsFile (disk_of self.old).tree path.now }
        requires place { len < 2 ^ 63 }
        ensures change { Unit {0} → Change path.now (Cut len) (disk_of self.old) (disk_of self.new) result }
        ensures counts { Counts (IsErrOf result Refused) 0 0 (disk_of self.old) (disk_of self.new) }
        ensures plan { IsNumbered (plan_of self.old) (plan_of self.new) (IsErrOf result Refused) }
    {
        let event = self.store.cutting(path, len);
        self.call(event)
    }

    fn attr(&mut self, path: &TreePath, name: &[u8]) -> Result<Option<Vec<u8>>, TreeError>
        requires there { Unit {0} → (disk_of self.old).tree.at path.now ≢ None }
        ensures still { Unit {0} → Still (disk_of self.old) (disk_of self.new) }
        ensures value { Unit {0} → IfOk result (λ v. HasAttr (look (disk_of self.old).tree path.now) name.now v) }
        ensures counts { Counts (IsErrOf result Refused) 0 0 (disk_of self.old) (disk_of self.new) }
        ensures plan { IsNumbered (plan_of self.old) (plan_of self.new) (IsErrOf result Refused) }
    {
        if self.plan.next() {
            return Err(TreeError::Refused);
        }
        let node = self.store.node_at(path)?;
        let node = &self.store.nodes[node];
        Ok(node.attr(self.alloc, name)?)
    }

    fn set_attr(&mut self, path: &TreePath, name: &[u8], value: &[u8]) -> Result<(), TreeError>
        requires there { Unit {0} → (disk_of self.old).tree.at path.now ≢ None }
        ensures change { Unit {0} → Change path.now (AttrIs name.now (Some value.now)) (disk_of self.old) (disk_of self.new) result }
        ensures counts { Counts (IsErrOf result Refused) 0 0 (disk_of self.old) (disk_of self.new) }
        ensures plan { IsNumbered (plan_of self.old) (plan_of self.new) (IsErrOf result Refused) }
    {
        let event = self.store.setting(path, name, value);
        self.call(event)
    }

    fn remove_attr(&mut self, path: &TreePath, name: &[u8]) -> Result<(), TreeError>
        requires there { Unit {0} → (disk_of self.old).tree.at path.now ≢ None }
        ensures change { Unit {0} → Change path.now (AttrIs name.now None) (disk_of self.old) (disk_of self.new) result }
        ensures counts { Counts (IsErrOf result Refused) 0 0 (disk_of self.old) (disk_of self.new) }
        ensures plan { IsNumbered (plan_of self.old) (plan_of self.new) (IsErrOf result Refused) }
    {
        let event = self.store.unsetting(path, name);
        self.call(event)
    }

    fn attrs(&mut self, path: &TreePath) -> Result<Vec<AttrName>, TreeError>
        requires there { Unit {0} → (disk_of self.old).tree.at path.now ≢ None }
        ensures still { Unit {0} → Still (disk_of self.old) (disk_of self.new) }
        ensures names { Unit {0} → IfOk result (λ ns. HasAttrs (look (disk_of self.old).tree path.now) ns.items) }
        ensures counts { Counts (IsErrOf result Refused) 0 0 (disk_of self.old) (disk_of self.new) }
        ensures plan { IsNumbered (plan_of self.old) (plan_of self.new) (IsErrOf result Refused) }
    {
        if self.plan.next() {
            return Err(TreeError::Refused);
        }
        let node = self.store.node_at(path)?;
        let node = &self.store.nodes[node];
        Ok(node.attr_names(self.alloc)?)
    }

    fn sync_file(&mut self, path: &TreePath) -> Result<(), TreeError>
        requires there { Unit {0} → (disk_of self.old).tree.at path.now ≢ None }
        ensures synced { Unit {0} → Synced path.now (disk_of self.old) (disk_of self.new) result }
        ensures counts { Counts (IsErrOf result Refused) 0 0 (disk_of self.old) (disk_of self.new) }
        ensures plan { IsNumbered (plan_of self.old) (plan_of self.new) (IsErrOf result Refused) }
    {
        let event = self.store.syncing(path);
        self.call(event)
    }

    fn sync_names(&mut self) -> Result<(), TreeError>
        ensures synced { Unit {0} → SyncedNames (disk_of self.old) (disk_of self.new) result }
        ensures counts { Counts (IsErrOf result Refused) 0 0 (disk_of self.old) (disk_of self.new) }
        ensures plan { IsNumbered (plan_of self.old) (plan_of self.new) (IsErrOf result Refused) }
    {
        self.call(Ok(Event::SyncNames))
    }

    fn sync_all(&mut self) -> Result<(), Failed>
        ensures synced { Unit {0} → SyncedAll (disk_of self.old) (disk_of self.new) (IsOk result) }
        ensures sync { (disk_of self.new).syncs ≡ one_more (disk_of self.old).syncs }
        ensures counts { Counts (IsErr result) 0 1 (disk_of self.old) (disk_of self.new) }
        ensures plan { IsNumbered (plan_of self.old) (plan_of self.new) (IsErr result) }
    {
        self.syncs = self.syncs.saturating_add(1);
        if self.plan.next() {
            return Err(Failed);
        }
        self.synced = true;
        Ok(())
    }

    fn checkpoints(&self) -> bool {
        true
    }

    fn snapshot(&mut self, seq: u64) -> Result<(), TreeError>
        requires free { Unit {0} → (disk_of self.old).tree.snap seq ≡ None }
        ensures change { Unit {0} → SnapChange seq (Some (content (disk_of self.old).tree)) (disk_of self.old) (disk_of self.new) result }
        ensures counts { Counts (IsErrOf result Refused) 0 0 (disk_of self.old) (disk_of self.new) }
        ensures plan { IsNumbered (plan_of self.old) (plan_of self.new) (IsErrOf result Refused) }
    {
        self.call(Ok(Event::Snapshot { seq }))
    }

    fn rollback(&mut self, seq: u64) -> Result<(), TreeError>
        requires there { Unit {0} → (disk_of self.old).tree.snap seq ≢ None }
        ensures change { Unit {0} → (kept : _) → (disk_of self.old).tree.snap seq ≡ Some kept → Rollback kept (disk_of self.old) (disk_of self.new) result }
        ensures counts { Counts (IsErrOf result Refused) 0 0 (disk_of self.old) (disk_of self.new) }
        ensures plan { IsNumbered (plan_of self.old) (plan_of self.new) (IsErrOf result Refused) }
    {
        let event = self.store.restoring(seq);
        self.call(event)
    }

    fn drop_snapshot(&mut self, seq: u64) -> Result<(), TreeError>
        requires there { Unit {0} → (disk_of self.old).tree.snap seq ≢ None }
        ensures change { Unit {0} → SnapChange seq None (disk_of self.old) (disk_of self.new) result }
        ensures counts { Counts (IsErrOf result Refused) 0 0 (disk_of self.old) (disk_of self.new) }
        ensures plan { IsNumbered (plan_of self.old) (plan_of self.new) (IsErrOf result Refused) }
    {
        self.call(Ok(Event::DropSnapshot { seq }))
    }

    fn snapshots(&mut self) -> Result<Vec<u64>, TreeError>
        ensures still { Unit {0} → Still (disk_of self.old) (disk_of self.new) }
        ensures numbers { Unit {0} → IfOk result (λ ks. AreSnapshots (disk_of self.old).tree ks.items) }
        ensures counts { Counts (IsErrOf result Refused) 0 0 (disk_of self.old) (disk_of self.new) }
        ensures plan { IsNumbered (plan_of self.old) (plan_of self.new) (IsErrOf result Refused) }
    {
        if self.plan.next() {
            return Err(TreeError::Refused);
        }
        Ok(self.store.snaps.numbers()?)
    }

    ghost sound = { λ s t. tree_sound s };
}
