ghost use Rattle.std.specs.Prelude.{◌≡◌, ◌≤◌, [], false, Ok, Err, if◌then◌else◌, length, is_err, IfOk, IsOk, IsErr, IsErrOf, IsTrue};
ghost use Rattle.tree_api.specs.declared.tree.TreeError.TheVariants.{Refused};
ghost use Rattle.fault_count.specs.Counted.{one_more};
ghost use Rattle.tree_api.specs.Counts.{Counts as TreeCounts};
ghost use Rattle.tree_real.specs.Counts.{was_refused, opened, counted, changed, looked, synced, untold};

use crate::layout::Layout;
use crate::mark::{Mark, settle};
use crate::{disk, moves, nodes, side};
use dev_edge::EdgeFault;
use fault_count::FaultCount;
use std::io;
use std::io::ErrorKind;
use std::marker::Model;
use std::rt::Files;
use tree_api::{AttrName, Entry, Failed, FileTree, Stat, TreeError, TreePath};

/// A tree of files on a real file system.
///
/// It keeps no snapshots: each call on one but `snapshots` is refused. A step may be a file's name on this system; one
/// that may not, as `.` or a step of 300 bytes, is refused.
///
/// What a change has done is stable once it has answered, so a sync does nothing. After a refused change each change and
/// each sync is refused, until the tree is opened anew: what is stable isn't known then.
///
/// One process at a time may use the tree below a root. It ends in order when it lets its tree go, unless a change was
/// refused. When it doesn't, the next one syncs each file and folder first.
pub struct RealTree<R: Files> {
    // The runtime that the files belong to.
    rt: R,
    layout: Layout,
    mark: Mark,
    // How many files and folders were synced when it was opened.
    settled: u64,
    faults: FaultCount,
    syncs: FaultCount,
    looks: FaultCount,
    // A change was refused, so what is stable isn't known.
    unsure: bool,
}

impl<R: Files> Model for RealTree<R> {
    ghost use Rattle.std.specs.Prelude.{◌<◌, ◌^◌};
    ghost use Rattle.tree_real.specs.Counts.{Counts};

    ghost Value = { Counts };

    ghost view = { λ t. record { faults = t.faults; syncs = t.syncs; looks = t.looks; unsure = t.unsure; settled = t.settled } };

    ghost invariant = { λ t. (t.faults < 2 ^ 64) × (t.looks < 2 ^ 64) × (t.syncs < 2 ^ 64) };
}

impl<R: Files + Drop> Drop for RealTree<R> {
    // The mark goes where no change was refused. Where that fails it stays, and the next user syncs all.
    fn drop(self) {
        let RealTree {
            rt,
            layout: _,
            mut mark,
            settled: _,
            faults: _,
            syncs: _,
            looks: _,
            unsure,
        } = self;
        if !unsure {
            let _ = mark.lift(&rt);
        }
    }
}

// Makes the folders where they are missing. Where none of the tree's stands yet, those above may not be stable either.
fn make_folders<R: Files + AllocGlobal>(rt: &R, layout: &Layout) -> io::Result<()> {
    let tree = layout.below("tree")?;
    if !disk::is_there(rt, &tree)? {
        disk::settle_dirs(rt, layout.root())?;
    }
    disk::make_dirs(rt, &tree)?;
    disk::make_dirs(rt, &layout.below("side")?)?;
    disk::make_dirs(rt, &layout.below("snap")?)?;
    disk::sync(rt, layout.root())
}

// Makes the folders, and ends what an earlier process may have left.
fn open<R: Files + AllocGlobal + Clone + Drop>(rt: &R, layout: &Layout) -> io::Result<u64> {
    make_folders(rt, layout)?;
    settle(rt, layout)
}

fn is_refused<T>(done: &Result<T, TreeError>) -> bool
    ensures { result ≡ was_refused done.now }
{
    matches!(done, Err(TreeError::Refused))
}

impl<R: Files + AllocGlobal + Clone + Drop> RealTree<R> {
    /// The tree below this folder, which is made where it is missing. Where the last user didn't end in order, each of
    /// its files and folders is synced first.
    pub fn at(rt: R, root: &str) -> Result<Self, EdgeFault>
        ensures { IfOk result (λ t. t ≡ opened t.settled) }
    {
        let Ok(layout) = Layout::new(rt.alloc(), root) else {
            return Err(EdgeFault::Memory);
        };
        let Ok(mark) = Mark::new(&layout) else {
            return Err(EdgeFault::Memory);
        };
        match open(&rt, &layout) {
            Ok(settled) => Ok(RealTree {
                rt,
                layout,
                mark,
                settled,
                faults: FaultCount::new(),
                syncs: FaultCount::new(),
                looks: FaultCount::new(),
                unsure: false,
            }),
            Err(error) if error.kind() == ErrorKind::OutOfMemory => Err(EdgeFault::Memory),
            Err(_) => Err(EdgeFault::Outside),
        }
    }

    /// How many files and folders were synced when it was opened, since the last user hadn't ended in order.
    pub fn settled(&self) -> u64
        ensures { result ≡ self.now.settled }
    {
        self.settled
    }

    // Before a change: none follows on one that was refused, and the mark stands.
    fn ready(&mut self) -> Result<(), TreeError>
        ensures same { self.new ≡ self.old }
        ensures unsure { IsTrue self.old.unsure → result ≡ Err Refused }
    {
        if self.unsure {
            return Err(TreeError::Refused);
        }
        self.mark.set(&self.rt).map_err(nodes::cut_off)
    }

    // Counts a fault where this was refused.
    #[tactic(auto, using(crate::proofs::Quiet::rules))]
    fn counted<T>(&mut self, done: Result<T, TreeError>) -> Result<T, TreeError>
        ensures same { result ≡ done }
        ensures counts { TreeCounts (IsErrOf result Refused) 0 0 (untold self.old) (untold self.new) }
        ensures exact { self.new ≡ counted self.old (was_refused result) }
    {
        if is_refused(&done) {
            self.faults.rise();
        }
        done
    }

    // The same after a look.
    #[tactic(auto, using(crate::proofs::Quiet::rules))]
    fn looked<T>(&mut self, done: Result<T, TreeError>) -> Result<T, TreeError>
        ensures counts { TreeCounts (IsErrOf result Refused) 1 0 (untold self.old) (untold self.new) }
        ensures exact { self.new ≡ looked self.old (was_refused result) }
    {
        self.looks.rise();
        self.counted(done)
    }

    // The same after a change.
    fn changed(&mut self, done: Result<(), TreeError>) -> Result<(), TreeError>
        ensures same { result ≡ done }
        ensures counts { TreeCounts (IsErrOf result Refused) 0 0 (untold self.old) (untold self.new) }
        ensures exact { self.new ≡ changed self.old (was_refused result) }
    {
        self.unsure = self.unsure || is_refused(&done);
        self.counted(done)
    }

    // What each change has synced is stable, unless one was refused.
    fn synced(&mut self) -> Result<(), TreeError>
        ensures counts { TreeCounts (IsErrOf result Refused) 0 0 (untold self.old) (untold self.new) }
        ensures exact { self.new ≡ changed self.old (was_refused result) }
        ensures unsure { result ≡ (if self.old.unsure then Err Refused else Ok tt) }
    {
        if self.unsure {
            return self.changed(Err(TreeError::Refused));
        }
        Ok(())
    }
}

impl<R: Files + AllocGlobal + Clone + Drop> FileTree for RealTree<R> {
    ghost tells = { λ t. ⊥ };

    ghost disk = { untold };

    ghost sound = { λ t told. absurd told };

    fn stat(&mut self, path: &TreePath) -> Result<Option<Stat>, TreeError>
        ensures counts { TreeCounts (IsErrOf result Refused) 1 0 (untold self.old) (untold self.new) }
        ensures exact { self.new ≡ looked self.old (was_refused result) }
    {
        let done = nodes::stat(&self.rt, &self.layout, path);
        self.looked(done)
    }

    fn list(&mut self, dir: &TreePath) -> Result<Vec<Entry>, TreeError>
        ensures counts { TreeCounts (IsErrOf result Refused) 1 0 (untold self.old) (untold self.new) }
        ensures exact { self.new ≡ looked self.old (was_refused result) }
    {
        let done = nodes::list(&self.rt, &self.layout, dir);
        self.looked(done)
    }

    fn make_dir(&mut self, path: &TreePath) -> Result<(), TreeError>
        ensures counts { TreeCounts (IsErrOf result Refused) 0 0 (untold self.old) (untold self.new) }
        ensures exact { self.new ≡ changed self.old (was_refused result) }
        ensures unsure { IsTrue self.old.unsure → result ≡ Err Refused }
    {
        if let Err(fault) = self.ready() {
            return self.changed(Err(fault));
        }
        let done = nodes::make_dir(&self.rt, &self.layout, path);
        self.changed(done)
    }

    fn create(&mut self, path: &TreePath) -> Result<(), TreeError>
        ensures counts { TreeCounts (IsErrOf result Refused) 0 0 (untold self.old) (untold self.new) }
        ensures exact { self.new ≡ changed self.old (was_refused result) }
        ensures unsure { IsTrue self.old.unsure → result ≡ Err Refused }
    {
        if let Err(fault) = self.ready() {
            return self.changed(Err(fault));
        }
        let done = nodes::create(&self.rt, &self.layout, path);
        self.changed(done)
    }

    fn remove_file(&mut self, path: &TreePath) -> Result<(), TreeError>
        ensures counts { TreeCounts (IsErrOf result Refused) 0 0 (untold self.old) (untold self.new) }
        ensures exact { self.new ≡ changed self.old (was_refused result) }
        ensures unsure { IsTrue self.old.unsure → result ≡ Err Refused }
    {
        if let Err(fault) = self.ready() {
            return self.changed(Err(fault));
        }
        let done = nodes::remove_file(&self.rt, &self.layout, path);
        self.changed(done)
    }

    fn remove_dir(&mut self, path: &TreePath) -> Result<(), TreeError>
        ensures counts { TreeCounts (IsErrOf result Refused) 0 0 (untold self.old) (untold self.new) }
        ensures exact { self.new ≡ changed self.old (was_refused result) }
        ensures unsure { IsTrue self.old.unsure → result ≡ Err Refused }
    {
        if let Err(fault) = self.ready() {
            return self.changed(Err(fault));
        }
        let done = nodes::remove_dir(&self.rt, &self.layout, path);
        self.changed(done)
    }

    fn rename(&mut self, from: &TreePath, to: &TreePath) -> Result<(), TreeError>
        ensures counts { TreeCounts (IsErrOf result Refused) 0 0 (untold self.old) (untold self.new) }
        ensures exact { self.new ≡ changed self.old (was_refused result) }
        ensures unsure { IsTrue self.old.unsure → result ≡ Err Refused }
    {
        if let Err(fault) = self.ready() {
            return self.changed(Err(fault));
        }
        let done = moves::rename(&self.rt, &self.layout, from, to);
        self.changed(done)
    }

    fn read_at(&mut self, path: &TreePath, at: u64, into: &mut [u8]) -> Result<usize, TreeError>
        ensures within { IfOk result (λ n. n ≤ length into.old) }
        ensures counts { TreeCounts (IsErrOf result Refused) 0 0 (untold self.old) (untold self.new) }
        ensures exact { self.new ≡ counted self.old (was_refused result) }
    {
        let done = nodes::read_at(&self.rt, &self.layout, path, at, into);
        self.counted(done)
    }

    fn write_at(&mut self, path: &TreePath, at: u64, bytes: &[u8]) -> Result<(), TreeError>
        ensures counts { TreeCounts (IsErrOf result Refused) 0 0 (untold self.old) (untold self.new) }
        ensures exact { self.new ≡ changed self.old (was_refused result) }
        ensures unsure { IsTrue self.old.unsure → result ≡ Err Refused }
    {
        if let Err(fault) = self.ready() {
            return self.changed(Err(fault));
        }
        let done = nodes::write_at(&self.rt, &self.layout, path, at, bytes);
        self.changed(done)
    }

    fn set_len(&mut self, path: &TreePath, len: u64) -> Result<(), TreeError>
        ensures counts { TreeCounts (IsErrOf result Refused) 0 0 (untold self.old) (untold self.new) }
        ensures exact { self.new ≡ changed self.old (was_refused result) }
        ensures unsure { IsTrue self.old.unsure → result ≡ Err Refused }
    {
        if let Err(fault) = self.ready() {
            return self.changed(Err(fault));
        }
        let done = nodes::set_len(&self.rt, &self.layout, path, len);
        self.changed(done)
    }

    fn attr(&mut self, path: &TreePath, name: &[u8]) -> Result<Option<Vec<u8>>, TreeError>
        ensures counts { TreeCounts (IsErrOf result Refused) 0 0 (untold self.old) (untold self.new) }
        ensures exact { self.new ≡ counted self.old (was_refused result) }
    {
        let done = side::attr(&self.rt, &self.layout, path, name);
        self.counted(done)
    }

    fn set_attr(&mut self, path: &TreePath, name: &[u8], value: &[u8]) -> Result<(), TreeError>
        ensures counts { TreeCounts (IsErrOf result Refused) 0 0 (untold self.old) (untold self.new) }
        ensures exact { self.new ≡ changed self.old (was_refused result) }
        ensures unsure { IsTrue self.old.unsure → result ≡ Err Refused }
    {
        if let Err(fault) = self.ready() {
            return self.changed(Err(fault));
        }
        let done = side::set_attr(&self.rt, &self.layout, path, name, value);
        self.changed(done)
    }

    fn remove_attr(&mut self, path: &TreePath, name: &[u8]) -> Result<(), TreeError>
        ensures counts { TreeCounts (IsErrOf result Refused) 0 0 (untold self.old) (untold self.new) }
        ensures exact { self.new ≡ changed self.old (was_refused result) }
        ensures unsure { IsTrue self.old.unsure → result ≡ Err Refused }
    {
        if let Err(fault) = self.ready() {
            return self.changed(Err(fault));
        }
        let done = side::remove_attr(&self.rt, &self.layout, path, name);
        self.changed(done)
    }

    fn attrs(&mut self, path: &TreePath) -> Result<Vec<AttrName>, TreeError>
        ensures counts { TreeCounts (IsErrOf result Refused) 0 0 (untold self.old) (untold self.new) }
        ensures exact { self.new ≡ counted self.old (was_refused result) }
    {
        let done = side::names(&self.rt, &self.layout, path);
        self.counted(done)
    }

    fn sync_file(&mut self, path: &TreePath) -> Result<(), TreeError>
        ensures counts { TreeCounts (IsErrOf result Refused) 0 0 (untold self.old) (untold self.new) }
        ensures exact { self.new ≡ changed self.old (was_refused result) }
        ensures unsure { result ≡ (if self.old.unsure then Err Refused else Ok tt) }
    {
        self.synced()
    }

    fn sync_names(&mut self) -> Result<(), TreeError>
        ensures counts { TreeCounts (IsErrOf result Refused) 0 0 (untold self.old) (untold self.new) }
        ensures exact { self.new ≡ changed self.old (was_refused result) }
        ensures unsure { result ≡ (if self.old.unsure then Err Refused else Ok tt) }
    {
        self.synced()
    }

    fn sync_all(&mut self) -> Result<(), Failed>
        ensures sync { (untold self.new).syncs ≡ one_more (untold self.old).syncs }
        ensures counts { TreeCounts (IsErr result) 0 1 (untold self.old) (untold self.new) }
        ensures exact { self.new ≡ synced self.old (is_err result) }
        ensures unsure { is_err result ≡ self.old.unsure }
    {
        self.syncs.rise();
        if self.unsure {
            self.faults.rise();
            return Err(Failed);
        }
        Ok(())
    }

    fn checkpoints(&self) -> bool {
        false
    }

    fn snapshot(&mut self, seq: u64) -> Result<(), TreeError>
        ensures counts { TreeCounts (IsErrOf result Refused) 0 0 (untold self.old) (untold self.new) }
        ensures refused { result ≡ Err Refused }
        ensures exact { self.new ≡ counted self.old (was_refused result) }
    {
        self.counted(Err(TreeError::Refused))
    }

    fn rollback(&mut self, seq: u64) -> Result<(), TreeError>
        ensures counts { TreeCounts (IsErrOf result Refused) 0 0 (untold self.old) (untold self.new) }
        ensures refused { result ≡ Err Refused }
        ensures exact { self.new ≡ counted self.old (was_refused result) }
    {
        self.counted(Err(TreeError::Refused))
    }

    fn drop_snapshot(&mut self, seq: u64) -> Result<(), TreeError>
        ensures counts { TreeCounts (IsErrOf result Refused) 0 0 (untold self.old) (untold self.new) }
        ensures refused { result ≡ Err Refused }
        ensures exact { self.new ≡ counted self.old (was_refused result) }
    {
        self.counted(Err(TreeError::Refused))
    }

    fn snapshots(&mut self) -> Result<Vec<u64>, TreeError>
        ensures counts { TreeCounts (IsErrOf result Refused) 0 0 (untold self.old) (untold self.new) }
        ensures exact { self.new ≡ self.old }
        ensures none { IfOk result (λ ks. ks.items ≡ []) }
        ensures ok { IsOk result }
    {
        Ok(Vec::new(self.rt.alloc()))
    }
}
