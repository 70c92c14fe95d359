// The trait.
ghost use Rattle.std.specs.Prelude.{◌≡◌, ◌≢◌, ◌⊎◌, ◌<◌, ◌≤◌, ◌+◌, ◌^◌, ℕ, List, [], ◌∷◌, ◌++◌, length, take, drop, Some, None, IfOk, OnOk, IsOk, IsErr, IsErrOf};
ghost use Rattle.tree_api.specs.declared.tree.TreeError.TheVariants.{Memory, Refused};
ghost use Rattle.fault_count.specs.Counted.{one_more};
ghost use Rattle.tree_api.specs.Tree.{Path, Version, look, file_of, IsFile, IsDir, IsAbove, HasParent, MovedFile, MovedDir, Gone, Written, AttrIs, Cut, IsEmptyDir, new_dir, content};
ghost use Rattle.tree_api.specs.Disk.{Disk, Sound, Still, NameChange, Creation, Change, Synced, SyncedNames, SyncedAll, SnapChange, Rollback, ReadAt};
ghost use Rattle.tree_api.specs.Counts.{Counts};
ghost use Rattle.tree_api.specs.Answer.{IsStat, HasAttr, HasAttrs, IsListing, AreSnapshots};

use crate::{AttrName, TreePath};
use std::alloc::{AllocError, AllocFailed};

/// Why a call of a tree gave up.
#[derive(Clone, Copy, Debug, PartialEq, Eq)]
pub enum TreeError {
    /// Want of memory. Nothing has changed, and nothing more is stable.
    Memory,
    /// The tree has failed, and has counted a fault. A change may have been made, in part or whole.
    Refused,
}

impl From<AllocError> for TreeError {
    ghost from_gives = { λ _ e. e ≡ Memory };

    fn from(_: AllocError) -> Self {
        TreeError::Memory
    }
}

impl<T: Drop> From<AllocFailed<T>> for TreeError {
    ghost from_gives = { λ _ e. e ≡ Memory };

    fn from(_: AllocFailed<T>) -> Self {
        TreeError::Memory
    }
}

/// What a node is. It never changes.
#[derive(Clone, Copy, Debug, PartialEq, Eq)]
pub enum Kind {
    /// A file, which has bytes and attributes.
    File,
    /// A directory, which has entries and attributes.
    Dir,
}

/// What `stat` tells of a node.
#[derive(Clone, Copy, Debug, PartialEq, Eq)]
pub struct Stat {
    /// Its kind.
    pub kind: Kind,
    /// The number of a file's bytes, and 0 for a directory.
    pub len: u64,
}

/// An entry of a directory.
#[derive(Debug, Drop)]
pub struct Entry {
    /// Its one step in the directory.
    pub step: TreePath,
    /// Its kind.
    pub kind: Kind,
}

/// A whole sync failed, and the tree has counted a fault.
#[derive(Clone, Copy, Debug, PartialEq, Eq)]
pub struct Failed;

/// A tree of files, with numbered snapshots of `current`.
///
/// Where it tells what it holds, each call says what the tree then reads and what a crash may leave, at every moment since
/// the call began. A call that changes the tree makes nothing stable but what it says. Inside such a call, and after one
/// that was refused, the names are all the old ones or all the new ones, each length, byte and attribute is old or new,
/// and a snapshot or a rollback is there whole or not at all. Any other refused call changes nothing. A call that only
/// reads changes nothing and makes nothing stable.
///
/// Any tree counts its faults, its whole syncs and its looks. None of these falls, and each stands still at 2^64 - 1.
/// Each `stat` and each `list` is at most one look.
pub trait FileTree {
    /// Content is told, up to now. A call may end this for good and no code can tell, so only facts about content rest on it.
    ghost tells: { Self → Type 0 };

    /// What is told.
    ghost disk: { Self → Disk };

    /// What stands at a path, or none.
    fn stat(&mut self, path: &TreePath) -> Result<Option<Stat>, TreeError>
        ensures still { tells self.new → Still (disk self.old) (disk self.new) }
        ensures answer { tells self.new → IfOk result (λ s. IsStat (look (disk self.old).tree path.now) s) }
        ensures told { tells self.new → tells self.old }
        ensures look { tells self.new → (disk self.new).looks ≡ one_more (disk self.old).looks }
        ensures counts { Counts (IsErrOf result Refused) 1 0 (disk self.old) (disk self.new) };

    /// All entries of a directory, each once, in byte order.
    fn list(&mut self, dir: &TreePath) -> Result<Vec<Entry>, TreeError>
        requires dir { tells self.old → IsDir (disk self.old).tree dir.now }
        ensures still { tells self.new → Still (disk self.old) (disk self.new) }
        ensures entries { tells self.new → IfOk result (λ es. IsListing (disk self.old).tree dir.now es.items) }
        ensures told { tells self.new → tells self.old }
        ensures look { tells self.new → (disk self.new).looks ≡ one_more (disk self.old).looks }
        ensures counts { Counts (IsErrOf result Refused) 1 0 (disk self.old) (disk self.new) };

    /// A new directory, without entries and attributes.
    fn make_dir(&mut self, path: &TreePath) -> Result<(), TreeError>
        requires free { tells self.old → ((disk self.old).tree.at path.now ≡ None) × HasParent (disk self.old).tree path.now }
        ensures change { tells self.new → Creation path.now new_dir (disk self.old) (disk self.new) result }
        ensures told { tells self.new → tells self.old }
        ensures counts { Counts (IsErrOf result Refused) 0 0 (disk self.old) (disk self.new) };

    /// A new file, without bytes and attributes.
    fn create(&mut self, path: &TreePath) -> Result<(), TreeError>
        requires free { tells self.old → ((disk self.old).tree.at path.now ≡ None) × HasParent (disk self.old).tree path.now }
        ensures change { tells self.new → Creation path.now (file_of []) (disk self.old) (disk self.new) result }
        ensures told { tells self.new → tells self.old }
        ensures counts { Counts (IsErrOf result Refused) 0 0 (disk self.old) (disk self.new) };

    /// A file's name goes.
    fn remove_file(&mut self, path: &TreePath) -> Result<(), TreeError>
        requires file { tells self.old → IsFile (disk self.old).tree path.now }
        ensures change { tells self.new → NameChange (Gone path.now) (disk self.old) (disk self.new) result }
        ensures told { tells self.new → tells self.old }
        ensures counts { Counts (IsErrOf result Refused) 0 0 (disk self.old) (disk self.new) };

    /// The name of an empty directory goes. The root has none.
    fn remove_dir(&mut self, path: &TreePath) -> Result<(), TreeError>
        requires named { path.now ≢ [] }
        requires empty { tells self.old → IsEmptyDir (disk self.old).tree path.now }
        ensures change { tells self.new → NameChange (Gone path.now) (disk self.old) (disk self.new) result }
        ensures told { tells self.new → tells self.old }
        ensures counts { Counts (IsErrOf result Refused) 0 0 (disk self.old) (disk self.new) };

    /// A file moves, over a file that may stand there; or a directory moves with all below it, to a free place.
    fn rename(&mut self, from: &TreePath, to: &TreePath) -> Result<(), TreeError>
        requires there { tells self.old → (disk self.old).tree.at from.now ≢ None }
        requires off_the_way { tells self.old → ¬ IsAbove from.now to.now }
        requires target { tells self.old → ((disk self.old).tree.at to.now ≡ None) ⊎ (IsFile (disk self.old).tree from.now × IsFile (disk self.old).tree to.now) }
        requires parent { tells self.old → HasParent (disk self.old).tree to.now }
        ensures file { tells self.new → IsFile (disk self.old).tree from.now → NameChange (MovedFile from.now to.now) (disk self.old) (disk self.new) result }
        ensures dir { tells self.new → IsDir (disk self.old).tree from.now → NameChange (MovedDir from.now to.now) (disk self.old) (disk self.new) result }
        ensures told { tells self.new → tells self.old }
        ensures counts { Counts (IsErrOf result Refused) 0 0 (disk self.old) (disk self.new) };

    /// Bytes of a file from a place on, as many as there are and as `into` holds. Answers how many.
    fn read_at(&mut self, path: &TreePath, at: u64, into: &mut [u8]) -> Result<usize, TreeError>
        requires file { tells self.old → IsFile (disk self.old).tree path.now }
        requires place { at + length into.old < 2 ^ 63 }
        ensures still { tells self.new → Still (disk self.old) (disk self.new) }
        ensures within { IfOk result (λ n. n ≤ length into.old) }
        ensures bytes { tells self.new → IfOk result (λ n. ReadAt (disk self.old).tree path.now at into.old n into.new) }
        ensures told { tells self.new → tells self.old }
        ensures counts { Counts (IsErrOf result Refused) 0 0 (disk self.old) (disk self.new) };

    /// Bytes written over a file's, and past its end. A gap is zeros.
    fn write_at(&mut self, path: &TreePath, at: u64, bytes: &[u8]) -> Result<(), TreeError>
        requires file { tells self.old → IsFile (disk self.old).tree path.now }
        requires place { at + length bytes.now < 2 ^ 63 }
        ensures change { tells self.new → Change path.now (Written at bytes.now) (disk self.old) (disk self.new) result }
        ensures told { tells self.new → tells self.old }
        ensures counts { Counts (IsErrOf result Refused) 0 0 (disk self.old) (disk self.new) };

    /// The length of a file. New bytes are zeros.
    fn set_len(&mut self, path: &TreePath, len: u64) -> Result<(), TreeError>
        requires file { tells self.old → IsFile (disk self.old).tree path.now }
        requires place { len < 2 ^ 63 }
        ensures change { tells self.new → Change path.now (Cut len) (disk self.old) (disk self.new) result }
        ensures told { tells self.new → tells self.old }
        ensures counts { Counts (IsErrOf result Refused) 0 0 (disk self.old) (disk self.new) };

    /// The value of an attribute, or none.
    fn attr(&mut self, path: &TreePath, name: &[u8]) -> Result<Option<Vec<u8>>, TreeError>
        requires there { tells self.old → (disk self.old).tree.at path.now ≢ None }
        ensures still { tells self.new → Still (disk self.old) (disk self.new) }
        ensures value { tells self.new → IfOk result (λ v. HasAttr (look (disk self.old).tree path.now) name.now v) }
        ensures told { tells self.new → tells self.old }
        ensures counts { Counts (IsErrOf result Refused) 0 0 (disk self.old) (disk self.new) };

    /// An attribute has this value from now on.
    fn set_attr(&mut self, path: &TreePath, name: &[u8], value: &[u8]) -> Result<(), TreeError>
        requires there { tells self.old → (disk self.old).tree.at path.now ≢ None }
        ensures change { tells self.new → Change path.now (AttrIs name.now (Some value.now)) (disk self.old) (disk self.new) result }
        ensures told { tells self.new → tells self.old }
        ensures counts { Counts (IsErrOf result Refused) 0 0 (disk self.old) (disk self.new) };

    /// An attribute goes, where it is there.
    fn remove_attr(&mut self, path: &TreePath, name: &[u8]) -> Result<(), TreeError>
        requires there { tells self.old → (disk self.old).tree.at path.now ≢ None }
        ensures change { tells self.new → Change path.now (AttrIs name.now None) (disk self.old) (disk self.new) result }
        ensures told { tells self.new → tells self.old }
        ensures counts { Counts (IsErrOf result Refused) 0 0 (disk self.old) (disk self.new) };

    /// The names of all attributes, in byte order.
    fn attrs(&mut self, path: &TreePath) -> Result<Vec<AttrName>, TreeError>
        requires there { tells self.old → (disk self.old).tree.at path.now ≢ None }
        ensures still { tells self.new → Still (disk self.old) (disk self.new) }
        ensures names { tells self.new → IfOk result (λ ns. HasAttrs (look (disk self.old).tree path.now) ns.items) }
        ensures told { tells self.new → tells self.old }
        ensures counts { Counts (IsErrOf result Refused) 0 0 (disk self.old) (disk self.new) };

    /// The bytes, length and attributes of the node are stable, and all names.
    fn sync_file(&mut self, path: &TreePath) -> Result<(), TreeError>
        requires there { tells self.old → (disk self.old).tree.at path.now ≢ None }
        ensures synced { tells self.new → Synced path.now (disk self.old) (disk self.new) result }
        ensures told { tells self.new → tells self.old }
        ensures counts { Counts (IsErrOf result Refused) 0 0 (disk self.old) (disk self.new) };

    /// All names are stable.
    fn sync_names(&mut self) -> Result<(), TreeError>
        ensures synced { tells self.new → SyncedNames (disk self.old) (disk self.new) result }
        ensures told { tells self.new → tells self.old }
        ensures counts { Counts (IsErrOf result Refused) 0 0 (disk self.old) (disk self.new) };

    /// Everything is stable. It takes no memory.
    fn sync_all(&mut self) -> Result<(), Failed>
        ensures synced { tells self.new → SyncedAll (disk self.old) (disk self.new) (IsOk result) }
        ensures told { tells self.new → tells self.old }
        ensures sync { (disk self.new).syncs ≡ one_more (disk self.old).syncs }
        ensures counts { Counts (IsErr result) 0 1 (disk self.old) (disk self.new) };

    /// Whether the tree keeps snapshots. The answer never changes.
    fn checkpoints(&self) -> bool
        ensures { result ≡ (disk self.now).checkpoints };

    /// Keeps `current` as it reads under this number. Once answered it is stable.
    fn snapshot(&mut self, seq: u64) -> Result<(), TreeError>
        requires free { tells self.old → (disk self.old).tree.snap seq ≡ None }
        ensures change { tells self.new → SnapChange seq (Some (content (disk self.old).tree)) (disk self.old) (disk self.new) result }
        ensures told { tells self.new → tells self.old }
        ensures counts { Counts (IsErrOf result Refused) 0 0 (disk self.old) (disk self.new) };

    /// `current` becomes what a snapshot has. Once answered it is stable.
    fn rollback(&mut self, seq: u64) -> Result<(), TreeError>
        requires there { tells self.old → (disk self.old).tree.snap seq ≢ None }
        ensures change { tells self.new → (kept : _) → (disk self.old).tree.snap seq ≡ Some kept → Rollback kept (disk self.old) (disk self.new) result }
        ensures told { tells self.new → tells self.old }
        ensures counts { Counts (IsErrOf result Refused) 0 0 (disk self.old) (disk self.new) };

    /// A snapshot goes. Once answered that is stable.
    fn drop_snapshot(&mut self, seq: u64) -> Result<(), TreeError>
        requires there { tells self.old → (disk self.old).tree.snap seq ≢ None }
        ensures change { tells self.new → SnapChange seq None (disk self.old) (disk self.new) result }
        ensures told { tells self.new → tells self.old }
        ensures counts { Counts (IsErrOf result Refused) 0 0 (disk self.old) (disk self.new) };

    /// The numbers of the snapshots, in rising order.
    fn snapshots(&mut self) -> Result<Vec<u64>, TreeError>
        ensures still { tells self.new → Still (disk self.old) (disk self.new) }
        ensures numbers { tells self.new → IfOk result (λ ks. AreSnapshots (disk self.old).tree ks.items) }
        ensures told { tells self.new → tells self.old }
        ensures counts { Counts (IsErrOf result Refused) 0 0 (disk self.old) (disk self.new) };

    ghost sound: { (s : Self) → tells s → Sound (disk s) };
}
