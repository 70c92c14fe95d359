// The number's file.
ghost use Rattle.std.specs.Prelude.{◌≡◌, ◌≢◌, ℕ, ◌<◌, ◌^◌, false, Some, Err, IfOk, IfSome, IfNone, OnOk, IsErrOf};
ghost use Rattle.tree_api.specs.Tree.{Path, Version, look};
ghost use Rattle.tree_api.specs.Counts.{Counts};
ghost use Rattle.tree_api.specs.Disk.{Everywhere, Leaves, Still};
ghost use Rattle.commit_point.specs.Number.{number_path, building, number_file, HasNumber, IsReady, Renumbers};

use crate::replacing::replace;
use crate::spelling::{number_of, spelled};
use index_fault::IndexFault;
use std::alloc::{AllocError, Global};
use tree_api::{FileTree, Kind, TreeError, TreePath};

fn number_path(alloc: Global) -> Result<TreePath, AllocError>
    ensures { IfOk result (λ path. path ≡ number_path) }
{
    TreePath::root(alloc)
        .join(b"current")?
        .join(b"commit_op_seq")
}

fn building(alloc: Global) -> Result<TreePath, AllocError>
    ensures { IfOk result (λ path. path ≡ building) }
{
    TreePath::root(alloc)
        .join(b"current")?
        .join(b"aside")?
        .join(b"seq")
}

fn write<T: FileTree>(alloc: Global, tree: &mut T, seq: u64) -> Result<(), TreeError>
    requires ready { T.tells tree.old → IsReady (T.disk tree.old).tree }
    ensures told { T.tells tree.new → T.tells tree.old }
    ensures counts { Counts (IsErrOf result TreeError.Refused) 1 0 (T.disk tree.old) (T.disk tree.new) }
    ensures leaves { T.tells tree.new → Leaves (Renumbers seq) (T.disk tree.old) (T.disk tree.new) }
    ensures done { T.tells tree.new → OnOk result (Everywhere (T.disk tree.new) (λ c. look c number_path ≡ Some (number_file seq))) }
{
    let place = building(alloc)?;
    let path = number_path(alloc)?;
    let text = spelled(alloc, seq)?;
    replace(tree, &place, &path, &text)
}

/// Writes the committed number: in every image it is one of before or this, and at `Ok` it is this in all of them.
///
/// What stands at `current/aside/seq` from an earlier run is removed first. Never answers `Damaged`.
pub fn write_seq<T: FileTree>(alloc: Global, tree: &mut T, seq: u64) -> Result<(), IndexFault>
    requires ready { T.tells tree.old → IsReady (T.disk tree.old).tree }
    ensures told { T.tells tree.new → T.tells tree.old }
    ensures counts { Counts (IsErrOf result IndexFault.Tree) 1 0 (T.disk tree.old) (T.disk tree.new) }
    ensures leaves { T.tells tree.new → Leaves (Renumbers seq) (T.disk tree.old) (T.disk tree.new) }
    ensures done { T.tells tree.new → OnOk result (Everywhere (T.disk tree.new) (λ c. look c number_path ≡ Some (number_file seq))) }
    ensures ready { T.tells tree.new → IsReady (T.disk tree.new).tree }
    ensures undamaged { (p : Path) → result ≢ Err (IndexFault.Damaged p) }
{
    Ok(write(alloc, tree, seq)?)
}

// The bytes of the number's file, where it is as long as a number's is.
fn number_text<T: FileTree>(alloc: Global, tree: &mut T) -> Result<Option<[u8; 17]>, TreeError>
    ensures told { T.tells tree.new → T.tells tree.old }
    ensures still { T.tells tree.new → Still (T.disk tree.old) (T.disk tree.new) }
    ensures counts { Counts (IsErrOf result TreeError.Refused) 1 0 (T.disk tree.old) (T.disk tree.new) }
    ensures some { T.tells tree.new → IfOk result (λ o. IfSome o (λ text. (v : Version) × (look (T.disk tree.old).tree number_path ≡ Some v) × (v.dir ≡ false) × (v.bytes ≡ text))) }
    ensures none { T.tells tree.new → IfOk result (λ o. IfNone o ((n : ℕ) → HasNumber (T.disk tree.old).tree n → ⊥)) }
{
    let path = number_path(alloc)?;
    let Some(stat) = tree.stat(&path)? else {
        return Ok(None);
    };
    if stat.kind != Kind::File || stat.len != 17 {
        return Ok(None);
    }
    let mut text = [0; 17];
    let _count = tree.read_at(&path, 0, &mut text)?;
    Ok(Some(text))
}

/// The committed number, and None exactly where its file is missing, misspelt, or has a number of 2^63 or more. Never
/// answers `Damaged`.
pub fn read_seq<T: FileTree>(alloc: Global, tree: &mut T) -> Result<Option<u64>, IndexFault>
    ensures told { T.tells tree.new → T.tells tree.old }
    ensures still { T.tells tree.new → Still (T.disk tree.old) (T.disk tree.new) }
    ensures counts { Counts (IsErrOf result IndexFault.Tree) 1 0 (T.disk tree.old) (T.disk tree.new) }
    ensures some { T.tells tree.new → IfOk result (λ o. IfSome o (λ n. HasNumber (T.disk tree.old).tree n)) }
    ensures none { T.tells tree.new → IfOk result (λ o. IfNone o ((n : ℕ) → HasNumber (T.disk tree.old).tree n → ⊥)) }
    ensures small { IfOk result (λ o. IfSome o (λ n. n < 2 ^ 63)) }
    ensures undamaged { (p : Path) → result ≢ Err (IndexFault.Damaged p) }
{
    match number_text(alloc, tree)? {
        Some(text) => Ok(number_of(alloc, &text)?),
        None => Ok(None),
    }
}
