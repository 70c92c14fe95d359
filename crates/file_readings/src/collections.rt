// The collections of a store.
ghost use Rattle.std.specs.Prelude.{◌≡◌, ◌≢◌, ◌++◌, Err, IfOk, OnOk, IsErrOf, option_to_list};
ghost use Rattle.std.specs.FinMap as map;
ghost use Rattle.fs_model.specs.Objects.{Objects};
ghost use Rattle.tree_api.specs.Counts.{Counts};
ghost use Rattle.tree_api.specs.Disk.{Still};
ghost use Rattle.tree_api.specs.Tree.{Path, IsDir, current};
ghost use Rattle.tree_stands.specs.Trees.{AllWhole};
ghost use Rattle.op_effects.specs.Clear.{IsClear};
ghost use Rattle.tree_shows.specs.Shows.{Shows};
ghost use Rattle.file_readings.specs.Listed.{coll_at, colls_in, IsCollFile, HasCollFile};

use fs_model::CollNames;
use fs_names::{Coll, Settings, decode_coll};
use index_fault::IndexFault;
use op_effects::coll_path;
use std::alloc::{AllocFailed, Global};
use tree_api::{Entry, FileTree, Kind, TreePath};

// The collection whose text the entry's name is, if it is one's. Answers `Damaged` where that is a file.
fn read_entry(alloc: Global, entry: &Entry) -> Result<Option<Coll>, IndexFault>
    ensures coll { IfOk result (λ coll. coll ≡ coll_at entry.now.step) }
    ensures damaged { (p : Path) → IsErrOf result (IndexFault.Damaged p) → IsCollFile entry.now }
    ensures memory { result ≢ Err IndexFault.Tree }
{
    if entry.step.steps() != 1 {
        return Ok(None);
    }
    let Ok(coll) = decode_coll(entry.step.step(0)) else {
        return Ok(None);
    };
    if entry.kind == Kind::File {
        let path = coll_path(alloc, &coll)?;
        return Err(IndexFault::Damaged { path });
    }
    Ok(Some(coll))
}

fn add(colls: &mut Vec<Coll>, coll: Option<Coll>) -> Result<(), AllocFailed<Coll>>
    ensures { OnOk result (colls.new.items ≡ colls.old.items ++ option_to_list coll) }
{
    if let Some(coll) = coll {
        colls.push(coll)?;
    }
    Ok(())
}

fn read_all(alloc: Global, entries: &[Entry]) -> Result<CollNames, IndexFault>
    ensures colls { IfOk result (λ colls. colls ≡ colls_in entries.now) }
    ensures damaged { (p : Path) → IsErrOf result (IndexFault.Damaged p) → HasCollFile entries.now }
    ensures memory { result ≢ Err IndexFault.Tree }
{
    let mut colls = Vec::new(alloc);
    for entry in entries {
        let coll = read_entry(alloc, entry)?;
        add(&mut colls, coll)?;
    }
    Ok(CollNames::from_vec(colls))
}

/// The collections, in the order of their texts. `current` is listed once. Only the contract speaks of the settings.
pub fn colls<T: FileTree>(
    alloc: Global,
    tree: &mut T,
    set: &Settings,
) -> Result<CollNames, IndexFault>
    requires current { T.tells tree.old → IsDir (T.disk tree.old).tree current }
    ensures told { T.tells tree.new → T.tells tree.old }
    ensures still { T.tells tree.new → Still (T.disk tree.old) (T.disk tree.new) }
    ensures counts { Counts (IsErrOf result IndexFault.Tree) 1 0 (T.disk tree.old) (T.disk tree.new) }
    ensures undamaged { T.tells tree.new → AllWhole set.now (T.disk tree.old).tree → IsClear (T.disk tree.old).tree
        → (p : Path) → result ≢ Err (IndexFault.Damaged p) }
    ensures reads { T.tells tree.new → (O : Objects) → Shows set.now O (T.disk tree.old).tree → IsClear (T.disk tree.old).tree
        → IfOk result (λ colls. colls ≡ map.keys O) }
{
    let _set = set;
    let current = TreePath::root(alloc).join(b"current")?;
    let entries = tree.list(&current)?;
    read_all(alloc, &entries)
}
