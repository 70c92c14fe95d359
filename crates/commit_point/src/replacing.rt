// A file that is replaced whole.
ghost use Rattle.std.specs.Prelude.{◌≡◌, ◌≢◌, ◌++◌, ◌∷◌, [], ℕ, ◌<◌, ◌^◌, List, length, Some, OnOk, IsErrOf};
ghost use Rattle.tree_api.specs.Tree.{Path, Version, IsDir, IsFree, IsAbove, HasParent, file_of, look};
ghost use Rattle.tree_api.specs.Counts.{Counts};
ghost use Rattle.tree_api.specs.Disk.{Everywhere, Leaves};
ghost use Rattle.commit_point.specs.Replacing.{Replaces, Cleared, Filled};

use tree_api::{FileTree, TreeError, TreePath};

/// Takes away a file that may stand there.
pub fn clear<T: FileTree>(tree: &mut T, path: &TreePath) -> Result<(), TreeError>
    requires free { T.tells tree.old → IsFree (T.disk tree.old).tree path.now }
    ensures told { T.tells tree.new → T.tells tree.old }
    ensures counts { Counts (IsErrOf result TreeError.Refused) 1 0 (T.disk tree.old) (T.disk tree.new) }
    ensures leaves { T.tells tree.new → (to : Path) (v : Version) → to ≢ path.now → Leaves (Replaces path.now to v) (T.disk tree.old) (T.disk tree.new) }
    ensures cleared { T.tells tree.new → OnOk result (Cleared path.now (T.disk tree.old).tree (T.disk tree.new).tree) }
{
    if tree.stat(path)?.is_none() {
        return Ok(());
    }
    tree.remove_file(path)
}

/// A new file with this text, all of it stable.
pub fn build<T: FileTree>(tree: &mut T, path: &TreePath, text: &[u8]) -> Result<(), TreeError>
    requires free { T.tells tree.old → IsFree (T.disk tree.old).tree path.now }
    requires parent { T.tells tree.old → HasParent (T.disk tree.old).tree path.now }
    requires short { length text.now < 2 ^ 63 }
    ensures told { T.tells tree.new → T.tells tree.old }
    ensures counts { Counts (IsErrOf result TreeError.Refused) 1 0 (T.disk tree.old) (T.disk tree.new) }
    ensures leaves { T.tells tree.new → (to : Path) (v : Version) → to ≢ path.now → Leaves (Replaces path.now to v) (T.disk tree.old) (T.disk tree.new) }
    ensures filled { T.tells tree.new → OnOk result (Filled path.now (file_of text.now) (T.disk tree.old) (T.disk tree.new)) }
{
    clear(tree, path)?;
    tree.create(path)?;
    tree.write_at(path, 0, text)?;
    tree.sync_file(path)
}

/// The file at `to` gets this text in one step, by way of one that is built at `place`. At `Ok` that is stable.
pub fn replace<T: FileTree>(
    tree: &mut T,
    place: &TreePath,
    to: &TreePath,
    text: &[u8],
) -> Result<(), TreeError>
    requires free { T.tells tree.old → IsFree (T.disk tree.old).tree place.now }
    requires parent { T.tells tree.old → HasParent (T.disk tree.old).tree place.now }
    requires target { T.tells tree.old → IsFree (T.disk tree.old).tree to.now }
    requires there { T.tells tree.old → (dir : Path) × (step : List ℕ) × (to.now ≡ dir ++ step ∷ []) × (dir ≢ place.now) × IsDir (T.disk tree.old).tree dir }
    requires apart { to.now ≢ place.now }
    requires off_the_way { IsAbove place.now to.now → ⊥ }
    requires short { length text.now < 2 ^ 63 }
    ensures told { T.tells tree.new → T.tells tree.old }
    ensures counts { Counts (IsErrOf result TreeError.Refused) 1 0 (T.disk tree.old) (T.disk tree.new) }
    ensures leaves { T.tells tree.new → Leaves (Replaces place.now to.now (file_of text.now)) (T.disk tree.old) (T.disk tree.new) }
    ensures done { T.tells tree.new → OnOk result (Everywhere (T.disk tree.new) (λ c. look c to.now ≡ Some (file_of text.now))) }
{
    build(tree, place, text)?;
    tree.rename(place, to)?;
    tree.sync_names()
}
