// Single files and directories, made where nothing stands.
ghost use Rattle.std.specs.Prelude.{◌≡◌, ◌<◌, ◌^◌, length, None, OnOk, IsErrOf};
ghost use Rattle.tree_api.specs.Tree.{HasParent, file_of, new_dir};
ghost use Rattle.tree_api.specs.Counts.{Counts};
ghost use Rattle.tree_api.specs.Disk.{Leaves};
ghost use Rattle.store_files.specs.Steps.{Beside, Stands};

use tree_api::{FileTree, TreeError, TreePath};

/// A new directory, and all names are stable.
pub fn add_dir<T: FileTree>(tree: &mut T, path: &TreePath) -> Result<(), TreeError>
    requires free { T.tells tree.old → (T.disk tree.old).tree.at path.now ≡ None }
    requires parent { T.tells tree.old → HasParent (T.disk tree.old).tree path.now }
    ensures told { T.tells tree.new → T.tells tree.old }
    ensures counts { Counts (IsErrOf result TreeError.Refused) 0 0 (T.disk tree.old) (T.disk tree.new) }
    ensures beside { T.tells tree.new → Leaves (Beside path.now) (T.disk tree.old) (T.disk tree.new) }
    ensures stands { T.tells tree.new → OnOk result (Stands path.now new_dir (T.disk tree.new)) }
{
    tree.make_dir(path)?;
    tree.sync_names()
}

/// A new file with this text, all of it stable, and all names.
pub fn add_file<T: FileTree>(tree: &mut T, path: &TreePath, text: &[u8]) -> Result<(), TreeError>
    requires free { T.tells tree.old → (T.disk tree.old).tree.at path.now ≡ None }
    requires parent { T.tells tree.old → HasParent (T.disk tree.old).tree path.now }
    requires short { length text.now < 2 ^ 63 }
    ensures told { T.tells tree.new → T.tells tree.old }
    ensures counts { Counts (IsErrOf result TreeError.Refused) 0 0 (T.disk tree.old) (T.disk tree.new) }
    ensures beside { T.tells tree.new → Leaves (Beside path.now) (T.disk tree.old) (T.disk tree.new) }
    ensures stands { T.tells tree.new → OnOk result (Stands path.now (file_of text.now) (T.disk tree.new)) }
{
    tree.create(path)?;
    tree.write_at(path, 0, text)?;
    tree.sync_file(path)
}
