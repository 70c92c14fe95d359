//! From files to objects: what a tree shows, and what it and its images stand for beside the journal.
//!
//! A tree shows the file of each object, and the guards on files and on the directories of collections. From these come the
//! cells and guards that guarded replay speaks of. `Shown.antt` and `Trees.antt` have what is shown, `Standing.antt` what
//! a store keeps between its turns, `Edits.antt` and `Laws.antt` what an operation on one object owes and what follows, and
//! `Stands.antt` the objects that a tree and a journal stand for. `docs/BRIDGE.md` explains it from nothing.
#![tactic(auto)]

ghost use Rattle.tree_stands.specs.Closed.{ClosedLaw};
ghost use Rattle.tree_stands.specs.Copies.{CopyLaw};
ghost use Rattle.tree_stands.specs.Files.{FilesLaw};
ghost use Rattle.tree_stands.specs.Laws.{EditLaw};
ghost use Rattle.tree_stands.specs.OneFile.{OneFileLaw};
ghost use Rattle.tree_stands.specs.Stands.{StandsLaw};
ghost use Rattle.tree_stands.specs.Turns.{TurnLaw};

/// Operations that make, write, zero, truncate or remove an object make of its file what they mean.
pub fn files_law()
    ensures { FilesLaw }
{}

/// An Apply turn whose operation changes one object: each image stays one at any moment, and once the turn is done what reads
/// is where the slots are then.
pub fn edit_law()
    ensures { EditLaw }
{}

/// A Start turn leaves the tree where it is; and what reads has the number that a commit took, so a whole sync may make it
/// the only image. All other turns leave what stands word for word.
pub fn turn_law()
    ensures { TurnLaw }
{}

/// An image and a journal stand for the objects after the journal's last transaction, and for no others with the same
/// collections.
pub fn stands_law()
    ensures { StandsLaw }
{}

/// A store that was made or closed stands: what reads and the image beside it are past no transaction. So does a tree with no
/// collection, for no objects, and a tree of one file, for one.
pub fn closed_law()
    ensures closed { ClosedLaw }
    ensures one_file { OneFileLaw }
{}

/// A copy onto one object that is made before its guard: between the writes and the guard, and once the guard may stand, images
/// stay where they were; once it is stable, the copy is for good.
pub fn copy_law()
    ensures { CopyLaw }
{}
