//! How far the tree of a store has gone in its history, where transactions are done one after the other.
//!
//! `Line.antt` has the line of a history's operations and how far a tree is along it, `Images.antt` what a crash leaves of a
//! store's tree and how it reads, live and on replay, and `Laws.antt` what follows: that this is what a store's turns ask of
//! its tree, and what each kind of operation has to do for it.
#![tactic(auto)]

ghost use Rattle.std.specs.Prelude.{◌≡◌};
ghost use Rattle.fs_names.specs.declared.settings.Settings.{Settings};
ghost use Rattle.tree_api.specs.Tree.{Tree};
ghost use Rattle.tree_api.specs.Disk.{Everywhere};
ghost use Rattle.commit_point.specs.Number.{IsReady};
ghost use Rattle.op_effects.specs.Ready.{Ready};
ghost use Rattle.tree_places.specs.Images.{IsLaid, IsOwn};
ghost use Rattle.tree_places.specs.Laws.{CollLaw, EditLaw, ExampleLaw, HistoryLaw, TheoryLaw};
ghost use Rattle.tree_places.specs.Own.{OwnLaw};

use tree_api::FileTree;

/// Such trees are what a store's turns ask for.
pub fn theory_law()
    ensures { TheoryLaw }
{}

/// A told tree whose only image is what reads is ready for operations, and a committed number may be written.
pub fn ready_law<T: FileTree>()
    ensures operations { (set : Settings) (tree : T) → T.tells tree → Everywhere (T.disk tree) (λ c. c ≡ (T.disk tree).tree) → IsLaid set (T.disk tree).tree → Ready set (T.disk tree) }
    ensures number { (t : Tree) → IsOwn t → IsReady t }
{}

/// Where a transaction's operations stand in the line, what else a history may become, and how one begins.
pub fn history_law()
    ensures history { HistoryLaw }
    ensures example { ExampleLaw }
{}

/// An operation on one object: images stay where they were at any moment, and once it is done what reads is past it. It is
/// left out where its collection isn't there.
pub fn edit_law()
    ensures { EditLaw }
{}

/// The same where a collection is made, or taken away.
pub fn coll_law()
    ensures { CollLaw }
{}

/// What is the store's own stays where a collection changes, and where the committed number is written: then no collection
/// changes, and an image is one with its number or with this.
pub fn own_law()
    ensures { OwnLaw }
{}
