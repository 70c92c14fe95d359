//! What objects the files of a tree are.
//!
//! `Shows.antt` has when a tree's files are these objects: each byte, attribute and name, and which collections are there. A
//! tree that has done all operations of a line shows what they mean, and one that reads the same shows the same.
#![tactic(auto)]

ghost use Rattle.std.specs.Prelude.{List, length};
ghost use Rattle.fs_names.specs.declared.coll.Coll.{Coll};
ghost use Rattle.fs_names.specs.declared.settings.Settings.{Settings};
ghost use Rattle.fs_names.specs.Reading.{CollFits};
ghost use Rattle.fs_model.specs.declared.op.Op.{Op};
ghost use Rattle.fs_model.specs.Objects.{Objects};
ghost use Rattle.fs_model.specs.Rows.{fold_ops};
ghost use Rattle.tree_api.specs.Tree.{Tree};
ghost use Rattle.op_effects.specs.Collections.{CollStays};
ghost use Rattle.op_places.specs.Line.{IsPlain};
ghost use Rattle.op_places.specs.Places.{PastOps};
ghost use Rattle.tree_shows.specs.Shows.{Shows};

/// A tree that has done all operations of a line shows what they make of the objects, and one where each collection stays
/// shows what it showed. Nothing is asked of the objects: a name that no file can have has no object after the line.
pub fn shows_law()
    ensures done { (set : Settings) (O : Objects) (ops : List Op) (t : Tree) → IsPlain O ops → PastOps set O ops (length ops) t → Shows set (fold_ops O ops) t }
    ensures stays { (set : Settings) (O : Objects) (e f : Tree) → ((c : Coll) → CollFits c → CollStays set c e f) → Shows set O e → Shows set O f }
{}
