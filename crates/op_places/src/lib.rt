//! How far a tree has gone along a line of operations that are done one after the other.
//!
//! `Line.antt` has the line, `Places.antt` how far a tree is, and `Laws.antt` what follows: for the line as it grows, for
//! what is forgotten of it, and for one operation of it, which changes an object, makes a collection or takes one away.
#![tactic(auto)]

ghost use Rattle.op_places.specs.Laws.{CollLaw, EditLaw, LineLaw};

/// A tree without collections has done nothing of a line. A line may grow, and its first operations may be forgotten. Whatever a tree began with, a line takes it to one end.
pub fn line_law()
    ensures { LineLaw }
{}

/// An operation on one object: images stay where they were at any moment, and once it is done what reads is past it. It is
/// left out where its collection isn't there.
pub fn edit_law()
    ensures { EditLaw }
{}

/// The same where a collection is made, or taken away.
pub fn coll_law()
    ensures { CollLaw }
{}
