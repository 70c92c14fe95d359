// What a tree with all files of a store is.
ghost use Rattle.store_files.specs.Laws.{MadeIsStore, OneStore};

/// A tree with all that `make_files` makes is a store with that identity and those settings.
pub fn made_law()
    ensures { MadeIsStore }
{}

/// A tree is one store at most: each text has one spelling.
pub fn one_law()
    ensures { OneStore }
{}
