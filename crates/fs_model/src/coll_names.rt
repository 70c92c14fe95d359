ghost use Rattle.std.specs.Prelude.{◌≡◌};

use fs_names::Coll;
use std::marker::Model;

/// A list of collections.
#[derive(Drop)]
pub struct CollNames {
    colls: Vec<Coll>,
}

impl Model for CollNames {
    ghost use Rattle.std.specs.Prelude.{List};
    ghost use Rattle.fs_names.specs.declared.coll.Coll.{Coll};

    ghost Value = { List Coll };

    ghost view = { λ l. l.colls.items };
}

impl CollNames {
    pub fn from_vec(colls: Vec<Coll>) -> CollNames
        ensures { result ≡ colls.items }
    {
        CollNames { colls }
    }

    pub fn slice(&self) -> &[Coll]
        ensures { result.now ≡ self.now }
    {
        &self.colls
    }

    pub fn into_vec(self) -> Vec<Coll>
        ensures { result.items ≡ self }
    {
        self.colls
    }
}
