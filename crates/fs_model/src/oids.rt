ghost use Rattle.std.specs.Prelude.{◌≡◌};

use fs_names::Oid;
use std::marker::Model;

/// A list of names of objects.
#[derive(Drop)]
pub struct OidList {
    oids: Vec<Oid>,
}

impl Model for OidList {
    ghost use Rattle.std.specs.Prelude.{List};
    ghost use Rattle.fs_names.specs.declared.oid.Oid.{Oid};

    ghost Value = { List Oid };

    ghost view = { λ l. l.oids.items };
}

impl OidList {
    pub fn from_vec(oids: Vec<Oid>) -> OidList
        ensures { result ≡ oids.items }
    {
        OidList { oids }
    }

    pub fn slice(&self) -> &[Oid]
        ensures { result.now ≡ self.now }
    {
        &self.oids
    }

    pub fn into_vec(self) -> Vec<Oid>
        ensures { result.items ≡ self }
    {
        self.oids
    }
}
