ghost use Rattle.std.specs.Prelude.{◌≡◌, ◌<◌, ◌^◌, IfOk, IfSome};
ghost use Rattle.fs_names.specs.Reading.{SnapFits};

use crate::Name;
use std::alloc::AllocError;

/// Which snapshot of an object a name stands for.
#[derive(Debug, Drop, Clone, Copy, PartialEq, Eq)]
pub enum Snap {
    Head,
    Dir,
    Id(u64),
}

/// The name of an object.
#[derive(Debug, Drop)]
pub struct Oid {
    pub name: Name,
    pub key: Name,
    pub nspace: Name,
    pub snap: Snap,
    pub hash: u32,
    pub pool: Option<u64>,
}

impl Oid {
    ghost use Rattle.fs_names.specs.Reading.{OidFits};

    /// A value of the type can be spelled.
    pub fn fits(&self)
        ensures { OidFits self.now }
    {
        let _name = self.name.bytes();
        let _key = self.key.bytes();
        let _nspace = self.nspace.bytes();
        let _hash = self.hash;
        snap_fits(self.snap);
        pool_fits(self.pool);
    }

    pub fn copy(&self) -> Result<Oid, AllocError>
        ensures { IfOk result (λ oid. oid ≡ self.now) }
    {
        Ok(Oid {
            name: self.name.copy()?,
            key: self.key.copy()?,
            nspace: self.nspace.copy()?,
            snap: self.snap,
            hash: self.hash,
            pool: self.pool,
        })
    }
}

fn snap_fits(snap: Snap)
    ensures { SnapFits snap }
{}

fn pool_fits(pool: Option<u64>)
    ensures { IfSome pool (λ id. id < 2 ^ 64) }
{}
