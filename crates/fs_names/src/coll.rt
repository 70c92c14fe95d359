ghost use Rattle.std.specs.Prelude.{◌≡◌};
ghost use Rattle.fs_names.specs.Groups.{group_of};

/// The name of a collection.
#[derive(Debug, Drop, Clone, Copy)]
pub enum Coll {
    Meta,
    Pg { pool: u64, seed: u32, temp: bool },
}

impl Coll {
    ghost use Rattle.fs_names.specs.Reading.{CollFits};

    /// A value of the type can be spelled.
    pub fn fits(self)
        ensures { CollFits self }
    {}
}

/// What transactions conflict over: a collection and its temporary one share a group.
#[derive(Debug, Drop, Clone, Copy, PartialEq, Eq)]
pub enum GroupId {
    Meta,
    /// The pool and the seed.
    Pg(u64, u32),
}

/// The group of a collection. It takes no memory.
pub fn group(coll: &Coll) -> GroupId
    ensures { result ≡ group_of coll.now }
{
    match *coll {
        Coll::Meta => GroupId::Meta,
        Coll::Pg { pool, seed, .. } => GroupId::Pg(pool, seed),
    }
}
