//! A record of calls that only clauses read.
ghost use Rattle.std.specs.Prelude.{◌≡◌, List, [], ◌∷◌};
ghost use Rattle.std.specs.Borrow.{ftrue};
ghost use Rattle.dev_file.specs.Notes.{Note, note_of};

use std::marker::{Model, PhantomData};

// Which call a note is of.
pub(crate) const ASKED: u64 = 0;

pub(crate) const WROTE: u64 = 1;

pub(crate) const GAVE: u64 = 2;

pub(crate) const FAILED: u64 = 3;

pub(crate) const SYNCED: u64 = 4;

pub(crate) const NOT_SYNCED: u64 = 5;

#[derive(Drop)]
pub struct Record {
    marker: PhantomData<u8>,
    pub ghost notes: { List Note },
}

impl Model for Record {
    ghost also_owns = { λ _. ftrue };
}

impl Record {
    pub(crate) fn new() -> Record
        ensures { result.notes ≡ [] }
    {
        Record {
            marker: PhantomData,
        }
    }

    /// The numbers are which call it is, and a place.
    pub(crate) fn note(&mut self, _numbers: &[u64], _bytes: &[u8])
        ensures { self.new.notes ≡ note_of _numbers.now _bytes.now ∷ self.old.notes }
    {}
}
