ghost use Rattle.std.specs.Prelude.{◌≡◌};

use crate::Blob;
use std::marker::Model;

/// A name and its value.
#[derive(Debug, Drop)]
pub struct Pair {
    pub key: Blob,
    pub value: Blob,
}

/// A list of pairs.
#[derive(Debug, Drop)]
pub struct PairList {
    pairs: Vec<Pair>,
}

impl Model for PairList {
    ghost use Rattle.std.specs.Prelude.{List};
    ghost use Rattle.fs_model.specs.declared.pair.Pair.{Pair};

    ghost Value = { List Pair };

    ghost view = { λ l. l.pairs.items };
}

impl PairList {
    pub fn from_vec(pairs: Vec<Pair>) -> PairList
        ensures { result ≡ pairs.items }
    {
        PairList { pairs }
    }

    pub fn slice(&self) -> &[Pair]
        ensures { result.now ≡ self.now }
    {
        &self.pairs
    }

    pub fn into_vec(self) -> Vec<Pair>
        ensures { result.items ≡ self }
    {
        self.pairs
    }
}
