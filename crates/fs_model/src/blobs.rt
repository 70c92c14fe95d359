ghost use Rattle.std.specs.Prelude.{◌≡◌};

use crate::Blob;
use std::marker::Model;

/// A list of lists of bytes, as the keys that an operation names.
#[derive(Debug, Drop)]
pub struct BlobList {
    blobs: Vec<Blob>,
}

impl Model for BlobList {
    ghost use Rattle.std.specs.Prelude.{List, ℕ};

    ghost Value = { List (List ℕ) };

    ghost view = { λ l. l.blobs.items };
}

impl BlobList {
    pub fn from_vec(blobs: Vec<Blob>) -> BlobList
        ensures { result ≡ blobs.items }
    {
        BlobList { blobs }
    }

    pub fn slice(&self) -> &[Blob]
        ensures { result.now ≡ self.now }
    {
        &self.blobs
    }

    pub fn into_vec(self) -> Vec<Blob>
        ensures { result.items ≡ self }
    {
        self.blobs
    }
}
