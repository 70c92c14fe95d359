ghost use Rattle.std.specs.Prelude.{◌≡◌, ◌<◌, ◌≤◌, length, Err, IfOk, IfErr, OnErr, OnOk};
ghost use Rattle.std.specs.List.{All};
ghost use Rattle.fs_names.specs.Names.{IsName};

use crate::NameFault;
use std::alloc::{AllocError, Global};
use std::marker::Model;

/// A name, a key or a namespace of an object: at most 1,024 bytes, of any values.
#[derive(Debug, Drop)]
pub struct Name {
    bytes: Vec<u8>,
}

impl Model for Name {
    ghost use Rattle.std.specs.Prelude.{List, ℕ};
    ghost use Rattle.fs_names.specs.Names.{IsName};

    ghost Value = { List ℕ };

    ghost view = { λ n. n.bytes.items };

    ghost invariant = { λ n. IsName n.bytes.items };
}

impl Name {
    /// Refuses more than 1,024 bytes, then for want of memory.
    pub fn new(alloc: Global, bytes: &[u8]) -> Result<Name, NameFault>
        ensures ok { IfOk result (λ name. name ≡ bytes.now) }
        ensures name { OnOk result (IsName bytes.now) }
        ensures long { 1024 < length bytes.now → result ≡ Err (NameFault.TooLong 0) }
        ensures memory { length bytes.now ≤ 1024 → IfErr result (λ fault. fault ≡ NameFault.Memory) }
    {
        if bytes.len() > 1024 {
            return Err(NameFault::TooLong { field: 0 });
        }
        Ok(Name::of(bytes.to_vec(alloc)?))
    }

    /// The name of these bytes.
    pub(crate) fn of(bytes: Vec<u8>) -> Name
        requires { length bytes.items ≤ 1024 }
        ensures { result ≡ bytes.items }
    {
        Name { bytes }
    }

    pub fn bytes(&self) -> &[u8]
        ensures value { result.now ≡ self.now }
        ensures name { IsName self.now }
        ensures short { length self.now ≤ 1024 }
    {
        &self.bytes
    }

    pub fn copy(&self) -> Result<Name, AllocError>
        ensures { IfOk result (λ name. name ≡ self.now) }
    {
        Ok(Name {
            bytes: self.bytes.clone()?,
        })
    }
}
