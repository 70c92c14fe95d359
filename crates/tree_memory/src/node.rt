// A node's bytes and attributes.
ghost use Rattle.std.specs.Prelude.{◌≡◌, ◌+◌, ◌-◌, ◌<◌, ◌≤◌, ◌^◌, ◌++◌, true, length, min, take, drop, replicate, vec_len, OnOk, OnErr, IfOk};
ghost use Rattle.tree_api.specs.Answer.{bytes_of, AreAttrs};
ghost use Rattle.tree_memory.specs.Nodes.{version, fresh, written_in, cut_to, with_attr, changed, fits};

use std::alloc::{AllocError, Global};
use std::collections::BTreeMap;
use tree_api::{AttrName, Bytes};

/// A file or a directory.
#[derive(Drop)]
pub struct Node {
    pub dir: bool,
    pub bytes: Vec<u8>,
    pub attrs: BTreeMap<Bytes, Bytes>,
}

/// What a call does to a node.
#[derive(Drop)]
pub enum Change {
    /// Bytes written at a place.
    Write { at: u64, bytes: Vec<u8> },
    /// A length.
    Cut { len: u64 },
    /// An attribute with its value, or without one.
    Attr { name: Bytes, value: Option<Bytes> },
}

impl Node {
    /// A node without bytes and attributes.
    pub fn new(alloc: Global, dir: bool) -> Node
        ensures { version result ≡ fresh dir }
    {
        Node {
            dir,
            bytes: Vec::new(alloc),
            attrs: BTreeMap::new(alloc),
        }
    }

    pub fn copy(&self, alloc: Global) -> Result<Node, AllocError>
        ensures { IfOk result (λ n. version n ≡ version self.now) }
    {
        Ok(Node {
            dir: self.dir,
            bytes: Vec::from_slice(alloc, &self.bytes)?,
            attrs: self.attrs.clone()?,
        })
    }

    /// Changes the node, in place.
    pub fn change(&mut self, change: &Change) -> Result<(), AllocError>
        requires { fits change.now ≡ true }
        ensures ok { OnOk result (version self.new ≡ changed change.now (version self.old)) }
        ensures err { OnErr result (version self.new ≡ version self.old) }
    {
        match change {
            Change::Write { at, bytes } => self.write_at(*at as usize, bytes),
            Change::Cut { len } => self.set_len(*len as usize),
            Change::Attr { name, value } => self.set_attr(name, value),
        }
    }

    fn write_at(&mut self, at: usize, bytes: &[u8]) -> Result<(), AllocError>
        requires { at + length bytes.now < 2 ^ 63 }
        ensures ok { OnOk result (version self.new ≡ written_in (version self.old) at bytes.now) }
        ensures err { OnErr result (version self.new ≡ version self.old) }
    {
        if bytes.is_empty() {
            return Ok(());
        }
        lengthen(&mut self.bytes, at + bytes.len())?;
        put_at(&mut self.bytes, at, bytes);
        Ok(())
    }

    pub fn set_len(&mut self, len: usize) -> Result<(), AllocError>
        ensures ok { OnOk result (version self.new ≡ cut_to (version self.old) len) }
        ensures err { OnErr result (version self.new ≡ version self.old) }
    {
        lengthen(&mut self.bytes, len)?;
        self.bytes.truncate(len);
        Ok(())
    }

    pub fn set_attr(&mut self, name: &Bytes, value: &Option<Bytes>) -> Result<(), AllocError>
        ensures ok { OnOk result (version self.new ≡ with_attr (version self.old) name.now value.now) }
        ensures err { OnErr result (version self.new ≡ version self.old) }
    {
        match value {
            Some(bytes) => {
                self.attrs.insert(name.clone()?, bytes.clone()?)?;
            }
            None => {
                self.attrs.remove(name);
            }
        }
        Ok(())
    }

    /// Bytes from a place on, as many as there are and as `into` holds. Answers how many.
    pub fn read_at(&self, at: usize, into: &mut [u8]) -> usize
        ensures count { result ≡ min (length into.old) (length self.now.bytes.items - at) }
        ensures bytes { into.new ≡ take result (drop at self.now.bytes.items) ++ drop result into.old }
    {
        let from = at.min(self.bytes.len());
        let count = into.len().min(self.bytes.len() - from);
        into[..count].copy_from_slice(&self.bytes[from..from + count]);
        count
    }

    /// The value of an attribute.
    pub fn attr(&self, alloc: Global, name: &[u8]) -> Result<Option<Vec<u8>>, AllocError>
        ensures { IfOk result (λ v. (version self.now).attr name.now ≡ bytes_of v) }
    {
        let name = Bytes::new(alloc, name)?;
        match self.attrs.get(&name) {
            None => Ok(None),
            Some(value) => Ok(Some(Vec::from_slice(alloc, value.slice())?)),
        }
    }

    /// The names of all attributes, in byte order.
    pub fn attr_names(&self, alloc: Global) -> Result<Vec<AttrName>, AllocError>
        ensures { IfOk result (λ names. AreAttrs (version self.now) names.items) }
    {
        let mut names = Vec::new(alloc);
        for name in self.attrs.keys() {
            names.push(AttrName {
                bytes: name.clone()?,
            })?;
        }
        Ok(names)
    }
}

// Lengthens a list of bytes by zeros where it is shorter.
pub fn lengthen(bytes: &mut Vec<u8>, len: usize) -> Result<(), AllocError>
    ensures ok { OnOk result (bytes.new.items ≡ bytes.old.items ++ replicate (len - length bytes.old.items) 0) }
    ensures err { OnErr result (bytes.new.items ≡ bytes.old.items) }
{
    if bytes.len() < len {
        bytes.resize(len, 0)?;
    }
    Ok(())
}

// Puts bytes over those at a place.
fn put_at(into: &mut Vec<u8>, at: usize, bytes: &[u8])
    requires { at + length bytes.now ≤ vec_len into.old }
    ensures { into.new.items ≡ take at into.old.items ++ bytes.now ++ drop (at + length bytes.now) into.old.items }
{
    into[at..at + bytes.len()].copy_from_slice(bytes);
}
