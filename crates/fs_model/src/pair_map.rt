//! Names and their values, as an object keeps them.
ghost use Rattle.std.specs.Prelude.{◌≡◌, true, OnOk, OnErr, IfOk, map as map_list};
ghost use Rattle.std.specs.Option.{option_copied};
ghost use Rattle.std.specs.FinMap as map;
ghost use Rattle.fs_model.specs.Plain.{entry_of, put_back, undone, IsUndoOf};
ghost use Rattle.fs_model.specs.Rows.{is_between, set_pair, set_pairs, take_keys, take_range};

use crate::{Blob, Pair, PairList};
use std::alloc::{AllocError, Global};
use std::collections::BTreeMap;
use std::marker::Model;

/// Values by name, in byte order of the names.
#[derive(Debug, Drop)]
pub struct PairMap {
    pairs: BTreeMap<Blob, Blob>,
}

impl Model for PairMap {
    ghost use Rattle.std.specs.FinMap as map;
    ghost use Rattle.fs_model.specs.Objects.{ByteMap, map_code};

    ghost Value = { ByteMap };

    ghost coded = { map_code };

    ghost view = { λ m. map.from_entries m.pairs.entries };
}

// A name that was set, and the value that it had before, if any.
#[derive(Drop)]
struct Undo {
    key: Blob,
    old: Option<Blob>,
}

impl PairMap {
    pub fn new(alloc: Global) -> PairMap
        ensures { result ≡ map.empty }
    {
        PairMap {
            pairs: BTreeMap::new(alloc),
        }
    }

    pub fn get(&self, name: &Blob) -> Option<&Blob>
        ensures { option_copied result ≡ map.get self.now name.now }
    {
        self.pairs.get(name)
    }

    /// All names with their values, in byte order of the names.
    pub fn to_list(&self, alloc: Global) -> Result<PairList, AllocError>
        ensures { IfOk result (λ pairs. map_list entry_of pairs ≡ map.entries self.now) }
    {
        let mut pairs = Vec::new(alloc);
        for (key, value) in self.pairs.iter() {
            pairs.push(Pair {
                key: key.copy()?,
                value: value.copy()?,
            })?;
        }
        Ok(PairList::from_vec(pairs))
    }

    pub(crate) fn copy(&self) -> Result<PairMap, AllocError>
        ensures { IfOk result (λ copy. copy ≡ self.now) }
    {
        Ok(PairMap {
            pairs: self.pairs.clone()?,
        })
    }

    pub(crate) fn clear(&mut self)
        ensures { self.new ≡ map.empty }
    {
        self.pairs.clear();
    }

    pub(crate) fn remove(&mut self, name: &Blob)
        ensures { self.new ≡ map.remove self.old name.now }
    {
        self.pairs.remove(name);
    }

    pub(crate) fn remove_all(&mut self, names: &[Blob])
        ensures { self.new ≡ take_keys self.old names.now }
    {
        for name in names {
            self.remove(name);
        }
    }

    // Takes the names away from one up to, not including, another.
    pub(crate) fn remove_range(&mut self, from: &Blob, to: &Blob)
        ensures { self.new ≡ take_range self.old from.now to.now }
    {
        self.pairs.retain(|name, _| !is_between(name, from, to));
    }

    /// Sets names to values, one after the other. Where memory runs out, all stays as it was.
    pub(crate) fn set_all(&mut self, alloc: Global, pairs: &[Pair]) -> Result<(), AllocError>
        ensures ok { OnOk result (self.new ≡ set_pairs self.old pairs.now) }
        ensures err { OnErr result (self.new ≡ self.old) }
    {
        let mut undo = Vec::new(alloc);
        if let Err(fault) = self.set_each(pairs, &mut undo) {
            self.take_back(undo);
            return Err(fault);
        }
        Ok(())
    }

    // Sets names to values, and notes how each is taken back.
    fn set_each(&mut self, pairs: &[Pair], undo: &mut Vec<Undo>) -> Result<(), AllocError>
        ensures ok { OnOk result (self.new ≡ set_pairs self.old pairs.now) }
        ensures noted { IsUndoOf self.old undo.old.items → IsUndoOf self.new undo.new.items }
        ensures back { undone self.new undo.new.items ≡ undone self.old undo.old.items }
    {
        for pair in pairs {
            self.set_one(pair, undo)?;
        }
        Ok(())
    }

    // Sets a name to a value, and gives the value that it had before, if any.
    fn set(&mut self, key: Blob, value: Blob) -> Result<Option<Blob>, AllocError>
        ensures ok { IfOk result (λ old. old ≡ map.get self.old key) }
        ensures set { OnOk result (self.new ≡ map.insert self.old key value) }
        ensures err { OnErr result (self.new ≡ self.old) }
    {
        Ok(self.pairs.insert(key, value)?)
    }

    fn set_one(&mut self, pair: &Pair, undo: &mut Vec<Undo>) -> Result<(), AllocError>
        ensures ok { OnOk result (self.new ≡ set_pair self.old pair.now) }
        ensures noted { IsUndoOf self.old undo.old.items → IsUndoOf self.new undo.new.items }
        ensures back { undone self.new undo.new.items ≡ undone self.old undo.old.items }
    {
        let key = pair.key.copy()?;
        let value = pair.value.copy()?;
        let name = pair.key.copy()?;
        let old = self.set(key, value)?;
        match undo.push(Undo { key: name, old }) {
            Ok(()) => Ok(()),
            Err(failed) => {
                self.put_back(failed.value);
                Err(AllocError)
            }
        }
    }

    // Takes back what was set, the last one first.
    fn take_back(&mut self, undo: Vec<Undo>)
        requires { IsUndoOf self.old undo.items }
        ensures { self.new ≡ undone self.old undo.items }
    {
        let mut undo = undo;
        while let Some(entry) = undo.pop() {
            self.put_back(entry);
        }
    }

    // Gives a name that is there the value that it had before it was set, if any.
    fn put_back(&mut self, undo: Undo)
        requires { map.contains_key self.old undo.key ≡ true }
        ensures { self.new ≡ put_back self.old undo.key undo.old }
    {
        let Undo { key, old } = undo;
        match old {
            None => self.remove(&key),
            Some(value) => self.replace(key, value),
        }
    }

    // Gives a name that is there another value, which takes no memory.
    fn replace(&mut self, key: Blob, value: Blob)
        requires { map.contains_key self.old key ≡ true }
        ensures { self.new ≡ map.insert self.old key value }
    {
        if let Err(_) = self.pairs.insert(key, value) {
            return;
        }
    }
}

// Whether a name is from one up to, not including, another.
fn is_between(name: &Blob, from: &Blob, to: &Blob) -> bool
    ensures { result ≡ is_between from.now to.now name.now }
{
    name.cmp(from).is_ge() && name.cmp(to).is_lt()
}
