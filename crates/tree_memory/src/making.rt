// The events that calls become.
ghost use Rattle.std.specs.Prelude.{◌≡◌, ◌≢◌, ◌+◌, ◌<◌, ◌^◌, ℕ, Some, None, length, IfOk};
ghost use Rattle.tree_api.specs.Tree.{look};
ghost use Rattle.tree_api.specs.Answer.{IsStat, IsListing, kind_of as kind_told};
ghost use Rattle.tree_memory.specs.Names.{names_at};
ghost use Rattle.tree_memory.specs.Nodes.{written_in, cut_to, with_attr};
ghost use Rattle.tree_memory.specs.Kept.{rests_of};
ghost use Rattle.tree_memory.specs.Told.{tree_of, count_of, IsLow};
ghost use Rattle.tree_memory.specs.Events.{IsChange, IsMoving, IsRestoring};

use crate::event::Event;
use crate::node::Change;
use crate::place::Place;
use crate::store::Store;
use std::alloc::AllocError;
use tree_api::{Bytes, Entry, Kind, Stat, TreePath};

fn kind_of(dir: bool) -> Kind
    ensures { result ≡ kind_told dir }
{
    if dir { Kind::Dir } else { Kind::File }
}

impl Store {
    // The number of the node at a path at which one stands.
    pub fn node_at(&self, path: &TreePath) -> Result<usize, AllocError>
        requires { names_at self.now.names path.now ≢ None }
        ensures { IfOk result (λ n. names_at self.now.names path.now ≡ Some n) }
    {
        match self.names.find(path)? {
            Some(node) => Ok(node),
            None => unreachable!(),
        }
    }

    pub fn making(&self, path: &TreePath, dir: bool) -> Result<Event, AllocError>
        ensures { IfOk result (λ e. e ≡ Event.Make path.now (count_of self.now) dir) }
    {
        Ok(Event::Make {
            path: path.copy()?,
            node: self.nodes.len(),
            dir,
        })
    }

    pub fn removing(&self, path: &TreePath) -> Result<Event, AllocError>
        ensures { IfOk result (λ e. e ≡ Event.Remove path.now) }
    {
        Ok(Event::Remove {
            place: Place { path: path.copy()? },
        })
    }

    pub fn writing(&self, path: &TreePath, at: u64, bytes: &[u8]) -> Result<Event, AllocError>
        requires there { names_at self.now.names path.now ≢ None }
        requires place { at + length bytes.now < 2 ^ 63 }
        ensures { IfOk result (λ e. IsChange (tree_of self.now) path.now (λ v. written_in v at bytes.now) e) }
    {
        let node = self.node_at(path)?;
        let bytes = Vec::from_slice(self.alloc, bytes)?;
        Ok(Event::Change {
            node,
            change: Change::Write { at, bytes },
        })
    }

    pub fn cutting(&self, path: &TreePath, len: u64) -> Result<Event, AllocError>
        requires there { names_at self.now.names path.now ≢ None }
        requires place { len < 2 ^ 63 }
        ensures { IfOk result (λ e. IsChange (tree_of self.now) path.now (λ v. cut_to v len) e) }
    {
        let node = self.node_at(path)?;
        Ok(Event::Change {
            node,
            change: Change::Cut { len },
        })
    }

    pub fn setting(&self, path: &TreePath, name: &[u8], value: &[u8]) -> Result<Event, AllocError>
        requires { names_at self.now.names path.now ≢ None }
        ensures { IfOk result (λ e. IsChange (tree_of self.now) path.now (λ v. with_attr v name.now (Some value.now)) e) }
    {
        let node = self.node_at(path)?;
        let name = Bytes::new(self.alloc, name)?;
        let value = Bytes::new(self.alloc, value)?;
        Ok(Event::Change {
            node,
            change: Change::Attr {
                name,
                value: Some(value),
            },
        })
    }

    pub fn unsetting(&self, path: &TreePath, name: &[u8]) -> Result<Event, AllocError>
        requires { names_at self.now.names path.now ≢ None }
        ensures { IfOk result (λ e. IsChange (tree_of self.now) path.now (λ v. with_attr v name.now None) e) }
    {
        let node = self.node_at(path)?;
        let name = Bytes::new(self.alloc, name)?;
        Ok(Event::Change {
            node,
            change: Change::Attr { name, value: None },
        })
    }

    pub fn syncing(&self, path: &TreePath) -> Result<Event, AllocError>
        requires { names_at self.now.names path.now ≢ None }
        ensures { IfOk result (λ e. (n : ℕ) × (e ≡ Event.SyncFile n) × (names_at self.now.names path.now ≡ Some n)) }
    {
        Ok(Event::SyncFile {
            node: self.node_at(path)?,
        })
    }

    pub fn moving(&self, from: &TreePath, to: &TreePath) -> Result<Event, AllocError>
        requires there { names_at self.now.names from.now ≢ None }
        requires low { IsLow self.now }
        ensures { IfOk result (λ e. IsMoving (tree_of self.now) from.now to.now e) }
    {
        let node = self.node_at(from)?;
        if self.nodes[node].dir {
            return Ok(Event::MoveAll {
                edits: self.moves(from, to)?,
            });
        }
        let from = Place { path: from.copy()? };
        let to = Place { path: to.copy()? };
        if from == to {
            return Ok(Event::MoveAll {
                edits: Vec::new(self.alloc),
            });
        }
        Ok(Event::Move {
            from,
            to: to.path,
            node,
        })
    }

    pub fn restoring(&self, seq: u64) -> Result<Event, AllocError>
        requires { (tree_of self.now).snap seq ≢ None }
        ensures { IfOk result (λ e. IsRestoring self.now seq e) }
    {
        let Some(snap) = self.snaps.find(seq) else {
            unreachable!()
        };
        let first = self.nodes.len();
        Ok(Event::Rollback {
            first,
            nodes: snap.nodes(self.alloc)?,
            edits: self.restores(snap, first)?,
        })
    }

    pub fn stat(&self, path: &TreePath) -> Result<Option<Stat>, AllocError>
        requires { IsLow self.now }
        ensures { IfOk result (λ s. IsStat (look (tree_of self.now) path.now) s) }
    {
        let Some(node) = self.names.find(path)? else {
            return Ok(None);
        };
        let node = &self.nodes[node];
        let len = if node.dir { 0 } else { node.bytes.len() as u64 };
        Ok(Some(Stat {
            kind: kind_of(node.dir),
            len,
        }))
    }

    pub fn list(&self, dir: &TreePath) -> Result<Vec<Entry>, AllocError>
        requires { IsLow self.now }
        ensures { IfOk result (λ es. IsListing (tree_of self.now) dir.now es.items) }
    {
        let names = self.names.below(dir)?;
        let mut entries = Vec::new(self.alloc);
        for name in &names {
            if name.rest.steps() == 1 {
                entries.push(Entry {
                    step: name.rest.copy()?,
                    kind: kind_of(self.nodes[name.node].dir),
                })?;
            }
        }
        Ok(entries)
    }
}
