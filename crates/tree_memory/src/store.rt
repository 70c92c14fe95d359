// A tree as data.
ghost use Rattle.std.specs.Prelude.{◌≡◌, ◌++◌, ◌<◌, ◌+◌, ◌^◌, ℕ, true, false, List, Some, None, map, length, take, OnOk, OnErr, IfOk};
ghost use Rattle.tree_api.specs.Tree.{current, content};
ghost use Rattle.tree_memory.specs.History.{put, fill};
ghost use Rattle.tree_memory.specs.Names.{names_at, put_at, gone_at, edited, unlinks, links, numbered, IsBelow};
ghost use Rattle.tree_memory.specs.Nodes.{version, fresh, node_of, changed, fits};
ghost use Rattle.tree_memory.specs.Kept.{content_of, rests_of};
ghost use Rattle.tree_memory.specs.Log.{ran, adds, suits};
ghost use Rattle.tree_memory.specs.Told.{tree_of, count_of, empty_tree, IsLow};
ghost use Rattle.tree_memory.specs.declared.names.Name.{Name as OneName};

use crate::event::{Edit, Event};
use crate::names::{Name, NameMap};
use crate::node::{Change, Node};
use crate::paths::joined;
use crate::place::Place;
use crate::snap::{Kept, Snap};
use crate::snaps::Snaps;
use std::alloc::{AllocError, Global};
use tree_api::TreePath;

/// Names, nodes by their numbers, and snapshots.
#[derive(Drop)]
pub struct Store {
    pub alloc: Global,
    pub names: NameMap,
    pub nodes: Vec<Node>,
    pub snaps: Snaps,
}

impl Store {
    /// A root directory alone.
    pub fn new(alloc: Global) -> Result<Store, AllocError>
        ensures tree { IfOk result (λ s. tree_of s ≡ empty_tree) }
        ensures count { IfOk result (λ s. count_of s ≡ 1) }
    {
        let mut names = NameMap::new(alloc);
        names.link(&TreePath::root(alloc), 0)?;
        let mut nodes = Vec::new(alloc);
        nodes.push(Node::new(alloc, true))?;
        Ok(Store {
            alloc,
            names,
            nodes,
            snaps: Snaps::new(alloc),
        })
    }

    pub fn copy(&self) -> Result<Store, AllocError>
        ensures tree { IfOk result (λ s. tree_of s ≡ tree_of self.now) }
        ensures count { IfOk result (λ s. count_of s ≡ count_of self.now) }
    {
        Ok(Store {
            alloc: self.alloc,
            names: self.names.copy()?,
            nodes: copy_nodes(self.alloc, &self.nodes)?,
            snaps: self.snaps.copy()?,
        })
    }

    /// Does what an event did, or nothing.
    pub fn apply(&mut self, event: &Event) -> Result<(), AllocError>
        requires suits { suits (count_of self.old) event.now ≡ true }
        requires low { IsLow self.old }
        ensures ok { OnOk result (tree_of self.new ≡ ran event.now (tree_of self.old)) }
        ensures count { OnOk result (count_of self.new ≡ count_of self.old + adds event.now) }
        ensures err { OnErr result (tree_of self.new ≡ tree_of self.old) }
        ensures err_count { OnErr result (count_of self.new ≡ count_of self.old) }
    {
        match event {
            Event::Make { path, node, dir } => self.make(path, *node, *dir),
            Event::Remove { place } => {
                self.names.unlink(place);
                Ok(())
            }
            Event::Move { from, to, node } => self.move_name(from, to, *node),
            Event::MoveAll { edits } => self.names.edit_all(edits),
            Event::Change { node, change } => self.change(*node, change),
            Event::SyncFile { .. } | Event::SyncNames => Ok(()),
            Event::Snapshot { seq } => self.snapshot(*seq),
            Event::DropSnapshot { seq } => {
                self.snaps.remove(*seq);
                Ok(())
            }
            Event::Rollback { nodes, edits, .. } => self.rollback(nodes, edits),
        }
    }

    fn make(&mut self, path: &TreePath, node: usize, dir: bool) -> Result<(), AllocError>
        requires { node ≡ count_of self.old }
        ensures ok { OnOk result (tree_of self.new ≡ record (tree_of self.old) { at = put_at path.now node (names_at self.old.names); node = put (node_of self.old.nodes.items) node (fresh dir) }) }
        ensures count { OnOk result (count_of self.new ≡ count_of self.old + 1) }
        ensures err { OnErr result (tree_of self.new ≡ tree_of self.old) }
        ensures err_count { OnErr result (count_of self.new ≡ count_of self.old) }
    {
        self.nodes.push(Node::new(self.alloc, dir))?;
        if self.names.link(path, node).is_err() {
            self.nodes.pop();
            return Err(AllocError);
        }
        Ok(())
    }

    fn move_name(&mut self, from: &Place, to: &TreePath, node: usize) -> Result<(), AllocError>
        ensures ok { OnOk result (tree_of self.new ≡ record (tree_of self.old) { at = gone_at from.now (put_at to.now node (names_at self.old.names)) }) }
        ensures err { OnErr result (tree_of self.new ≡ tree_of self.old) }
        ensures count { count_of self.new ≡ count_of self.old }
    {
        self.names.link(to, node)?;
        self.names.unlink(from);
        Ok(())
    }

    fn change(&mut self, node: usize, change: &Change) -> Result<(), AllocError>
        requires there { node < count_of self.old }
        requires fits { fits change.now ≡ true }
        ensures ok { OnOk result (tree_of self.new ≡ record (tree_of self.old) { node = put (node_of self.old.nodes.items) node (changed change.now (node_of self.old.nodes.items node)) }) }
        ensures err { OnErr result (tree_of self.new ≡ tree_of self.old) }
        ensures count { count_of self.new ≡ count_of self.old }
    {
        let changed = &mut self.nodes[node];
        changed.change(change)
    }

    fn snapshot(&mut self, seq: u64) -> Result<(), AllocError>
        requires { IsLow self.old }
        ensures ok { OnOk result (tree_of self.new ≡ record (tree_of self.old) { snap = put (tree_of self.old).snap seq (Some (content (tree_of self.old))) }) }
        ensures err { OnErr result (tree_of self.new ≡ tree_of self.old) }
        ensures count { count_of self.new ≡ count_of self.old }
    {
        let snap = self.current()?;
        self.snaps.insert(seq, snap)
    }

    // What stands in `current`.
    fn current(&self) -> Result<Snap, AllocError>
        requires { IsLow self.now }
        ensures { IfOk result (λ s. content_of s.kept.items ≡ content (tree_of self.now)) }
    {
        let dir = current_path(self.alloc)?;
        let names = self.names.below(&dir)?;
        let mut kept = Vec::new(self.alloc);
        for name in &names {
            let node = self.nodes[name.node].copy(self.alloc)?;
            kept.push(Kept {
                rest: name.rest.copy()?,
                node,
            })?;
        }
        Ok(Snap { kept })
    }

    fn rollback(&mut self, nodes: &[Node], edits: &[Edit]) -> Result<(), AllocError>
        ensures ok { OnOk result (tree_of self.new ≡ record (tree_of self.old) { at = edited edits.now (names_at self.old.names); node = fill (count_of self.old) (map version nodes.now) (node_of self.old.nodes.items) }) }
        ensures count { OnOk result (count_of self.new ≡ count_of self.old + length nodes.now) }
        ensures err { OnErr result (tree_of self.new ≡ tree_of self.old) }
        ensures err_count { OnErr result (count_of self.new ≡ count_of self.old) }
    {
        let count = self.nodes.len();
        if add_copies(self.alloc, &mut self.nodes, nodes).is_err() {
            self.nodes.truncate(count);
            return Err(AllocError);
        }
        if self.names.edit_all(edits).is_err() {
            self.nodes.truncate(count);
            return Err(AllocError);
        }
        Ok(())
    }

    /// The changes of names by which all below a directory moves.
    pub fn moves(&self, from: &TreePath, to: &TreePath) -> Result<Vec<Edit>, AllocError>
        ensures { IfOk result (λ es. (l : List OneName) × IsBelow (names_at self.now.names) from.now l × (es.items ≡ unlinks from.now l ++ links to.now l)) }
    {
        let names = self.names.below(from)?;
        let mut edits = Vec::new(self.alloc);
        add_unlinks(&mut edits, from, &names)?;
        add_links(&mut edits, to, &names)?;
        Ok(edits)
    }

    /// The changes of names by which `current` becomes what a snapshot has, its first node getting this number.
    pub fn restores(&self, snap: &Snap, first: usize) -> Result<Vec<Edit>, AllocError>
        requires { first + length snap.now.kept.items < 2 ^ 64 }
        ensures { IfOk result (λ es. (l : List OneName) × IsBelow (names_at self.now.names) current l × (es.items ≡ unlinks current l ++ links current (numbered first (rests_of snap.now.kept.items)))) }
    {
        let dir = current_path(self.alloc)?;
        let names = self.names.below(&dir)?;
        let mut edits = Vec::new(self.alloc);
        add_unlinks(&mut edits, &dir, &names)?;
        let new_names = number(self.alloc, &snap.kept, first)?;
        add_links(&mut edits, &dir, &new_names)?;
        Ok(edits)
    }
}

// Paths with numbers, the first getting this one.
fn number(alloc: Global, kept: &[Kept], first: usize) -> Result<Vec<Name>, AllocError>
    requires { first + length kept.now < 2 ^ 64 }
    ensures { IfOk result (λ v. v.items ≡ numbered first (rests_of kept.now)) }
{
    let mut names = Vec::new(alloc);
    let mut node = first;
    for one in kept {
        names.push(Name {
            rest: one.rest.copy()?,
            node,
        })?;
        node += 1;
    }
    Ok(names)
}

fn add_unlinks(edits: &mut Vec<Edit>, dir: &TreePath, names: &[Name]) -> Result<(), AllocError>
    ensures { OnOk result (edits.new.items ≡ edits.old.items ++ unlinks dir.now names.now) }
{
    for name in names {
        let path = joined(dir, &name.rest)?;
        edits.push(Edit::Unlink {
            place: Place { path },
        })?;
    }
    Ok(())
}

fn add_links(edits: &mut Vec<Edit>, dir: &TreePath, names: &[Name]) -> Result<(), AllocError>
    ensures { OnOk result (edits.new.items ≡ edits.old.items ++ links dir.now names.now) }
{
    for name in names {
        let path = joined(dir, &name.rest)?;
        edits.push(Edit::Link {
            path,
            node: name.node,
        })?;
    }
    Ok(())
}

/// The directory of which snapshots are made.
pub fn current_path(alloc: Global) -> Result<TreePath, AllocError>
    ensures { IfOk result (λ p. p ≡ current) }
{
    TreePath::root(alloc).join(b"current".as_slice())
}

pub fn copy_nodes(alloc: Global, nodes: &[Node]) -> Result<Vec<Node>, AllocError>
    ensures { IfOk result (λ v. map version v.items ≡ map version nodes.now) }
{
    let mut copies = Vec::new(alloc);
    add_copies(alloc, &mut copies, nodes)?;
    Ok(copies)
}

/// Copies of these nodes after those that are there.
pub fn add_copies(alloc: Global, into: &mut Vec<Node>, nodes: &[Node]) -> Result<(), AllocError>
    ensures ok { OnOk result (map version into.new.items ≡ map version into.old.items ++ map version nodes.now) }
    ensures kept { take (length into.old.items) into.new.items ≡ into.old.items }
{
    for node in nodes {
        into.push(node.copy(alloc)?)?;
    }
    Ok(())
}
