// What a crash may leave of a tree in memory.
ghost use Rattle.std.specs.Prelude.{◌≡◌, ◌⊎◌, ◌+◌, ◌<◌, true, IfOk, OnOk};
ghost use Rattle.tree_api.specs.Tree.{Mix, Version};
ghost use Rattle.tree_memory.specs.History.{History, IsImage, put};
ghost use Rattle.tree_memory.specs.Names.{names_at};
ghost use Rattle.tree_memory.specs.Nodes.{node_of};
ghost use Rattle.tree_memory.specs.Log.{run, start, adds, suits};
ghost use Rattle.tree_memory.specs.Told.{tree_of, count_of};
ghost use Rattle.tree_memory.specs.Leaves.{settle, IsLeft};
ghost use Rattle.tree_memory.specs.Oldest.{oldest, IsOldest};
ghost use Rattle.tree_memory.specs.Tells.{state_of, history_of, plan_of, disk_of};

use crate::event::Event;
use crate::memory::MemoryTree;
use crate::mix::Chooser;
use crate::node::Change;
use crate::store::{Store, add_copies};
use std::alloc::{AllocError, Global};

impl MemoryTree {
    /// One image that a crash may leave now, as a tree of its own.
    ///
    /// Choice 0 is the tree as it reads, choice 1 the oldest names, and of each node the oldest version. Any other one
    /// draws the names, and each length, byte and attribute that was changed, as old or as new, from a generator that
    /// starts at the choice: one number a change of names or of an attribute, and of bytes one for the length and then one
    /// a byte. Where it is 2^31 or more, what is new is taken.
    pub fn leave(&self, choice: u64, fail: Vec<u64>) -> Result<MemoryTree, AllocError>
        ensures image { IfOk result (λ m. (disk_of self.now).may (disk_of m).tree) }
        ensures stable { IfOk result (λ m. state_of m ≡ start (disk_of m).tree) }
        ensures as_it_reads { choice ≡ 0 → IfOk result (λ m. (disk_of m).tree ≡ (disk_of self.now).tree) }
        ensures oldest { choice ≡ 1 → IfOk result (λ m. (disk_of m).tree ≡ oldest (history_of self.now)) }
        ensures plan { IfOk result (λ m. plan_of m ≡ record { fail = fail.items; calls = 0; faults = 0 }) }
        ensures syncs { IfOk result (λ m. (disk_of m).syncs ≡ 0) }
        ensures looks { IfOk result (λ m. (disk_of m).looks ≡ 0) }
    {
        let image = self.left(choice)?;
        MemoryTree::holding(self.alloc, image, fail)
    }

    fn left(&self, choice: u64) -> Result<Store, AllocError>
        ensures image { IfOk result (λ s. IsImage (history_of self.now) (tree_of s)) }
        ensures count { IfOk result (λ s. count_of s ≡ count_of self.now.store) }
        ensures as_it_reads { choice ≡ 0 → IfOk result (λ s. tree_of s ≡ (history_of self.now).tree) }
        ensures oldest { choice ≡ 1 → IfOk result (λ s. tree_of s ≡ oldest (history_of self.now)) }
    {
        if choice == 0 {
            return self.store.copy();
        }
        self.image(choice)
    }

    // Goes through all calls from the start, with the tree as it read then and an image of it.
    fn image(&self, choice: u64) -> Result<Store, AllocError>
        ensures image { IfOk result (λ s. IsImage (history_of self.now) (tree_of s)) }
        ensures count { IfOk result (λ s. count_of s ≡ count_of self.now.store) }
        ensures oldest { choice ≡ 1 → IfOk result (λ s. tree_of s ≡ oldest (history_of self.now)) }
    {
        let mut chooser = Chooser::new(choice);
        let mut now = self.origin.copy()?;
        let mut image = self.origin.copy()?;
        for call in &self.log {
            flush(&mut image, &now, call.synced)?;
            now.apply(&call.event)?;
            follow(&mut image, &now, &call.event, &mut chooser)?;
        }
        flush(&mut image, &now, self.synced)?;
        image.snaps = now.snaps;
        Ok(image)
    }
}

// An image after a whole sync, where there was one.
fn flush(image: &mut Store, now: &Store, synced: bool) -> Result<(), AllocError>
    requires { count_of image.old ≡ count_of now.now }
    ensures image { OnOk result ((h : History) → h.tree ≡ tree_of now.now → IsLeft h image.old → IsLeft (settle synced h) image.new) }
    ensures count { OnOk result (count_of image.new ≡ count_of now.now) }
    ensures oldest { OnOk result ((h : History) → h.tree ≡ tree_of now.now → IsOldest h image.old → IsOldest (settle synced h) image.new) }
{
    if synced {
        *image = now.copy()?;
    }
    Ok(())
}

// An image after an event, after which the tree reads as `now`.
fn follow(
    image: &mut Store,
    now: &Store,
    event: &Event,
    chooser: &mut Chooser,
) -> Result<(), AllocError>
    requires suits { suits (count_of image.old) event.now ≡ true }
    requires count { count_of image.old + adds event.now ≡ count_of now.now }
    ensures image { OnOk result ((h : History) → (run event.now h).tree ≡ tree_of now.now → IsLeft h image.old → IsLeft (run event.now h) image.new) }
    ensures count { OnOk result (count_of image.new ≡ count_of now.now) }
    ensures chooser { chooser.new.oldest ≡ chooser.old.oldest }
    ensures oldest { chooser.old.oldest ≡ true → OnOk result ((h : History) → (run event.now h).tree ≡ tree_of now.now → IsOldest h image.old → IsOldest (run event.now h) image.new) }
{
    match event {
        Event::Make { node, .. } => {
            image.nodes.push(now.nodes[*node].copy(now.alloc)?)?;
            follow_names(image, now, chooser)
        }
        Event::Remove { .. } | Event::Move { .. } | Event::MoveAll { .. } => {
            follow_names(image, now, chooser)
        }
        Event::Change { node, change } => follow_node(image, now, *node, change, chooser),
        Event::SyncFile { node } => {
            image.nodes[*node] = now.nodes[*node].copy(now.alloc)?;
            adopt_names(image, now)
        }
        Event::SyncNames => adopt_names(image, now),
        Event::Snapshot { .. } | Event::DropSnapshot { .. } => Ok(()),
        Event::Rollback { nodes, .. } => {
            add_copies(now.alloc, &mut image.nodes, nodes)?;
            adopt_names(image, now)
        }
    }
}

fn adopt_names(image: &mut Store, now: &Store) -> Result<(), AllocError>
    ensures names { OnOk result (names_at image.new.names ≡ names_at now.now.names) }
    ensures nodes { image.new.nodes ≡ image.old.nodes }
{
    image.names = now.names.copy()?;
    Ok(())
}

// The new names, or the image's own.
fn follow_names(image: &mut Store, now: &Store, chooser: &mut Chooser) -> Result<(), AllocError>
    ensures names { OnOk result ((names_at image.new.names ≡ names_at now.now.names) ⊎ (names_at image.new.names ≡ names_at image.old.names)) }
    ensures nodes { image.new.nodes ≡ image.old.nodes }
    ensures chooser { chooser.new.oldest ≡ chooser.old.oldest }
    ensures kept { chooser.old.oldest ≡ true → names_at image.new.names ≡ names_at image.old.names }
{
    if chooser.takes() {
        return adopt_names(image, now);
    }
    Ok(())
}

// The change of a node, in part or whole.
fn follow_node(
    image: &mut Store,
    now: &Store,
    node: usize,
    change: &Change,
    chooser: &mut Chooser,
) -> Result<(), AllocError>
    requires there { node < count_of image.old }
    requires same { count_of image.old ≡ count_of now.now }
    ensures names { image.new.names ≡ image.old.names }
    ensures count { count_of image.new ≡ count_of image.old }
    ensures mixed { OnOk result ((v : Version) × Mix (node_of image.old.nodes.items node) (node_of now.now.nodes.items node) v × (node_of image.new.nodes.items ≡ put (node_of image.old.nodes.items) node v)) }
    ensures chooser { chooser.new.oldest ≡ chooser.old.oldest }
    ensures kept { chooser.old.oldest ≡ true → node_of image.new.nodes.items ≡ node_of image.old.nodes.items }
{
    let left = &mut image.nodes[node];
    left.mix(&now.nodes[node], change, chooser)
}
