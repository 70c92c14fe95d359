// What the calls of a tree did.
use crate::node::{Change, Node};
use crate::place::Place;
use tree_api::TreePath;

/// A change of one name.
#[derive(Drop)]
pub enum Edit {
    /// A node stands at this path from now on.
    Link { path: TreePath, node: usize },
    /// Nothing stands there.
    Unlink { place: Place },
}

/// A call that changed a tree or made something stable.
#[derive(Drop)]
pub enum Event {
    /// A new node, with its number.
    Make {
        path: TreePath,
        node: usize,
        dir: bool,
    },
    /// A name that goes.
    Remove {
        place: Place,
    },
    /// A name that moves, over one that may stand there.
    Move {
        from: Place,
        to: TreePath,
        node: usize,
    },
    /// Changes of many names.
    MoveAll {
        edits: Vec<Edit>,
    },
    /// A change of a node.
    Change {
        node: usize,
        change: Change,
    },
    /// A sync of a node and of all names.
    SyncFile {
        node: usize,
    },
    /// A sync of all names.
    SyncNames,
    /// A snapshot.
    Snapshot {
        seq: u64,
    },
    /// A snapshot that goes.
    DropSnapshot {
        seq: u64,
    },
    /// New nodes, the first of this number, and changes of names, after which all names are stable.
    Rollback {
        first: usize,
        nodes: Vec<Node>,
        edits: Vec<Edit>,
    },
}

/// An event, and what came before it.
#[derive(Drop)]
pub struct Call {
    /// A whole sync came between the event before and this one.
    pub synced: bool,
    pub event: Event,
}
