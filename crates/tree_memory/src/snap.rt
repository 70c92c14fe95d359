// What a snapshot keeps.
ghost use Rattle.std.specs.Prelude.{◌≡◌, map, IfOk};
ghost use Rattle.tree_memory.specs.Nodes.{version};
ghost use Rattle.tree_memory.specs.Kept.{content_of, rests_of, IsEach};

use crate::node::Node;
use std::alloc::{AllocError, Global};
use tree_api::TreePath;

/// A node in a snapshot.
#[derive(Drop)]
pub struct Kept {
    /// The steps that lead to it from `current` on.
    pub rest: TreePath,
    pub node: Node,
}

/// What a snapshot keeps, no path twice.
#[derive(Drop)]
pub struct Snap {
    pub kept: Vec<Kept>,
    ghost each: { IsEach (rests_of kept.items) },
}

impl Kept {
    fn copy(&self, alloc: Global) -> Result<Kept, AllocError>
        ensures rest { IfOk result (λ k. k.rest ≡ self.now.rest) }
        ensures node { IfOk result (λ k. version k.node ≡ version self.now.node) }
    {
        Ok(Kept {
            rest: self.rest.copy()?,
            node: self.node.copy(alloc)?,
        })
    }
}

impl Snap {
    pub fn copy(&self, alloc: Global) -> Result<Snap, AllocError>
        ensures { IfOk result (λ s. content_of s.kept.items ≡ content_of self.now.kept.items) }
    {
        let mut kept = Vec::new(alloc);
        for one in &self.kept {
            kept.push(one.copy(alloc)?)?;
        }
        Ok(Snap { kept })
    }

    /// Copies of its nodes, in its order.
    pub fn nodes(&self, alloc: Global) -> Result<Vec<Node>, AllocError>
        ensures { IfOk result (λ v. map version v.items ≡ map (λ k. version k.node) self.now.kept.items) }
    {
        let mut nodes = Vec::new(alloc);
        for one in &self.kept {
            nodes.push(one.node.copy(alloc)?)?;
        }
        Ok(nodes)
    }
}
