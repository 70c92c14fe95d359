// Which node stands at a path.
ghost use Rattle.std.specs.Prelude.{◌≡◌, OnOk, OnErr, IfOk};
ghost use Rattle.tree_memory.specs.Names.{names_at, no_names, put_at, gone_at, edited_once, edited, IsBelow};

use crate::event::Edit;
use crate::paths::rest_of;
use crate::place::Place;
use std::alloc::{AllocError, Global};
use std::collections::BTreeMap;
use tree_api::TreePath;

/// A map from paths to the numbers of nodes.
#[derive(Drop)]
pub struct NameMap {
    pub alloc: Global,
    pub map: BTreeMap<Place, usize>,
}

/// What stands below a directory.
#[derive(Drop)]
pub struct Name {
    /// The steps from the directory on.
    pub rest: TreePath,
    pub node: usize,
}

impl NameMap {
    pub fn new(alloc: Global) -> NameMap
        ensures { names_at result ≡ no_names }
    {
        NameMap {
            alloc,
            map: BTreeMap::new(alloc),
        }
    }

    pub fn copy(&self) -> Result<NameMap, AllocError>
        ensures { IfOk result (λ m. names_at m ≡ names_at self.now) }
    {
        Ok(NameMap {
            alloc: self.alloc,
            map: self.map.clone()?,
        })
    }

    pub fn find(&self, path: &TreePath) -> Result<Option<usize>, AllocError>
        ensures { IfOk result (λ n. n ≡ names_at self.now path.now) }
    {
        let place = Place { path: path.copy()? };
        Ok(self.map.get(&place).copied())
    }

    pub fn link(&mut self, path: &TreePath, node: usize) -> Result<(), AllocError>
        ensures ok { OnOk result (names_at self.new ≡ put_at path.now node (names_at self.old)) }
        ensures err { OnErr result (names_at self.new ≡ names_at self.old) }
    {
        let place = Place { path: path.copy()? };
        self.map.insert(place, node)?;
        Ok(())
    }

    pub fn unlink(&mut self, place: &Place)
        ensures { names_at self.new ≡ gone_at place.now (names_at self.old) }
    {
        self.map.remove(place);
    }

    fn edit(&mut self, edit: &Edit) -> Result<(), AllocError>
        ensures { OnOk result (names_at self.new ≡ edited_once edit.now (names_at self.old)) }
    {
        match edit {
            Edit::Link { path, node } => self.link(path, *node)?,
            Edit::Unlink { place } => self.unlink(place),
        }
        Ok(())
    }

    /// All these edits, one after another, or none.
    pub fn edit_all(&mut self, edits: &[Edit]) -> Result<(), AllocError>
        ensures ok { OnOk result (names_at self.new ≡ edited edits.now (names_at self.old)) }
        ensures err { OnErr result (names_at self.new ≡ names_at self.old) }
    {
        let mut next = self.copy()?;
        for edit in edits {
            next.edit(edit)?;
        }
        *self = next;
        Ok(())
    }

    /// The directory itself and all that stands below it, in the order of paths.
    pub fn below(&self, dir: &TreePath) -> Result<Vec<Name>, AllocError>
        ensures { IfOk result (λ names. IsBelow (names_at self.now) dir.now names.items) }
    {
        let start = Place { path: dir.copy()? };
        let mut names = Vec::new(self.alloc);
        // They stand together, the directory first.
        for (place, node) in self.map.range(start..) {
            let Some(rest) = rest_of(self.alloc, dir, &place.path)? else {
                return Ok(names);
            };
            names.push(Name { rest, node: *node })?;
        }
        Ok(names)
    }
}
