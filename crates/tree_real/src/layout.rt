ghost use Rattle.std.specs.Prelude.{◌≡◌, ◌≢◌, ◌++◌, ℕ, List, codes, All, IfOk, OnOk, IsErrOf, MatchOption, string_bytes};
ghost use Rattle.tree_api.specs.declared.tree.TreeError.TheVariants.{Refused};
ghost use Rattle.hex.specs.Hex.{encode_lower};
ghost use Rattle.tree_real.specs.Places.{joined, above, IsFileName, node_at, side_at, attr_file};

use std::alloc::{AllocError, Global};
use std::path::Path;
use tree_api::{TreeError, TreePath};

/// The bytes of an attribute's name that one file name holds.
const PIECE: usize = 100;

/// Where the things of a tree lie below its root.
///
/// A node lies at `tree` and its path. Its side folder is `side`, with `c` and the step for each step of its path. In
/// there its attributes are files `_HEX`, and `c` has the side folders of its entries.
///
/// Where a thing lies follows from the root and its path alone, never from the file system's own numbers: so a closed tree
/// may be copied or moved as a whole.
#[derive(Debug, Drop)]
pub struct Layout {
    alloc: Global,
    root: String,
}

/// Where a node lies.
#[derive(Debug, Drop)]
pub struct Place {
    pub node: String,
    pub side: String,
}

impl Layout {
    pub fn new(alloc: Global, root: &str) -> Result<Layout, AllocError>
        ensures { IfOk result (λ l. string_bytes l.root ≡ root.now) }
    {
        Ok(Layout {
            alloc,
            root: String::from_str(alloc, root)?,
        })
    }

    pub fn root(&self) -> &str
        ensures { result.now ≡ string_bytes self.now.root }
    {
        &self.root
    }

    /// What follows the root in this path.
    pub fn inside<'a>(&self, path: &'a str) -> &'a str
        ensures below { (rest : List ℕ) → path.now ≡ string_bytes self.now.root ++ rest → result.now ≡ rest }
        ensures elsewhere { ((rest : List ℕ) → path.now ≢ string_bytes self.now.root ++ rest) → result.now ≡ path.now }
    {
        path.strip_prefix(self.root.as_str()).unwrap_or(path)
    }

    /// The root followed by this.
    pub fn outside(&self, inside: &str) -> Result<String, AllocError>
        ensures { IfOk result (λ path. string_bytes path ≡ string_bytes self.now.root ++ inside.now) }
    {
        let mut path = String::from_str(self.alloc, &self.root)?;
        path.push_str(inside)?;
        Ok(path)
    }

    /// What stands at this path below the root.
    pub fn below(&self, path: &str) -> Result<String, AllocError>
        ensures { IfOk result (λ all. string_bytes all ≡ joined (string_bytes self.now.root) path.now) }
    {
        joined(self.alloc, &self.root, path)
    }

    /// Where the node at this path lies. `.` and `..` are no names for a file here, and so refused.
    pub fn place(&self, path: &TreePath) -> Result<Place, TreeError>
        ensures node { IfOk result (λ place. string_bytes place.node ≡ node_at (string_bytes self.now.root) path.now) }
        ensures side { IfOk result (λ place. string_bytes place.side ≡ side_at (string_bytes self.now.root) path.now) }
        ensures names { OnOk result (All IsFileName path.now) }
        ensures refused { IsErrOf result Refused → ¬ (All IsFileName path.now) }
    {
        let mut node = self.below("tree")?;
        let mut side = self.below("side")?;
        for i in 0..path.steps() {
            let Some(step) = file_name(path.step(i)) else {
                return Err(TreeError::Refused);
            };
            push_step(&mut node, "/", step)?;
            push_step(&mut side, "/c/", step)?;
        }
        Ok(Place { node, side })
    }

    /// The file of an attribute: `_` and the name in hexadecimal digits. Of a long name, folders of `-` and 100 bytes
    /// each come first.
    pub fn attr(&self, path: &TreePath, name: &[u8]) -> Result<String, TreeError>
        ensures path { IfOk result (λ file. string_bytes file ≡ side_at (string_bytes self.now.root) path.now ++ attr_file name.now) }
        ensures names { OnOk result (All IsFileName path.now) }
        ensures refused { IsErrOf result Refused → ¬ (All IsFileName path.now) }
    {
        let mut file = self.place(path)?.side;
        self.push_name(&mut file, name)?;
        Ok(file)
    }

    // The file of an attribute, behind its folder.
    fn push_name(&self, file: &mut String, name: &[u8]) -> Result<(), AllocError>
        ensures { OnOk result (string_bytes file.new ≡ string_bytes file.old ++ attr_file name.now) }
    {
        let count = name.len().saturating_sub(1) / PIECE;
        for k in 0..count {
            self.push_digits(file, "/-", &name[k * PIECE..k * PIECE + PIECE])?;
        }
        self.push_digits(file, "/_", &name[count * PIECE..])
    }

    // These bytes as digits, behind a path.
    fn push_digits(&self, file: &mut String, begin: &str, bytes: &[u8]) -> Result<(), AllocError>
        ensures { OnOk result (string_bytes file.new ≡ string_bytes file.old ++ (begin.now ++ encode_lower bytes.now)) }
    {
        let digits = hex::encode(self.alloc, bytes)?;
        push_step(file, begin, &digits)
    }

    /// A file beside this one.
    pub fn beside(&self, file: &str) -> Result<String, AllocError>
        ensures { IfOk result (λ path. string_bytes path ≡ joined (above file.now) (codes "new")) }
    {
        joined(self.alloc, above(file), "new")
    }
}

// A path with these two behind it.
fn push_step(path: &mut String, begin: &str, step: &str) -> Result<(), AllocError>
    ensures { OnOk result (string_bytes path.new ≡ string_bytes path.old ++ (begin.now ++ step.now)) }
{
    path.push_str(begin)?;
    path.push_str(step)
}

/// This path with one more name.
pub fn joined(alloc: Global, dir: &str, name: &str) -> Result<String, AllocError>
    ensures { IfOk result (λ path. string_bytes path ≡ joined dir.now name.now) }
{
    let mut path = String::from_str(alloc, dir)?;
    push_step(&mut path, "/", name)?;
    Ok(path)
}

/// The folder in which this stands.
pub fn above(path: &str) -> &str
    ensures { result.now ≡ above path.now }
{
    match Path::new(path).parent() {
        Some(dir) if !dir.as_str().is_empty() => dir.as_str(),
        _ => ".",
    }
}

// A step as the name of a file.
fn file_name(step: &[u8]) -> Option<&str>
    ensures { MatchOption result (¬ (IsFileName step.now)) (λ name. (name.now ≡ step.now) × IsFileName step.now) }
{
    let Ok(name) = str::from_utf8(step) else {
        return None;
    };
    if name == "." || name == ".." {
        return None;
    }
    Some(name)
}
