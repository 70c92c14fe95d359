ghost use Rattle.std.specs.Prelude.{◌≡◌, ◌≢◌, ◌≤◌, IfOk};
ghost use Rattle.lfn_index.specs.Changes.{aside};
ghost use Rattle.tree_bench.specs.Command.{command_of};
ghost use Rattle.tree_bench.specs.Faults.{HasCause};
ghost use Rattle.tree_bench.specs.Objects.{objects, object};

use crate::fault::Fault;
use fs_names::{Mode, Name, NameFault, Oid, Pos, Settings, Snap};
use lfn_index::{find, make, unlink};
use std::alloc::{AllocError, Global};
use tree_api::{FileTree, TreePath};

const SETTINGS: Settings = Settings {
    merge: 10,
    split: 2,
    lfn: 40,
    mode: Mode::WriteAhead,
};

/// What is done with each object.
#[derive(Clone, Copy, Debug, PartialEq, Eq)]
pub enum Command {
    Make,
    Find,
    Remove,
}

pub fn read_command(word: &[u8]) -> Option<Command>
    ensures { result ≡ command_of word.now }
{
    if word == b"make".as_slice() {
        Some(Command::Make)
    } else if word == b"find".as_slice() {
        Some(Command::Find)
    } else if word == b"remove".as_slice() {
        Some(Command::Remove)
    } else {
        None
    }
}

/// The directory of all objects.
fn directory(alloc: Global) -> Result<TreePath, AllocError>
    ensures { IfOk result (λ path. path ≡ objects) }
{
    TreePath::root(alloc).join(b"objects")
}

/// One of the objects.
fn object(alloc: Global, hash: u32) -> Result<Oid, NameFault>
    ensures { IfOk result (λ oid. oid ≡ object hash) }
{
    Ok(Oid {
        name: Name::new(alloc, b"object")?,
        key: Name::new(alloc, b"")?,
        nspace: Name::new(alloc, b"")?,
        snap: Snap::Head,
        hash,
        pool: Some(1),
    })
}

fn make_all<T: FileTree>(
    alloc: Global,
    tree: &mut T,
    dir: &TreePath,
    count: u32,
) -> Result<(), Fault>
    requires untold { T.tells tree.old → ⊥ }
    requires elsewhere { dir.now ≢ aside }
    ensures told { T.tells tree.new → T.tells tree.old }
    ensures cause { HasCause (T.disk tree.old).faults (T.disk tree.new).faults result }
    ensures syncs { (T.disk tree.new).syncs ≡ (T.disk tree.old).syncs }
{
    for hash in 0..count {
        let oid = object(alloc, hash)?;
        let pos = Pos {
            seq: 0,
            txn: 0,
            op: hash,
        };
        make(alloc, tree, &SETTINGS, dir, &oid, pos)?;
    }
    Ok(())
}

/// The path of an object's file, which is to be there.
fn path_of<T: FileTree>(
    alloc: Global,
    tree: &mut T,
    dir: &TreePath,
    hash: u32,
) -> Result<TreePath, Fault>
    requires untold { T.tells tree.old → ⊥ }
    ensures told { T.tells tree.new → T.tells tree.old }
    ensures cause { HasCause (T.disk tree.old).faults (T.disk tree.new).faults result }
    ensures syncs { (T.disk tree.new).syncs ≡ (T.disk tree.old).syncs }
{
    let oid = object(alloc, hash)?;
    let Some(path) = find(alloc, tree, &SETTINGS, dir, &oid)? else {
        return Err(Fault::Objects);
    };
    Ok(path)
}

fn find_all<T: FileTree>(
    alloc: Global,
    tree: &mut T,
    dir: &TreePath,
    count: u32,
) -> Result<(), Fault>
    requires untold { T.tells tree.old → ⊥ }
    ensures told { T.tells tree.new → T.tells tree.old }
    ensures cause { HasCause (T.disk tree.old).faults (T.disk tree.new).faults result }
    ensures syncs { (T.disk tree.new).syncs ≡ (T.disk tree.old).syncs }
{
    for hash in 0..count {
        path_of(alloc, tree, dir, hash)?;
    }
    Ok(())
}

fn remove_all<T: FileTree>(
    alloc: Global,
    tree: &mut T,
    dir: &TreePath,
    count: u32,
) -> Result<(), Fault>
    requires untold { T.tells tree.old → ⊥ }
    ensures told { T.tells tree.new → T.tells tree.old }
    ensures cause { HasCause (T.disk tree.old).faults (T.disk tree.new).faults result }
    ensures syncs { (T.disk tree.new).syncs ≡ (T.disk tree.old).syncs }
{
    for hash in 0..count {
        let path = path_of(alloc, tree, dir, hash)?;
        unlink(tree, &path)?;
    }
    Ok(())
}

pub fn do_command<T: FileTree>(
    alloc: Global,
    command: Command,
    tree: &mut T,
    count: u32,
) -> Result<(), Fault>
    requires untold { T.tells tree.old → ⊥ }
    ensures told { T.tells tree.new → T.tells tree.old }
    ensures cause { HasCause (T.disk tree.old).faults (T.disk tree.new).faults result }
    ensures syncs { (T.disk tree.new).syncs ≡ (T.disk tree.old).syncs }
{
    let dir = directory(alloc)?;
    match command {
        Command::Make => {
            tree.make_dir(&dir)?;
            make_all(alloc, tree, &dir, count)
        }
        Command::Find => find_all(alloc, tree, &dir, count),
        Command::Remove => remove_all(alloc, tree, &dir, count),
    }
}
