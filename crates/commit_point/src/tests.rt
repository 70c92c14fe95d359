ghost use Rattle.std.specs.Prelude.{OnOk};
ghost use Rattle.commit_point.specs.Number.{IsReady};

use super::*;
use index_fault::IndexFault;
use std::alloc::Global;
use std::test::Fail;
use tree_api::{FileTree, TreePath};
use tree_memory::MemoryTree;
use tree_trials::{add_dir, need_dir, need_file, need_free};

fn current(alloc: Global) -> Result<TreePath, IndexFault> {
    Ok(TreePath::root(alloc).join(b"current")?)
}

// A tree with `current` and `current/aside`.
fn made(alloc: Global, fail: Vec<u64>) -> Result<MemoryTree, IndexFault> {
    let mut tree = MemoryTree::new(alloc, fail)?;
    let current = add_dir(&mut tree, &TreePath::root(alloc), b"current")?;
    add_dir(&mut tree, &current, b"aside")?;
    Ok(tree)
}

// A number may be written.
fn need_ready<T: FileTree>(alloc: Global, tree: &mut T) -> Result<(), IndexFault>
    ensures ready { T.tells tree.new → OnOk result (IsReady (T.disk tree.new).tree) }
{
    let current = TreePath::root(alloc).join(b"current")?;
    let aside = current.join(b"aside")?;
    let place = aside.join(b"seq")?;
    let path = current.join(b"commit_op_seq")?;
    need_dir(tree, &aside)?;
    need_free(tree, &place)?;
    need_free(tree, &path)?;
    Ok(())
}

fn write<T: FileTree>(alloc: Global, tree: &mut T, seq: u64) -> Result<(), IndexFault> {
    need_ready(alloc, tree)?;
    write_seq(alloc, tree, seq)
}

// What is read where the number's file has this text.
fn read(alloc: Global, text: &[u8]) -> Result<Option<u64>, IndexFault> {
    let mut tree = made(alloc, Vec::new(alloc))?;
    write(alloc, &mut tree, 0)?;
    let path = current(alloc)?.join(b"commit_op_seq")?;
    need_file(&mut tree, &path)?;
    tree.set_len(&path, 0)?;
    if text.len() < 100 {
        need_file(&mut tree, &path)?;
        tree.write_at(&path, 0, text)?;
    }
    read_seq(alloc, &mut tree)
}

#[test]
fn a_number_is_read_as_it_was_written(rt: HostRuntime) -> Result<(), Fail> {
    let alloc = rt.alloc();
    let mut tree = made(alloc, Vec::new(alloc))?;
    assert!(rt; matches!(read_seq(alloc, &mut tree)?, None));
    for number in [0, 1, 31, (1 << 63) - 1] {
        write(alloc, &mut tree, number)?;
        assert!(rt; read_seq(alloc, &mut tree)? == Some(number), "{number}");
    }
    write(alloc, &mut tree, 1 << 63)?;
    assert!(rt; matches!(read_seq(alloc, &mut tree)?, None));
    Ok(())
}

#[test]
fn a_text_that_spells_no_number_is_none(rt: HostRuntime) -> Result<(), Fail> {
    let alloc = rt.alloc();
    assert!(rt; read(alloc, b"00000000000000af\n")? == Some(175));
    for text in [
        b"".as_slice(),
        b"00000000000000af",
        b"00000000000000AF\n",
        b"00000000000000af\n\n",
        b"00000000000000ag\n",
        b"8000000000000000\n",
        b" 0000000000000af\n",
    ] {
        assert!(rt; matches!(read(alloc, text)?, None));
    }
    Ok(())
}
