use crate::RealTree;
use dev_edge::EdgeFault;
use std::fs;
use std::process::Abort;
use std::rt::Files;
use std::test::Fail;
use tree_api::{AttrName, Entry, Failed, FileTree, Kind, Stat, TreeError, TreePath, is_step};

// What stands at this step in a directory.
fn below(rt: &(impl Abort + AllocGlobal), dir: &TreePath, step: &[u8]) -> TreePath {
    assert!(rt; is_step(step));
    dir.join(step).expect(rt, "memory")
}

// The path with these steps.
fn path(rt: &(impl Abort + AllocGlobal), steps: &str) -> TreePath {
    let mut path = TreePath::root(rt.alloc());
    for step in steps.split('/') {
        path = below(rt, &path, step.as_bytes());
    }
    path
}

fn open<R: Abort + Files + AllocGlobal + Clone + Drop>(rt: &R, root: &str) -> RealTree<R> {
    let own = rt.clone().expect(rt, "memory");
    RealTree::at(own, root).expect(rt, "a folder")
}

fn create<T: FileTree>(rt: &(impl Abort + AllocGlobal), tree: &mut T, steps: &str)
    requires { T.tells tree.old → ⊥ }
{
    assert_eq!(rt; tree.create(&path(rt, steps)), Ok(()));
}

fn make_dir<T: FileTree>(rt: &(impl Abort + AllocGlobal), tree: &mut T, steps: &str)
    requires { T.tells tree.old → ⊥ }
{
    assert_eq!(rt; tree.make_dir(&path(rt, steps)), Ok(()));
}

fn rename<T: FileTree>(rt: &(impl Abort + AllocGlobal), tree: &mut T, from: &str, to: &str)
    requires { T.tells tree.old → ⊥ }
{
    assert_eq!(rt; tree.rename(&path(rt, from), &path(rt, to)), Ok(()));
}

fn remove_file<T: FileTree>(rt: &(impl Abort + AllocGlobal), tree: &mut T, steps: &str)
    requires { T.tells tree.old → ⊥ }
{
    assert_eq!(rt; tree.remove_file(&path(rt, steps)), Ok(()));
}

fn remove_dir<T: FileTree>(rt: &(impl Abort + AllocGlobal), tree: &mut T, steps: &str)
    requires { T.tells tree.old → ⊥ }
{
    let dir = path(rt, steps);
    if dir.steps() > 0 {
        assert_eq!(rt; tree.remove_dir(&dir), Ok(()));
    }
}

fn write<T: FileTree>(
    rt: &(impl Abort + AllocGlobal),
    tree: &mut T,
    steps: &str,
    at: u32,
    bytes: &[u8; 4],
)
    requires { T.tells tree.old → ⊥ }
{
    assert_eq!(rt;
        tree.write_at(&path(rt, steps), u64::from(at), bytes),
        Ok(())
    );
}

// Eight bytes of 9, over which a file was read from a place on.
fn read<T: FileTree>(rt: &(impl Abort + AllocGlobal), tree: &mut T, steps: &str, at: u32) -> [u8; 8]
    requires { T.tells tree.old → ⊥ }
{
    let mut bytes = [9; 8];
    assert!(rt;
        tree.read_at(&path(rt, steps), u64::from(at), &mut bytes)
            .is_ok()
    );
    bytes
}

fn set_len<T: FileTree>(rt: &(impl Abort + AllocGlobal), tree: &mut T, steps: &str, len: u32)
    requires { T.tells tree.old → ⊥ }
{
    assert_eq!(rt; tree.set_len(&path(rt, steps), u64::from(len)), Ok(()));
}

fn sync_file<T: FileTree>(rt: &(impl Abort + AllocGlobal), tree: &mut T, steps: &str)
    requires { T.tells tree.old → ⊥ }
{
    assert_eq!(rt; tree.sync_file(&path(rt, steps)), Ok(()));
}

// A file's length, or none where nothing stands.
fn len<T: FileTree>(rt: &(impl Abort + AllocGlobal), tree: &mut T, steps: &str) -> Option<u64>
    requires { T.tells tree.old → ⊥ }
{
    match tree.stat(&path(rt, steps)).expect(rt, "a look") {
        Some(
            Stat {
                kind: Kind::File,
                len,
            },
        ) => Some(len),
        Some(
            Stat {
                kind: Kind::Dir,
                ..
            },
        ) => Some(1000),
        None => None,
    }
}

fn entries<T: FileTree>(rt: &(impl Abort + AllocGlobal), tree: &mut T, dir: &TreePath) -> Vec<Entry>
    requires { T.tells tree.old → ⊥ }
{
    tree.list(dir).expect(rt, "a directory")
}

fn is_entry(entries: &[Entry], i: usize, name: &[u8], kind: Kind) -> bool {
    i < entries.len() && is_named(&entries[i].step, name) && entries[i].kind == kind
}

fn is_named(path: &TreePath, name: &[u8]) -> bool {
    path.steps() == 1 && path.step(0) == name
}

fn set_attr<T: FileTree>(
    rt: &(impl Abort + AllocGlobal),
    tree: &mut T,
    steps: &str,
    name: &[u8],
    value: &[u8],
)
    requires { T.tells tree.old → ⊥ }
{
    assert_eq!(rt; tree.set_attr(&path(rt, steps), name, value), Ok(()));
}

fn remove_attr<T: FileTree>(rt: &(impl Abort + AllocGlobal), tree: &mut T, steps: &str, name: &[u8])
    requires { T.tells tree.old → ⊥ }
{
    assert_eq!(rt; tree.remove_attr(&path(rt, steps), name), Ok(()));
}

fn has_attr<T: FileTree>(
    rt: &(impl Abort + AllocGlobal),
    tree: &mut T,
    steps: &str,
    name: &[u8],
    value: &[u8],
) -> bool
    requires { T.tells tree.old → ⊥ }
{
    match tree.attr(&path(rt, steps), name).expect(rt, "a node") {
        Some(found) => found.as_slice() == value,
        None => false,
    }
}

fn attrs<T: FileTree>(rt: &(impl Abort + AllocGlobal), tree: &mut T, steps: &str) -> Vec<AttrName>
    requires { T.tells tree.old → ⊥ }
{
    tree.attrs(&path(rt, steps)).expect(rt, "a node")
}

fn is_attr(names: &[AttrName], i: usize, name: &[u8]) -> bool {
    i < names.len() && names[i].bytes.slice() == name
}

// Notes that `one` moves to `two`, where `one` has a side folder or none.
fn note(rt: &(impl Abort + Files), text: &str) {
    assert!(rt; fs::write(rt, "moved/move", text).is_ok());
}

fn remove_all(rt: &(impl Abort + Files + AllocGlobal), root: &str) {
    assert!(rt; fs::remove_dir_all(rt, root).is_ok());
}

// A file's bytes and length, and what they read as after the tree was opened again.
#[test]
fn files_keep_their_bytes(rt: HostRuntime) {
    let mut tree = open(&rt, "bytes");
    make_dir(&rt, &mut tree, "current");
    create(&rt, &mut tree, "current/f");
    write(&rt, &mut tree, "current/f", 2, b"abcd");
    write(&rt, &mut tree, "current/f", 4, b"wxyz");
    assert_eq!(rt; read(&rt, &mut tree, "current/f", 1), *b"\0abwxyz\x09");
    set_len(&rt, &mut tree, "current/f", 4);
    set_len(&rt, &mut tree, "current/f", 7);
    sync_file(&rt, &mut tree, "current/f");
    assert_eq!(rt; tree.sync_names(), Ok(()));
    assert_eq!(rt; tree.sync_all(), Ok(()));
    let mut tree = open(&rt, "bytes");
    assert_eq!(rt; len(&rt, &mut tree, "current/f"), Some(7));
    assert_eq!(rt;
        read(&rt, &mut tree, "current/f", 3),
        [b'b', 0, 0, 0, 9, 9, 9, 9]
    );
    assert_eq!(rt; read(&rt, &mut tree, "current/f", 9), [9; 8]);
    remove_all(&rt, "bytes");
}

// Names come, move and go, files and directories.
#[test]
fn names_come_and_go(rt: HostRuntime) {
    let mut tree = open(&rt, "names");
    make_dir(&rt, &mut tree, "one");
    create(&rt, &mut tree, "one/x");
    rename(&rt, &mut tree, "one", "two");
    assert_eq!(rt; len(&rt, &mut tree, "one"), None);
    make_dir(&rt, &mut tree, "one");
    create(&rt, &mut tree, "one/x");
    write(&rt, &mut tree, "one/x", 0, b"abcd");
    rename(&rt, &mut tree, "one/x", "two/x");
    assert_eq!(rt; len(&rt, &mut tree, "two/x"), Some(4));
    assert_eq!(rt; len(&rt, &mut tree, "one/x"), None);
    remove_file(&rt, &mut tree, "two/x");
    assert_eq!(rt; len(&rt, &mut tree, "two/x"), None);
    remove_dir(&rt, &mut tree, "one");
    assert_eq!(rt; len(&rt, &mut tree, "one"), None);
    assert_eq!(rt; len(&rt, &mut tree, "two"), Some(1000));
    remove_all(&rt, "names");
}

// A thousand names in one directory come in byte order, each once; among them one of 200 bytes and a directory.
#[test]
fn lists_a_thousand_names(rt: HostRuntime) -> Result<(), Fail> {
    let mut tree = open(&rt, "many");
    let root = TreePath::root(rt.alloc());
    for i in 0..998u64 {
        let name = format!(in rt.alloc(); "{}", (i * 7) % 998)?;
        create(&rt, &mut tree, &name);
    }
    let long = below(&rt, &root, &[b'n'; 200]);
    assert_eq!(rt; tree.create(&long), Ok(()));
    make_dir(&rt, &mut tree, "dir");
    let entries = entries(&rt, &mut tree, &root);
    assert_eq!(rt; entries.len(), 1000);
    assert!(rt; is_entry(&entries, 0, b"0", Kind::File));
    assert!(rt; is_entry(&entries, 2, b"10", Kind::File));
    assert!(rt; is_entry(&entries, 3, b"100", Kind::File));
    assert!(rt; is_entry(&entries, 13, b"11", Kind::File));
    assert!(rt; is_entry(&entries, 998, b"dir", Kind::Dir));
    assert!(rt; is_entry(&entries, 999, &[b'n'; 200], Kind::File));
    remove_all(&rt, "many");
    Ok(())
}

// Attributes with any names, which move with their node and with the directories above it.
#[test]
fn attributes_move_with_their_node(rt: HostRuntime) {
    let mut tree = open(&rt, "attributes");
    let long = [b'/'; 257];
    make_dir(&rt, &mut tree, "one");
    create(&rt, &mut tree, "one/c");
    assert!(rt; attrs(&rt, &mut tree, "one/c").is_empty());
    set_attr(&rt, &mut tree, "one/c", b"guard", b"old");
    set_attr(&rt, &mut tree, "one/c", b"guard", b"new");
    set_attr(&rt, &mut tree, "one/c", &long, b"long");
    set_attr(&rt, &mut tree, "one/c", &long[..100], b"");
    set_attr(&rt, &mut tree, "one", b"mark", b"split");
    sync_file(&rt, &mut tree, "one/c");
    rename(&rt, &mut tree, "one", "two");
    assert!(rt; has_attr(&rt, &mut tree, "two", b"mark", b"split"));
    assert!(rt; has_attr(&rt, &mut tree, "two/c", b"guard", b"new"));
    assert!(rt; has_attr(&rt, &mut tree, "two/c", &long, b"long"));
    let names = attrs(&rt, &mut tree, "two/c");
    assert_eq!(rt; names.len(), 3);
    assert!(rt; is_attr(&names, 0, &long[..100]));
    assert!(rt; is_attr(&names, 1, &long));
    assert!(rt; is_attr(&names, 2, b"guard"));
    rename(&rt, &mut tree, "two/c", "c");
    assert!(rt; has_attr(&rt, &mut tree, "c", &long, b"long"));
    assert_eq!(rt; attrs(&rt, &mut tree, "c").len(), 3);
    remove_attr(&rt, &mut tree, "c", &long);
    remove_attr(&rt, &mut tree, "c", b"none");
    assert!(rt; !has_attr(&rt, &mut tree, "c", &long, b"long"));
    assert_eq!(rt; attrs(&rt, &mut tree, "c").len(), 2);
    remove_all(&rt, "attributes");
}

// A file has its own attributes alone at a free place too, whatever side folder was left there.
#[test]
fn attributes_move_to_a_free_place(rt: HostRuntime) {
    let mut tree = open(&rt, "free");
    create(&rt, &mut tree, "one");
    set_attr(&rt, &mut tree, "one", b"a", b"1");
    assert!(rt; fs::create_dir(&rt, "free/side/c/two").is_ok());
    assert!(rt; fs::write(&rt, "free/side/c/two/_62", "2").is_ok());
    rename(&rt, &mut tree, "one", "two");
    assert!(rt; has_attr(&rt, &mut tree, "two", b"a", b"1"));
    assert_eq!(rt; attrs(&rt, &mut tree, "two").len(), 1);
    create(&rt, &mut tree, "one");
    assert!(rt; attrs(&rt, &mut tree, "one").is_empty());
    remove_all(&rt, "free");
}

// A file that takes another's place has its own attributes alone, and a new node has none.
#[test]
fn attributes_of_a_replaced_node_go(rt: HostRuntime) {
    let mut tree = open(&rt, "replaced");
    create(&rt, &mut tree, "one");
    create(&rt, &mut tree, "two");
    set_attr(&rt, &mut tree, "one", b"a", b"1");
    set_attr(&rt, &mut tree, "two", b"b", b"2");
    rename(&rt, &mut tree, "one", "two");
    assert!(rt; has_attr(&rt, &mut tree, "two", b"a", b"1"));
    assert!(rt; !has_attr(&rt, &mut tree, "two", b"b", b"2"));
    rename(&rt, &mut tree, "two", "two");
    assert!(rt; has_attr(&rt, &mut tree, "two", b"a", b"1"));
    create(&rt, &mut tree, "one");
    assert!(rt; attrs(&rt, &mut tree, "one").is_empty());
    rename(&rt, &mut tree, "one", "two");
    assert!(rt; attrs(&rt, &mut tree, "two").is_empty());
    set_attr(&rt, &mut tree, "two", b"a", b"1");
    remove_file(&rt, &mut tree, "two");
    create(&rt, &mut tree, "two");
    assert!(rt; attrs(&rt, &mut tree, "two").is_empty());
    remove_all(&rt, "replaced");
}

// A move whose side folder had not followed yet, as a crash may leave it, is ended when the tree is opened.
#[test]
fn a_move_cut_off_is_ended(rt: HostRuntime) {
    let mut tree = open(&rt, "moved");
    create(&rt, &mut tree, "one");
    set_attr(&rt, &mut tree, "one", b"a", b"1");
    // The name had not moved.
    note(&rt, "/tree/one\n/tree/two\n/side/c/one\n/side/c/two\n");
    let mut tree = open(&rt, "moved");
    assert!(rt; has_attr(&rt, &mut tree, "one", b"a", b"1"));
    // It had.
    note(&rt, "/tree/one\n/tree/two\n/side/c/one\n/side/c/two\n");
    assert!(rt; fs::rename(&rt, "moved/tree/one", "moved/tree/two").is_ok());
    let mut tree = open(&rt, "moved");
    assert!(rt; has_attr(&rt, &mut tree, "two", b"a", b"1"));
    // The side folder had moved too.
    note(&rt, "/tree/one\n/tree/two\n/side/c/one\n/side/c/two\n");
    let mut tree = open(&rt, "moved");
    assert!(rt; has_attr(&rt, &mut tree, "two", b"a", b"1"));
    // There was none, and the one that was in the way had not gone.
    note(&rt, "/tree/one\n/tree/two\n\n/side/c/two\n");
    let mut tree = open(&rt, "moved");
    assert!(rt; attrs(&rt, &mut tree, "two").is_empty());
    remove_all(&rt, "moved");
}

// What can't be done is refused.
#[test]
fn refuses_what_cannot_be_done(rt: HostRuntime) {
    let mut tree = open(&rt, "refused");
    let mut bytes = [0; 4];
    assert_eq!(rt;
        tree.read_at(&path(&rt, "f"), 0, &mut bytes),
        Err(TreeError::Refused)
    );
    assert!(rt; tree.list(&path(&rt, "f")).is_err());
    assert!(rt; tree.stat(&path(&rt, "..")).is_err());
    assert_eq!(rt; tree.stat(&path(&rt, "f/x")), Ok(None));
    assert!(rt; !tree.checkpoints());
    assert_eq!(rt; tree.snapshot(1), Err(TreeError::Refused));
    assert_eq!(rt; tree.rollback(1), Err(TreeError::Refused));
    assert_eq!(rt; tree.drop_snapshot(1), Err(TreeError::Refused));
    assert!(rt; tree.snapshots().is_ok());
    let own = rt.clone().expect(&rt, "memory");
    assert_eq!(rt; RealTree::at(own, "").err(), Some(EdgeFault::Outside));
    remove_all(&rt, "refused");
}

// After a refused change no sync is answered, until the tree is opened again.
#[test]
fn syncs_nothing_after_a_refused_change(rt: HostRuntime) {
    let mut tree = open(&rt, "unsure");
    create(&rt, &mut tree, "f");
    set_attr(&rt, &mut tree, "f", b"a", b"1");
    assert_eq!(rt; tree.sync_all(), Ok(()));
    assert_eq!(rt; tree.create(&path(&rt, "f")), Err(TreeError::Refused));
    assert!(rt; has_attr(&rt, &mut tree, "f", b"a", b"1"));
    assert_eq!(rt; tree.sync_file(&path(&rt, "f")), Err(TreeError::Refused));
    assert_eq!(rt; tree.sync_names(), Err(TreeError::Refused));
    assert_eq!(rt; tree.sync_all(), Err(Failed));
    assert_eq!(rt; tree.create(&path(&rt, "g")), Err(TreeError::Refused));
    assert_eq!(rt; len(&rt, &mut tree, "g"), None);
    let mut tree = open(&rt, "unsure");
    assert_eq!(rt; tree.sync_all(), Ok(()));
    create(&rt, &mut tree, "g");
    remove_all(&rt, "unsure");
}

// Opens a tree, makes an empty directory in it, and ends in order. Answers how many nodes and side folders it synced first.
fn settled_before(rt: &(impl Abort + Files + AllocGlobal + Clone + Drop), steps: &str) -> u64 {
    let mut tree = open(rt, "killed");
    make_dir(rt, &mut tree, steps);
    tree.settled()
}

// While the mark of a process stands that made changes, the next one syncs all: three in `tree`, six in `side`.
#[test]
fn what_a_killed_process_left_is_synced(rt: HostRuntime) {
    let mut tree = open(&rt, "killed");
    make_dir(&rt, &mut tree, "one");
    create(&rt, &mut tree, "one/f");
    set_attr(&rt, &mut tree, "one/f", b"a", b"1");
    assert_eq!(rt; tree.settled(), 0);
    assert_eq!(rt; settled_before(&rt, "two"), 9);
    assert_eq!(rt; settled_before(&rt, "three"), 0);
    assert!(rt; fs::write(&rt, "killed/dirty", "").is_ok());
    assert_eq!(rt; settled_before(&rt, "four"), 11);
    remove_all(&rt, "killed");
}

// A closed tree reads the same elsewhere.
#[test]
fn a_tree_moves_as_a_whole(rt: HostRuntime) {
    let mut tree = open(&rt, "here");
    create(&rt, &mut tree, "f");
    write(&rt, &mut tree, "f", 0, b"abcd");
    set_attr(&rt, &mut tree, "f", b"a", b"1");
    assert!(rt; fs::rename(&rt, "here", "elsewhere").is_ok());
    let mut tree = open(&rt, "elsewhere");
    assert_eq!(rt; len(&rt, &mut tree, "f"), Some(4));
    assert!(rt; has_attr(&rt, &mut tree, "f", b"a", b"1"));
    remove_all(&rt, "elsewhere");
}
