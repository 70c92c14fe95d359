ghost use Rattle.std.specs.Prelude.{◌≡◌, IfSome};
ghost use Rattle.file_store.specs.Store.{Works, IsItsTree, IsItsDevice};

use super::*;
use dev_api::Device;
use dev_edge::MemoryDevice;
use file_side::Parts;
use file_store::FileStore;
use fs_model::CollList;
use fs_names::{Mode, Settings};
use fs_script::{Answer, Statement, parse_script, print_answer};
use ring_journal::{Ring, RingFault};
use std::alloc::Global;
use std::test::Fail;
use store_files::{Identity, MakeFault, make_store};
use store_mount::{Mounted, mount};
use store_queue::Queue;
use tree_api::FileTree;
use tree_memory::MemoryTree;

const FSID: [u8; 16] = *b"0123456789abcdef";

const SETTINGS: Settings = Settings {
    merge: 10,
    split: 2,
    lfn: 40,
    mode: Mode::WriteAhead,
};

// The bytes of a device whose ring has 16,384.
const SIZE: u64 = 24_576;

const WRITE: &str = "write 1.0_head/a__head_00000001__1 0 x6869";

const CLONE: &str = "clone 1.0_head/a__head_00000001__1 1.0_head/b__head_00000001__1";

const MISSING: &str = "stat 1.0_head/z__head_00000001__1";

const AGAIN: &str = "refused op 0 collection exists\n";

// A device with a ring that has no entries.
fn ringed(alloc: Global) -> Result<MemoryDevice, RingFault> {
    let mut device = MemoryDevice::new(alloc, SIZE, Vec::new(alloc))?;
    if device.size() == SIZE {
        Ring::make(&mut device, &FSID)?;
    }
    Ok(device)
}

// A tree that is a new store.
fn stored(alloc: Global) -> Result<MemoryTree, MakeFault> {
    let mut tree = MemoryTree::new(alloc, Vec::new(alloc))?;
    make_store(alloc, &mut tree, &FSID, &SETTINGS)?;
    Ok(tree)
}

// The new store on them.
fn opened<T: FileTree, D: Device>(
    alloc: Global,
    tree: &mut T,
    device: &mut D,
) -> Option<ScriptStore>
    ensures works { IfSome result (λ s. Works s.store) }
    ensures tree { IfSome result (λ s. IsItsTree s.store (T.tells tree.new) (T.disk tree.new)) }
    ensures device { IfSome result (λ s. IsItsDevice s.store (D.tells device.new) (D.state device.new)) }
{
    let parts = Parts {
        identity: Identity {
            fsid: FSID,
            settings: SETTINGS,
        },
    };
    let Ok(mounted) = mount(alloc, &parts, tree, device, &parts.identity.fsid) else {
        return None;
    };
    let Mounted { ring, numbers } = mounted;
    let size = device.size() - 8192;
    let queue = Queue::new(alloc, CollList::new(alloc), numbers.journalled, size);
    Some(ScriptStore {
        store: FileStore::new(alloc, parts, numbers, ring, queue),
        opened: None,
    })
}

// The statement that a line says, of whatever script.
fn statement(alloc: Global, text: &str) -> Option<Statement> {
    if text == "begin" {
        return Some(Statement::Begin);
    }
    if text == "end" {
        return Some(Statement::End);
    }
    let Ok(mut script) = parse_script(alloc, text.as_bytes()) else {
        return None;
    };
    let Some(line) = script.next() else {
        return None;
    };
    Some(line.statement)
}

// Whether an answer prints this text; no text where there is none.
fn prints(alloc: Global, answer: &Option<Answer>, want: &str) -> bool {
    let Some(answer) = answer else {
        return want.is_empty();
    };
    match print_answer(alloc, answer) {
        Ok(text) => text.slice() == want.as_bytes(),
        Err(_) => false,
    }
}

// The store after a statement that answers this.
fn says<T: FileTree, D: Device>(
    alloc: Global,
    store: ScriptStore,
    tree: &mut T,
    device: &mut D,
    text: &str,
    want: &str,
) -> Option<ScriptStore>
    requires works { Works store.store }
    requires tree { IsItsTree store.store (T.tells tree.old) (T.disk tree.old) }
    requires device { IsItsDevice store.store (D.tells device.old) (D.state device.old) }
    ensures works { IfSome result (λ s. Works s.store) }
    ensures tree { IfSome result (λ s. IsItsTree s.store (T.tells tree.new) (T.disk tree.new)) }
    ensures device { IfSome result (λ s. IsItsDevice s.store (D.tells device.new) (D.state device.new)) }
{
    let Some(statement) = statement(alloc, text) else {
        return None;
    };
    let Ok(stepped) = step(alloc, store, statement, tree, device) else {
        return None;
    };
    let Stepped { store, answer } = stepped;
    if !prints(alloc, &answer, want) {
        return None;
    }
    Some(store)
}

// A store in which a collection was made and an object written.
fn written<T: FileTree, D: Device>(
    alloc: Global,
    tree: &mut T,
    device: &mut D,
) -> Option<ScriptStore>
    ensures works { IfSome result (λ s. Works s.store) }
    ensures tree { IfSome result (λ s. IsItsTree s.store (T.tells tree.new) (T.disk tree.new)) }
    ensures device { IfSome result (λ s. IsItsDevice s.store (D.tells device.new) (D.state device.new)) }
{
    let store = opened(alloc, tree, device)?;
    let store = says(alloc, store, tree, device, "mkcoll 1.0_head", "queued 1\n")?;
    let store = says(alloc, store, tree, device, WRITE, "queued 2\n")?;
    says(alloc, store, tree, device, "drain", "ack 2\ndrained 2\n")
}

// Whether what was written is read.
fn reads<T: FileTree, D: Device>(alloc: Global, tree: &mut T, device: &mut D) -> Option<bool> {
    let store = written(alloc, tree, device)?;
    let read = "read 1.0_head/a__head_00000001__1 0 9";
    let store = says(alloc, store, tree, device, read, "data x6869\n")?;
    let list = "list 1.0_head - 9";
    let store = says(
        alloc,
        store,
        tree,
        device,
        list,
        "list 1\na__head_00000001__1\nend\n",
    )?;
    Some(store.store.acked() == 2)
}

#[test]
fn what_is_drained_is_read_and_listed(rt: HostRuntime) -> Result<(), Fail> {
    let alloc = rt.alloc();
    let mut tree = stored(alloc)?;
    let mut device = ringed(alloc)?;
    assert_eq!(rt; reads(alloc, &mut tree, &mut device), Some(true));
    Ok(())
}

// Whether statements that nothing can be done about are refused, and a transaction goes on behind them.
fn refuses<T: FileTree, D: Device>(alloc: Global, tree: &mut T, device: &mut D) -> Option<bool> {
    let store = written(alloc, tree, device)?;
    let store = says(alloc, store, tree, device, CLONE, "refused not built\n")?;
    let store = says(alloc, store, tree, device, "mkcoll 1.0_head", AGAIN)?;
    let store = says(alloc, store, tree, device, MISSING, "none\n")?;
    let store = says(alloc, store, tree, device, "acked", "acked 2\n")?;
    Some(store.store.last() == 2)
}

#[test]
fn what_is_refused_is_answered(rt: HostRuntime) -> Result<(), Fail> {
    let alloc = rt.alloc();
    let mut tree = stored(alloc)?;
    let mut device = ringed(alloc)?;
    assert_eq!(rt; refuses(alloc, &mut tree, &mut device), Some(true));
    Ok(())
}

// Whether a transaction of several statements is queued as one, and the store then closed.
fn closes<T: FileTree, D: Device>(alloc: Global, tree: &mut T, device: &mut D) -> Option<bool> {
    let store = written(alloc, tree, device)?;
    let store = says(alloc, store, tree, device, "begin", "")?;
    let store = says(alloc, store, tree, device, "mkcoll 1.1_head", "")?;
    let store = says(alloc, store, tree, device, WRITE, "")?;
    let store = says(alloc, store, tree, device, "end", "queued 3\n")?;
    Some(close(store, tree, device).is_ok())
}

#[test]
fn a_store_is_closed_with_what_waits(rt: HostRuntime) -> Result<(), Fail> {
    let alloc = rt.alloc();
    let mut tree = stored(alloc)?;
    let mut device = ringed(alloc)?;
    assert_eq!(rt; closes(alloc, &mut tree, &mut device), Some(true));
    Ok(())
}
