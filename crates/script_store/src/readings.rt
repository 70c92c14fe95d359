//! Statements that read the tree.
ghost use Rattle.std.specs.Prelude.{◌≡◌, ◌≢◌, ◌≤◌, true, Err, [], ◌∷◌, IfOk, IfErr, IsErrOf};
ghost use Rattle.std.specs.Option.{option_copied};
ghost use Rattle.fault_count.specs.Counted.{Counted};
ghost use Rattle.tree_api.specs.Tree.{Path};
ghost use Rattle.tree_api.specs.Disk.{Still};
ghost use Rattle.store_history.specs.History.{History};
ghost use Rattle.fs_session.specs.Answers.{step as step_of, found, page_answer, cursor_oid};
ghost use Rattle.file_store.specs.Store.{Works, IsItsTree};
ghost use Rattle.file_store.specs.Holds.{Reads};
ghost use Rattle.file_store.specs.Faults.{ReadsBroken};
ghost use Rattle.script_store.specs.Script.{session_on, is_reading};

use crate::store::ScriptStore;
use file_store::ReadFault;
use fs_model::{Blob, Page, PairList};
use fs_names::Oid;
use fs_script::{Answer, Cursor, Statement};
use tree_api::FileTree;

/// Whether a statement reads the tree.
pub fn reads_tree(statement: &Statement) -> bool
    ensures { result ≡ is_reading statement.now }
{
    match statement {
        Statement::Read { .. } => true,
        Statement::Stat { .. } => true,
        Statement::Attrs { .. } => true,
        Statement::Omap { .. } => true,
        Statement::List { .. } => true,
        Statement::Colls => true,
        _ => false,
    }
}

fn bytes_answer(bytes: Option<Blob>) -> Answer
    ensures { result ≡ found bytes Answer.Bytes }
{
    match bytes {
        None => Answer::Missing,
        Some(bytes) => Answer::Bytes(bytes),
    }
}

fn size_answer(size: Option<u64>) -> Answer
    ensures { result ≡ found size Answer.Size }
{
    match size {
        None => Answer::Missing,
        Some(size) => Answer::Size(size),
    }
}

fn attrs_answer(pairs: Option<PairList>) -> Answer
    ensures { result ≡ found pairs Answer.Attrs }
{
    match pairs {
        None => Answer::Missing,
        Some(pairs) => Answer::Attrs(pairs),
    }
}

fn omap_answer(omap: Option<(Blob, PairList)>) -> Answer
    ensures { result ≡ found omap (λ x. Answer.Omap x.0 x.1) }
{
    match omap {
        None => Answer::Missing,
        Some((header, pairs)) => Answer::Omap { header, pairs },
    }
}

fn listed_answer(page: Option<Page>) -> Answer
    ensures { result ≡ page_answer page }
{
    match page {
        None => Answer::Missing,
        Some(page) => Answer::Listed {
            oids: page.oids,
            next: page.next,
        },
    }
}

// The object at which a listing begins.
fn first_of(cursor: &Cursor) -> Option<&Oid>
    ensures { option_copied result ≡ cursor_oid cursor.now }
{
    match cursor {
        Cursor::Start => None,
        Cursor::At(oid) => Some(oid),
    }
}

/// What a statement that reads the tree answers.
#[tactic(auto, unfolding(fs_session::specs::Answers::step))]
pub fn ask<T: FileTree>(
    store: &ScriptStore,
    statement: Statement,
    tree: &mut T,
) -> Result<Answer, ReadFault>
    requires reading { is_reading statement ≡ true }
    requires tree { IsItsTree store.now.store (T.tells tree.old) (T.disk tree.old) }
    ensures answer { T.tells tree.new → (h : History) → Reads h store.now.store (T.disk tree.old)
        → IfOk result (λ answer. (step_of (session_on h store.now) statement).answers ≡ answer ∷ []) }
    ensures tree { IsItsTree store.now.store (T.tells tree.new) (T.disk tree.new) }
    ensures still { T.tells tree.new → Still (T.disk tree.old) (T.disk tree.new) }
    ensures broken { IfErr result (ReadsBroken store.now.store) }
    ensures undamaged { T.tells tree.new → Works store.now.store → (path : Path) → result ≢ Err (ReadFault.Damaged path) }
    ensures told { T.tells tree.new → T.tells tree.old }
    ensures cause { IsErrOf result ReadFault.Tree → Counted (T.disk tree.old).faults (T.disk tree.new).faults }
    ensures faults { (T.disk tree.old).faults ≤ (T.disk tree.new).faults }
{
    match statement {
        Statement::Read { c, o, at, len } => Ok(bytes_answer(
            store.store.read(tree, &c, &o, at, len)?,
        )),
        Statement::Stat { c, o } => Ok(size_answer(store.store.stat(tree, &c, &o)?)),
        Statement::Attrs { c, o } => Ok(attrs_answer(store.store.attrs(tree, &c, &o)?)),
        Statement::Omap { c, o } => Ok(omap_answer(store.store.omap(tree, &c, &o)?)),
        Statement::List { c, cursor, max } => Ok(listed_answer(
            store.store.list(tree, &c, first_of(&cursor), max)?,
        )),
        Statement::Colls => Ok(Answer::Colls(store.store.colls(tree)?)),
        _ => unreachable!(),
    }
}
