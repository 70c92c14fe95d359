//! The store, and one statement after another.
ghost use Rattle.std.specs.Prelude.{◌≡◌, ◌≢◌, ◌≤◌, true, false, [], ◌∷◌, Err, IfOk, IfErr, OnErr, IsErrOf};
ghost use Rattle.std.specs.Option.{option_to_list};
ghost use Rattle.fault_count.specs.Counted.{Counted};
ghost use Rattle.tree_api.specs.Tree.{Path};
ghost use Rattle.tree_api.specs.Disk.{Still};
ghost use Rattle.store_history.specs.History.{History};
ghost use Rattle.fs_session.specs.Answers.{step as step_of};
ghost use Rattle.file_store.specs.Store.{Works, IsItsTree, IsItsDevice, IsDrained};
ghost use Rattle.file_store.specs.Holds.{Holds, Reads, Waits, with_waiting};
ghost use Rattle.script_store.specs.Script.{session_on, IsWork, is_reading};
ghost use Rattle.script_store.specs.Held.{HoldsOn, with_drained, with_queue, LeavesSome, IsSame};

use crate::fault::{StepFault, of_reading, of_turn};
use crate::queueing::work;
use crate::readings::{ask, reads_tree};
use dev_api::Device;
use file_store::FileStore;
use fs_model::OpList;
use fs_script::{Answer, Statement};
use std::alloc::Global;
use store_history::journal_law;
use tree_api::FileTree;

/// A store as a script works on it.
#[derive(Drop)]
pub struct ScriptStore {
    pub store: FileStore,
    /// The operations since a `begin` that has no `end` yet.
    pub opened: Option<OpList>,
}

/// A store after a statement, and its answer, if it gives one.
#[derive(Drop)]
pub struct Stepped {
    pub store: ScriptStore,
    pub answer: Option<Answer>,
}

// Answers a statement that reads the tree.
fn read<T: FileTree>(
    store: ScriptStore,
    statement: Statement,
    tree: &mut T,
) -> Result<Stepped, StepFault>
    requires works { Works store.store }
    requires reading { is_reading statement ≡ true }
    requires tree { IsItsTree store.store (T.tells tree.old) (T.disk tree.old) }
    ensures answer { T.tells tree.new → (h : History) → Reads h store.store (T.disk tree.old)
        → IfOk result (λ stepped. option_to_list stepped.answer ≡ (step_of (session_on h store) statement).answers) }
    ensures same { IfOk result (λ stepped. stepped.store ≡ store) }
    ensures tree { IsItsTree store.store (T.tells tree.new) (T.disk tree.new) }
    ensures still { T.tells tree.new → Still (T.disk tree.old) (T.disk tree.new) }
    ensures undamaged { T.tells tree.new → (path : Path) → result ≢ Err (StepFault.Damaged path) }
    ensures told { T.tells tree.new → T.tells tree.old }
    ensures cause { IsErrOf result StepFault.Tree → Counted (T.disk tree.old).faults (T.disk tree.new).faults }
    ensures of_tree { result ≢ Err StepFault.Device }
    ensures faults { (T.disk tree.old).faults ≤ (T.disk tree.new).faults }
{
    let answer = match ask(&store, statement, tree) {
        Ok(answer) => answer,
        Err(fault) => return Err(of_reading(fault)),
    };
    Ok(Stepped {
        store,
        answer: Some(answer),
    })
}

// Whether a statement drains the store.
fn drains(statement: &Statement) -> bool
    ensures yes { result ≡ true → statement.now ≡ Statement.Drain }
    ensures no { result ≡ false → statement.now ≢ Statement.Drain }
{
    match statement {
        Statement::Drain => true,
        _ => false,
    }
}

// A statement that is done with.
fn discard(statement: Statement) {
    let _ = statement;
}

// Drains the store.
fn drain<T: FileTree, D: Device>(
    store: ScriptStore,
    tree: &mut T,
    dev: &mut D,
) -> Result<Stepped, StepFault>
    requires works { Works store.store }
    requires tree { IsItsTree store.store (T.tells tree.old) (T.disk tree.old) }
    requires device { IsItsDevice store.store (D.tells dev.old) (D.state dev.old) }
    ensures answer { IfOk result (λ stepped. option_to_list stepped.answer ≡ Answer.Drained store.store.queue.last store.store.queue.last ∷ []) }
    ensures opened { IfOk result (λ stepped. stepped.store.opened ≡ store.opened) }
    ensures drained { IfOk result (λ stepped. IsDrained store.store stepped.store.store) }
    ensures holds { T.tells tree.new → D.tells dev.new → (h : History) → HoldsOn h store (T.disk tree.old) (D.state dev.old)
        → IfOk result (λ stepped. Holds (with_waiting h store.store) stepped.store.store (T.disk tree.new) (D.state dev.new).disk) }
    ensures left { T.tells tree.new → D.tells dev.new → (h : History) → HoldsOn h store (T.disk tree.old) (D.state dev.old)
        → OnErr result (LeavesSome h store (T.disk tree.new) (D.state dev.new)) }
    ensures tree { IfOk result (λ stepped. IsItsTree stepped.store.store (T.tells tree.new) (T.disk tree.new)) }
    ensures device { IfOk result (λ stepped. IsItsDevice stepped.store.store (D.tells dev.new) (D.state dev.new)) }
    ensures undamaged { T.tells tree.new → (path : Path) → result ≢ Err (StepFault.Damaged path) }
    ensures told { T.tells tree.new → T.tells tree.old }
    ensures honest { D.tells dev.new → D.tells dev.old }
    ensures extent { (D.state dev.new).size ≡ (D.state dev.old).size }
    ensures tree_cause { IsErrOf result StepFault.Tree → Counted (T.disk tree.old).faults (T.disk tree.new).faults }
    ensures device_cause { IsErrOf result StepFault.Device → Counted (D.state dev.old).faults (D.state dev.new).faults }
    ensures tree_faults { (T.disk tree.old).faults ≤ (T.disk tree.new).faults }
    ensures device_faults { (D.state dev.old).faults ≤ (D.state dev.new).faults }
{
    let ScriptStore { store, opened } = store;
    let mut store = store;
    let seq = match store.drain(tree, dev) {
        Ok(seq) => seq,
        Err(fault) => return Err(of_turn(fault)),
    };
    Ok(Stepped {
        store: ScriptStore { store, opened },
        answer: Some(Answer::Drained { acked: seq, seq }),
    })
}

// Does a statement that touches neither tree nor device.
fn act(alloc: Global, store: ScriptStore, statement: Statement) -> Result<Stepped, StepFault>
    requires works { Works store.store }
    requires work { IsWork statement }
    requires no_reading { is_reading statement ≡ false }
    ensures answer { (h : History) → Waits h store.store
        → IfOk result (λ stepped. option_to_list stepped.answer ≡ (step_of (session_on h store) statement).answers) }
    ensures after { (h : History) → Waits h store.store
        → IfOk result (λ stepped. session_on h stepped.store ≡ (step_of (session_on h store) statement).session) }
    ensures waits { (h : History) → Waits h store.store → IfOk result (λ stepped. Waits h stepped.store.store) }
    ensures rest { IfOk result (λ stepped. stepped.store.store ≡ with_queue store.store stepped.store.store.queue) }
    ensures memory { IfErr result (λ fault. fault ≡ StepFault.Memory) }
{
    match work(alloc, store, statement) {
        Ok(stepped) => Ok(stepped),
        Err(_) => Err(StepFault::Memory),
    }
}

/// Does what a statement says, and answers it. What was acknowledged before is never lost, whatever becomes of it.
pub fn step<T: FileTree, D: Device>(
    alloc: Global,
    store: ScriptStore,
    statement: Statement,
    tree: &mut T,
    dev: &mut D,
) -> Result<Stepped, StepFault>
    requires works { Works store.store }
    requires tree { IsItsTree store.store (T.tells tree.old) (T.disk tree.old) }
    requires device { IsItsDevice store.store (D.tells dev.old) (D.state dev.old) }
    ensures answer { T.tells tree.new → D.tells dev.new → (h : History) → HoldsOn h store (T.disk tree.old) (D.state dev.old)
        → IfOk result (λ stepped. option_to_list stepped.answer ≡ (step_of (session_on h store) statement).answers) }
    ensures after { T.tells tree.new → D.tells dev.new → (h : History) → HoldsOn h store (T.disk tree.old) (D.state dev.old)
        → IfOk result (λ stepped. session_on (with_drained h store statement) stepped.store ≡ (step_of (session_on h store) statement).session) }
    ensures holds { T.tells tree.new → D.tells dev.new → (h : History) → HoldsOn h store (T.disk tree.old) (D.state dev.old)
        → IfOk result (λ stepped. HoldsOn (with_drained h store statement) stepped.store (T.disk tree.new) (D.state dev.new)) }
    ensures left { T.tells tree.new → D.tells dev.new → (h : History) → HoldsOn h store (T.disk tree.old) (D.state dev.old)
        → OnErr result (LeavesSome h store (T.disk tree.new) (D.state dev.new)) }
    ensures works { IfOk result (λ stepped. Works stepped.store.store) }
    ensures same { IfOk result (λ stepped. IsSame store.store stepped.store.store) }
    ensures tree { IfOk result (λ stepped. IsItsTree stepped.store.store (T.tells tree.new) (T.disk tree.new)) }
    ensures device { IfOk result (λ stepped. IsItsDevice stepped.store.store (D.tells dev.new) (D.state dev.new)) }
    ensures undamaged { T.tells tree.new → (path : Path) → result ≢ Err (StepFault.Damaged path) }
    ensures told { T.tells tree.new → T.tells tree.old }
    ensures honest { D.tells dev.new → D.tells dev.old }
    ensures extent { (D.state dev.new).size ≡ (D.state dev.old).size }
    ensures tree_cause { IsErrOf result StepFault.Tree → Counted (T.disk tree.old).faults (T.disk tree.new).faults }
    ensures device_cause { IsErrOf result StepFault.Device → Counted (D.state dev.old).faults (D.state dev.new).faults }
    ensures tree_faults { (T.disk tree.old).faults ≤ (T.disk tree.new).faults }
    ensures device_faults { (D.state dev.old).faults ≤ (D.state dev.new).faults }
{
    journal_law();
    if reads_tree(&statement) {
        return read(store, statement, tree);
    }
    if drains(&statement) {
        discard(statement);
        return drain(store, tree, dev);
    }
    act(alloc, store, statement)
}
