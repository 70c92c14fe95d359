//! Statements that touch neither tree nor device.
ghost use Rattle.std.specs.Prelude.{◌≡◌, ◌≢◌, false, Err, [], ◌∷◌, ◌++◌, IfOk, None};
ghost use Rattle.std.specs.Option.{option_to_list};
ghost use Rattle.store_history.specs.History.{History};
ghost use Rattle.fs_session.specs.Answers.{step as step_of, op_step, end_step, queue_step};
ghost use Rattle.file_store.specs.declared.fault.First.{First};
ghost use Rattle.file_store.specs.Holds.{Waits};
ghost use Rattle.file_store.specs.Store.{Works};
ghost use Rattle.script_store.specs.Script.{session_on, session_of, IsAnswerOf, IsWork, is_reading};
ghost use Rattle.script_store.specs.Held.{with_queue};

use crate::store::{ScriptStore, Stepped};
use file_store::{FileStore, QueueFault};
use fs_model::{Op, OpList, Txn};
use fs_script::{Answer, Statement};
use std::alloc::{AllocError, Global};

// What is answered to a transaction that was to be queued.
fn queue_answer(queued: Result<u64, QueueFault>) -> Result<Answer, AllocError>
    requires { (first : First) → queued ≢ Err (QueueFault.Broken first) }
    ensures { IfOk result (IsAnswerOf queued) }
{
    match queued {
        Ok(seq) => Ok(Answer::Queued { seq }),
        Err(QueueFault::Broken(_)) => unreachable!(),
        Err(QueueFault::Txn { op, why }) => Ok(Answer::RefusedOp { op, why }),
        Err(QueueFault::NotBuilt { .. }) => Ok(Answer::NotBuilt),
        Err(QueueFault::TooLarge { need, size }) => Ok(Answer::TooLarge { need, size }),
        Err(QueueFault::QueueFull) => Ok(Answer::QueueFull),
        Err(QueueFault::NumbersSpent) => Ok(Answer::NumbersSpent),
        Err(QueueFault::Memory) => Err(AllocError),
    }
}

// Queues a transaction; none is open then.
fn queue(store: FileStore, txn: Txn) -> Result<Stepped, AllocError>
    requires { Works store }
    ensures answer { (h : History) → Waits h store
        → IfOk result (λ stepped. option_to_list stepped.answer ≡ (queue_step (session_of h store None) txn).answers) }
    ensures after { (h : History) → Waits h store → IfOk result (λ stepped. session_on h stepped.store ≡ (queue_step (session_of h store None) txn).session) }
    ensures waits { (h : History) → Waits h store → IfOk result (λ stepped. Waits h stepped.store.store) }
    ensures rest { IfOk result (λ stepped. stepped.store.store ≡ with_queue store stepped.store.store.queue) }
{
    let mut store = store;
    let queued = store.queue(txn);
    let answer = queue_answer(queued)?;
    Ok(Stepped {
        store: ScriptStore {
            store,
            opened: None,
        },
        answer: Some(answer),
    })
}

// Operations with one more.
fn with_op(ops: OpList, op: Op) -> Result<OpList, AllocError>
    ensures { IfOk result (λ list. list ≡ ops ++ op ∷ []) }
{
    let mut ops = ops.into_vec();
    ops.push(op)?;
    Ok(OpList::from_vec(ops))
}

// Does an operation: one of the open transaction, or a transaction of its own.
fn operate(alloc: Global, store: ScriptStore, op: Op) -> Result<Stepped, AllocError>
    requires { Works store.store }
    ensures answer { (h : History) → Waits h store.store
        → IfOk result (λ stepped. option_to_list stepped.answer ≡ (op_step store.opened (session_on h store) op).answers) }
    ensures after { (h : History) → Waits h store.store → IfOk result (λ stepped. session_on h stepped.store ≡ (op_step store.opened (session_on h store) op).session) }
    ensures waits { (h : History) → Waits h store.store → IfOk result (λ stepped. Waits h stepped.store.store) }
    ensures rest { IfOk result (λ stepped. stepped.store.store ≡ with_queue store.store stepped.store.store.queue) }
{
    let ScriptStore { store, opened } = store;
    let Some(ops) = opened else {
        let ops = with_op(OpList::from_vec(Vec::new(alloc)), op)?;
        return queue(store, Txn { ops });
    };
    let ops = with_op(ops, op)?;
    Ok(Stepped {
        store: ScriptStore {
            store,
            opened: Some(ops),
        },
        answer: None,
    })
}

// Queues the open transaction, if there is one.
fn finish(store: ScriptStore) -> Result<Stepped, AllocError>
    requires { Works store.store }
    ensures answer { (h : History) → Waits h store.store
        → IfOk result (λ stepped. option_to_list stepped.answer ≡ (end_step store.opened (session_on h store)).answers) }
    ensures after { (h : History) → Waits h store.store → IfOk result (λ stepped. session_on h stepped.store ≡ (end_step store.opened (session_on h store)).session) }
    ensures waits { (h : History) → Waits h store.store → IfOk result (λ stepped. Waits h stepped.store.store) }
    ensures rest { IfOk result (λ stepped. stepped.store.store ≡ with_queue store.store stepped.store.store.queue) }
{
    let ScriptStore { store, opened } = store;
    let Some(ops) = opened else {
        return Ok(Stepped {
            store: ScriptStore {
                store,
                opened: None,
            },
            answer: None,
        });
    };
    queue(store, Txn { ops })
}

/// Does what a statement says that neither reads nor drains.
#[tactic(auto, unfolding(fs_session::specs::Answers::step))]
pub fn work(alloc: Global, store: ScriptStore, statement: Statement) -> Result<Stepped, AllocError>
    requires works { Works store.store }
    requires work { IsWork statement }
    requires no_reading { is_reading statement ≡ false }
    ensures answer { (h : History) → Waits h store.store
        → IfOk result (λ stepped. option_to_list stepped.answer ≡ (step_of (session_on h store) statement).answers) }
    ensures after { (h : History) → Waits h store.store → IfOk result (λ stepped. session_on h stepped.store ≡ (step_of (session_on h store) statement).session) }
    ensures waits { (h : History) → Waits h store.store → IfOk result (λ stepped. Waits h stepped.store.store) }
    ensures rest { IfOk result (λ stepped. stepped.store.store ≡ with_queue store.store stepped.store.store.queue) }
{
    match statement {
        Statement::Do(op) => operate(alloc, store, op),
        Statement::End => finish(store),
        Statement::Begin => Ok(Stepped {
            store: ScriptStore {
                store: store.store,
                opened: Some(OpList::from_vec(Vec::new(alloc))),
            },
            answer: None,
        }),
        Statement::Acked => {
            let acked = store.store.acked();
            Ok(Stepped {
                store,
                answer: Some(Answer::Acked { acked }),
            })
        }
        _ => unreachable!(),
    }
}
