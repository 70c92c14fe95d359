ghost use Rattle.std.specs.Prelude.{◌≡◌, ◌↔◌, [], ◌∷◌, ◌++◌, length, IsTrue, IfOk, IfNone, OnOk};
ghost use Rattle.std.specs.Option.{option_to_list};
ghost use Rattle.fs_script.specs.declared.statement.Statement.TheVariants.{Do};
ghost use Rattle.fs_script.specs.Grammar.{opened_by};
ghost use Rattle.fs_script.specs.Kept.{statement_of};

use crate::{Line, Statement};
use fs_model::Op;
use std::alloc::{AllocError, Global};
use std::collections::VecDeque;
use std::marker::Model;

// What a kept statement is: what has fields stands on the heap, so that a line takes three words.
#[derive(Drop)]
pub(crate) enum Form {
    Begin,
    End,
    Drain,
    Colls,
    Acked,
    Other(Box<Statement>),
}

/// A statement as it is kept, and as it passes through the parser: it is small, and on the heap as soon as it is made.
#[derive(Drop)]
pub(crate) struct Said {
    form: Form,
}

impl Model for Said {
    ghost use Rattle.fs_script.specs.declared.statement.Statement.{Statement};
    ghost use Rattle.fs_script.specs.Kept.{statement_of};

    ghost Value = { Statement };

    ghost view = { λ said. statement_of said.form };
}

impl Said {
    /// A statement that is one word.
    pub(crate) fn word(form: Form) -> Said
        ensures { result ≡ statement_of form }
    {
        Said { form }
    }

    pub(crate) fn new(alloc: Global, statement: Statement) -> Result<Said, AllocError>
        ensures { IfOk result (λ said. said ≡ statement) }
    {
        let statement = Box::new(alloc, statement)?;
        Ok(Said {
            form: Form::Other(statement),
        })
    }

    pub(crate) fn operation(alloc: Global, op: Op) -> Result<Said, AllocError>
        ensures { IfOk result (λ said. said ≡ Do op) }
    {
        Said::new(alloc, Statement::Do(op))
    }

    /// The line of the `begin` that has no `end` behind this statement, if there is one.
    pub(crate) fn opened(&self, number: u64, opened: Option<u64>) -> Option<u64>
        ensures { result ≡ opened_by number opened self.now }
    {
        match &self.form {
            Form::Begin => Some(number),
            Form::End => None,
            Form::Drain | Form::Colls | Form::Acked => opened,
            Form::Other(statement) => opened_by(number, opened, statement),
        }
    }

    fn statement(self) -> Statement
        ensures { result ≡ self }
    {
        match self.form {
            Form::Begin => Statement::Begin,
            Form::End => Statement::End,
            Form::Drain => Statement::Drain,
            Form::Colls => Statement::Colls,
            Form::Acked => Statement::Acked,
            Form::Other(statement) => Box::into_inner(statement),
        }
    }
}

// The line of the `begin` that has no `end` behind a statement, if there is one.
fn opened_by(number: u64, opened: Option<u64>, statement: &Statement) -> Option<u64>
    ensures { result ≡ opened_by number opened statement.now }
{
    match statement {
        Statement::Begin => Some(number),
        Statement::End => None,
        _ => opened,
    }
}

// A line as it is kept.
#[derive(Drop)]
struct Kept {
    number: u64,
    said: Said,
}

impl Model for Kept {
    ghost use Rattle.fs_script.specs.declared.statement.Line.{Line};

    ghost Value = { Line };

    ghost view = { λ k. record { number = k.number; statement = k.said } };
}

impl Kept {
    fn line(self) -> Line
        ensures { result ≡ self }
    {
        Line {
            number: self.number,
            statement: self.said.statement(),
        }
    }
}

/// The lines of a script that say something, in order.
#[derive(Drop)]
pub struct Script {
    lines: VecDeque<Kept>,
}

impl Model for Script {
    ghost use Rattle.std.specs.Prelude.{List};
    ghost use Rattle.fs_script.specs.declared.statement.Line.{Line};

    ghost Value = { List Line };

    ghost view = { λ s. s.lines.items };
}

impl Script {
    pub fn new(alloc: Global) -> Self
        ensures { result ≡ [] }
    {
        Script {
            lines: VecDeque::new(alloc),
        }
    }

    /// Adds a statement at the end, with the number of its line.
    pub(crate) fn push(&mut self, number: u64, said: Said) -> Result<(), AllocError>
        ensures { OnOk result (self.new ≡ self.old ++ record { number = number; statement = said } ∷ []) }
    {
        self.lines.push_back(Kept { number, said })?;
        Ok(())
    }

    /// Takes the first line away, if there is one.
    pub fn next(&mut self) -> Option<Line>
        ensures first { self.old ≡ option_to_list result ++ self.new }
        ensures none { IfNone result (self.old ≡ []) }
    {
        match self.lines.pop_front() {
            None => None,
            Some(kept) => Some(kept.line()),
        }
    }

    pub fn len(&self) -> usize
        ensures { result ≡ length self.now }
    {
        self.lines.len()
    }

    pub fn is_empty(&self) -> bool
        ensures { IsTrue result ↔ (self.now ≡ []) }
    {
        self.lines.is_empty()
    }
}
