//! Scripts: their grammar, their statements, what statements answer and how answers are printed.
//!
//! A script is lines of words. Lines end with a newline, which the last may lack; an empty line and one that begins
//! with `#` say nothing. Words are separated by one space, and the first says what is done.
#![tactic(auto)]

mod answer;
mod cut;
mod fault;
mod field;
mod keyword;
mod operation;
mod parse;
mod print;
mod script;
mod statement;
mod words;

pub use answer::Answer;
pub use fault::{ScriptFault, ScriptWhy};
pub use fs_model::Blob;
pub use hash_order::Cursor;
pub use parse::{SCRIPT_LIMIT, parse_script};
pub use print::{print_answer, print_refusal};
pub use script::Script;
pub use statement::{Line, Statement};
