//! Single changes of a tree of files on the file system, for the trial `tests/tree_outside.py`.
//!
//! `ROOT STEP..` opens the tree at ROOT, prints `settled N` with the number of files and folders that were synced first, and
//! makes each change in turn, printing `ok` behind it. The changes are `dir PATH`, `file PATH`, `gone PATH`, `nodir PATH`,
//! `move FROM TO`, `put PATH AT COUNT CHARACTER`, `cut PATH LENGTH`, `set PATH NAME VALUE` and `unset PATH NAME`, each one
//! word of the command line.
#![tactic(auto)]

mod fault;
mod step;

use fault::Fault;
use std::env;
use std::process::ExitCode;
use std::rt::{Env, Files};
use step::{do_step, read_step};
use tree_real::RealTree;

/// Makes each change in turn, and says so.
fn run_steps<R: Files + AllocGlobal + Print + Clone + Drop>(
    rt: &R,
    root: &str,
    steps: &[String],
) -> Result<(), Fault> {
    let mut tree = RealTree::at(rt.clone()?, root)?;
    let _ = println!(rt; "settled {}", tree.settled());
    for text in steps {
        let step = read_step(rt.alloc(), text.as_str())?;
        do_step(&mut tree, &step)?;
        let _ = println!(rt; "ok");
    }
    Ok(())
}

fn run<R: Env + Files + AllocGlobal + Print + Clone + Drop>(rt: &R) -> Result<(), Fault> {
    let Ok(args) = env::args(rt) else {
        return Err(Fault::Usage);
    };
    let mut words = args.skip(1);
    let Some(root) = words.next() else {
        return Err(Fault::Usage);
    };
    let mut steps = Vec::new(rt.alloc());
    for step in words {
        steps.push(step)?;
    }
    run_steps(rt, root.as_str(), &steps)
}

fn main(rt: HostRuntime) -> ExitCode {
    match run(&rt) {
        Ok(()) => ExitCode::SUCCESS,
        Err(Fault::Usage) => {
            let _ = println!(rt; "usage: tree_steps ROOT STEP..");
            ExitCode::from(1)
        }
        Err(_) => ExitCode::FAILURE,
    }
}
