//! A tree of files on the file system, for the benchmark `bench/tree.py`.
//!
//! `make ROOT N` makes the files of N objects in one directory of the tree at ROOT, `find ROOT N` finds each of them, and
//! `remove ROOT N` takes each away.
#![tactic(auto)]

mod fault;
mod work;

use fault::Fault;
use fs_names::decimal;
use std::env;
use std::process::ExitCode;
use std::rt::{Env, Files};
use tree_real::RealTree;
use work::{do_command, read_command};

fn run<R: Env + Files + AllocGlobal + Clone + Drop>(rt: &R) -> Result<(), Fault> {
    let Ok(args) = env::args(rt) else {
        return Err(Fault::Usage);
    };
    let mut words = args.skip(1);
    let (Some(command), Some(root), Some(count)) = (words.next(), words.next(), words.next()) else {
        return Err(Fault::Usage);
    };
    let (Some(command), Some(count)) = (read_command(command.as_bytes()), decimal(count.as_bytes()))
    else {
        return Err(Fault::Usage);
    };
    let Ok(count) = u32::try_from(count) else {
        return Err(Fault::Usage);
    };
    let mut tree = RealTree::at(rt.clone()?, root.as_str())?;
    do_command(rt.alloc(), command, &mut tree, count)
}

fn main(rt: HostRuntime) -> ExitCode {
    match run(&rt) {
        Ok(()) => ExitCode::SUCCESS,
        Err(Fault::Usage) => {
            let _ = println!(rt; "usage: tree_bench make ROOT N, find ROOT N, remove ROOT N");
            ExitCode::from(1)
        }
        Err(_) => ExitCode::FAILURE,
    }
}
