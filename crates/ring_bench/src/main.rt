//! A ring on a file, for the benchmark `bench/ring.py`.
//!
//! `make FILE` makes a ring over the whole file, `append FILE` appends 10,000 entries of 4,000 bytes to it and syncs
//! once per 100 of them, and `read FILE` reads them back.
#![tactic(auto)]

mod work;

use dev_edge::RealDevice;
use std::env;
use std::os::unix::fs::FileExt;
use std::process::ExitCode;
use std::rt::{Env, Files};
use work::{Fault, do_command, read_command};

fn run<R: Env + Files + AllocGlobal + Clone + Drop>(rt: &R) -> Result<(), Fault>
where
    R::File: FileExt,
{
    let Ok(args) = env::args(rt) else {
        return Err(Fault::Usage);
    };
    let mut words = args.skip(1);
    let (Some(command), Some(file)) = (words.next(), words.next()) else {
        return Err(Fault::Usage);
    };
    let Some(command) = read_command(command.as_bytes()) else {
        return Err(Fault::Usage);
    };
    let mut device = RealDevice::at(rt.clone()?, file.as_str())?;
    do_command(rt.alloc(), command, &mut device)?;
    Ok(())
}

fn main(rt: HostRuntime) -> ExitCode {
    match run(&rt) {
        Ok(()) => ExitCode::SUCCESS,
        Err(Fault::Usage) => {
            let _ = println!(rt; "usage: ring_bench make FILE, append FILE, read FILE");
            ExitCode::from(1)
        }
        Err(_) => ExitCode::FAILURE,
    }
}
