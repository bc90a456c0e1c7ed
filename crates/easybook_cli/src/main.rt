//! The program `easybook`: hands the process's words and streams on, and tells by its status and
//! one line why there is no answer.
#![tactic(auto)]

use easybook::{Stop, run_words};
use std::process::ExitCode;
use std::rt::{Env, Files};
use std::sync::Wait;
use std::thread::Threads;
use std::{env, io};

fn run<R: Env + Files + Input + Print + AllocGlobal + Threads + Wait + Sync>(
    rt: &R,
) -> Result<(), Stop> {
    let mut args = Vec::new(rt.alloc());
    for arg in env::args(rt)? {
        args.push(arg)?;
    }
    let mut words = Vec::new(rt.alloc());
    for arg in &args {
        words.push(arg.as_str())?;
    }
    run_words(
        rt.alloc(),
        rt,
        words.as_slice(),
        rt.reader(),
        &mut io::writer(rt),
    )
}

fn main(rt: HostRuntime) -> ExitCode {
    match run(&rt) {
        Ok(()) => ExitCode::SUCCESS,
        Err(stop) => {
            // Where even this line cannot be written, the status still tells.
            let _ = eprintln!(rt; "easybook: {stop}");
            ExitCode::from(stop.status())
        }
    }
}
