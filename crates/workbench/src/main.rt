//! Tries the product and times it: compares what runs with the plain program of the definitions, gives
//! the product logs and scripts that are changed at random, readers and writers that fail and growths
//! that are refused, and times a plain run and its edits.
//!
//!     workbench
//!     workbench fuzz ROUNDS
//!     workbench time LOG PROCESSORS [changes|insertions]
//!
//! Without a word it compares and tries, and its status is 1 where something is wrong. The second form
//! changes so many logs and scripts, and counts what they are answered. The third times the parts of a
//! plain run of a log, or 200 edits of that kind.
#![tactic(auto)]

mod compare;
mod fuzz;
mod timing;

use crate::timing::Fault;
use anyhow::{Context, Result};
use std::env;
use std::marker::Sync;
use std::process::ExitCode;
use std::rt::{Clock, Env, Files};
use std::sync::Wait;
use std::thread::Threads;

fn run_all<R: AllocGlobal + Print + Eprint + Threads + Wait + Sync>(rt: &R) -> Result<bool> {
    let is_same = compare::run(rt);
    Ok(fuzz::run_short(rt)? && is_same)
}

// Changes as many logs and scripts as a word says: whether all is right.
fn run_fuzz<R: AllocGlobal + Print + Threads + Sync>(rt: &R, rounds: &str) -> Result<bool> {
    fuzz::run_long(rt, rounds.parse().context("how many")?)
}

fn run_time<R: AllocGlobal + Clock + Files + Print + Threads + Sync>(
    rt: &R,
    name: &str,
    procs: &str,
    kind: Option<&str>,
) -> Result<bool> {
    timing::run_words(rt, name, procs, kind)?;
    Ok(true)
}

fn run_words<R: AllocGlobal + Clock + Files + Print + Threads + Sync>(
    rt: &R,
    words: [Option<&str>; 4],
) -> Result<bool> {
    match words {
        [Some("fuzz"), Some(rounds), None, None] => run_fuzz(rt, rounds),
        [Some("time"), Some(name), Some(procs), kind] => run_time(rt, name, procs, kind),
        _ => Err(Fault::Words.into()),
    }
}

fn run<R: AllocGlobal + Clock + Env + Files + Print + Eprint + Threads + Wait + Sync>(
    rt: &R,
) -> Result<bool> {
    let mut words = env::args(rt)?.skip(1);
    let Some(first) = words.next() else {
        return run_all(rt);
    };
    let others = [words.next(), words.next(), words.next()];
    let [second, third, fourth] = &others;
    run_words(
        rt,
        [
            Some(first.as_str()),
            second.as_deref(),
            third.as_deref(),
            fourth.as_deref(),
        ],
    )
}

fn main(rt: HostRuntime) -> ExitCode {
    match run(&rt) {
        Ok(true) => ExitCode::SUCCESS,
        Ok(false) => ExitCode::from(1),
        Err(fault) => {
            // Where even this line cannot be written, the status still tells.
            let _ = eprintln!(rt; "workbench: {fault}");
            ExitCode::from(1)
        }
    }
}
