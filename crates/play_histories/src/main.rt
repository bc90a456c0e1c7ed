//! Plays at desks: sessions and workers that gates and flags hold, what they are answered, when they
//! wait and end, and how a desk is closed; as many of them as a desk opens; eight sessions on threads
//! that edit a log, add, drop and retry scenarios, settle and look at them, as it comes by chance, while
//! four workers make the runs; a session and a worker on an allocator that refuses each growth in turn;
//! and both at a full journal. The journals of these last three are judged by the plain program. It
//! prints eight lines, whatever the threads' order; at the first thing wrong it writes that to standard
//! error, and its status is 1.
#![tactic(auto)]

mod again;
mod analyst;
mod answers;
mod callers;
mod desk_handle;
mod desk_history;
mod full;
mod growing;
mod growths;
mod known_log;
mod late;
mod open_desk;
mod session_call;
mod settling;
mod threads;
mod together;
mod wrong;

use crate::wrong::Wrong;
use anyhow::Result;
use std::process::ExitCode;
use std::sync::Wait;
use std::thread::Threads;

/// What is played.
#[derive(Clone, Copy)]
enum Part {
    Together,
    Late,
    Again,
    Settling,
    Callers,
    History,
    Growths,
    Full,
}

/// All of it.
const PARTS: [Part; 8] = [
    Part::Together,
    Part::Late,
    Part::Again,
    Part::Settling,
    Part::Callers,
    Part::History,
    Part::Growths,
    Part::Full,
];

impl Part {
    fn text(self) -> &'static str {
        match self {
            Part::Together => "two sessions: one version for both, and no end without both",
            Part::Late => "two workers beside each other: a run that comes late is stale",
            Part::Again => "a scenario added again: its old ticket is unknown",
            Part::Settling => "what was given up: tried again, or left where the desk is stopped",
            Part::Callers => "64 sessions and 64 workers, and no more",
            Part::History => "eight sessions and four workers, 10000 calls: one legal history",
            Part::Growths => {
                "a session and a worker, each growth refused in turn: reported once, and nothing lost"
            }
            Part::Full => "a full journal: each call refused, and nothing changed",
        }
    }
}

fn found<R: AllocGlobal + Threads + Wait + Sync>(rt: &R, part: Part) -> Result<(), Wrong> {
    let alloc = rt.alloc();
    match part {
        Part::Together => together::is_right(rt, alloc),
        Part::Late => late::is_right(rt, alloc),
        Part::Again => again::is_right(rt, alloc),
        Part::Settling => settling::is_right(rt, alloc),
        Part::Callers => callers::is_right(rt, alloc),
        Part::History => desk_history::is_right(rt, alloc),
        Part::Growths => growths::is_right(rt, alloc),
        Part::Full => full::is_right(rt, alloc),
    }
}

// Tells what was found: whether nothing is wrong.
fn tell<R: Print + Eprint>(rt: &R, found: Result<(), Wrong>, text: &str) -> Result<bool> {
    match found {
        Ok(()) => {
            println!(rt; "{text}")?;
            Ok(true)
        }
        Err(wrong) => {
            let wrong = wrong.text();
            eprintln!(rt; "play_histories: not {text}: {wrong}")?;
            Ok(false)
        }
    }
}

// Plays all, and tells what was found: whether nothing is wrong.
fn run<R: AllocGlobal + Print + Eprint + Threads + Wait + Sync>(rt: &R) -> Result<bool> {
    for part in PARTS {
        if !tell(rt, found(rt, part), part.text())? {
            return Ok(false);
        }
    }
    Ok(true)
}

fn main(rt: HostRuntime) -> ExitCode {
    match run(&rt) {
        Ok(true) => ExitCode::SUCCESS,
        Ok(false) => ExitCode::from(1),
        Err(fault) => {
            // Where even this line cannot be written, the status still tells.
            let _ = eprintln!(rt; "play_histories: {fault}");
            ExitCode::from(1)
        }
    }
}
