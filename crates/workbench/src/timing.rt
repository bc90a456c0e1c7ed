//! Times a plain run of a log on a machine: reading, by one thread and by several, opening, simulating
//! and printing, and ten thousand edits of its table, twice; or 200 edits, each until its run is
//! published.

mod edits;
mod fault;
mod parts;
mod timer;

use crate::timing::edits::Kind;
pub(crate) use crate::timing::fault::Fault;
use crate::timing::timer::{Timer, timer_of};
use scenarios::Scenario;
use std::fs;
use std::rt::{Clock, Files};
use std::thread::Threads;

/// What is timed of a log.
#[derive(Clone, Copy)]
enum Task {
    /// The parts of a plain run.
    Parts,
    /// Edits of this kind.
    Edits(Kind),
}

fn task_of(word: Option<&str>) -> Option<Task> {
    match word {
        None => Some(Task::Parts),
        Some("changes") => Some(Task::Edits(Kind::Changes)),
        Some("insertions") => Some(Task::Edits(Kind::Insertions)),
        Some(_) => None,
    }
}

fn tell_file<R: Clock + Print>(timer: &mut Timer<'_, R>, bytes: usize) {
    let took = timer.took() / 1_000_000;
    let is_printed = println!(timer.rt; "file {took} ms, {bytes} bytes").is_ok();
    timer.note(is_printed);
}

fn time_log<R: AllocGlobal + Clock + Print + Threads + Sync>(
    timer: &mut Timer<'_, R>,
    log: &[u8],
    scenario: Scenario,
    task: Task,
) -> Result<(), Fault> {
    match task {
        Task::Parts => parts::time_parts(timer, log, scenario),
        Task::Edits(kind) => edits::time_edits(timer, log, scenario, kind),
    }
}

fn time_file<R: AllocGlobal + Clock + Files + Print + Threads + Sync>(
    rt: &R,
    name: &str,
    scenario: Scenario,
    task: Task,
) -> Result<(), Fault> {
    let Some(mut timer) = timer_of(rt) else {
        return Err(Fault::Device);
    };
    timer.begin();
    let Ok(log) = fs::read(rt, name) else {
        return Err(Fault::File);
    };
    tell_file(&mut timer, log.len());
    let timed = time_log(&mut timer, log.as_slice(), scenario, task);
    if timer.has_served() {
        timed
    } else {
        Err(Fault::Device)
    }
}

// The machine of as many processors as a word says.
fn scenario_of(word: &str) -> Option<Scenario> {
    Scenario::new(word.parse::<u64>().ok()?, 1000)
}

// Times what these words ask for: a log, a number of processors, and which edits, if any.
pub(crate) fn run_words<R: AllocGlobal + Clock + Files + Print + Threads + Sync>(
    rt: &R,
    name: &str,
    procs: &str,
    third: Option<&str>,
) -> Result<(), Fault> {
    match (scenario_of(procs), task_of(third)) {
        (Some(scenario), Some(task)) => time_file(rt, name, scenario, task),
        _ => Err(Fault::Words),
    }
}
