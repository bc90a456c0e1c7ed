//! Times the parts of a plain run.
use crate::timing::fault::Fault;
use crate::timing::timer::Timer;
use checkpoints::{Run, simulate};
use commands::open_text;
use job_table::{Edit, JobTable};
use parallel_reader::read_parallel;
use report::schedule_text;
use scenarios::{Plan, Scenario};
use std::alloc::{Allocator, Global};
use std::rt::Clock;
use std::sync::Arc;
use std::thread::Threads;
use swf_text::{Value, read_swf};

/// The most event seconds of a segment.
const SPACING: u32 = 256;

/// How many edits are timed.
const EDITS: u64 = 10_000;

fn tell_took<R: Clock + Print>(timer: &mut Timer<'_, R>, what: &str, took: u64, entries: u64) {
    let milliseconds = took / 1_000_000;
    let share = took / entries.max(1);
    let is_printed = println!(timer.rt; "{what} {milliseconds} ms, {share} ns each").is_ok();
    timer.note(is_printed);
}

fn tell<R: Clock + Print>(timer: &mut Timer<'_, R>, what: &str, entries: u64) {
    let took = timer.took();
    tell_took(timer, what, took, entries);
}

pub(crate) fn table_of<R: AllocGlobal + Clock + Print>(
    timer: &mut Timer<'_, R>,
    log: &[u8],
    procs: u64,
) -> Result<JobTable<Global>, Fault> {
    let alloc = timer.rt.alloc();
    timer.begin();
    let Ok(text) = read_swf(alloc, log) else {
        return Err(Fault::Log);
    };
    tell(timer, "read", text.entries().len() as u64);
    timer.begin();
    match open_text(alloc, text, Some(procs)) {
        Ok(opening) => {
            let table = opening.table;
            tell(timer, "open", table.len() as u64);
            Ok(table)
        }
        Err(_) => Err(Fault::Log),
    }
}

fn read_with_threads<R: AllocGlobal + Clock + Print + Threads + Sync>(
    timer: &mut Timer<'_, R>,
    log: &[u8],
) -> Result<(), Fault> {
    timer.begin();
    match read_parallel(timer.rt, timer.rt.alloc(), log) {
        Ok(text) => {
            tell(timer, "threads", text.entries().len() as u64);
            Ok(())
        }
        Err(_) => Err(Fault::Log),
    }
}

// Changes the user of jobs all over the table, one after another: how many were changed.
fn edit_all_over<A: Allocator + Copy>(table: &mut JobTable<A>) -> u64 {
    let step = table.len() as u64 / EDITS + 1;
    let mut changed = 0u64;
    for place in 0..EDITS {
        let edit = Edit::Change {
            number: place.wrapping_mul(step).wrapping_add(1),
            field: 12,
            value: Value::ZERO,
        };
        if table.apply(&edit).is_ok() {
            changed = changed.wrapping_add(1);
        }
    }
    changed
}

fn time_changes<R: Clock + Print>(
    timer: &mut Timer<'_, R>,
    what: &str,
    table: &mut JobTable<Global>,
) {
    timer.begin();
    let changed = edit_all_over(table);
    let took = timer.took();
    let is_printed = println!(timer.rt; "{changed} edits").is_ok();
    timer.note(is_printed);
    tell_took(timer, what, took, EDITS);
}

// Times the edits of a copy of the table alone, twice: the first ones copy each chunk that they touch,
// and then nobody else has these.
fn time_table<R: AllocGlobal + Clock + Print>(
    timer: &mut Timer<'_, R>,
    table: &JobTable<Global>,
) -> Result<(), Fault> {
    timer.begin();
    let Ok(mut edited) = table.copy() else {
        return Err(Fault::Edit);
    };
    tell(timer, "copy the table", table.len() as u64);
    time_changes(timer, "edit", &mut edited);
    time_changes(timer, "again", &mut edited);
    Ok(())
}

fn print<R: AllocGlobal + Clock + Print>(
    timer: &mut Timer<'_, R>,
    run: &Run<Global>,
) -> Result<(), Fault> {
    timer.begin();
    let Ok(text) = schedule_text(timer.rt.alloc(), "base", 0, run) else {
        return Err(Fault::Run);
    };
    tell(timer, "print", run.table().len() as u64);
    let (segments, bytes) = (run.segments().len(), text.len());
    let is_printed = println!(timer.rt; "{segments} segments, {bytes} bytes").is_ok();
    timer.note(is_printed);
    Ok(())
}

fn time_run<R: AllocGlobal + Clock + Print>(
    timer: &mut Timer<'_, R>,
    table: JobTable<Global>,
    scenario: Scenario,
) -> Result<(), Fault> {
    let alloc = timer.rt.alloc();
    let entries = table.len() as u64;
    let Ok(table) = Arc::new(alloc, table) else {
        return Err(Fault::Run);
    };
    timer.begin();
    match simulate(alloc, Plan::new(table, scenario), SPACING) {
        Ok(run) => {
            tell(timer, "simulate", entries);
            print(timer, &run)
        }
        Err(_) => Err(Fault::Run),
    }
}

fn time_before<R: AllocGlobal + Clock + Print + Threads + Sync>(
    timer: &mut Timer<'_, R>,
    log: &[u8],
    table: &JobTable<Global>,
) -> Result<(), Fault> {
    read_with_threads(timer, log)?;
    time_table(timer, table)
}

/// Times the parts of a plain run of a log, and edits of its table.
pub(crate) fn time_parts<R: AllocGlobal + Clock + Print + Threads + Sync>(
    timer: &mut Timer<'_, R>,
    log: &[u8],
    scenario: Scenario,
) -> Result<(), Fault> {
    let table = table_of(timer, log, scenario.procs())?;
    time_before(timer, log, &table)?;
    time_run(timer, table, scenario)
}
