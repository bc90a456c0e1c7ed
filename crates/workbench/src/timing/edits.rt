//! Times edits of a book, each until its run is published.
use crate::timing::fault::Fault;
use crate::timing::parts;
use crate::timing::timer::Timer;
use job_table::{Edit, JobTable};
use rejoin::Work;
use scenarios::Scenario;
use std::alloc::Global;
use std::rt::Clock;
use swf_text::{EntryLines, Value, read_swf};
use version_book::{Book, Task};

/// The most event seconds of a segment.
const SPACING: u32 = 256;

/// How many edits are timed.
const EDITS: u64 = 200;

/// The session that edits, and the worker that simulates.
const CALLER: u64 = 0;

/// Which edits are timed.
#[derive(Clone, Copy)]
pub(crate) enum Kind {
    /// Another run time for each of 200 jobs in the middle of the log.
    Changes,
    /// 200 jobs more, each ten seconds behind the last one.
    Insertions,
}

fn run_time(place: u64) -> u64 {
    place.wrapping_mul(997) % 4_000 + 1
}

fn change(alloc: Global, number: u64, place: u64) -> Option<Edit<Global>> {
    let text = format!(in alloc; "{}", run_time(place)).ok()?;
    Some(Edit::Change {
        number,
        field: 4,
        value: Value::from_bytes(text.as_bytes())?,
    })
}

fn entry_of(alloc: Global, line: &[u8]) -> Option<EntryLines<Global>> {
    let text = read_swf(alloc, line).ok()?;
    text.entries().first()?.lines().ok()
}

fn insertion(alloc: Global, number: u64, submit: u64, place: u64) -> Option<Edit<Global>> {
    let run = run_time(place);
    let line = format!(in alloc;
        "{number} {submit} -1 {run} 8 -1 -1 8 4000 -1 1 1 1 1 1 1 -1 -1\n"
    ).ok()?;
    Some(Edit::Insert(entry_of(alloc, line.as_bytes())?))
}

// The next edit: the log has job numbers from 1 on, in the order in which its jobs were submitted.
fn edit_of(alloc: Global, log: &JobTable<Global>, kind: Kind, place: u64) -> Option<Edit<Global>> {
    let last = log.len() as u64;
    match kind {
        Kind::Changes => change(alloc, (last / 2).wrapping_add(place), place),
        Kind::Insertions => {
            let submit = log.get(last)?.submit().wrapping_add(10);
            insertion(alloc, last.wrapping_add(1), submit, place)
        }
    }
}

// Works a task and publishes its run: what that took, unless it was made from nothing.
fn publish(book: &mut Book<Global>, task: &mut Task<Global>) -> Result<Option<Work>, Fault> {
    let Ok((_, work)) = task.deliver() else {
        return Err(Fault::Run);
    };
    match book.finish_delivered(CALLER, task.ticket()) {
        Ok(Some(_)) => Ok(work),
        Ok(None) | Err(_) => Err(Fault::Edit),
    }
}

// Works the scenario that is due until its run is published.
fn settle(book: &mut Book<Global>) -> Result<Option<Work>, Fault> {
    match book.claim(CALLER) {
        Ok(Some(mut task)) => publish(book, &mut task),
        _ => Err(Fault::Edit),
    }
}

// Prints what an edit took until its run was published.
fn tell<R: Clock + Print>(timer: &mut Timer<'_, R>, work: Work) {
    let took = timer.took() / 1_000;
    let Work {
        handled,
        reused,
        ..
    } = work;
    let is_printed = println!(timer.rt;
        "edit {took} us, {handled} event seconds, {reused} segments reused"
    ).is_ok();
    timer.note(is_printed);
}

// Times an edit until its run is published.
fn time_edit<R: Clock + Print>(
    timer: &mut Timer<'_, R>,
    book: &mut Book<Global>,
    edit: &Edit<Global>,
) -> Result<(), Fault> {
    timer.begin();
    if book.edit(CALLER, edit).is_err() {
        return Err(Fault::Edit);
    }
    match settle(book)? {
        Some(work) => {
            tell(timer, work);
            Ok(())
        }
        None => Err(Fault::Anew),
    }
}

fn time_place<R: AllocGlobal + Clock + Print>(
    timer: &mut Timer<'_, R>,
    book: &mut Book<Global>,
    kind: Kind,
    place: u64,
) -> Result<(), Fault> {
    match edit_of(timer.rt.alloc(), book.current(), kind, place) {
        Some(edit) => time_edit(timer, book, &edit),
        None => Err(Fault::Edit),
    }
}

// Simulates the log of a book under a scenario, and prints how long that took.
fn time_first<R: Clock + Print>(
    timer: &mut Timer<'_, R>,
    book: &mut Book<Global>,
    scenario: Scenario,
) -> Result<(), Fault> {
    if book.add_scenario(CALLER, "base", scenario).is_err() {
        return Err(Fault::Edit);
    }
    timer.begin();
    settle(book)?;
    let took = timer.took() / 1_000;
    let is_printed = println!(timer.rt; "simulate {took} us").is_ok();
    timer.note(is_printed);
    Ok(())
}

fn book_of<R: AllocGlobal + Clock + Print>(
    timer: &mut Timer<'_, R>,
    log: &[u8],
    procs: u64,
) -> Result<Book<Global>, Fault> {
    let table = parts::table_of(timer, log, procs)?;
    match Book::new(timer.rt.alloc(), table, SPACING) {
        Ok(book) => Ok(book),
        Err(_) => Err(Fault::Edit),
    }
}

fn time_all<R: AllocGlobal + Clock + Print>(
    timer: &mut Timer<'_, R>,
    book: &mut Book<Global>,
    scenario: Scenario,
    kind: Kind,
) -> Result<(), Fault> {
    time_first(timer, book, scenario)?;
    for place in 0..EDITS {
        time_place(timer, book, kind, place)?;
    }
    Ok(())
}

/// Simulates a log under a scenario, and then times the edits of a kind, each with the run that it asks
/// for; what the first simulation took is answered beside them.
pub(crate) fn time_edits<R: AllocGlobal + Clock + Print>(
    timer: &mut Timer<'_, R>,
    log: &[u8],
    scenario: Scenario,
    kind: Kind,
) -> Result<(), Fault> {
    let mut book = book_of(timer, log, scenario.procs())?;
    time_all(timer, &mut book, scenario, kind)
}
