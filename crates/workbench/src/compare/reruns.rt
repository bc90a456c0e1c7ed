use crate::compare::edits::{edits_of, made_table};
use crate::compare::found::Found;
use crate::compare::work_set::{Counts, counts_of};
use checking::Chance;
use checkpoints::{Row, Run, simulate};
use easy_rule::Start;
use job_table::{Edit, JobTable};
use metrics::DayRow;
use rejoin::{Work, edited, rerun};
use scenarios::{Order, Plan, Scenario};
use std::alloc::Global;
use std::sync::Arc;

/// The most event seconds of a segment.
const SPACINGS: [u32; 3] = [1, 3, 256];

fn rerun_of(
    alloc: Global,
    was: &Run<Global>,
    edits: &[Edit<Global>],
    spacing: u32,
) -> Option<(Run<Global>, Work)> {
    let table = Arc::new(alloc, edited(was.table(), edits).ok()?).ok()?;
    rerun(alloc, was, edits, table, spacing).ok()
}

fn has_rows(run: &Run<Global>, rows: &[Row]) -> bool {
    for row in rows {
        if run.start_of(row.number) != Some(row.start) {
            return false;
        }
    }
    match run.schedule() {
        Ok(others) => others.as_slice() == rows,
        Err(_) => false,
    }
}

// Whether two runs have equal schedules, and the second tells each row's start by its number.
fn same_schedules(a: &Run<Global>, b: &Run<Global>) -> bool {
    match a.schedule() {
        Ok(rows) => has_rows(b, rows.as_slice()),
        Err(_) => false,
    }
}

fn has_days(run: &Run<Global>, days: &[DayRow]) -> bool {
    match run.tables().days() {
        Ok(others) => others.as_slice() == days,
        Err(_) => false,
    }
}

fn same_days(a: &Run<Global>, b: &Run<Global>) -> bool {
    match a.tables().days() {
        Ok(days) => has_days(b, days.as_slice()),
        Err(_) => false,
    }
}

fn same_tables(a: &Run<Global>, b: &Run<Global>) -> bool {
    a.tables().overall() == b.tables().overall()
        && a.tables().users() == b.tables().users()
        && same_days(a, b)
}

fn add_starts(starts: &mut Vec<Start>, run: &Run<Global>) -> Option<()> {
    for segment in run.segments() {
        starts.extend_from_slice(segment.starts()).ok()?;
    }
    Some(())
}

// Whether two runs have equal starts, in order; none where memory is short.
fn same_starts(alloc: Global, a: &Run<Global>, b: &Run<Global>) -> Option<bool> {
    let mut starts = Vec::new(alloc);
    add_starts(&mut starts, a)?;
    let count = starts.len();
    add_starts(&mut starts, b)?;
    let (first, second) = starts.as_slice().split_at(count.min(starts.len()));
    Some(first == second)
}

// Whether a run is that of its table from nothing; none where memory is short.
fn is_from_nothing(alloc: Global, run: &Run<Global>, spacing: u32) -> Option<bool> {
    let plain = simulate(alloc, run.plan().copy().ok()?, spacing).ok()?;
    Some(
        same_schedules(&plain, run) && same_tables(&plain, run) && same_starts(alloc, &plain, run)?,
    )
}

// Whether a rerun that took this work reused old segments, worked a part of the event seconds, and
// reused the last old segment but not all of them; none where it worked more than there was, or reused
// others than those to be reused.
fn counted(work: Work, counts: Counts) -> Option<[u64; 3]> {
    if work.handled > counts.work || work.reused != counts.reused {
        return None;
    }
    let is_part = work.handled > 0 && work.handled < counts.events;
    Some([
        u64::from(work.reused > 0),
        u64::from(is_part),
        u64::from(counts.rejoins),
    ])
}

// What is counted of a rerun after these edits; none where it differs from a run from nothing, or from
// the definitions.
fn counted_after(
    alloc: Global,
    was: &Run<Global>,
    edits: &[Edit<Global>],
    spacing: u32,
) -> Option<[u64; 3]> {
    let (again, work) = rerun_of(alloc, was, edits, spacing)?;
    if !is_from_nothing(alloc, &again, spacing)? {
        return None;
    }
    counted(work, counts_of(alloc, was, &again)?)
}

fn counted_of(
    alloc: Global,
    table: &Arc<JobTable<Global>, Global>,
    edits: &[Edit<Global>],
    scenario: Scenario,
    spacing: u32,
) -> Option<[u64; 3]> {
    let was = simulate(alloc, Plan::new(table.clone().ok()?, scenario), spacing).ok()?;
    counted_after(alloc, &was, edits, spacing)
}

fn compare_table(
    alloc: Global,
    table: &Arc<JobTable<Global>, Global>,
    edits: &[Edit<Global>],
    scenario: Scenario,
    found: &mut Found,
) {
    for order in Order::all() {
        for spacing in SPACINGS {
            let counted = counted_of(alloc, table, edits, scenario.ordered(*order), spacing);
            found.add(counted);
        }
    }
}

// Adds what a generated table and its edits give; none where memory is short, or there are no edits.
fn compare_seed(alloc: Global, seed: u64, found: &mut Found) -> Option<()> {
    let mut chance = Chance::new(seed, 77);
    let scenario = Scenario::new(10, 1000)?;
    let table = Arc::new(alloc, made_table(alloc, &mut chance)?).ok()?;
    let edits = edits_of(alloc, &mut chance, seed, &scenario, &table)?;
    compare_table(alloc, &table, edits.as_slice(), scenario, found);
    (!edits.is_empty()).then_some(())
}

pub(crate) fn compare(alloc: Global, seed: u64, found: &mut Found) {
    if compare_seed(alloc, seed, found).is_none() {
        found.add(None);
    }
}
