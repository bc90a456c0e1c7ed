// Runs: their segments and tables.
use crate::logs::{NOTED, SIX, THREE, outcome, run_of};
use crate::own_segments::made_again;
use crate::texts::{beside, texts};
use checking::shared_table;
use checkpoints::{Row, Run, RunFault, simulate};
use metrics::{Part, Skips, Tables};
use refusing::Outcome;
use scenarios::{Plan, Scenario};
use std::alloc::{Allocator, Global};
use std::process::Abort;
use swf_text::Memory;

/// The starts of the four jobs on ten processors.
const STARTS: [(u64, u64); 4] = [(1, 0), (2, 100), (3, 2), (4, 92)];

const NO_SKIPS: Skips = Skips {
    size: 0,
    run: 0,
    large: 0,
    long: 0,
};

// Whether the rows, and the answers for single jobs, tell of the four starts.
fn are_rows<A: Allocator + Copy>(run: &Run<A>, rows: &[Row]) -> bool {
    rows.len() == 4
        && rows.iter().zip(&STARTS).all(|(row, want)| {
            (row.number, row.start) == *want && run.start_of(row.number) == Some(row.start)
        })
}

// Whether these are the tables of the four jobs, by their processor seconds, mean wait, users and days.
fn are_tables<A: Allocator + Copy>(tables: &Tables<A>) -> Result<bool, Memory> {
    let overall = tables.overall();
    let days = tables.days()?.len();
    Ok((overall.busy, overall.wait, tables.users().len(), days) == (2360, 47, 2, 1))
}

/// Whether it is the run of the four jobs on ten processors.
pub(crate) fn is_of_four<A: Allocator + Copy>(run: &Run<A>) -> Result<bool, Memory> {
    let has_scenario = run.scenario().procs() == 10 && run.table().len() == 4;
    let is_right = has_scenario && run.start_of(5).is_none() && are_tables(run.tables())?;
    Ok(is_right && are_rows(run, &run.schedule()?))
}

/// Whether a run's segments begin at these seconds.
pub(crate) fn begin_at<A: Allocator + Copy>(run: &Run<A>, firsts: &[u64]) -> bool {
    let segments = run.segments();
    segments.len() == firsts.len() && segments.iter().zip(firsts).all(|(s, f)| s.first() == *f)
}

/// The log is simulated.
pub(crate) fn simulates<A: Allocator + Copy>(alloc: A, scenario: Scenario) -> Outcome {
    let Some(table) = shared_table(alloc, NOTED) else {
        return Outcome::Before;
    };
    match simulate(alloc, Plan::new(table, scenario), 2) {
        Ok(run) => outcome(is_of_four(&run).map_err(|_| true)),
        Err(fault) => Outcome::memory_if(fault == RunFault::Memory),
    }
}

/// Logs, spacings, and the first seconds of the segments.
const FIRSTS: [(&[u8], u32, &[u64]); 7] = [
    (NOTED, 1, &[0, 1, 2, 3, 4, 93, 101, 151]),
    (NOTED, 2, &[0, 2, 4, 101]),
    (NOTED, 7, &[0, 151]),
    (NOTED, 256, &[0]),
    (THREE, 1, &[0, 1, 11, 101, 111, 201]),
    (THREE, 2, &[0, 11, 111]),
    (SIX, 2, &[0, 11, 111, 211, 311, 411]),
];

// Whether the run of a log on ten processors is cut so.
fn is_cut(alloc: Global, log: &[u8], spacing: u32, firsts: &[u64]) -> Option<bool> {
    let run = run_of(alloc, log, Scenario::new(10, 1000)?, spacing)?;
    Some(begin_at(&run, firsts))
}

#[test]
fn segments_begin_behind_event_seconds(rt: HostRuntime) {
    for (log, spacing, firsts) in &FIRSTS {
        assert!(rt; is_cut(rt.alloc(), log, *spacing, firsts) == Some(true));
    }
}

/// The most jobs of a part.
const MAX_JOBS: u64 = 4_194_304;

// Whether a part has the tables of the four jobs that takes a third one in.
fn absorbs<A: Allocator + Copy>(both: Part<A>, third: &Part<A>) -> Result<bool, Memory> {
    let jobs = both.totals().count.saturating_add(third.totals().count);
    if jobs > MAX_JOBS {
        return Ok(false);
    }
    are_tables(&both.absorb(third)?.tables(10, NO_SKIPS)?)
}

fn make_up<A: Allocator + Copy>(
    first: &Part<A>,
    second: &Part<A>,
    third: &Part<A>,
) -> Result<bool, Memory> {
    let jobs = first.totals().count.saturating_add(second.totals().count);
    if jobs > MAX_JOBS {
        return Ok(false);
    }
    absorbs(first.merge(second)?, third)
}

// The parts of a run's three segments, put together, have the tables of the run.
fn parts_make_up<A: Allocator + Copy>(run: &Run<A>) -> Result<bool, Memory> {
    let [first, second, third] = run.segments() else {
        return Ok(false);
    };
    make_up(first.part(), second.part(), third.part())
}

fn is_again_of_four<A: Allocator + Copy>(alloc: A, run: &Run<A>) -> Result<bool, Memory> {
    is_of_four(&made_again(alloc, run)?)
}

/// What is made of the run of the log, in three segments.
#[derive(Clone, Copy)]
pub(crate) enum Use {
    Parts,
    Texts,
    /// Its line beside another scenario's.
    Beside,
    /// The same run, of its own segments.
    Again,
}

fn used<A: Allocator + Copy>(alloc: A, made: Use, run: Run<A>) -> Result<bool, Memory> {
    match made {
        Use::Parts => parts_make_up(&run),
        Use::Texts => texts(alloc, &run),
        Use::Beside => beside(alloc, run),
        Use::Again => is_again_of_four(alloc, &run),
    }
}

/// This is made of the run of the log.
pub(crate) fn uses<A: Allocator + Copy>(alloc: A, made: Use, scenario: Scenario) -> Outcome {
    match run_of(alloc, NOTED, scenario, 3) {
        Some(run) => outcome(used(alloc, made, run).map_err(|_| true)),
        None => Outcome::Before,
    }
}
