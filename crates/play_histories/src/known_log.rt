// The log that is opened at most desks, a job that joins it, a machine, and what comes of them.
use crate::wrong::Wrong;
use checking::{FOUR, entry_of, table_of};
use job_table::{Edit, JobTable};
use scenarios::{Scenario, ScenarioId};
use std::alloc::Allocator;
use version_book::{Book, Published, Reading};

/// A fifth job, of size 2.
const FIFTH: &[u8] = b"5 4 -1 500 2 -1 -1 2 500 -1 1 8 -1 -1 -1 -1 -1 -1\n";

/// The jobs of each version: the fifth joins, and then the fourth leaves.
const JOBS: [&[u64]; 3] = [&[1, 2, 3, 4], &[1, 2, 3, 4, 5], &[1, 2, 3, 5]];

/// The starts of each version, worked by hand.
const STARTS: [&[(u64, u64)]; 3] = [
    &[(1, 0), (2, 100), (3, 2), (4, 92)],
    &[(1, 0), (2, 100), (3, 2), (4, 92), (5, 150)],
    &[(1, 0), (2, 100), (3, 2), (5, 92)],
];

/// The log of the four jobs; Memory where a growth is refused.
pub(crate) fn opening<A: Allocator + Copy>(alloc: A) -> Result<JobTable<A>, Wrong> {
    match table_of(alloc, FOUR) {
        Some(table) => Ok(table),
        None => Err(Wrong::Memory),
    }
}

/// The machine of ten processors.
pub(crate) fn ten() -> Result<Scenario, Wrong> {
    match Scenario::new(10, 1000) {
        Some(scenario) => Ok(scenario),
        None => Err(Wrong::Input),
    }
}

/// The book of the four jobs, without scenarios, in segments of so many event seconds.
pub(crate) fn book_of<A: Allocator + Copy>(alloc: A, spacing: u32) -> Result<Book<A>, Wrong> {
    match Book::new(alloc, opening(alloc)?, spacing) {
        Ok(book) => Ok(book),
        Err(_) => Err(Wrong::Memory),
    }
}

fn adds_base<A: Allocator + Copy>(book: &mut Book<A>) -> bool {
    match ten() {
        Ok(ten) => book.add_scenario(0, "base", ten).is_ok(),
        Err(_) => false,
    }
}

/// The book with the scenario `base`, in segments of one event second.
pub(crate) fn with_base<A: Allocator + Copy>(alloc: A) -> Result<Book<A>, Wrong> {
    let mut book = book_of(alloc, 1)?;
    if adds_base(&mut book) {
        Ok(book)
    } else {
        Err(Wrong::Memory)
    }
}

/// The edit by which the fifth job joins; Memory where a growth is refused.
pub(crate) fn fifth<A: Allocator + Copy>(alloc: A) -> Result<Edit<A>, Wrong> {
    match entry_of(alloc, FIFTH) {
        Some(entry) => Ok(Edit::Insert(entry)),
        None => Err(Wrong::Memory),
    }
}

fn has_all<A: Allocator + Copy>(table: &JobTable<A>, jobs: &[u64]) -> bool {
    let mut all = true;
    for number in jobs {
        all = all && table.get(*number).is_some();
    }
    all
}

fn has_jobs<A: Allocator + Copy>(table: &JobTable<A>, version: u64) -> bool {
    match JOBS.get(version as usize) {
        Some(jobs) => table.len() == jobs.len() && has_all(table, jobs),
        None => false,
    }
}

fn has_starts<A: Allocator + Copy>(shown: &Published<A>, starts: &[(u64, u64)]) -> bool {
    let mut all = true;
    for start in starts {
        all = all && shown.run().start_of(start.0) == Some(start.1);
    }
    all
}

/// Whether what is shown has the starts of its version.
pub(crate) fn is_right<A: Allocator + Copy>(shown: &Published<A>) -> bool {
    match STARTS.get(shown.version() as usize) {
        Some(starts) => has_starts(shown, starts),
        None => false,
    }
}

/// What a session sees of the book and of itself.
#[derive(Clone, Copy, PartialEq, Eq)]
pub(crate) struct Looks {
    pub(crate) version: u64,
    pub(crate) base: Option<ScenarioId>,
    pub(crate) more: Option<ScenarioId>,
    pub(crate) seen: u64,
    pub(crate) listed: usize,
}

/// Whether this is where the book stands, as a session sees it.
pub(crate) fn is_current<A: Allocator + Copy>(current: &Reading<A>, looks: Looks) -> bool {
    current.version == looks.version
        && has_jobs(&current.table, looks.version)
        && current.scenarios.id_of("base") == looks.base
        && current.scenarios.id_of("more") == looks.more
}
