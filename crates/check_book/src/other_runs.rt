// Runs that are not those of a task.
use checking::{Written, edit_of};
use checkpoints::{Run, simulate};
use job_table::JobTable;
use scenarios::{Plan, Scenario};
use std::alloc::Allocator;
use std::sync::Arc;
use version_book::Task;

/// A value that no field of the second job has.
const OTHER: &[u8] = b"33";

// The log in which one field of the second job is another.
fn other_log<A: Allocator + Copy>(alloc: A, log: &JobTable<A>, field: u8) -> Option<JobTable<A>> {
    let edit = edit_of(alloc, Written::Change(2, field, OTHER))?;
    let mut other = log.copy().ok()?;
    other.apply(&edit).ok()?;
    Some(other)
}

/// The run of a log under a scenario.
pub(crate) fn run_of<A: Allocator + Copy>(
    alloc: A,
    log: JobTable<A>,
    scenario: Scenario,
) -> Option<Arc<Run<A>, A>> {
    let log = Arc::new(alloc, log).ok()?;
    let run = simulate(alloc, Plan::new(log, scenario), 1).ok()?;
    Arc::new(alloc, run).ok()
}

/// The run of a log in which one field of the second job is another than in the task's.
pub(crate) fn other_run<A: Allocator + Copy>(
    alloc: A,
    task: &Task<A>,
    field: u8,
) -> Option<Arc<Run<A>, A>> {
    run_of(
        alloc,
        other_log(alloc, task.table(), field)?,
        task.scenario(),
    )
}
