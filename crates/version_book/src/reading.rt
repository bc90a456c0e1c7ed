use job_table::JobTable;
use scenarios::ScenarioList;
use std::alloc::Allocator;
use std::sync::Arc;

/// The version, the log and the scenarios of a book at one moment.
#[derive(Drop)]
pub struct Reading<A: Allocator + Copy> {
    /// The version.
    pub version: u64,
    /// The log of this version.
    pub table: Arc<JobTable<A>, A>,
    /// The scenarios, in the order in which they were added.
    pub scenarios: ScenarioList<A>,
}
