// Logs, and what tests begin with; none where memory is short.
use checking::shared_table;
use checkpoints::{Run, simulate};
use refusing::Outcome;
use scenarios::{Job, Plan, PlanRef, Scenario};
use std::alloc::Allocator;

/// Four jobs, of two users, with a comment, and a partial line behind a summary line that is not packed.
/// On ten processors they start at 0, 100, 2 and 92.
pub(crate) const NOTED: &[u8] = b"; four jobs
1 0 -1 100 6 0.000125 -1 6 100 -1 1 7 -1 -1 -1 -1 -1 -1
1 0 -1 40 6 -1 -1 6 100 -1 2 7 -1 -1 -1 -1 -1 -1
2 1 -1 50 8 -1 -1 8 50 -1 1 8 -1 -1 -1 -1 -1 -1
3 2 -1 90 4 -1 -1 4 90 -1 1 7 -1 -1 -1 -1 -1 -1
4 3 -1 500 2 -1 -1 2 500 -1 1 8 -1 -1 -1 -1 -1 -1
";

/// Three jobs of the whole machine for 10 seconds each, every 100 seconds.
pub(crate) const THREE: &[u8] = b"1 0 -1 10 10 -1 -1 10 10 -1 1 7 -1 -1 -1 -1 -1 -1
2 100 -1 10 10 -1 -1 10 10 -1 1 7 -1 -1 -1 -1 -1 -1
3 200 -1 10 10 -1 -1 10 10 -1 1 7 -1 -1 -1 -1 -1 -1
";

/// Six of them.
pub(crate) const SIX: &[u8] = b"1 0 -1 10 10 -1 -1 10 10 -1 1 7 -1 -1 -1 -1 -1 -1
2 100 -1 10 10 -1 -1 10 10 -1 1 7 -1 -1 -1 -1 -1 -1
3 200 -1 10 10 -1 -1 10 10 -1 1 7 -1 -1 -1 -1 -1 -1
4 300 -1 10 10 -1 -1 10 10 -1 1 7 -1 -1 -1 -1 -1 -1
5 400 -1 10 10 -1 -1 10 10 -1 1 7 -1 -1 -1 -1 -1 -1
6 500 -1 10 10 -1 -1 10 10 -1 1 7 -1 -1 -1 -1 -1 -1
";

/// A job of the whole machine that runs for half its estimate, and one that waits for it.
pub(crate) const SHORT: &[u8] = b"1 0 -1 50 10 -1 -1 10 100 -1 1 7 -1 -1 -1 -1 -1 -1
2 10 -1 10 10 -1 -1 10 10 -1 1 7 -1 -1 -1 -1 -1 -1
";

/// The same, where the one that waits has a long estimate too.
pub(crate) const LONG: &[u8] = b"1 0 -1 50 10 -1 -1 10 100 -1 1 7 -1 -1 -1 -1 -1 -1
2 10 -1 10 10 -1 -1 10 100 -1 1 7 -1 -1 -1 -1 -1 -1
";

/// The run of a log under a scenario.
pub(crate) fn run_of<A: Allocator + Copy>(
    alloc: A,
    log: &[u8],
    scenario: Scenario,
    spacing: u32,
) -> Option<Run<A>> {
    let plan = Plan::new(shared_table(alloc, log)?, scenario);
    simulate(alloc, plan, spacing).ok()
}

/// The first four jobs of a plan.
pub(crate) fn four_jobs<A: Allocator + Copy>(plan: &PlanRef<'_, A>) -> Option<[Job; 4]> {
    let mut jobs = plan.jobs();
    Some([jobs.next()?, jobs.next()?, jobs.next()?, jobs.next()?])
}

/// What came of a call that answers whether it went well, or whether it was refused for memory.
pub(crate) fn outcome(answer: Result<bool, bool>) -> Outcome {
    match answer {
        Ok(is_right) => Outcome::right_if(is_right),
        Err(is_memory) => Outcome::memory_if(is_memory),
    }
}
