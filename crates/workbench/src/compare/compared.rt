use crate::compare::sums::are_plain_sums;
use checkpoints::{Run, simulate};
use easy_rule::Start;
use event_loop::Engine;
use job_table::JobTable;
use oracle_runs::{LogPlan, PlainJob};
use scenarios::{Plan, Scenario};
use std::alloc::Global;
use std::sync::Arc;
use swf_text::{SwfText, read_swf};

/// A job and the second at which it starts.
pub(crate) type Placed = (PlainJob, u64);

fn plan_of(alloc: Global, text: &SwfText<Global>, scenario: &Scenario) -> Option<Plan<Global>> {
    let table = JobTable::from_text(alloc, text).ok()?;
    Some(Plan::new(Arc::new(alloc, table).ok()?, *scenario))
}

fn engine_starts(alloc: Global, text: &SwfText<Global>, scenario: &Scenario) -> Option<Vec<Start>> {
    let plan = plan_of(alloc, text, scenario)?;
    Engine::new(alloc, plan).finish().ok()
}

// The run of a log, in segments of up to so many event seconds.
fn run_of(
    alloc: Global,
    text: &SwfText<Global>,
    scenario: &Scenario,
    spacing: u32,
) -> Option<Run<Global>> {
    let plan = plan_of(alloc, text, scenario)?;
    simulate(alloc, plan, spacing).ok()
}

// Adds the jobs of a plan, with their starts; none where one does not start.
fn add_placed(placed: &mut Vec<Placed>, jobs: &[PlainJob], starts: &[Start]) -> Option<()> {
    for job in jobs {
        let start = starts.iter().find(|start| start.number == job.number())?;
        placed.push((*job, start.at)).ok()?;
    }
    Some(())
}

// Whether a run has just the jobs of a plan, with these starts, and tables that are plain sums.
fn has_starts(
    alloc: Global,
    text: &SwfText<Global>,
    run: &Run<Global>,
    jobs: &[PlainJob],
    starts: &[Start],
) -> bool {
    let mut placed = Vec::new(alloc);
    add_placed(&mut placed, jobs, starts).is_some() && are_plain_sums(text, run, &placed)
}

// Whether event loop and run of a log agree with the plain program, which gives its jobs these starts.
fn are_agreed(
    alloc: Global,
    text: &SwfText<Global>,
    scenario: &Scenario,
    spacing: u32,
    jobs: &[PlainJob],
    starts: &[Start],
) -> bool {
    engine_starts(alloc, text, scenario).is_some_and(|found| found.as_slice() == starts)
        && run_of(alloc, text, scenario, spacing).is_some_and(|run| has_starts(
            alloc, text, &run, jobs, starts,
        ))
}

// The starts that the plain program gives a log, where event loop and run agree with it; none where they
// don't.
fn agreed_text(
    alloc: Global,
    text: &SwfText<Global>,
    scenario: &Scenario,
    spacing: u32,
) -> Option<Vec<Start>> {
    let plan = LogPlan::of(alloc, text, scenario).ok()?;
    let starts = oracle_runs::simulate(alloc, &plan).ok()?;
    are_agreed(
        alloc,
        text,
        scenario,
        spacing,
        plan.jobs(),
        starts.as_slice(),
    )
    .then_some(starts)
}

pub(crate) fn agreed(
    alloc: Global,
    log: &[u8],
    scenario: &Scenario,
    spacing: u32,
) -> Option<Vec<Start>> {
    let text = read_swf(alloc, log).ok()?;
    agreed_text(alloc, &text, scenario, spacing)
}
