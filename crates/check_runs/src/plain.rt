// The plain program of the definitions. Its starts of other worked logs the program `workbench` tells.
use crate::engines::are;
use crate::logs::{NOTED, four_jobs, outcome};
use checking::table_of;
use oracle_runs::{LogPlan, simulate};
use refusing::Outcome;
use scenarios::{PlanRef, Scenario};
use std::alloc::{Allocator, Global};
use std::process::Abort;
use swf_text::{Memory, SwfText, read_swf};
use timeline::last_second::{bound, last_submit};

/// The four jobs in another order, among two that are skipped.
const SHUFFLED: &[u8] = b"4 3 -1 500 2 -1 -1 2 500 -1 1 7 -1 -1 -1 -1 -1 -1
2 1 -1 50 8 -1 -1 8 50 -1 1 7 -1 -1 -1 -1 -1 -1
8 0 -1 5 11 -1 -1 11 5 -1 1 7 -1 -1 -1 -1 -1 -1
3 2 -1 90 4 -1 -1 4 90 -1 1 7 -1 -1 -1 -1 -1 -1
9 0 -1 5 -1 -1 -1 -1 5 -1 1 7 -1 -1 -1 -1 -1 -1
1 0 -1 100 6 -1 -1 6 100 -1 1 7 -1 -1 -1 -1 -1 -1
";

fn is_right<A: Allocator + Copy>(
    alloc: A,
    text: &SwfText<A>,
    scenario: &Scenario,
) -> Result<bool, Memory> {
    let plan = LogPlan::of(alloc, text, scenario)?;
    let is_plan = plan.procs() == 10 && plan.order() == scenario.order() && plan.jobs().len() == 4;
    Ok(
        is_plan
            && are(
                &simulate(alloc, &plan)?,
                &[(1, 0), (3, 2), (4, 92), (2, 100)],
            ),
    )
}

/// The plain program gives the starts of the four jobs.
pub(crate) fn works<A: Allocator + Copy>(alloc: A, scenario: Scenario) -> Outcome {
    match read_swf(alloc, SHUFFLED) {
        Ok(text) => outcome(is_right(alloc, &text, &scenario).map_err(|_| true)),
        Err(_) => Outcome::Before,
    }
}

// The greatest submit second of the four jobs, and the second by which they have ended.
fn bounds_of_four(alloc: Global) -> Option<(u64, u64)> {
    let table = table_of(alloc, NOTED)?;
    let jobs = four_jobs(&PlanRef::of(&table, Scenario::new(10, 1000)?))?;
    Some((last_submit(&jobs), bound(&jobs)))
}

#[test]
fn all_four_jobs_end_by_their_bound(rt: HostRuntime) {
    assert!(rt; bounds_of_four(rt.alloc()) == Some((3, 743)));
}
