ghost use Rattle.std.specs.Prelude.{◌≡◌, ◌≤◌, ◌↔◌, IfOk, IsSome, IsTrue, All};
ghost use Rattle.std.specs.List.{filter_map};
ghost use Rattle.scenarios.specs.Job.{IsWithinLimits};
ghost use Rattle.scenarios.specs.Plan.{job_numbered};
ghost use Rattle.scenarios.specs.PlanView.{plan_in};
ghost use Rattle.cluster_state.specs.State.{busy};
ghost use Rattle.cluster_state.specs.Snapshot.{running_numbered};

use crate::snapshot::RunningNumber;
use frames::Standing;
use scenarios::{Placed, PlanRef};
use std::alloc::Allocator;
use swf_text::Memory;

pub(crate) fn have_jobs<A: Allocator + Copy>(
    numbers: Standing<'_, u64>,
    plan: &PlanRef<'_, A>,
) -> bool
    ensures { IsTrue result ↔ All (λ n. IsSome (job_numbered (plan_in plan.now).jobs n)) numbers.entry }
{
    for number in numbers {
        if plan.job(*number).is_none() {
            return false;
        }
    }
    true
}

pub(crate) fn can_run<A: Allocator + Copy>(
    running: Standing<'_, RunningNumber>,
    plan: &PlanRef<'_, A>,
) -> bool
    ensures { IsTrue result
        ↔ (All (λ r. IsSome (job_numbered (plan_in plan.now).jobs r.number)) running.entry
        × (busy (filter_map (running_numbered (plan_in plan.now).jobs) running.entry) ≤ plan.now.scenario.procs)) }
{
    let mut left = plan.scenario().procs();
    for r in running {
        let Some(job) = plan.job(r.number) else {
            return false;
        };
        if left < job.size() {
            return false;
        }
        left -= job.size();
    }
    true
}

pub(crate) fn running_in<A: Allocator + Copy>(
    alloc: A,
    running: Standing<'_, RunningNumber>,
    plan: &PlanRef<'_, A>,
) -> Result<Vec<Placed, A>, Memory>
    ensures jobs { IfOk result (λ rs. rs.items ≡ filter_map (running_numbered (plan_in plan.now).jobs) running.entry) }
    ensures limits { IfOk result (λ rs. All (λ r. IsWithinLimits r.job) rs.items) }
{
    let mut jobs = Vec::new(alloc);
    for r in running {
        if let Some(job) = plan.job(r.number) {
            jobs.push(Placed {
                job,
                start: r.start,
            })?;
        }
    }
    Ok(jobs)
}
