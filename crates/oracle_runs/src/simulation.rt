ghost use Rattle.std.specs.Prelude.{◌≡◌, ℕ, ◌<◌, ◌≤◌, All, IfOk, OnOk, nat_eq, filter, take};
ghost use Rattle.scenarios.specs.Limits.{seconds_end};
ghost use Rattle.cluster_state.specs.State.{IsSound};
ghost use Rattle.easy_rule.specs.Simulation.{joined, sim};

use crate::job::PlainJob;
use crate::last_second::{bound, last_submit};
use crate::plan::LogPlan;
use crate::rule::decide;
use crate::state::PlainState;
use easy_rule::Start;
use std::alloc::Allocator;
use swf_text::Memory;

fn arrive_at<A: Allocator + Copy>(
    state: &mut PlainState<A>,
    jobs: &[PlainJob],
    t: u64,
) -> Result<(), Memory>
    requires sound { (k : ℕ) → IsSound (joined state.old (filter (λ j. nat_eq j.submit t) (take k jobs.now))) }
    requires sizes { All (λ j. j.size ≤ state.old.procs) jobs.now }
    ensures { OnOk result (state.new ≡ joined state.old (filter (λ j. nat_eq j.submit t) jobs.now)) }
{
    for job in jobs {
        if job.submit() == t {
            state.arrive(*job)?;
        }
    }
    Ok(())
}

/// The starts of all jobs of a plan, in order of starting.
///
/// It works every second from 0 on: the jobs that end leave, those that are submitted join the
/// queue, and those that start are decided. It stops once no job waits, runs or is still to come.
pub fn simulate<A: Allocator + Copy>(alloc: A, plan: &LogPlan<A>) -> Result<Vec<Start, A>, Memory>
    ensures starts { IfOk result (λ starts. starts.items ≡ sim plan.now) }
    ensures within { IfOk result (λ starts. All (λ start. start.at < seconds_end) starts.items) }
{
    let jobs = plan.jobs();
    let last = last_submit(jobs);
    let mut state = PlainState::new(alloc, plan.scenario());
    let mut starts = Vec::new(alloc);
    for t in 0..bound(jobs) + 1 {
        if t > last && state.is_idle() {
            return Ok(starts);
        }
        state.end_at(t);
        arrive_at(&mut state, jobs, t)?;
        let now = decide(alloc, &mut state, t)?;
        starts.extend_from_slice(now.as_slice())?;
    }
    Ok(starts)
}
