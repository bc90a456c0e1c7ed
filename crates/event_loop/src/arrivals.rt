// A row is filled with the next jobs, those of whole seconds, until there are enough of them: no second is
// cut. `fill` returns the submit second of the first job behind them.
ghost use Rattle.std.specs.Prelude.{◌≡◌, ◌≢◌, ◌+◌, ◌≤◌, ◌<◌, ◌↔◌, [], Some, IfOk, OnOk, IfSome, IfNone, IsTrue, All, drop, filter, nat_eq, slice_get};
ghost use Rattle.scenarios.specs.Plan.{from_on};
ghost use Rattle.scenarios.specs.PlanView.{plan_in};
ghost use Rattle.cluster_state.specs.State.{IsSound};
ghost use Rattle.easy_rule.specs.Simulation.{joined};
ghost use Rattle.scenarios.specs.SoundPlan.{IsPlan};
ghost use Rattle.event_loop.specs.Upcoming.{IsUpcoming, NonFalling, first_submit};

use cluster_state::Cluster;
use scenarios::{Job, PlanRef};
use std::alloc::Allocator;
use std::collections::VecDeque;
use swf_text::Memory;

/// A row that is filled has at least so many jobs, where so many are to come.
const FULL_ROW: usize = 64;

pub(crate) fn next_submit<A: Allocator + Copy>(plan: &PlanRef<'_, A>, second: u64) -> Option<u64>
    ensures plan { IsPlan (plan_in plan.now) }
    ensures next { result ≡ first_submit (from_on second (plan_in plan.now).jobs) }
{
    let job = plan.from_second(second).next()?;
    Some(job.submit())
}

fn may_end(len: usize, last: u64, next: u64) -> bool
    ensures { IsTrue result ↔ ((64 ≤ len) × (last < next)) }
{
    FULL_ROW <= len && last < next
}

pub(crate) fn fill<A: Allocator + Copy>(
    row: &mut VecDeque<Job, A>,
    plan: &PlanRef<'_, A>,
    second: u64,
) -> Result<Option<u64>, Memory>
    requires { row.old.items ≡ [] }
    ensures upcoming { IfOk result (λ o. IsUpcoming (record { row = row.new.items; later = o }) second (plan_in plan.now).jobs) }
    ensures later { IfOk result (λ o. IfSome o (λ t. second < t)) }
{
    let mut last = second;
    let mut upcoming = plan.from_second(second);
    'jobs: while let Some(job) = upcoming.next() {
        let submit = job.submit();
        if may_end(row.len(), last, submit) {
            return Ok(Some(submit));
        }
        row.push_back(job)?;
        last = submit;
    }
    Ok(None)
}

fn first_at<A: Allocator + Copy>(row: &VecDeque<Job, A>, second: u64) -> Option<Job>
    ensures some { IfSome result (λ job. (job.submit ≡ second) × (slice_get row.now.items 0 ≡ Some job)) }
    ensures none { IfNone result (first_submit row.now.items ≢ Some second) }
{
    let job = *row.front()?;
    if job.submit() == second {
        return Some(job);
    }
    None
}

fn is_behind_at<A: Allocator + Copy>(row: &VecDeque<Job, A>, second: u64) -> bool
    ensures { IsTrue result ↔ (first_submit (drop 1 row.now.items) ≡ Some second) }
{
    match row.get(1) {
        None => false,
        Some(job) => job.submit() == second,
    }
}

pub(crate) fn only_at<A: Allocator + Copy>(row: &VecDeque<Job, A>, second: u64) -> Option<Job>
    ensures job { IfSome result (λ job. (job.submit ≡ second) × (slice_get row.now.items 0 ≡ Some job)) }
    ensures only { IfSome result (λ _. first_submit (drop 1 row.now.items) ≢ Some second) }
{
    let job = first_at(row, second)?;
    if is_behind_at(row, second) {
        return None;
    }
    Some(job)
}

pub(crate) fn arrive_all<A: Allocator + Copy>(
    cluster: &mut Cluster<A>,
    row: &mut VecDeque<Job, A>,
    second: u64,
) -> Result<(), Memory>
    requires order { NonFalling row.old.items }
    requires from { All (λ job. second ≤ job.submit) row.old.items }
    requires sound { IsSound (joined cluster.old.state (filter (λ job. nat_eq job.submit second) row.old.items)) }
    ensures state { OnOk result (cluster.new.state ≡ joined cluster.old.state (filter (λ job. nat_eq job.submit second) row.old.items)) }
    ensures row { OnOk result (row.new.items ≡ from_on (second + 1) row.old.items) }
    ensures running { cluster.new.state.running ≡ cluster.old.state.running }
{
    'jobs: while let Some(job) = first_at(row, second) {
        cluster.arrive(job)?;
        let _arrived = row.pop_front();
    }
    Ok(())
}
