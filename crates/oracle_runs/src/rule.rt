ghost use Rattle.std.specs.Prelude.{◌≡◌, ◌<◌, ◌≤◌, IfOk, OnOk, find};
ghost use Rattle.scenarios.specs.Limits.{seconds_end};
ghost use Rattle.cluster_state.specs.State.{free, IsSound};
ghost use Rattle.cluster_state.specs.Candidates.{by_estimate};
ghost use Rattle.easy_rule.specs.Rule.{may_backfill, next, shadow_time, starts_at, state_after};

use crate::job::PlainJob;
use crate::state::PlainState;
use easy_rule::Start;
use scenarios::Order;
use std::alloc::Allocator;
use swf_text::Memory;

/// What a backfill has to keep to.
#[derive(Clone, Copy)]
struct Gap {
    /// The second at which it starts.
    second: u64,
    /// The free processors.
    free: u64,
    /// The shadow time of the head.
    shadow: u64,
    /// The processors that the head leaves over then.
    extra: u64,
}

// The least second at which so many processors are available: of the seconds by which running jobs
// have surely ended, the least at which they are.
fn shadow_time<A: Allocator + Copy>(state: &PlainState<A>, need: u64) -> u64
    requires wants { free state.now < need }
    requires within { need ≤ state.now.procs }
    ensures { result ≡ shadow_time state.now need }
{
    let mut time = u64::MAX;
    for r in state.running() {
        let end = r.expected_end();
        if end < time && need <= state.available(end) {
            time = end;
        }
    }
    time
}

fn may_start(job: &PlainJob, gap: Gap) -> bool
    ensures { result ≡ may_backfill gap.second gap.free (record { time = gap.shadow; extra = gap.extra }) job.now }
{
    let end = u128::from(gap.second) + u128::from(job.estimate());
    job.size() <= gap.free && (end <= u128::from(gap.shadow) || job.size() <= gap.extra)
}

fn first(jobs: &[PlainJob], gap: Gap) -> Option<PlainJob>
    ensures { result ≡ find (may_backfill gap.second gap.free (record { time = gap.shadow; extra = gap.extra })) jobs.now }
{
    jobs.iter().copied().find(move |job| may_start(job, gap))
}

fn shortest(jobs: &[PlainJob], gap: Gap) -> Option<PlainJob>
    ensures { result ≡ find (may_backfill gap.second gap.free (record { time = gap.shadow; extra = gap.extra })) (by_estimate jobs.now) }
{
    let Some((job, later)) = jobs.split_first() else {
        return None;
    };
    let best = shortest(later, gap);
    if !may_start(job, gap) {
        return best;
    }
    let Some(other) = best else {
        return Some(*job);
    };
    if other.estimate() < job.estimate() {
        return best;
    }
    Some(*job)
}

// The job that starts next: the head of the queue if it fits; otherwise the first later job, in the
// order of backfills, that may start in its place.
fn next<A: Allocator + Copy>(state: &PlainState<A>, now: u64) -> Option<PlainJob>
    ensures next { result ≡ next state.now now }
    ensures sound { IsSound state.now }
{
    let Some((head, later)) = state.waiting().split_first() else {
        return None;
    };
    let free = state.free();
    if head.size() <= free {
        return Some(*head);
    }
    let shadow = shadow_time(state, head.size());
    let gap = Gap {
        second: now,
        free,
        shadow,
        extra: state.available(shadow) - head.size(),
    };
    match state.order() {
        Order::Arrival => first(later, gap),
        Order::Shortest => shortest(later, gap),
    }
}

// Starts the jobs that start at second `now`, and returns these starts in order. After each start
// the search begins again.
pub(crate) fn decide<A: Allocator + Copy>(
    alloc: A,
    state: &mut PlainState<A>,
    now: u64,
) -> Result<Vec<Start, A>, Memory>
    requires { now < seconds_end }
    ensures state { OnOk result (state.new ≡ state_after state.old now) }
    ensures starts { IfOk result (λ starts. starts.items ≡ starts_at state.old now) }
{
    let mut starts = Vec::new(alloc);
    for turn in 0..state.waiting().len() {
        let Some(job) = next(state, now) else {
            return Ok(starts);
        };
        state.start(job, now)?;
        starts.push(Start {
            number: job.number(),
            at: now,
        })?;
    }
    Ok(starts)
}
