// How many starts of touched numbers there are, and the second from which on none of their jobs runs.
ghost use Rattle.std.specs.Prelude.{◌≡◌, ℕ, ◌+◌, ◌-◌, ◌≤◌, ◌<◌, ◌^◌, ◌↔◌, min, true, All, IfSome, if◌then◌else◌};
ghost use Rattle.scenarios.specs.Plan.{job_numbered};
ghost use Rattle.scenarios.specs.PlanView.{plan_in};
ghost use Rattle.rejoin.specs.Started.{among, starts_of, EachHasEnded};

use crate::change::Change;
use easy_rule::Start;
use scenarios::PlanRef;
use std::alloc::Allocator;

fn end_of<A: Allocator + Copy>(plan: &PlanRef<'_, A>, start: Start) -> u64
    ensures { start.at < 2 ^ 49 → (t : ℕ) → (result ≤ t) ↔ IfSome (job_numbered (plan_in plan.now).jobs start.number) (λ job. start.at + job.length < t) }
{
    match plan.job(start.number) {
        None => 0,
        Some(job) => start.at.saturating_add(job.length()).saturating_add(1),
    }
}

fn note_own<A: Allocator + Copy>(
    change: &Change<'_, A>,
    plan: &PlanRef<'_, A>,
    start: Start,
    started: &mut usize,
    ended: &mut u64,
)
    ensures started { started.new ≡ min (started.old + (if among change.now.touched start.number then 1 else 0)) (2 ^ 64 - 1) }
    ensures ended { start.at < 2 ^ 49 → (t : ℕ) → (ended.new ≤ t) ↔ ((ended.old ≤ t) × (among change.now.touched start.number ≡ true → IfSome (job_numbered (plan_in plan.now).jobs start.number) (λ job. start.at + job.length < t))) }
{
    prove!(*started <= usize::MAX);
    if change.is_touched(start.number) {
        *started = (*started).saturating_add(1);
        *ended = (*ended).max(end_of(plan, start));
    }
}

pub(crate) fn note_touched<A: Allocator + Copy>(
    change: &Change<'_, A>,
    plan: &PlanRef<'_, A>,
    new: &[Start],
    started: &mut usize,
    ended: &mut u64,
)
    ensures started { started.new ≡ min (started.old + starts_of change.now.touched new.now) (2 ^ 64 - 1) }
    ensures ended { All (λ x. x.at < 2 ^ 49) new.now → (t : ℕ) → (ended.new ≤ t) ↔ ((ended.old ≤ t) × EachHasEnded change.now.touched (plan_in plan.now).jobs new.now t) }
{
    prove!(*started <= usize::MAX);
    for start in new {
        note_own(change, plan, *start, started, ended);
    }
}
