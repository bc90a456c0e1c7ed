ghost use Rattle.std.specs.Prelude.{◌≡◌, ◌++◌, ℕ, filter, filter_map, option_copied, IfOk, OnOk};
ghost use Rattle.frames.specs.Frames.{standing_at, stands_somewhere};
ghost use Rattle.scenarios.specs.Plan.{job_numbered};
ghost use Rattle.scenarios.specs.PlanView.{plan_in};
ghost use Rattle.easy_rule.specs.Simulation.{start_of};
ghost use Rattle.timeline.specs.Stretches.{coming_between, waiting_stretches};
ghost use Rattle.checkpoints.specs.Closing.{base_of, waiting_in};

use crate::gap::Gap;
use crate::segment::Segment;
use frames::laws::empty_stretches_stand_nowhere;
use frames::{Frame, Standing, Stretch};
use scenarios::PlanRef;
use std::alloc::Allocator;
use swf_text::Memory;

fn add_numbers<A: Allocator + Copy>(
    plan: &PlanRef<'_, A>,
    gap: &Gap<A>,
    numbers: Standing<'_, u64>,
    made: &mut Vec<Stretch<u64>, A>,
) -> Result<(), Memory>
    ensures { OnOk result (made.new.items ≡ made.old.items ++ filter stands_somewhere (waiting_stretches gap.now.seconds (filter_map (job_numbered (plan_in plan.now).jobs) numbers.entry) (start_of gap.now.starts))) }
{
    for number in numbers {
        if let Some(job) = plan.job(*number) {
            gap.add_waiting(&job, made)?;
        }
    }
    Ok(())
}

fn add_base<A: Allocator + Copy>(
    plan: &PlanRef<'_, A>,
    gap: &Gap<A>,
    base: Option<&Segment<A>>,
    made: &mut Vec<Stretch<u64>, A>,
) -> Result<(), Memory>
    ensures { OnOk result (made.new.items ≡ made.old.items ++ filter stands_somewhere (waiting_stretches gap.now.seconds (filter_map (job_numbered (plan_in plan.now).jobs) (base_of (option_copied base.entry)).numbers.waiting) (start_of gap.now.starts))) }
{
    match base {
        None => Ok(()),
        Some(segment) => add_numbers(plan, gap, segment.before().waiting(), made),
    }
}

fn add_coming<A: Allocator + Copy>(
    plan: &PlanRef<'_, A>,
    gap: &Gap<A>,
    from: u64,
    until: u64,
    made: &mut Vec<Stretch<u64>, A>,
) -> Result<(), Memory>
    ensures { OnOk result (made.new.items ≡ made.old.items ++ filter stands_somewhere (waiting_stretches gap.now.seconds (coming_between (plan_in plan.now).jobs from until) (start_of gap.now.starts))) }
{
    for job in plan.from_second(from) {
        if job.submit() >= until {
            return Ok(());
        }
        gap.add_waiting(&job, made)?;
    }
    Ok(())
}

fn second_of<A: Allocator + Copy>(base: Option<&Segment<A>>) -> u64
    ensures { result ≡ (base_of (option_copied base.entry)).second }
{
    match base {
        None => 0,
        Some(segment) => segment.first(),
    }
}

pub(crate) fn waiting_frame<A: Allocator + Copy>(
    alloc: A,
    plan: &PlanRef<'_, A>,
    gap: &Gap<A>,
    base: Option<&Segment<A>>,
    until: u64,
) -> Result<Frame<u64, A>, Memory>
    ensures { IfOk result (λ frame. (place : ℕ) → standing_at place frame ≡ standing_at place (waiting_in (plan_in plan.now) (base_of (option_copied base.entry)) gap.now until)) }
{
    empty_stretches_stand_nowhere::<u64>();
    let mut made = Vec::new(alloc);
    add_base(plan, gap, base, &mut made)?;
    add_coming(plan, gap, second_of(base), until, &mut made)?;
    made.shrink_to_fit();
    Ok(Frame::of(made))
}
