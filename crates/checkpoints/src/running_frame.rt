ghost use Rattle.std.specs.Prelude.{◌≡◌, ◌++◌, ℕ, filter, filter_map, map, option_copied, IfOk, OnOk};
ghost use Rattle.frames.specs.Frames.{by_key, standing_at, stands_somewhere};
ghost use Rattle.scenarios.specs.PlanView.{plan_in};
ghost use Rattle.cluster_state.specs.declared.snapshot.RunningNumber.{RunningNumber as RunningNumberView};
ghost use Rattle.cluster_state.specs.Snapshot.{running_numbered};
ghost use Rattle.timeline.specs.Stretches.{placed_stretch, started_of};
ghost use Rattle.checkpoints.specs.Closing.{base_of, running_in};

use crate::gap::Gap;
use crate::segment::Segment;
use cluster_state::RunningNumber;
use easy_rule::Start;
use frames::laws::empty_stretches_stand_nowhere;
use frames::{Frame, Standing, Stretch};
use scenarios::PlanRef;
use std::alloc::Allocator;
use swf_text::Memory;

fn add_numbers<A: Allocator + Copy>(
    plan: &PlanRef<'_, A>,
    gap: &Gap<A>,
    numbers: Standing<'_, RunningNumber>,
    made: &mut Vec<Stretch<RunningNumber>, A>,
) -> Result<(), Memory>
    ensures { OnOk result (made.new.items ≡ made.old.items ++ filter stands_somewhere (map (placed_stretch gap.now.seconds) (filter_map (running_numbered (plan_in plan.now).jobs) numbers.entry))) }
{
    for r in numbers {
        if let Some(job) = plan.job(r.number) {
            gap.add_running(&job, r.start, made)?;
        }
    }
    Ok(())
}

fn add_base<A: Allocator + Copy>(
    plan: &PlanRef<'_, A>,
    gap: &Gap<A>,
    base: Option<&Segment<A>>,
    made: &mut Vec<Stretch<RunningNumber>, A>,
) -> Result<(), Memory>
    ensures { OnOk result (made.new.items ≡ made.old.items ++ filter stands_somewhere (map (placed_stretch gap.now.seconds) (filter_map (running_numbered (plan_in plan.now).jobs) (base_of (option_copied base.entry)).numbers.running))) }
{
    match base {
        None => Ok(()),
        Some(segment) => add_numbers(plan, gap, segment.before().running(), made),
    }
}

fn add_started<A: Allocator + Copy>(
    plan: &PlanRef<'_, A>,
    gap: &Gap<A>,
    starts: &[Start],
    made: &mut Vec<Stretch<RunningNumber>, A>,
) -> Result<(), Memory>
    ensures { OnOk result (made.new.items ≡ made.old.items ++ filter stands_somewhere (map (placed_stretch gap.now.seconds) (started_of (plan_in plan.now).jobs starts.now))) }
{
    for start in starts {
        if let Some(job) = plan.job(start.number) {
            gap.add_running(&job, start.at, made)?;
        }
    }
    Ok(())
}

pub(crate) fn running_frame<A: Allocator + Copy>(
    alloc: A,
    plan: &PlanRef<'_, A>,
    gap: &Gap<A>,
    base: Option<&Segment<A>>,
) -> Result<Frame<RunningNumber, A>, Memory>
    ensures { IfOk result (λ frame. (place : ℕ) → standing_at place frame ≡ by_key (λ (r : RunningNumberView). r.number) (standing_at place (running_in (plan_in plan.now) (base_of (option_copied base.entry)) gap.now))) }
{
    empty_stretches_stand_nowhere::<RunningNumber>();
    let mut made = Vec::new(alloc);
    add_base(plan, gap, base, &mut made)?;
    add_started(plan, gap, gap.starts(), &mut made)?;
    made.shrink_to_fit();
    let mut frame = Frame::of(made);
    frame.sort_by_key()?;
    Ok(frame)
}
