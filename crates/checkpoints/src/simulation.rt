ghost use Rattle.std.specs.Prelude.{◌≡◌, ◌≤◌, None, map, IfOk, IfErr, OnOk};
ghost use Rattle.std.specs.Arc.{arc_value};
ghost use Rattle.scenarios.specs.PlanView.{plan_in};
ghost use Rattle.checkpoints.specs.Coming.{ComesBefore};
ghost use Rattle.checkpoints.specs.Cut.{IsShortCut};
ghost use Rattle.checkpoints.specs.Pieces.{all_in};
ghost use Rattle.checkpoints.specs.RunView.{IsRun};
ghost use Rattle.checkpoints.specs.Spacing.{IsSpacing, IsRefusal};
ghost use Rattle.checkpoints.specs.Worked.{Cutting, IsNearer};

use crate::cutting::{comes_before, next_piece};
use crate::fault::RunFault;
use crate::run::Run;
use crate::segment::Segment;
use crate::segments::Segments;
use event_loop::Engine;
use scenarios::{Plan, PlanRef};
use std::alloc::Allocator;
use std::sync::Arc;
use swf_text::Memory;

/// The most event seconds that a segment may be asked to hold.
pub const MAX_SPACING: u32 = 65_536;

fn add_next<A: Allocator + Copy>(
    alloc: A,
    plan: &PlanRef<'_, A>,
    engine: &mut Engine<A>,
    segments: &mut Segments<A>,
    spacing: u32,
    started: &mut u64,
) -> Result<(), Memory>
    requires spacing { 1 ≤ spacing }
    requires cut { Cutting (plan_in plan.now) spacing engine.old (all_in (plan_in plan.now) segments.old) }
    requires coming { ComesBefore engine.old None }
    ensures cut { OnOk result (Cutting (plan_in plan.now) spacing engine.new (all_in (plan_in plan.now) segments.new)) }
    ensures nearer { OnOk result (IsNearer (plan_in plan.now) engine.old.position engine.new.position) }
{
    prove!(plan.scenario().procs() >= 1);
    let piece = next_piece(alloc, engine, spacing, None, started)?;
    segments.add(plan, piece)?;
    Ok(())
}

fn worked<A: Allocator + Copy>(
    alloc: A,
    plan: &Plan<A>,
    spacing: u32,
) -> Result<Segments<A>, Memory>
    requires { 1 ≤ spacing }
    ensures cut { IfOk result (λ segments. IsShortCut (plan_in plan.now) spacing (all_in (plan_in plan.now) segments)) }
{
    let mut engine = Engine::new(alloc, plan.copy()?);
    let view = plan.view();
    let mut started = 0;
    let mut segments = Segments::new(alloc);
    'segments: while comes_before(&engine, None) {
        add_next(
            alloc,
            &view,
            &mut engine,
            &mut segments,
            spacing,
            &mut started,
        )?;
    }
    Ok(segments)
}

fn segments_of<A: Allocator + Copy>(
    alloc: A,
    plan: &Plan<A>,
    spacing: u32,
) -> Result<Vec<Arc<Segment<A>, A>, A>, Memory>
    requires { 1 ≤ spacing }
    ensures cut { IfOk result (λ segments. IsShortCut (plan_in plan.now) spacing (map arc_value segments.items)) }
{
    let segments = worked(alloc, plan, spacing)?;
    let view = plan.view();
    let done = segments.finish(&view)?;
    Ok(done)
}

/// Simulates a plan, and cuts the simulation into segments, each of which holds `spacing` event seconds,
/// but the last one, which may hold fewer, and at least one. An event second is one at which a job is
/// submitted or ends.
///
/// BadSpacing where `spacing` is not within 1 to 65,536; Memory where a growth was refused.
pub fn simulate<A: Allocator + Copy>(
    alloc: A,
    plan: Plan<A>,
    spacing: u32,
) -> Result<Run<A>, RunFault>
    ensures spacing { OnOk result (IsSpacing spacing) }
    ensures log { IfOk result (λ run. run.log ≡ plan.log) }
    ensures scenario { IfOk result (λ run. run.scenario ≡ plan.scenario) }
    ensures cut { IfOk result (λ run. IsShortCut (plan_in plan) spacing run.segments) }
    ensures sound { IfOk result IsRun }
    ensures fault { IfErr result (λ f. IsRefusal spacing f) }
{
    if spacing < 1 || spacing > MAX_SPACING {
        return Err(RunFault::BadSpacing);
    }
    let segments = segments_of(alloc, &plan, spacing)?;
    let run = Run::of_segments(alloc, plan, segments)?;
    Ok(run)
}
