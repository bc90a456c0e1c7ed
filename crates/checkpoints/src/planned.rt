// The least number at the head of a plan's jobs decides only which starts have places.
ghost use Rattle.std.specs.Prelude.{◌≡◌, ℕ, ◌+◌, map, length, false, None, Some, IfOk, IfNone, IfSome};
ghost use Rattle.scenarios.specs.PlanView.{plan_in};
ghost use Rattle.scenarios.specs.SoundPlan.{IsPlan};
ghost use Rattle.easy_rule.specs.Simulation.{sim, start_of};
ghost use Rattle.event_loop.specs.Events.{IsNextEvent};
ghost use Rattle.event_loop.specs.Stepped.{StartIn};
ghost use Rattle.checkpoints.specs.Schedule.{rows_of};
ghost use Rattle.checkpoints.specs.Starts.{known_start};

use crate::noting::{Noting, STEP};
use crate::rows::Rows;
use crate::starts::{PLACES, Starts};
use event_loop::Engine;
use scenarios::{Job, Plan};
use std::alloc::Allocator;
use swf_text::Memory;

/// The jobs at the head of the log of which the least number has the first place.
const HEAD: usize = 1_024;

#[derive(Drop)]
struct Planned<A: Allocator + Copy> {
    starts: Starts<A>,
    count: usize,
}

fn work_next<A: Allocator + Copy>(
    engine: &mut Engine<A>,
    started: &mut Vec<Job, A>,
) -> Result<Option<u64>, Memory>
    requires { engine.old.failed ≡ false }
    ensures none { IfOk result (λ o. IfNone o (IsNextEvent engine.old.plan engine.old.position None × (engine.new ≡ engine.old))) }
    ensures some { IfOk result (λ o. IfSome o (λ t. IsNextEvent engine.old.plan engine.old.position (Some t) × (engine.new ≡ record engine.old { position = t + 1; handled = engine.old.handled + 1 }))) }
    ensures started { IfOk result (λ o. IfSome o (λ t. StartIn engine.old.plan t started.new.items)) }
    ensures plan { IsPlan engine.old.plan }
{
    Ok(engine.step_into(started)?)
}

fn least_number<A: Allocator + Copy>(plan: &Plan<A>) -> u64 {
    let mut jobs = plan.view().jobs();
    let mut least = u64::MAX;
    for _ in 0..HEAD {
        let Some(job) = jobs.next() else {
            return least;
        };
        least = least.min(job.number());
    }
    least
}

fn none_of<A: Allocator + Copy>(alloc: A, plan: &Plan<A>) -> Result<Noting<A>, Memory>
    ensures { IfOk result (λ noting. (n : ℕ) → known_start noting n ≡ None) }
{
    let len = plan.table().len();
    let most = len.saturating_mul(PLACES);
    Noting::new(alloc, least_number(plan), most, len.saturating_add(STEP))
}

fn starts_of<A: Allocator + Copy>(alloc: A, plan: &Plan<A>) -> Result<Planned<A>, Memory>
    ensures starts { IfOk result (λ planned. (n : ℕ) → known_start planned.starts n ≡ start_of (sim (plan_in plan.now)) n) }
    ensures count { IfOk result (λ planned. planned.count ≡ length (sim (plan_in plan.now))) }
{
    let mut engine = Engine::new(alloc, plan.copy()?);
    let mut noting = none_of(alloc, plan)?;
    let mut started = Vec::new(alloc);
    let mut count = 0usize;
    'events: while let Some(second) = work_next(&mut engine, &mut started)? {
        noting.note_jobs(started.as_slice(), second)?;
        count = count.saturating_add(started.len());
    }
    let starts = noting.finish()?;
    Ok(Planned { starts, count })
}

/// Simulates a plan: the rows of its schedule, one for each job that is simulated, in the order of the
/// log, each made when it is asked for.
///
/// It keeps of the simulation when each job starts, and no segments, snapshots or sums: for those who
/// edit the log or ask for tables there is `simulate`. Memory where a growth was refused.
pub fn plan_rows<'a, A: Allocator + Copy>(
    alloc: A,
    plan: &'a Plan<A>,
) -> Result<Rows<'a, A>, Memory>
    ensures rows { IfOk result (λ rows. rows ≡ rows_of (plan_in plan.now)) }
    ensures each { IfOk result (λ rows. map (λ r. r.number) rows ≡ map (λ j. j.number) (plan_in plan.now).jobs) }
    ensures count { IfOk result (λ rows. length rows ≡ length (plan_in plan.now).jobs) }
{
    let Planned { starts, count } = starts_of(alloc, plan)?;
    Ok(Rows::new(starts, plan.view().jobs(), count))
}
