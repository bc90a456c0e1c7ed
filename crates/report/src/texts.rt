//! The reports on a schedule.

ghost use Rattle.std.specs.Prelude.{◌≡◌, IfOk};
ghost use Rattle.scenarios.specs.Plan.{plan_of};
ghost use Rattle.scenarios.specs.PlanView.{plan_in};
ghost use Rattle.report.specs.Schedule.{schedule_text, HasALineForEachJob};

use crate::printing::ScheduleReport;
use crate::schedule::rows_text;
use checkpoints::{Run, plan_rows};
use scenarios::Plan;
use std::alloc::Allocator;
use swf_text::Memory;

/// The schedule of a run: how many jobs are simulated, and a line for each of them, in the order of
/// the log, with its number, submit second, start, end and processors, and whether it is killed. The
/// name is that of the scenario, the version that of the log. Memory where a growth is refused.
pub fn schedule_text<A: Allocator + Copy>(
    alloc: A,
    name: &str,
    version: u64,
    run: &Run<A>,
) -> Result<Vec<u8, A>, Memory>
    ensures text { IfOk result (λ text. text.items ≡ schedule_text name.now version (plan_of run.now.log run.now.scenario)) }
    ensures lines { IfOk result (λ text. HasALineForEachJob name.now version (plan_of run.now.log run.now.scenario) text.items) }
{
    let rows = run.rows()?;
    Ok(rows_text(alloc, name, version, rows)?)
}

/// The report on the schedule of a plan, simulated for it alone (`checkpoints::plan_rows`), which is
/// written piece by piece, so that nothing holds all of it at once: its text is that of `schedule_text`
/// for a run of the same table and scenario. Memory where a growth is refused.
pub fn plan_report<'a, A: Allocator + Copy>(
    alloc: A,
    name: &str,
    version: u64,
    plan: &'a Plan<A>,
) -> Result<ScheduleReport<'a, A>, Memory>
    ensures text { IfOk result (λ text. text ≡ schedule_text name.now version (plan_in plan.now)) }
    ensures lines { IfOk result (λ text. HasALineForEachJob name.now version (plan_in plan.now) text) }
{
    let report = ScheduleReport::new(alloc, name, version, plan_rows(alloc, plan)?)?;
    Ok(report)
}
