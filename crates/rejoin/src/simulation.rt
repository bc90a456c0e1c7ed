ghost use Rattle.std.specs.Prelude.{◌≡◌, map, IfOk, IfErr, OnOk};
ghost use Rattle.std.specs.Arc.{arc_value};
ghost use Rattle.job_table.specs.Accepted.{AreAccepted};
ghost use Rattle.job_table.specs.Edit.{edit_of, log_after};
ghost use Rattle.scenarios.specs.Plan.{plan_of};
ghost use Rattle.checkpoints.specs.RunView.{IsRun};
ghost use Rattle.checkpoints.specs.Spacing.{IsSpacing, IsRefusal};
ghost use Rattle.rejoin.specs.Patch.{IsRejoined, AllReused};
ghost use Rattle.rejoin.specs.Touched.{NothingTouched};

use crate::change::Change;
use crate::joining::rejoined;
use crate::skips::skips_after;
use checkpoints::{MAX_SPACING, Run, RunFault};
use job_table::{Edit, JobTable};
use scenarios::Plan;
use std::alloc::Allocator;
use std::sync::Arc;

/// What a run took that was made of an old one.
#[derive(Clone, Copy, Debug, PartialEq, Eq)]
pub struct Work {
    /// The event seconds that were worked.
    pub handled: u64,
    /// The old segments that were reused.
    pub reused: u64,
}

/// Simulates a table after edits, of which an old run is the simulation before them, under the old
/// scenario: each old segment that the new plan has too is reused, and only the event seconds that lie in
/// no such segment's stretch are worked. The other segments hold `spacing` event seconds each, or fewer, and at
/// least one, where no more of them come before an old segment's first second, or at all. Where the
/// edits touch no job, all old segments are reused and no event second is worked.
///
/// Its condition: each edit is accepted, one after another, and the table is the old one after them;
/// with no edit, an equal one. BadSpacing where `spacing` is not within 1 to 65,536; Memory where a
/// growth was refused. The old run is as it was.
pub fn rerun<A: Allocator + Copy>(
    alloc: A,
    run: &Run<A>,
    edits: &[Edit<A>],
    table: Arc<JobTable<A>, A>,
    spacing: u32,
) -> Result<(Run<A>, Work), RunFault>
    requires accepted { AreAccepted run.now.log (map edit_of edits.now) }
    requires table { arc_value table ≡ log_after run.now.log (map edit_of edits.now) }
    ensures spacing { OnOk result (IsSpacing spacing) }
    ensures of { IfOk result (λ (again, work). (again.log ≡ arc_value table) × (again.scenario ≡ run.now.scenario)) }
    ensures sound { IfOk result (λ (again, work). IsRun again) }
    ensures rejoined { IfOk result (λ (again, work). IsRejoined (plan_of run.now.log run.now.scenario) (plan_of (arc_value table) run.now.scenario) run.now.segments spacing again.segments work.handled work.reused) }
    ensures untouched { NothingTouched (plan_of run.now.log run.now.scenario) (plan_of (arc_value table) run.now.scenario) → IfOk result (λ (again, work). AllReused run.now.segments again.segments work.handled work.reused) }
    ensures fault { IfErr result (λ f. IsRefusal spacing f) }
{
    if spacing < 1 || spacing > MAX_SPACING {
        return Err(RunFault::BadSpacing);
    }
    let plan = Plan::new(table, run.scenario());
    let change = Change::new(alloc, run, edits, &plan)?;
    let patch = rejoined(alloc, &change, spacing)?;
    let work = Work {
        handled: patch.handled,
        reused: patch.reused,
    };
    let skips = skips_after(
        alloc,
        run.tables().overall().skips,
        run.table(),
        edits,
        plan.table(),
        &plan.scenario(),
    )?;
    let again = Run::of_reused(
        alloc,
        run,
        plan.copy()?,
        skips,
        patch.segments,
        patch.places.as_slice(),
    )?;
    Ok((again, work))
}
