// Runs that are made anew after edits.
ghost use Rattle.std.specs.Prelude.{◌≡◌, map, IfSome, OnSome};
ghost use Rattle.std.specs.Arc.{arc_value};
ghost use Rattle.job_table.specs.Accepted.{AreAccepted};
ghost use Rattle.job_table.specs.Edit.{edit_of, log_after};

use crate::logs::{outcome, run_of};
use crate::rerun_rows::{ROWS, Row};
use crate::runs::begin_at;
use checking::Written;
use checkpoints::{Run, RunFault};
use job_table::{Edit, JobTable};
use refusing::Outcome;
use rejoin::{edited, rerun};
use scenarios::{Order, Scenario};
use std::alloc::{Allocator, Global};
use std::process::Abort;
use std::sync::Arc;

// The edits that are written so; none where memory is short.
fn edits_of<A: Allocator + Copy>(alloc: A, written: &[Written]) -> Option<Vec<Edit<A>, A>> {
    let mut edits = Vec::new(alloc);
    for each in written {
        edits.push(checking::edit_of(alloc, *each)?).ok()?;
    }
    Some(edits)
}

fn table_after<A: Allocator + Copy>(
    alloc: A,
    run: &Run<A>,
    edits: &[Edit<A>],
) -> Option<Arc<JobTable<A>, A>>
    ensures accepted { OnSome result (AreAccepted run.now.log (map edit_of edits.now)) }
    ensures table { IfSome result (λ table. arc_value table ≡ log_after run.now.log (map edit_of edits.now)) }
{
    Arc::new(alloc, edited(run.table(), edits).ok()?).ok()
}

// The run after edits, of which so many event seconds are worked, and so many segments reused.
fn reruns_after<A: Allocator + Copy>(
    alloc: A,
    run: &Run<A>,
    edits: &[Edit<A>],
    row: &Row,
) -> Outcome {
    let Some(table) = table_after(alloc, run, edits) else {
        return Outcome::Before;
    };
    match rerun(alloc, run, edits, table, row.spacings.1) {
        Ok((again, work)) => Outcome::right_if(
            (work.handled, work.reused) == row.work && begin_at(&again, row.firsts),
        ),
        Err(fault) => Outcome::memory_if(fault == RunFault::Memory),
    }
}

/// The run of a row's log is made anew after its edits.
pub(crate) fn reruns<A: Allocator + Copy>(alloc: A, row: &Row, scenario: Scenario) -> Outcome {
    match (
        run_of(alloc, row.log, scenario, row.spacings.0),
        edits_of(alloc, row.edits),
    ) {
        (Some(run), Some(edits)) => reruns_after(alloc, &run, &edits, row),
        _ => Outcome::Before,
    }
}

fn holds(alloc: Global, row: &Row) -> Option<bool> {
    let ten = Scenario::new(10, 1000)?;
    Some(Order::all().iter().all(|order| reruns(alloc, row, ten.ordered(*order)) == Outcome::Right))
}

#[test]
fn what_edits_touch_is_made_anew(rt: HostRuntime) {
    for (place, row) in ROWS.iter().enumerate() {
        assert!(rt; holds(rt.alloc(), row) == Some(true), "row {place}");
    }
}
