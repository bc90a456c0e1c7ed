ghost use Rattle.std.specs.Prelude.{◌≡◌, ℕ, List, Option, None, map, slice_get};
ghost use Rattle.scenarios.specs.Plan.{plan_of};
ghost use Rattle.easybook.specs.Opened.{IsOpened};
ghost use Rattle.easybook.specs.Plain.{Prints, Answers};

use crate::fault::ProgramFault;
use crate::opened::opening_of;
use crate::options::Options;
use commands::Opening;
use job_table::JobTable;
use report::plan_report;
use scenarios::{Plan, Scenario};
use std::alloc::Allocator;
use std::io::Write;
use std::marker::Sync;
use std::sync::Arc;
use std::thread::Threads;

fn write_under<W: Write, T: Threads + Sync, A: Allocator + Copy>(
    rt: &T,
    alloc: A,
    writer: &mut W,
    name: &str,
    scenario: Scenario,
    table: JobTable<A>,
) -> Result<Plan<A>, ProgramFault>
    ensures { Prints name.now (plan_of table scenario) (W.contents writer.old) (W.contents writer.new) result }
{
    let plan = Plan::new(Arc::new(alloc, table)?, scenario);
    let report = plan_report(alloc, name, 0, &plan)?;
    report.write(rt, writer)?;
    Ok(plan)
}

pub(crate) fn write_first<W: Write, T: Threads + Sync, A: Allocator + Copy>(
    rt: &T,
    alloc: A,
    writer: &mut W,
    opening: Opening<A>,
) -> Result<Plan<A>, ProgramFault>
    requires { slice_get opening.scenarios.scenarios 0 ≡ None → ⊥ }
    ensures { (log : List ℕ) (procs : Option ℕ) → IsOpened log procs (map (λ c. c.items) opening.comments.items) opening.table opening.scenarios
        → Answers log procs (W.contents writer.old) (W.contents writer.new) result }
{
    let Opening {
        comments: _comments,
        table,
        scenarios,
    } = opening;
    let Some(first) = scenarios.at(0) else {
        unreachable!()
    };
    write_under(rt, alloc, writer, first.0, first.2, table)
}

/// Writes the schedule of a log's first scenario: the start and the end that EASY backfilling gives
/// each of its jobs. The scenarios are those of the log's comments, as `commands::open_text` opens
/// it; where they name none it is `base`, on a machine of `options.procs` processors, or of as
/// many as the comments say, with estimates as they are and backfills in order of arrival.
///
/// The faults in their order: TooLong where the log has over 1,073,741,824 bytes; Log with its
/// first faulty line; NoMachine where nothing names a scenario or the machine's processors;
/// BadMachine where it has not 1 to 16,777,216; Memory where a growth is refused; Write where the
/// writer returns an error or takes no byte. Each except Write comes before the first byte is written,
/// and on Write what was written is a beginning of the schedule.
pub fn run_plain<W: Write, T: Threads + Sync, A: Allocator + Copy>(
    rt: &T,
    alloc: A,
    writer: &mut W,
    log: &[u8],
    options: Options,
) -> Result<(), ProgramFault>
    ensures { Answers log.now options.procs (W.contents writer.old) (W.contents writer.new) result }
{
    let opening = opening_of(rt, alloc, log, options.procs)?;
    write_first(rt, alloc, writer, opening)?;
    Ok(())
}
