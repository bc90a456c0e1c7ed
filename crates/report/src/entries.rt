//! The report on a log.

ghost use Rattle.std.specs.Prelude.{◌≡◌, ◌++◌, OnOk, IfOk, Err};
ghost use Rattle.scenarios.specs.Effective.{effective};
ghost use Rattle.report.specs.Entries.{job_cells, job_or_reason, entry_line, log_text};

use crate::heading::push_heading;
use crate::pieces::{push_aligned, push_cell, verdict};
use job_table::JobTable;
use scenarios::{Job, Scenario, Skip, effective};
use std::alloc::{AllocError, Allocator};
use swf_text::{Entry, Memory};

/// Capacity for the line of an entry whose numbers fit their columns.
const LINE: usize = 65;

fn push_job<A: Allocator + Copy>(text: &mut Vec<u8, A>, job: &Job) -> Result<(), AllocError>
    ensures { OnOk result (text.new.items ≡ text.old.items ++ job_cells job.now) }
{
    push_cell(text, job.submit(), 10)?;
    push_cell(text, job.size(), 8)?;
    push_cell(text, job.estimate(), 10)?;
    push_cell(text, job.length(), 10)?;
    text.push(b' ')?;
    push_aligned(text, job.user(), 8)?;
    text.extend_from_slice(verdict(job.killed()))?;
    Ok(())
}

fn push_skip<A: Allocator + Copy>(text: &mut Vec<u8, A>, skip: Skip) -> Result<(), AllocError>
    ensures { OnOk result (text.new.items ≡ text.old.items ++ job_or_reason (Err skip)) }
{
    text.extend_from_slice(b" skipped ")?;
    text.extend_from_slice(skip.name().as_bytes())?;
    text.push(b'\n')?;
    Ok(())
}

fn push_job_or_reason<A: Allocator + Copy>(
    text: &mut Vec<u8, A>,
    outcome: Result<Job, Skip>,
) -> Result<(), AllocError>
    ensures { OnOk result (text.new.items ≡ text.old.items ++ job_or_reason outcome) }
{
    match outcome {
        Ok(job) => push_job(text, &job),
        Err(skip) => push_skip(text, skip),
    }
}

fn push_entry<A: Allocator + Copy>(
    text: &mut Vec<u8, A>,
    entry: &Entry<A>,
    scenario: &Scenario,
) -> Result<(), AllocError>
    ensures { OnOk result (text.new.items ≡ text.old.items ++ entry_line scenario.now entry.now) }
{
    push_aligned(text, entry.number(), 8)?;
    push_job_or_reason(text, effective(entry, scenario))?;
    Ok(())
}

/// The log under a scenario of this name: a line for each entry, in the order of the log, with the
/// job that it is or the reason for which it is skipped. Memory where a growth is refused.
pub fn log_text<A: Allocator + Copy>(
    alloc: A,
    name: &str,
    version: u64,
    table: &JobTable<A>,
    scenario: Scenario,
) -> Result<Vec<u8, A>, Memory>
    ensures { IfOk result (λ text. text.items ≡ log_text name.now version table.now scenario) }
{
    let count = table.len();
    let mut text = Vec::with_capacity(alloc, count.saturating_add(2).saturating_mul(LINE))?;
    push_heading(&mut text, "log", name, version, "entries", count)?;
    let mut coming = table.from_second(0);
    'entries: while let Some(entry) = coming.next() {
        push_entry(&mut text, entry, &scenario)?;
    }
    Ok(text)
}
