//! The report on days.

ghost use Rattle.std.specs.Prelude.{◌≡◌, ◌++◌, OnOk, IfOk};
ghost use Rattle.report.specs.Days.{day_line, days_text};

use crate::heading::push_heading;
use crate::pieces::{push_aligned, push_cell, push_percent};
use checkpoints::Run;
use metrics::DayRow;
use std::alloc::{AllocError, Allocator};
use swf_text::Memory;

/// Capacity for the line of a day whose numbers fit their columns.
const LINE: usize = 35;

fn push_day<A: Allocator + Copy>(text: &mut Vec<u8, A>, row: &DayRow) -> Result<(), AllocError>
    ensures { OnOk result (text.new.items ≡ text.old.items ++ day_line row.now) }
{
    push_aligned(text, row.day, 8)?;
    push_cell(text, row.busy, 16)?;
    text.push(b' ')?;
    push_percent(text, row.utilization, 3)?;
    text.push(b'\n')?;
    Ok(())
}

/// The numbers of a run for each day in which a processor is taken, by rising day: the day,
/// counted from 0, processor-seconds, and the utilization. Memory where a growth is refused.
pub fn days_text<A: Allocator + Copy>(
    alloc: A,
    name: &str,
    version: u64,
    run: &Run<A>,
) -> Result<Vec<u8, A>, Memory>
    ensures { IfOk result (λ text. text.items ≡ days_text name.now version run.now.tables.days) }
{
    let rows = run.tables().days()?;
    let mut text = Vec::with_capacity(alloc, rows.len().saturating_add(2).saturating_mul(LINE))?;
    push_heading(&mut text, "days", name, version, "count", rows.len())?;
    'lines: for row in &rows {
        push_day(&mut text, row)?;
    }
    Ok(text)
}
