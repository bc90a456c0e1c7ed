//! The report on a schedule.

ghost use Rattle.std.specs.Prelude.{◌≡◌, ◌≤◌, ◌++◌, OnOk, IfOk, drop, length};
ghost use Rattle.report.specs.Schedule.{row_numbers, row_line, rows_text};

use crate::heading::push_heading;
use crate::line::{CAPACITY, put_cell, put_right};
use crate::pieces::verdict;
use checkpoints::{Row, Rows};
use std::alloc::{AllocError, Allocator};

/// Capacity for the line of a job whose numbers fit their columns.
const LINE: usize = 56;

/// The numbers of a job's line, and where among its blanks they begin.
#[derive(Drop)]
pub(crate) struct Numbers {
    pub(crate) line: [u8; CAPACITY],
    pub(crate) begin: usize,
}

pub(crate) fn row_numbers(row: &Row) -> Numbers
    ensures begin { result.begin ≤ 105 }
    ensures long { length result.line ≡ 105 }
    ensures numbers { drop result.begin result.line ≡ row_numbers row.now }
{
    let mut line = [b' '; CAPACITY];
    let size = put_cell(&mut line, CAPACITY, row.size, 8);
    let end = put_cell(&mut line, size, row.end, 10);
    let start = put_cell(&mut line, end, row.start, 10);
    let submit = put_cell(&mut line, start, row.submit, 10);
    let begin = put_right(&mut line, submit, row.number, 8);
    Numbers { line, begin }
}

fn push_row<A: Allocator + Copy>(text: &mut Vec<u8, A>, row: &Row) -> Result<(), AllocError>
    ensures { OnOk result (text.new.items ≡ text.old.items ++ row_line row.now) }
{
    let numbers = row_numbers(row);
    text.extend_from_slice(&numbers.line[numbers.begin..])?;
    text.extend_from_slice(verdict(row.killed))?;
    Ok(())
}

pub(crate) fn rows_text<A: Allocator + Copy>(
    alloc: A,
    name: &str,
    version: u64,
    mut rows: Rows<'_, A>,
) -> Result<Vec<u8, A>, AllocError>
    ensures { IfOk result (λ text. text.items ≡ rows_text name.now version rows.entry) }
{
    let count = rows.left();
    let mut text = Vec::with_capacity(alloc, count.saturating_add(2).saturating_mul(LINE))?;
    push_heading(&mut text, "schedule", name, version, "jobs", count)?;
    'lines: while let Some(row) = rows.next() {
        push_row(&mut text, &row)?;
    }
    Ok(text)
}
