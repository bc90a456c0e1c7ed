//! The report on a schedule, whose lines are printed as they are written.

ghost use Rattle.std.specs.Prelude.{◌≡◌, ◌<◌, IfOk, length};
ghost use Rattle.std.specs.List.{flat_map};
ghost use Rattle.swf_text.specs.Writing.{Writes};
ghost use Rattle.report.specs.Schedule.{row_line, rows_text};

use crate::batch::{pages, print_all, print_beside, take_all, write_all};
use crate::heading::push_heading;
use crate::page::{MOST_ROWS, Page};
use checkpoints::Rows;
use rayon::current_num_threads;
use std::alloc::{AllocError, Allocator};
use std::io::Write;
use std::marker::{Model, Sync};
use std::mem::swap;
use std::thread::Threads;
use swf_text::{WriteFault, write_bytes};

/// The most pages that are printed at once.
const MOST_PAGES: usize = 64;

/// The report on a schedule. Lines are printed by several threads while those before them are written;
/// it takes no memory to write it.
#[derive(Drop)]
pub struct ScheduleReport<'a, A: Allocator + Copy> {
    heading: Vec<u8, A>,
    rows: Rows<'a, A>,
    // One is printed while the other is written and takes the next rows.
    printed: Vec<Page, A>,
    next: Vec<Page, A>,
}

impl<'a, A: Allocator + Copy> Model for ScheduleReport<'a, A> {
    ghost use Rattle.std.specs.Prelude.{ℕ, List, ◌++◌, ◌<◌, length};
    ghost use Rattle.std.specs.List.{flat_map};
    ghost use Rattle.report.specs.Schedule.{row_line};

    ghost Value = { List ℕ };

    ghost view = { λ s. s.heading.items ++ flat_map row_line s.rows };

    ghost invariant = { λ s. (0 < length s.printed.items) × (0 < length s.next.items) };
}

fn write_alone<W: Write, A: Allocator + Copy>(
    writer: &mut W,
    mut rows: Rows<'_, A>,
) -> Result<(), WriteFault>
    ensures { Writes result (W.contents writer.old) (W.contents writer.new) (flat_map row_line rows.entry) }
{
    let mut page = Page::new();
    'rows: while 0 < rows.left() {
        page.take(&mut rows);
        page.print();
        write_bytes(writer, page.lines.as_slice())?;
    }
    Ok(())
}

fn write_rows<R: Threads + Sync, W: Write, A: Allocator + Copy>(
    rt: &R,
    writer: &mut W,
    mut rows: Rows<'_, A>,
    mut printed: Vec<Page, A>,
    mut next: Vec<Page, A>,
) -> Result<(), WriteFault>
    requires printed { 0 < length printed.items }
    requires next { 0 < length next.items }
    ensures { Writes result (W.contents writer.old) (W.contents writer.new) (flat_map row_line rows.entry) }
{
    take_all(printed.as_mut_slice(), &mut rows);
    print_all(rt, printed.as_mut_slice());
    take_all(next.as_mut_slice(), &mut rows);
    'rows: while 0 < rows.left() {
        print_beside(
            rt,
            writer,
            &mut rows,
            next.as_mut_slice(),
            printed.as_mut_slice(),
        )?;
        swap(&mut printed, &mut next);
    }
    write_all(writer, printed.as_slice())?;
    print_all(rt, next.as_mut_slice());
    write_all(writer, next.as_slice())
}

impl<'a, A: Allocator + Copy> ScheduleReport<'a, A> {
    pub(crate) fn new(
        alloc: A,
        name: &str,
        version: u64,
        rows: Rows<'a, A>,
    ) -> Result<ScheduleReport<'a, A>, AllocError>
        ensures { IfOk result (λ report. report ≡ rows_text name.now version rows.entry) }
    {
        let mut heading = Vec::new(alloc);
        push_heading(&mut heading, "schedule", name, version, "jobs", rows.left())?;
        let count = rows.left().div_ceil(MOST_ROWS).clamp(1, MOST_PAGES);
        Ok(ScheduleReport {
            heading,
            rows,
            printed: pages(alloc, count)?,
            next: pages(alloc, count)?,
        })
    }

    /// Writes the report's text, by several writes one after another; on one processor no thread is
    /// started. Device where the writer returns an error, or takes no byte; what was written then is a
    /// beginning of the text.
    pub fn write<R: Threads + Sync, W: Write>(
        self,
        rt: &R,
        writer: &mut W,
    ) -> Result<(), WriteFault>
        ensures { Writes result (W.contents writer.old) (W.contents writer.new) self.entry }
    {
        let ScheduleReport {
            heading,
            rows,
            printed,
            next,
        } = self;
        write_bytes(writer, heading.as_slice())?;
        if current_num_threads(rt) == 1 {
            return write_alone(writer, rows);
        }
        write_rows(rt, writer, rows, printed, next)
    }
}
