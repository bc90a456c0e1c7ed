//! Pages of a schedule that are printed at once.

ghost use Rattle.std.specs.Prelude.{◌≡◌, ◌<◌, ◌++◌, IfOk, OnOk, length};
ghost use Rattle.std.specs.Thread.{IsSync};
ghost use Rattle.swf_text.specs.Writing.{Writes};
ghost use Rattle.report.specs.Pages.{ArePrints, IsPrint, all_lines, all_rows};

use crate::page::Page;
use crate::source::Source;
use rayon::prelude::*;
use std::alloc::{AllocError, Allocator};
use std::io::Write;
use std::marker::Sync;
use std::thread::{Threads, join_mut};
use swf_text::{WriteFault, write_bytes};

pub(crate) fn pages<A: Allocator + Copy>(alloc: A, count: usize) -> Result<Vec<Page, A>, AllocError>
    requires { 0 < count }
    ensures { IfOk result (λ pages. 0 < length pages.items) }
{
    let mut pages = Vec::with_capacity(alloc, count)?;
    while pages.len() < count {
        pages.push(Page::new())?;
    }
    Ok(pages)
}

pub(crate) fn take_all<S: Source>(pages: &mut [Page], rows: &mut S)
    ensures same { length pages.new ≡ length pages.old }
    ensures rows { all_rows pages.new ++ S.rows rows.new ≡ S.rows rows.old }
    ensures some { 0 < length pages.old → 0 < length (S.rows rows.old) → length (S.rows rows.new) < length (S.rows rows.old) }
{
    for place in 0..pages.len() {
        pages[place].take(rows);
    }
}

pub(crate) fn print_all<R: Threads + Sync>(rt: &R, pages: &mut [Page])
    ensures { ArePrints pages.old pages.new }
{
    par_for_each_mut(
        rt,
        pages,
        |_place: usize, page: &mut Page|
            ensures { IsPrint page.old page.new }
        { page.print() },
    );
}

pub(crate) fn write_all<W: Write>(writer: &mut W, pages: &[Page]) -> Result<(), WriteFault>
    ensures { Writes result (W.contents writer.old) (W.contents writer.new) (all_lines pages.now) }
{
    for page in pages {
        write_bytes(writer, page.lines.as_slice())?;
    }
    Ok(())
}

pub(crate) fn print_beside<R: Threads + Sync, W: Write, S: Source>(
    rt: &R,
    writer: &mut W,
    rows: &mut S,
    next: &mut [Page],
    printed: &mut [Page],
) -> Result<(), WriteFault>
    ensures prints { ArePrints next.old next.new }
    ensures same { length printed.new ≡ length printed.old }
    ensures writes { Writes result (W.contents writer.old) (W.contents writer.new) (all_lines printed.old) }
    ensures rows { OnOk result (all_rows printed.new ++ S.rows rows.new ≡ S.rows rows.old) }
    ensures some { OnOk result (0 < length printed.old → 0 < length (S.rows rows.old) → length (S.rows rows.new) < length (S.rows rows.old)) }
{
    let mut print = ||
        requires { IsSync R.row }
        ensures { ArePrints next.entry.now next.exit.now }
    { print_all(rt, next) };
    let mut write = || -> Result<(), WriteFault>
        ensures same { length printed.exit.now ≡ length printed.entry.now }
        ensures writes { Writes result (W.contents writer.entry.now) (W.contents writer.exit.now) (all_lines printed.entry.now) }
        ensures rows { OnOk result (all_rows printed.exit.now ++ S.rows rows.exit.now ≡ S.rows rows.entry.now) }
        ensures some { OnOk result (0 < length printed.entry.now → 0 < length (S.rows rows.entry.now) → length (S.rows rows.exit.now) < length (S.rows rows.entry.now)) }
    {
        write_all(writer, printed)?;
        take_all(printed, rows);
        Ok(())
    };
    let (_printed, written) = join_mut(rt, &mut print, &mut write);
    written
}
