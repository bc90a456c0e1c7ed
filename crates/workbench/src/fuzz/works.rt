// What is worked on the log of four jobs, and what is written where nothing fails.
use checking::FOUR;
use easybook::{Options, ProgramFault, run_alone, run_plain, run_shared};
use std::alloc::Allocator;
use std::io::{Cursor, Write};
use std::marker::{Send, Sync};
use std::sync::Wait;
use std::thread::Threads;
use swf_text::Memory;

/// Ten processors, and two workers.
pub(crate) const TEN: Options = Options {
    procs: Some(10),
    spacing: 256,
    workers: 2,
};

/// Two removals of no job, an insertion, views before and after it is worked, and refusals.
const EDITS: &[u8] = b"remove 98
remove 98
insert 5 4 -1 5 2 -1 -1 2 5 -1 1 9 -1 -1 -1 -1 -1 -1
schedule base
settle
schedule base
remove 99
insert 5 4 -1 5 2 -1 -1 2 5 -1 1 9 -1 -1 -1 -1 -1 -1
version
quit
";

/// The bytes of one removal.
const REMOVAL: usize = 10;

/// Each report of the run.
const VIEWS: &[u8] = b"settle\ntable base\nusers base\ndays base\nquit\n";

/// What is worked on the four jobs.
#[derive(Clone, Copy)]
pub(crate) enum Work {
    /// A plain run.
    Plain,
    /// A script of edits, in which so many removals of no job come first.
    Edits(usize),
    /// Two scripts of views side by side.
    Views,
}

pub(crate) fn edits(removals: usize) -> &'static [u8] {
    &EDITS[REMOVAL * (2 - removals.min(2))..]
}

fn views<A: Allocator + Copy>(alloc: A) -> Result<Vec<Vec<u8, A>, A>, Memory> {
    let mut scripts = Vec::new(alloc);
    for _ in 0..2 {
        scripts.push(Vec::from_slice(alloc, VIEWS)?)?;
    }
    Ok(scripts)
}

fn work_views<R: Threads + Wait + Sync, A: Allocator + Copy + Send + Sync, W: Write>(
    rt: &R,
    alloc: A,
    out: &mut W,
) -> Result<(), ProgramFault> {
    let scripts = views(alloc)?;
    run_shared(rt, alloc, scripts.as_slice(), out, FOUR, TEN)
}

impl Work {
    pub(crate) fn work<R: Threads + Wait + Sync, A: Allocator + Copy + Send + Sync, W: Write>(
        self,
        rt: &R,
        alloc: A,
        out: &mut W,
    ) -> Result<(), ProgramFault> {
        match self {
            Work::Plain => run_plain(rt, alloc, out, FOUR, TEN),
            Work::Edits(removals) => {
                run_alone(rt, alloc, Cursor::new(edits(removals)), out, FOUR, TEN)
            }
            Work::Views => work_views(rt, alloc, out),
        }
    }
}
