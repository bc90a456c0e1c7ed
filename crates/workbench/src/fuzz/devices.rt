// Readers and writers that move a byte or a few a call, and fail at one of their calls.
use crate::fuzz::answers::{EDITED, OF_FOUR, VIEWED};
use crate::fuzz::texts::{is_of, joined};
use crate::fuzz::works::{TEN, Work, edits};
use checking::{Dripping, FOUR, Filling};
use easybook::{ProgramFault, read_input, run_alone};
use std::alloc::Global;
use std::marker::Sync;
use std::sync::Wait;
use std::thread::Threads;
use swf_text::Memory;

/// An input of five bytes.
const FIVE: &[u8] = b"abcde";

// Whether the input of five bytes is read from a reader that fails at the call behind so many: one byte
// past the limit at most is read, and otherwise the end is looked for.
fn is_cut(alloc: Global, limit: u32, calls: usize) -> bool {
    let needed = limit.min(5) as usize + 1;
    match read_input(alloc, Dripping::new(FIVE, calls, false), u64::from(limit)) {
        Ok(bytes) => calls >= needed && limit >= 5 && bytes.as_slice() == FIVE,
        Err(ProgramFault::TooLong) => calls >= needed && limit < 5,
        Err(fault) => calls < needed && fault == ProgramFault::Read,
    }
}

// Whether that holds of limits below, at and above the five bytes, and a reader that fails at each of
// its calls.
fn are_cut(alloc: Global) -> bool {
    for limit in 4..7u32 {
        for calls in 0..8 {
            if !is_cut(alloc, limit, calls) {
                return false;
            }
        }
    }
    true
}

// Whether the script of edits is answered as it should be where its reader fails at the call behind so
// many, or is interrupted: where the reader fails before it gave all, nothing is written.
fn is_read<R: AllocGlobal + Threads + Sync>(rt: &R, calls: usize, goes_on: bool) -> bool {
    let script = edits(0);
    let reader = Dripping::new(script, calls, goes_on);
    let mut outcome = Vec::new(rt.alloc());
    let answer = run_alone(rt, rt.alloc(), reader, &mut outcome, FOUR, TEN);
    if goes_on || calls > script.len() {
        return answer == Ok(()) && is_of(outcome.as_slice(), &EDITED);
    }
    answer == Err(ProgramFault::Read) && outcome.is_empty()
}

// Whether inputs are read as they should be where a reader fails at each of its calls.
pub(crate) fn are_read<R: AllocGlobal + Threads + Sync>(rt: &R) -> bool {
    for calls in 0..edits(0).len() + 2 {
        if !is_read(rt, calls, false) || !is_read(rt, calls, true) {
            return false;
        }
    }
    are_cut(rt.alloc())
}

/// What is written, its text's pieces, and how many bytes a call of the writer takes.
const WRITTEN: [(Work, &[&[u8]], usize); 3] = [
    (Work::Plain, &[OF_FOUR], 7),
    (Work::Edits(0), &EDITED, 1),
    (Work::Views, &VIEWED, 1),
];

fn is_written<R: AllocGlobal + Threads + Wait + Sync>(
    rt: &R,
    work: Work,
    text: &[u8],
    mut writer: Filling,
) -> bool {
    match work.work(rt, rt.alloc(), &mut writer) {
        Ok(()) => writer.took(text, true),
        Err(fault) => fault == ProgramFault::Write && writer.took(text, false),
    }
}

// Whether that holds of writers that fail, or take nothing, at each of their calls.
fn are_written_by<R: AllocGlobal + Threads + Wait + Sync>(
    rt: &R,
    work: Work,
    text: &[u8],
    most: usize,
) -> bool {
    for calls in 0..text.len() + 2 {
        for takes_none in [false, true] {
            let writer = Filling::new(rt.alloc(), most, calls, takes_none);
            if !is_written(rt, work, text, writer) {
                return false;
            }
        }
    }
    true
}

// Whether all is written as it should be where a writer fails at each of its calls.
pub(crate) fn are_written<R: AllocGlobal + Threads + Wait + Sync>(rt: &R) -> Result<bool, Memory> {
    for (work, pieces, most) in &WRITTEN {
        let text = joined(rt.alloc(), pieces)?;
        if !are_written_by(rt, *work, text.as_slice(), *most) {
            return Ok(false);
        }
    }
    Ok(true)
}
