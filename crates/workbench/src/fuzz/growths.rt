// Works of which each growth is refused in turn.
use crate::fuzz::answers::{OF_FOUR, VIEWED};
use crate::fuzz::judge::{are_edited, are_viewed, refused_place};
use crate::fuzz::texts::is_of;
use crate::fuzz::works::Work;
use easybook::ProgramFault;
use refusing::Refusing;
use std::alloc::Global;
use std::marker::Sync;
use std::str;
use std::sync::Wait;
use std::thread::Threads;

/// More growths than a work makes.
const MANY: u64 = 20_000;

/// What may come of a work of which one growth was to be refused.
#[derive(Clone, Copy)]
enum Came {
    /// None was refused, and all went well.
    Whole,
    /// One was refused, at one of the places that are answered from others.
    Refused(usize),
}

/// The place before anything was written.
const BEFORE: usize = 7;

// Whether a work is answered as it should be.
fn is_whole(work: Work, text: &[u8]) -> bool {
    match work {
        Work::Plain => text == OF_FOUR,
        Work::Edits(removals) => are_edited(text, removals),
        Work::Views => is_of(text, &VIEWED),
    }
}

// Where a growth of a work was refused, by what was written; none where that may not be.
fn place_of(work: Work, text: &[u8]) -> Option<usize> {
    match work {
        Work::Plain => None,
        Work::Edits(removals) => refused_place(text, removals),
        Work::Views => are_viewed(text).then_some(0),
    }
}

// What came of a work; none where that may not be.
fn judged(
    work: Work,
    answer: Result<(), ProgramFault>,
    text: &[u8],
    refused: bool,
) -> Option<Came> {
    match answer {
        Ok(()) if refused => Some(Came::Refused(place_of(work, text)?)),
        Ok(()) if is_whole(work, text) => Some(Came::Whole),
        Err(ProgramFault::Memory) if refused && text.is_empty() => Some(Came::Refused(BEFORE)),
        _ => None,
    }
}

fn tell<R: Eprint>(rt: &R, nth: u64, answer: Result<(), ProgramFault>, text: &[u8]) {
    let text = str::from_utf8(text).unwrap_or("no text");
    // Where even this line cannot be written, the status still tells.
    let _ = match answer {
        Ok(()) => eprintln!(rt; "workbench: growth {nth}: {text}"),
        Err(fault) => eprintln!(rt; "workbench: growth {nth}: {fault}"),
    };
}

fn came_of<R: AllocGlobal + Eprint + Threads + Wait + Sync>(
    rt: &R,
    work: Work,
    heap: &Refusing<Global>,
    nth: u64,
) -> Option<Came> {
    let mut out = Vec::new(rt.alloc());
    let answer = work.work(rt, heap, &mut out);
    let came = judged(work, answer, out.as_slice(), heap.refused());
    if came.is_none() {
        tell(rt, nth, answer, out.as_slice());
    }
    came
}

fn note(met: &mut [bool; 8], place: usize) {
    if let Some(is_met) = met.get_mut(place) {
        *is_met = true;
    }
}

// Refuses each growth of a work in turn: whether each time all ends as it may, until none is refused and
// all goes well. Notes the places that came.
fn goes_on<R: AllocGlobal + Eprint + Threads + Wait + Sync>(
    rt: &R,
    work: Work,
    met: &mut [bool; 8],
) -> bool {
    for nth in 1..MANY {
        let heap = Refusing::new(rt.alloc(), nth);
        match came_of(rt, work, &heap, nth) {
            Some(Came::Whole) => return nth > 1,
            Some(Came::Refused(place)) => note(met, place),
            None => return false,
        }
    }
    false
}

// Whether a plain run ends with out of memory, and scripts of edits are answered so in each place: with
// both of the removals, with one and with none, so that the journal grows in other commands.
pub(crate) fn are_answered<R: AllocGlobal + Eprint + Threads + Wait + Sync>(rt: &R) -> bool {
    let mut met = [false; 8];
    for removals in 0..3 {
        if !goes_on(rt, Work::Edits(removals), &mut met) {
            return false;
        }
    }
    met == [true; 8] && goes_on(rt, Work::Plain, &mut met)
}

// Whether scripts side by side are answered as they may be.
pub(crate) fn are_answered_beside<R: AllocGlobal + Eprint + Threads + Wait + Sync>(rt: &R) -> bool {
    goes_on(rt, Work::Views, &mut [false; 8])
}
