use crate::pieces::read_by_lines;
use refusing::Refusing;
use std::alloc::{Allocator, Global};
use swf_text::{FaultKind, SwfFault, SwfText, read_swf};

/// What is answered of a log while one growth was refused.
#[derive(Clone, Copy, PartialEq, Eq)]
pub(crate) enum Answered {
    /// It was read, with so many entries.
    Read(usize),
    /// Out of memory at this line.
    MemoryAt(u64),
    /// Another fault.
    Faulty,
}

/// What came of reading a log.
pub(crate) fn answered_by<A: Allocator + Copy>(read: Result<SwfText<A>, SwfFault>) -> Answered {
    match read {
        Ok(text) => Answered::Read(text.entries().len()),
        Err(fault) => {
            if fault.kind == FaultKind::Memory {
                Answered::MemoryAt(fault.line)
            } else {
                Answered::Faulty
            }
        }
    }
}

/// A comment, a job line and its partial line: each takes memory of its own.
const LOG: &[u8] = b"; c
1 0 -1 100 6 -1 -1 6 100 -1 1 7 -1 -1 -1 -1 -1 -1
1 -1 -1 5 6 -1 -1 6 5 -1 2 7 -1 -1 -1 -1 -1 -1
";

/// How the log is read.
#[derive(Clone, Copy)]
enum Way {
    AtOnce,
    ByLines,
}

// What is answered of the log where `heap` refuses; none where memory is short outside of it.
fn answered_on(alloc: Global, heap: &Refusing<Global>, way: Way) -> Option<Answered> {
    match way {
        Way::AtOnce => Some(answered_by(read_swf(heap, LOG))),
        Way::ByLines => Some(answered_by(read_by_lines(alloc, heap, LOG).ok()?)),
    }
}

fn goes_on(last: u64, line: u64) -> bool {
    line != 0 && (line == last || line - 1 == last)
}

/// More growths than the reading of the log makes.
const MANY: u64 = 100;

// Refuses each growth in turn: whether line 1 is answered first, then the same line or the next one each
// time, line 3 at last, and the log is read once none is refused.
fn tells_each_line(alloc: Global, way: Way) -> Option<bool> {
    let mut last = 0;
    for nth in 1..MANY {
        let heap = Refusing::new(alloc, nth);
        let answered = answered_on(alloc, &heap, way)?;
        if !heap.refused() {
            return Some(last == 3 && answered == Answered::Read(1));
        }
        match answered {
            Answered::MemoryAt(line) if goes_on(last, line) => last = line,
            _ => return Some(false),
        }
    }
    None
}

#[test]
fn memory_is_answered_at_each_line_in_turn(rt: HostRuntime) {
    assert!(rt; tells_each_line(rt.alloc(), Way::AtOnce) == Some(true));
    assert!(rt; tells_each_line(rt.alloc(), Way::ByLines) == Some(true));
}
