// A log that several threads read in batches, where one growth after another is refused.
use crate::lines_answered::{Answered, answered_by};
use parallel_reader::read_parallel;
use refusing::Refusing;
use std::alloc::Global;
use std::marker::Sync;
use std::thread::Threads;

/// How many lines there are: four batches of 65,536, and some more.
const MANY: u64 = 270_000;

// What stands in a line: a job in the last line of the first batch, its part in the next line, and a
// comment in the last one.
fn line_of(number: u64) -> &'static str {
    match number {
        65_536 => "1 0 -1 100 6 -1 -1 6 100 -1 1 7 -1 -1 -1 -1 -1 -1\n",
        65_537 => "1 -1 -1 5 6 -1 -1 6 5 -1 2 7 -1 -1 -1 -1 -1 -1\n",
        MANY => "; the end",
        _ => "\n",
    }
}

fn add_lines(log: &mut Vec<u8>) -> Option<()> {
    for number in 1..=MANY {
        log.extend_from_slice(line_of(number).as_bytes()).ok()?;
    }
    Some(())
}

/// More growths than the reading of such a log asks for.
const GROWTHS: u64 = 1_000;

// Whether this may be answered where a growth was refused and the lines answered so far reach to this
// one: a later line, or line 1, where there was no capacity for lines that were cut, or the log, where
// there was none for its entries ahead.
fn may_follow(answered: Answered, earlier: u64) -> bool {
    match answered {
        Answered::Read(entries) => entries == 1,
        Answered::MemoryAt(line) => line == 1 || (earlier <= line && line <= MANY),
        Answered::Faulty => false,
    }
}

// Refuses each growth in turn: whether the lines answered but line 1 don't fall as the refusal comes
// later and reach the last one, and the log is read at last.
fn tells_lines<R: Threads + Sync>(rt: &R, alloc: Global, bytes: &[u8]) -> bool {
    let mut last = 1;
    for nth in 1..GROWTHS {
        let heap = Refusing::new(alloc, nth);
        let answered = answered_by(read_parallel(rt, &heap, bytes));
        if !heap.refused() {
            return last == MANY && answered == Answered::Read(1);
        }
        if !may_follow(answered, last) {
            return false;
        }
        if let Answered::MemoryAt(line) = answered {
            last = last.max(line);
        }
    }
    false
}

fn tells_memory<R: Threads + Sync>(rt: &R, alloc: Global) -> bool {
    let mut log = Vec::new(alloc);
    add_lines(&mut log).is_some() && tells_lines(rt, alloc, &log)
}

#[test]
fn a_log_tells_memory_at_a_line_that_was_reached(rt: HostRuntime) {
    assert!(rt; tells_memory(&rt, rt.alloc()));
}
