// Which lines an entry packs: those that take no memory.
use refusing::Refusing;
use std::alloc::Global;
use swf_text::{Entry, EntryLines, LineRead, read_line};

/// Lines of -1, whole numbers and hundredths, up to the greatest of both that are packed, and how many
/// growths the entry of each takes: none; and lines that have another value, which take one.
const LINES: [(&[u8], u64); 6] = [
    (b"1 0 -1 100 6 -1 -1 6 100 -1 1 7 -1 -1 -1 -1 -1 -1", 0),
    (
        b"2 3999999998 -1 50 8 2949672.95 0.01 8 50 12.5 1 8 0 -1 -1 -1 -1 3999999998",
        0,
    ),
    (
        b"3 3999999999 -1 50 8 -1 -1 8 50 -1 1 8 -1 -1 -1 -1 -1 -1",
        1,
    ),
    (
        b"4 0 -1 50 8 2949672.96 -1 8 50 -1 1 8 -1 -1 -1 -1 -1 -1",
        1,
    ),
    (b"5 0 -1 50 8 0.001 -1 8 50 -1 1 8 -1 -1 -1 -1 -1 -1", 1),
    (b"6 0 -1 50 8 -2 -1 8 50 -1 1 8 -1 -1 -1 -1 -1 -1", 1),
];

// How many growths the entry of a line takes; none where the line has none.
fn growths_of(alloc: Global, line: &[u8]) -> Option<u64> {
    let LineRead::Job(job) = read_line(line) else {
        return None;
    };
    let counting = Refusing::new(alloc, 0);
    let lines = EntryLines::new(job, Vec::new(&counting)).ok()?;
    let _entry = Entry::of_lines(&lines).ok()?;
    Some(counting.calls())
}

#[test]
fn small_values_take_no_memory(rt: HostRuntime) {
    for (place, (line, growths)) in LINES.iter().enumerate() {
        assert!(rt;
            growths_of(rt.alloc(), line) == Some(*growths),
            "line {place}"
        );
    }
}
