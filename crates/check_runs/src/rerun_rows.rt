// What is made anew of runs after edits, worked by hand.
use crate::logs::{LONG, NOTED, SHORT, SIX, THREE};
use checking::Written;

/// An entry without processors, which is skipped.
const SKIPPED: &[u8] = b"1 0 -1 5 -1 -1 -1 -1 5 -1 1 7 -1 -1 -1 -1 -1 -1\n";

/// Jobs of the whole machine that join it.
const SECOND: &[u8] = b"2 5 -1 10 10 -1 -1 10 10 -1 1 7 -1 -1 -1 -1 -1 -1\n";

const THIRD: &[u8] = b"3 8 -1 20 10 -1 -1 10 20 -1 1 7 -1 -1 -1 -1 -1 -1\n";

/// A log on ten processors, edits of it, and the run then.
pub(crate) struct Row {
    pub(crate) log: &'static [u8],
    /// How many event seconds a segment of the old run has at most, and one that is made anew.
    pub(crate) spacings: (u32, u32),
    pub(crate) edits: &'static [Written],
    /// The event seconds that are worked, and how many segments are reused.
    pub(crate) work: (u64, u64),
    /// The first seconds of the segments.
    pub(crate) firsts: &'static [u64],
}

/// Job 2 runs for 20 seconds.
const LONGER: &[Written] = &[Written::Change(2, 4, b"20"), Written::Change(2, 9, b"20")];

/// The same, with an estimate that stays: 10, 50 and 70 are worked, and the first segment is reused.
pub(crate) const GROWN: Row = Row {
    log: LONG,
    spacings: (1, 1),
    edits: &[Written::Change(2, 4, b"20")],
    work: (3, 1),
    firsts: &[0, 1, 11, 51],
};

/// Worked by hand.
pub(crate) const ROWS: &[Row] = &[
    GROWN,
    // Job 3 is submitted later: 3, 100, 150, 300, 390 and 503 are worked.
    Row {
        log: NOTED,
        spacings: (1, 1),
        edits: &[Written::Change(3, 2, b"300")],
        work: (6, 2),
        firsts: &[0, 1, 2, 4, 101, 151, 301, 391],
    },
    // Job 2 runs longer: 100, 120 and 200, and the segments from 0, 1 and 201 are reused.
    Row {
        log: THREE,
        spacings: (1, 1),
        edits: LONGER,
        work: (3, 3),
        firsts: &[0, 1, 11, 101, 121, 201],
    },
    // Job 1 runs longer, and the same numbers wait and run at 1 and 11: 0, 10, 70 and 80.
    Row {
        log: SHORT,
        spacings: (1, 1),
        edits: &[Written::Change(1, 4, b"70")],
        work: (4, 0),
        firsts: &[0, 1, 11, 71],
    },
    // A field that no job depends on: all is reused.
    Row {
        log: NOTED,
        spacings: (1, 1),
        edits: &[Written::Change(1, 3, b"5")],
        work: (0, 8),
        firsts: &[0, 1, 2, 3, 4, 93, 101, 151],
    },
    // Jobs 2 and 5 run longer: 100, 120, 200, 400, 420 and 500, and the segments from 0, 1, 201, 211, 301
    // and 501 are reused.
    Row {
        log: SIX,
        spacings: (1, 1),
        edits: &[
            Written::Change(2, 4, b"20"),
            Written::Change(2, 9, b"20"),
            Written::Change(5, 4, b"20"),
            Written::Change(5, 9, b"20"),
        ],
        work: (6, 6),
        firsts: &[0, 1, 11, 101, 121, 201, 211, 301, 311, 401, 421, 501],
    },
    // There was no job, and two come: 5, 8, 15 and 35.
    Row {
        log: SKIPPED,
        spacings: (1, 1),
        edits: &[Written::Insert(SECOND), Written::Insert(THIRD)],
        work: (4, 0),
        firsts: &[0, 6, 9, 16],
    },
    // 120 is an event second then, and 110 is none: 100 is the last one before 111; 120 and 200 fill a
    // segment; 210 is the last of all.
    Row {
        log: THREE,
        spacings: (2, 2),
        edits: LONGER,
        work: (4, 1),
        firsts: &[0, 11, 101, 201],
    },
    // 210 is the last one before 211, where the old segments are reused again.
    Row {
        log: SIX,
        spacings: (2, 2),
        edits: LONGER,
        work: (4, 4),
        firsts: &[0, 11, 101, 201, 211, 311, 411],
    },
    Row {
        log: THREE,
        spacings: (2, 1),
        edits: LONGER,
        work: (4, 1),
        firsts: &[0, 11, 101, 121, 201],
    },
];
