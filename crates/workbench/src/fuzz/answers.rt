// What the works are answered.

/// The schedule of the four jobs.
pub(crate) const OF_FOUR: &[u8] = b"schedule base version 0 jobs 4
       1          0          0        100        6 ok
       2          1        100        150        8 ok
       3          2          2         92        4 ok
       4          3         92        592        2 ok
";

/// The schedule of five jobs.
const OF_FIVE: &[u8] = b"schedule base version 1 jobs 5
       1          0          0        100        6 ok
       2          1        100        150        8 ok
       3          2          2         92        4 ok
       4          3         92        592        2 ok
       5          4         92         97        2 ok
";

/// What the views are answered where the run is shown.
pub(crate) const TABLE: &[u8] = b"table base version 0
jobs 4 killed 0
skipped size 0 run 0 large 0 long 0
wait mean 47 greatest 99
length mean 185
slowdown mean 1.539
busy 2360 span 592
utilization 39.864%
";

pub(crate) const USERS: &[u8] = b"users base version 0 count 2
       7        2          0        1.000              960
       8        2         94        2.079             1400
";

pub(crate) const DAYS: &[u8] = b"days base version 0 count 1
       0             2360   0.273%
";

// Answers of a line.
pub(crate) const MEMORY: &[u8] = b"refused Memory\n";

pub(crate) const NOT_YET: &[u8] = b"refused NotYet\n";

pub(crate) const NO_JOB: &[u8] = b"refused NoSuchJob\n";

const TWICE: &[u8] = b"refused DuplicateJob\n";

const ONE: &[u8] = b"version 1\n";

pub(crate) const NONE_DUE: &[u8] = b"settled 0\n";

const SETTLED: &[u8] = b"settled 1\n";

pub(crate) const FAILED: &[u8] = b"failed 1\n";

pub(crate) const STOPPED: &[u8] = b"stopped\n";

pub(crate) const BYE: &[u8] = b"bye\n";

/// What the edits from the insertion on are answered where memory is refused in one of them, in turn.
/// Where it is in `settle`, what is due was not claimed or its run not noted, or it was given up.
pub(crate) const REFUSED: [[&[u8]; 8]; 7] = [
    [MEMORY, NOT_YET, NONE_DUE, OF_FOUR, NO_JOB, ONE, ONE, BYE],
    [ONE, MEMORY, SETTLED, OF_FIVE, NO_JOB, TWICE, ONE, BYE],
    [ONE, NOT_YET, STOPPED, NOT_YET, NO_JOB, TWICE, ONE, BYE],
    [ONE, NOT_YET, FAILED, NOT_YET, NO_JOB, TWICE, ONE, BYE],
    [ONE, NOT_YET, SETTLED, MEMORY, NO_JOB, TWICE, ONE, BYE],
    [ONE, NOT_YET, SETTLED, OF_FIVE, MEMORY, TWICE, ONE, BYE],
    [ONE, NOT_YET, SETTLED, OF_FIVE, NO_JOB, MEMORY, ONE, BYE],
];

/// The same where none is refused.
pub(crate) const EDITED: [&[u8]; 8] = [ONE, NOT_YET, SETTLED, OF_FIVE, NO_JOB, TWICE, ONE, BYE];

/// What both scripts of views are answered where nothing fails.
pub(crate) const VIEWED: [&[u8]; 12] = [
    b"== 1\n", NONE_DUE, TABLE, USERS, DAYS, BYE, b"== 2\n", NONE_DUE, TABLE, USERS, DAYS, BYE,
];
