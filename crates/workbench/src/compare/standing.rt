// Who waits and who runs before a second, by a schedule and by a snapshot.

use checkpoints::Row;
use cluster_state::Snapshot;
use std::alloc::Global;

// Whether a job waits before a second.
fn waits(row: &Row, second: u64) -> bool {
    row.submit < second && row.start >= second
}

// Whether a job runs before a second, when those that end at it have not yet ended.
fn runs(row: &Row, second: u64) -> bool {
    row.start < second && row.end >= second
}

// Whether just the jobs of a schedule that wait before a second wait there, in the same order.
fn waits_so(rows: &[Row], there: &Snapshot<Global>, second: u64) -> bool {
    let numbers = rows
        .iter()
        .filter(|row| waits(row, second))
        .map(|row| row.number);
    there.waiting().copied().eq(numbers)
}

// Whether a job of a schedule runs before a second, since this start.
fn runs_since(rows: &[Row], number: u64, start: u64, second: u64) -> bool {
    for row in rows {
        if row.number == number && row.start == start && runs(row, second) {
            return true;
        }
    }
    false
}

// Whether just the jobs of a schedule that run before a second run there, since the same starts.
fn runs_so(rows: &[Row], there: &Snapshot<Global>, second: u64) -> bool {
    let mut count = 0u64;
    for running in there.running() {
        if !runs_since(rows, running.number, running.start, second) {
            return false;
        }
        count = count.wrapping_add(1);
    }
    for row in rows {
        count = count.wrapping_sub(u64::from(runs(row, second)));
    }
    count == 0
}

/// Whether a snapshot is what a schedule has before a second.
pub(crate) fn is_before(rows: &[Row], there: &Snapshot<Global>, second: u64) -> bool {
    waits_so(rows, there, second) && runs_so(rows, there, second)
}

/// Whether a number waits or runs there.
pub(crate) fn stands(there: &Snapshot<Global>, number: u64) -> bool {
    for running in there.running() {
        if running.number == number {
            return true;
        }
    }
    for waiting in there.waiting() {
        if *waiting == number {
            return true;
        }
    }
    false
}
