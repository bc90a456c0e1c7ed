// Logs on ten processors whose starts were worked by hand.
use crate::compare::compared::agreed;
use easy_rule::Start;
use scenarios::{Order, Scenario};
use std::alloc::Global;

/// A job: its number, submit second, size, run time and requested time.
type Row = (u64, u64, u64, u64, u64);

/// A job's number, and the second at which it starts.
type Started = (u64, u64);

/// A worked log on ten processors, with its starts in order of starting.
#[derive(Clone, Copy)]
struct Worked {
    order: Order,
    jobs: &'static [Row],
    starts: &'static [Started],
}

/// Job 2 waits for job 1; job 3 ends before that, and job 4 takes the processors that job 2 leaves.
const FIRST: Row = (1, 0, 6, 100, 100);

const SECOND: Row = (2, 1, 8, 50, 50);

const THIRD: Row = (3, 2, 4, 90, 90);

const FOURTH: Row = (4, 3, 2, 500, 500);

/// Jobs 3 and 4 may be backfilled at second 2, but not both.
const LARGE: Row = (1, 0, 8, 100, 100);

const ALL: Row = (2, 1, 10, 30, 30);

const LONG: Row = (3, 2, 2, 80, 80);

const LAST: Row = (5, 50, 3, 5, 5);

const LOGS: [Worked; 9] = [
    Worked {
        order: Order::Arrival,
        jobs: &[FIRST, SECOND, THIRD, FOURTH],
        starts: &[(1, 0), (3, 2), (4, 92), (2, 100)],
    },
    // Job 3 ends exactly at the shadow time, 100, and then a second after it.
    Worked {
        order: Order::Arrival,
        jobs: &[FIRST, SECOND, (3, 2, 4, 98, 98), FOURTH],
        starts: &[(1, 0), (3, 2), (2, 100), (4, 100)],
    },
    Worked {
        order: Order::Arrival,
        jobs: &[FIRST, SECOND, (3, 2, 4, 99, 99), FOURTH],
        starts: &[(1, 0), (4, 3), (2, 100), (3, 150)],
    },
    // Two jobs end at the shadow time, so that five processors are left over.
    Worked {
        order: Order::Arrival,
        jobs: &[
            (1, 0, 4, 100, 100),
            (2, 0, 4, 100, 100),
            (3, 1, 5, 10, 10),
            (4, 2, 2, 500, 500),
        ],
        starts: &[(1, 0), (2, 0), (4, 2), (3, 100)],
    },
    // Job 1 is ended at its estimate, 40.
    Worked {
        order: Order::Arrival,
        jobs: &[(1, 0, 6, 100, 40), SECOND, THIRD, FOURTH],
        starts: &[(1, 0), (4, 3), (2, 40), (3, 90)],
    },
    // Job 4 takes the extra processors, so that none are left for job 5.
    Worked {
        order: Order::Arrival,
        jobs: &[FIRST, SECOND, THIRD, FOURTH, (5, 4, 2, 500, 500)],
        starts: &[(1, 0), (3, 2), (4, 92), (2, 100), (5, 150)],
    },
    Worked {
        order: Order::Arrival,
        jobs: &[LARGE, ALL, LONG, (4, 2, 2, 20, 20), LAST],
        starts: &[(1, 0), (3, 2), (2, 100), (4, 130), (5, 130)],
    },
    Worked {
        order: Order::Shortest,
        jobs: &[LARGE, ALL, LONG, (4, 2, 2, 20, 20), LAST],
        starts: &[(1, 0), (4, 2), (2, 100), (3, 130), (5, 130)],
    },
    // Of two jobs with one estimate the earlier one goes first.
    Worked {
        order: Order::Shortest,
        jobs: &[LARGE, ALL, LONG, (4, 2, 2, 80, 80), LAST],
        starts: &[(1, 0), (3, 2), (2, 100), (4, 130), (5, 130)],
    },
];

fn add_lines(log: &mut String, rows: &[Row]) -> Option<()> {
    for row in rows {
        let (number, submit, size, run, estimate) = *row;
        write!(
            log,
            "{number} {submit} -1 {run} -1 -1 -1 {size} {estimate} -1 1 7 -1 -1 -1 -1 -1 -1\n"
        )
        .ok()?;
    }
    Some(())
}

fn are_started(starts: &[Start], outcome: &[Started]) -> bool {
    if starts.len() != outcome.len() {
        return false;
    }
    for place in 0..starts.len() {
        if (starts[place].number, starts[place].at) != outcome[place] {
            return false;
        }
    }
    true
}

// Whether both programs agree on a worked log, and start its jobs so; none where memory is short.
fn is_right(alloc: Global, log: &Worked) -> Option<bool> {
    let scenario = Scenario::new(10, 1000)?.ordered(log.order);
    let mut text = String::new(alloc);
    add_lines(&mut text, log.jobs)?;
    let starts = agreed(alloc, text.as_bytes(), &scenario, 1)?;
    Some(are_started(starts.as_slice(), log.starts))
}

// Compares all worked logs, and writes how many are right: whether all are.
pub(crate) fn compare<R: AllocGlobal + Print>(rt: &R) -> bool {
    let (mut right, count) = (0usize, LOGS.len());
    for log in &LOGS {
        if let Some(true) = is_right(rt.alloc(), log) {
            right = right.wrapping_add(1);
        }
    }
    let is_answered = println!(rt;
        "worked logs: {right} of {count} right in both programs"
    ).is_ok();
    is_answered && right == count
}
