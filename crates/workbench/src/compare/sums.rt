use crate::compare::compared::Placed;
use crate::compare::logs::USERS;
use checkpoints::{Row, Run};
use metrics::{DayRow, Overall, Skips, UserRow};
use oracle_runs::effective;
use scenarios::{Scenario, Skip};
use std::alloc::Global;
use swf_text::SwfText;

/// The seconds of a day.
const DAY: u64 = 86_400;

fn end(placed: &Placed) -> u64 {
    placed.1.wrapping_add(placed.0.length())
}

fn wait(placed: &Placed) -> u64 {
    placed.1.wrapping_sub(placed.0.submit())
}

fn slowdown(placed: &Placed) -> u64 {
    let length = placed.0.length();
    let turnaround = wait(placed).wrapping_add(length);
    (turnaround.wrapping_mul(1000) / length.max(10)).max(1000)
}

fn busy(placed: &Placed) -> u64 {
    placed.0.size().wrapping_mul(placed.0.length())
}

fn busy_in(placed: &Placed, day: u64) -> u64 {
    let mut taken = 0u64;
    for second in placed.1..end(placed) {
        if second / DAY == day {
            taken = taken.wrapping_add(placed.0.size());
        }
    }
    taken
}

// The quotient, cut down; 0 of none.
fn mean(sum: u64, jobs: u64) -> u128 {
    match sum.checked_div(jobs) {
        Some(mean) => u128::from(mean),
        None => 0,
    }
}

fn skips(text: &SwfText<Global>, scenario: &Scenario) -> Skips {
    let (mut size, mut run, mut large, mut long) = (0u64, 0u64, 0u64, 0u64);
    for entry in text.entries() {
        match effective(entry, scenario) {
            Ok(_) => {}
            Err(Skip::NoSize) => size = size.wrapping_add(1),
            Err(Skip::NoRun) => run = run.wrapping_add(1),
            Err(Skip::TooLarge) => large = large.wrapping_add(1),
            Err(Skip::TooLong) => long = long.wrapping_add(1),
        }
    }
    Skips {
        size,
        run,
        large,
        long,
    }
}

fn overall(skips: Skips, procs: u64, jobs: &[Placed]) -> Overall {
    let count = jobs.len() as u64;
    let (mut killed, mut first, mut last) = (0u64, u64::MAX, 0u64);
    let (mut waits, mut greatest_wait, mut lengths) = (0u64, 0u64, 0u64);
    let (mut slowdowns, mut taken) = (0u64, 0u64);
    for placed in jobs {
        killed = killed.wrapping_add(u64::from(placed.0.killed()));
        first = first.min(placed.0.submit());
        last = last.max(end(placed));
        waits = waits.wrapping_add(wait(placed));
        greatest_wait = greatest_wait.max(wait(placed));
        lengths = lengths.wrapping_add(placed.0.length());
        slowdowns = slowdowns.wrapping_add(slowdown(placed));
        taken = taken.wrapping_add(busy(placed));
    }
    let span = last.saturating_sub(first);
    Overall {
        jobs: count,
        killed,
        skips,
        wait: mean(waits, count),
        greatest_wait,
        length: mean(lengths, count),
        slowdown: mean(slowdowns, count),
        busy: u128::from(taken),
        span,
        utilization: mean(taken.wrapping_mul(100_000), procs.wrapping_mul(span)),
    }
}

fn user_row(user: i64, jobs: &[Placed]) -> UserRow {
    let (mut count, mut waits, mut slowdowns, mut taken) = (0u64, 0u64, 0u64, 0u64);
    for placed in jobs {
        if placed.0.user() == user {
            count = count.wrapping_add(1);
            waits = waits.wrapping_add(wait(placed));
            slowdowns = slowdowns.wrapping_add(slowdown(placed));
            taken = taken.wrapping_add(busy(placed));
        }
    }
    UserRow {
        user,
        jobs: count,
        wait: mean(waits, count),
        slowdown: mean(slowdowns, count),
        busy: u128::from(taken),
    }
}

fn are_users(rows: &[UserRow], jobs: &[Placed]) -> bool {
    let mut place = 0usize;
    for user in &USERS {
        let row = user_row(*user, jobs);
        if row.jobs > 0 {
            if rows.get(place) != Some(&row) {
                return false;
            }
            place = place.wrapping_add(1);
        }
    }
    place == rows.len()
}

// The row of a day, of a machine with so many processor-seconds a day.
fn day_row(day: u64, capacity: u64, jobs: &[Placed]) -> DayRow {
    let mut taken = 0u64;
    for placed in jobs {
        taken = taken.wrapping_add(busy_in(placed, day));
    }
    DayRow {
        day,
        busy: u128::from(taken),
        utilization: mean(taken.wrapping_mul(100_000), capacity.max(1)),
    }
}

// Whether these are the rows of all days in which a processor-second is taken.
fn are_days(rows: &[DayRow], capacity: u64, jobs: &[Placed]) -> bool {
    let mut place = 0usize;
    for day in 0..3 {
        let row = day_row(day, capacity, jobs);
        if row.busy > 0 {
            if rows.get(place) != Some(&row) {
                return false;
            }
            place = place.wrapping_add(1);
        }
    }
    place == rows.len()
}

fn has_days(run: &Run<Global>, capacity: u64, jobs: &[Placed]) -> bool {
    match run.tables().days() {
        Ok(rows) => are_days(rows.as_slice(), capacity, jobs),
        Err(_) => false,
    }
}

fn is_placed(row: &Row, placed: &Placed) -> bool {
    row.number == placed.0.number() && row.start == placed.1 && row.end == end(placed)
}

fn are_placed(rows: &[Row], jobs: &[Placed]) -> bool {
    if rows.len() != jobs.len() {
        return false;
    }
    for place in 0..rows.len() {
        if !is_placed(&rows[place], &jobs[place]) {
            return false;
        }
    }
    true
}

fn finds_starts(run: &Run<Global>, jobs: &[Placed]) -> bool {
    for placed in jobs {
        if run.start_of(placed.0.number()) != Some(placed.1) {
            return false;
        }
    }
    true
}

fn has_rows(run: &Run<Global>, jobs: &[Placed]) -> bool {
    match run.schedule() {
        Ok(rows) => are_placed(rows.as_slice(), jobs),
        Err(_) => false,
    }
}

// Whether a run of a log has these jobs with these starts, and tables that are plain sums over them.
pub(crate) fn are_plain_sums(text: &SwfText<Global>, run: &Run<Global>, jobs: &[Placed]) -> bool {
    let scenario = run.scenario();
    let procs = scenario.procs();
    has_rows(run, jobs)
        && finds_starts(run, jobs)
        && run.tables().overall() == overall(skips(text, &scenario), procs, jobs)
        && are_users(run.tables().users(), jobs)
        && has_days(run, procs.wrapping_mul(DAY), jobs)
}
