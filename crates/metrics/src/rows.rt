//! The numbers of tables.

ghost use Rattle.std.specs.Prelude.{◌≡◌, ◌*◌, ◌<◌, ◌^◌};
ghost use Rattle.metrics.specs.Tables.{ratio, utilization, span_of, overall_of, user_row_of, day_row_of};

use crate::days::DAY;
use crate::totals::Totals;
use crate::users::UserSums;
use scenarios::Skips;

/// The numbers over all jobs: means of wait, length (seconds) and bounded slowdown (thousandths), cut
/// down; processor-seconds; the makespan, in seconds from the least submission to the greatest end; and
/// the utilization over it, in 100,000ths. With no jobs all but the skips are 0.
#[derive(Clone, Copy, Debug, PartialEq, Eq)]
pub struct Overall {
    pub jobs: u64,
    pub killed: u64,
    pub skips: Skips,
    pub wait: u128,
    pub greatest_wait: u64,
    pub length: u128,
    pub slowdown: u128,
    pub busy: u128,
    pub span: u64,
    pub utilization: u128,
}

/// A user's jobs, means of wait (seconds) and bounded slowdown (thousandths), cut down, and
/// processor-seconds.
#[derive(Clone, Copy, Debug, PartialEq, Eq)]
pub struct UserRow {
    pub user: i64,
    pub jobs: u64,
    pub wait: u128,
    pub slowdown: u128,
    pub busy: u128,
}

/// A day's processor-seconds, and their part of what the machine has, in 100,000ths. Day 0 holds
/// the seconds before 86,400.
#[derive(Clone, Copy, Debug, PartialEq, Eq)]
pub struct DayRow {
    pub day: u64,
    pub busy: u128,
    pub utilization: u128,
}

fn divide(n: u128, d: u128) -> u128
    ensures { result ≡ ratio n d }
{
    n.checked_div(d).unwrap_or(0)
}

fn utilization(busy: u128, procs: u64, seconds: u64) -> u128
    requires busy { busy < 2 ^ 100 }
    ensures { result ≡ utilization busy procs seconds }
{
    divide(busy * 100_000, u128::from(procs) * u128::from(seconds))
}

fn span(totals: &Totals) -> u64
    ensures { result ≡ span_of totals.now }
{
    let from = totals.least_submit.unwrap_or(0);
    totals.greatest_end.unwrap_or(0).saturating_sub(from)
}

pub(crate) fn over_all(procs: u64, skips: Skips, totals: &Totals) -> Overall
    requires { totals.now.busy < 2 ^ 100 }
    ensures { result ≡ overall_of procs skips totals.now }
{
    let count = u128::from(totals.count);
    let span = span(totals);
    Overall {
        jobs: totals.count,
        killed: totals.killed,
        skips,
        wait: divide(totals.wait, count),
        greatest_wait: totals.greatest_wait,
        length: divide(totals.length, count),
        slowdown: divide(totals.slowdown, count),
        busy: totals.busy,
        span,
        utilization: utilization(totals.busy, procs, span),
    }
}

pub(crate) fn user_row(user: i64, sums: &UserSums) -> UserRow
    ensures { result ≡ user_row_of (user, sums.now) }
{
    let count = u128::from(sums.count);
    UserRow {
        user,
        jobs: sums.count,
        wait: divide(sums.wait, count),
        slowdown: divide(sums.slowdown, count),
        busy: sums.busy,
    }
}

pub(crate) fn day_row(procs: u64, day: u64, busy: u128) -> DayRow
    requires { busy < 2 ^ 100 }
    ensures { result ≡ day_row_of procs (day, busy) }
{
    DayRow {
        day,
        busy,
        utilization: utilization(busy, procs, DAY),
    }
}
