//! Sums over all jobs.

ghost use Rattle.std.specs.Prelude.{◌≡◌, ◌+◌, ◌<◌};
ghost use Rattle.metrics.specs.Totals.{earlier_of, later_of, no_totals, totals, totals_alone, joined, FitsJoined};
ghost use Rattle.metrics.specs.Placed.{CanStart, CanSum, IsPlaced};
ghost use Rattle.metrics.specs.Part.{AreJobs};

use crate::measures;
use scenarios::Placed;

/// Sums over all jobs: seconds of waiting and running, bounded slowdowns in thousandths, and
/// processor-seconds.
#[derive(Clone, Copy, Debug, PartialEq, Eq)]
pub struct Totals {
    pub count: u64,
    pub killed: u64,
    pub wait: u128,
    pub length: u128,
    pub slowdown: u128,
    pub busy: u128,
    pub greatest_wait: u64,
    pub least_submit: Option<u64>,
    pub greatest_end: Option<u64>,
}

fn earlier(a: Option<u64>, b: Option<u64>) -> Option<u64>
    ensures { result ≡ earlier_of a b }
{
    match (a, b) {
        (Some(a), Some(b)) => Some(a.min(b)),
        (Some(a), None) => Some(a),
        (None, b) => b,
    }
}

fn later(a: Option<u64>, b: Option<u64>) -> Option<u64>
    ensures { result ≡ later_of a b }
{
    match (a, b) {
        (Some(a), Some(b)) => Some(a.max(b)),
        (Some(a), None) => Some(a),
        (None, b) => b,
    }
}

impl Totals {
    pub(crate) fn none() -> Totals
        ensures { result ≡ no_totals }
    {
        Totals {
            count: 0,
            killed: 0,
            wait: 0,
            length: 0,
            slowdown: 0,
            busy: 0,
            greatest_wait: 0,
            least_submit: None,
            greatest_end: None,
        }
    }

    pub(crate) fn of_jobs(placed: &[Placed]) -> Totals
        requires { CanSum placed.now }
        ensures value { result ≡ totals placed.now }
        ensures limits { AreJobs placed.now }
    {
        let mut sums = Totals::none();
        for each in placed {
            sums = sums.plus(&Totals::of_job(each));
        }
        sums
    }

    fn of_job(placed: &Placed) -> Totals
        requires { CanStart placed.now }
        ensures value { result ≡ totals_alone placed.now }
        ensures limits { IsPlaced placed.now }
    {
        Totals {
            count: 1,
            killed: u64::from(placed.job.killed()),
            wait: u128::from(measures::wait(placed)),
            length: u128::from(placed.job.length()),
            slowdown: u128::from(measures::slowdown(placed)),
            busy: u128::from(measures::busy(placed)),
            greatest_wait: measures::wait(placed),
            least_submit: Some(placed.job.submit()),
            greatest_end: Some(placed.end()),
        }
    }

    pub(crate) fn plus(&self, other: &Totals) -> Totals
        requires { FitsJoined self.now other.now }
        ensures { result ≡ joined self.now other.now }
    {
        Totals {
            count: self.count + other.count,
            killed: self.killed + other.killed,
            wait: self.wait + other.wait,
            length: self.length + other.length,
            slowdown: self.slowdown + other.slowdown,
            busy: self.busy + other.busy,
            greatest_wait: self.greatest_wait.max(other.greatest_wait),
            least_submit: earlier(self.least_submit, other.least_submit),
            greatest_end: later(self.greatest_end, other.greatest_end),
        }
    }
}
