ghost use Rattle.std.specs.Prelude.{◌≡◌, ◌<◌};
ghost use Rattle.scenarios.specs.Limits.{seconds_end};
ghost use Rattle.scenarios.specs.Job.{IsWithinLimits};
ghost use Rattle.scenarios.specs.Placed.{expected_end, real_end};

use crate::job::Job;

/// Each second, of a start or of an end, is below this one.
pub const SECONDS_END: u64 = 1 << 49;

/// A job with the second at which it starts.
#[derive(Clone, Copy, Debug, PartialEq, Eq)]
pub struct Placed {
    /// The job, which holds its processors until it ends.
    pub job: Job,
    /// The second at which it starts.
    pub start: u64,
}

impl Placed {
    /// The second at which it ends: its start and its length.
    pub fn end(&self) -> u64
        requires { self.now.start < seconds_end }
        ensures value { result ≡ real_end self.now }
        ensures limits { IsWithinLimits self.now.job }
    {
        self.start + self.job.length()
    }

    /// The second by which it has surely ended: its start and its estimate.
    pub fn expected_end(&self) -> u64
        requires { self.now.start < seconds_end }
        ensures value { result ≡ expected_end self.now }
        ensures limits { IsWithinLimits self.now.job }
    {
        self.start + self.job.estimate()
    }
}
