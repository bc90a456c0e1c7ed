ghost use Rattle.std.specs.Prelude.{◌≡◌, ◌<◌};
ghost use Rattle.scenarios.specs.Limits.{seconds_end};
ghost use Rattle.checkpoints.specs.Schedule.{row_at};

use scenarios::Job;

/// A job's row in a schedule. Times are seconds, and the size is a number of processors.
#[derive(Clone, Copy, Debug, PartialEq, Eq)]
pub struct Row {
    /// The job number.
    pub number: u64,
    /// The second at which it is submitted.
    pub submit: u64,
    /// The second at which it starts.
    pub start: u64,
    /// The second at which it ends.
    pub end: u64,
    /// The processors that it takes.
    pub size: u64,
    /// The user, which may be negative.
    pub user: i64,
    /// Whether it is ended at its estimate, before its run is over.
    pub killed: bool,
}

impl Row {
    pub(crate) fn at(job: &Job, start: u64) -> Row
        requires { start < seconds_end }
        ensures { result ≡ row_at job.now start }
    {
        Row {
            number: job.number(),
            submit: job.submit(),
            start,
            end: start + job.length(),
            size: job.size(),
            user: job.user(),
            killed: job.killed(),
        }
    }
}
