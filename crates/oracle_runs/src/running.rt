ghost use Rattle.std.specs.Prelude.{◌≡◌, ◌<◌};
ghost use Rattle.scenarios.specs.Placed.{expected_end, real_end};

use crate::job::PlainJob;
use std::marker::Model;

/// A job that runs, since a second.
#[derive(Clone, Copy, Debug)]
pub(crate) struct PlainRunning {
    pub(crate) job: PlainJob,
    pub(crate) start: u64,
}

impl Model for PlainRunning {
    ghost use Rattle.std.specs.Prelude.{◌<◌};
    ghost use Rattle.scenarios.specs.declared.placed.Placed.{Placed};

    ghost Value = { Placed };

    ghost view = { λ r. record { job = r.job; start = r.start } };

    ghost use Rattle.scenarios.specs.Limits.{seconds_end};

    ghost invariant = { λ r. r.start < seconds_end };

    ghost inverse = { λ r. record { job = r.job; start = r.start } };
}

impl PlainRunning {
    pub(crate) fn job(&self) -> &PlainJob
        ensures { result.now ≡ self.now.job }
    {
        &self.job
    }

    pub(crate) fn expected_end(&self) -> u64
        ensures { result ≡ expected_end self.now }
    {
        self.start + self.job.estimate()
    }

    pub(crate) fn end(&self) -> u64
        ensures { result ≡ real_end self.now }
    {
        self.start + self.job.length()
    }
}
