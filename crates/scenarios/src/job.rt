ghost use Rattle.std.specs.Prelude.{◌≡◌};
ghost use Rattle.scenarios.specs.Job.{IsWithinLimits};

use std::marker::Model;

/// A job as the simulation sees it: an entry of a log under a scenario.
///
/// Times are whole seconds. A job takes `size` processors from its start on. It is expected to run
/// for `estimate` seconds and runs for `length`, which is at most its estimate.
#[derive(Clone, Copy, Debug, PartialEq, Eq)]
pub struct Job {
    pub(crate) number: u64,
    pub(crate) submit: u64,
    pub(crate) user: i64,
    pub(crate) size: u32,
    pub(crate) estimate: u32,
    pub(crate) length: u32,
    pub(crate) killed: bool,
}

impl Model for Job {
    ghost use Rattle.scenarios.specs.Job.{EffectiveJob, IsWithinLimits};

    ghost Value = { EffectiveJob };

    ghost view = { λ j. record { number = j.number; submit = j.submit; size = j.size; estimate = j.estimate; length = j.length; user = j.user; killed = j.killed } };

    ghost invariant = { λ j. IsWithinLimits (record { number = j.number; submit = j.submit; size = j.size; estimate = j.estimate; length = j.length; user = j.user; killed = j.killed }) };

    ghost inverse = { λ j. record { number = j.number; submit = j.submit; user = j.user; size = j.size; estimate = j.estimate; length = j.length; killed = j.killed } };
}

impl Job {
    /// The job number, at most 1,000,000,000,000.
    pub fn number(&self) -> u64
        ensures value { result ≡ self.now.number }
        ensures limits { IsWithinLimits self.now }
    {
        self.number
    }

    /// The second at which it is submitted.
    pub fn submit(&self) -> u64
        ensures value { result ≡ self.now.submit }
        ensures limits { IsWithinLimits self.now }
    {
        self.submit
    }

    /// The processors that it takes.
    pub fn size(&self) -> u64
        ensures value { result ≡ self.now.size }
        ensures limits { IsWithinLimits self.now }
    {
        u64::from(self.size)
    }

    /// The seconds that it is expected to run.
    pub fn estimate(&self) -> u64
        ensures value { result ≡ self.now.estimate }
        ensures limits { IsWithinLimits self.now }
    {
        u64::from(self.estimate)
    }

    /// The seconds that it runs.
    pub fn length(&self) -> u64
        ensures value { result ≡ self.now.length }
        ensures limits { IsWithinLimits self.now }
    {
        u64::from(self.length)
    }

    /// The user, which may be negative.
    pub fn user(&self) -> i64
        ensures { result ≡ self.now.user }
    {
        self.user
    }

    /// Whether it is ended at its estimate, before its run is over.
    pub fn killed(&self) -> bool
        ensures { result ≡ self.now.killed }
    {
        self.killed
    }
}
