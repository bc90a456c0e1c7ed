use scenarios::Job;
use std::marker::Model;
use waiting_places::Waits;

#[derive(Clone, Copy)]
pub(crate) struct Waiter {
    pub(crate) job: Job,
}

impl Model for Waiter {
    ghost use Rattle.scenarios.specs.Job.{EffectiveJob};

    ghost Value = { EffectiveJob };

    ghost view = { λ w. w.job };

    ghost inverse = { λ j. record { job = j } };
}

impl Waits for Waiter {
    ghost size = { λ w. w.size };

    ghost estimate = { λ w. w.estimate };

    fn size(&self) -> u64 {
        self.job.size()
    }

    fn estimate(&self) -> u64 {
        self.job.estimate()
    }
}
