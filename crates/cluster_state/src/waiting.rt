ghost use Rattle.std.specs.Prelude.{◌≡◌};
ghost use Rattle.std.specs.Iterator.{YieldsFirstRef, item_count};

use crate::waiter::Waiter;
use scenarios::Job;
use std::marker::Model;

/// Waiting jobs, in order of arrival.
#[derive(Drop)]
pub struct Waiting<'a> {
    waiters: waiting_places::Waiting<'a, Waiter>,
}

impl<'a> Model for Waiting<'a> {
    ghost use Rattle.std.specs.Prelude.{List};
    ghost use Rattle.scenarios.specs.Job.{EffectiveJob};

    ghost Value = { List EffectiveJob };

    ghost view = { λ w. w.waiters };
}

impl<'a> Waiting<'a> {
    pub(crate) fn of(waiters: waiting_places::Waiting<'a, Waiter>) -> Waiting<'a>
        ensures { result ≡ waiters.entry }
    {
        Waiting { waiters }
    }
}

impl<'a> Iterator for Waiting<'a> {
    type Item = &'a Job;

    ghost next_gives = { YieldsFirstRef (λ w. w) };

    ghost remaining = { item_count (λ w. w) };

    fn next(&mut self) -> Option<&'a Job> {
        let waiter = self.waiters.next()?;
        Some(&waiter.job)
    }
}
