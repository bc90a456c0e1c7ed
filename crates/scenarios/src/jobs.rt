ghost use Rattle.std.specs.Prelude.{◌≡◌, ◌∷◌, [], MatchOption};
ghost use Rattle.std.specs.Iterator.{YieldsFirst, item_count};
ghost use Rattle.scenarios.specs.Plan.{jobs_of};

use crate::entry_job::effective;
use crate::job::Job;
use crate::scenario::Scenario;
use job_table::Cursor;
use std::alloc::Allocator;
use std::marker::Model;

/// The jobs of a plan from a second on, in the order of the log. It takes no memory.
#[derive(Drop)]
pub struct Jobs<'a, A: Allocator + Copy> {
    entries: Cursor<'a, A>,
    scenario: Scenario,
}

impl<'a, A: Allocator + Copy> Model for Jobs<'a, A> {
    ghost use Rattle.std.specs.Prelude.{List};
    ghost use Rattle.scenarios.specs.Job.{EffectiveJob};
    ghost use Rattle.scenarios.specs.Plan.{jobs_of};

    ghost Value = { List EffectiveJob };

    ghost view = { λ j. jobs_of j.entries j.scenario };
}

impl<'a, A: Allocator + Copy> Jobs<'a, A> {
    pub(crate) fn of(entries: Cursor<'a, A>, scenario: Scenario) -> Jobs<'a, A>
        ensures { result ≡ jobs_of entries.entry scenario }
    {
        Jobs { entries, scenario }
    }
}

impl<'a, A: Allocator + Copy> Iterator for Jobs<'a, A> {
    type Item = Job;

    ghost next_gives = { YieldsFirst (λ jobs. jobs) };

    ghost remaining = { item_count (λ jobs. jobs) };

    fn next(&mut self) -> Option<Job> {
        next_job(&mut self.entries, &self.scenario)
    }
}

fn next_job<A: Allocator + Copy>(entries: &mut Cursor<'_, A>, scenario: &Scenario) -> Option<Job>
    ensures { MatchOption result ((jobs_of entries.old scenario.now ≡ []) × (jobs_of entries.new scenario.now ≡ []))
        (λ job. jobs_of entries.old scenario.now ≡ job ∷ jobs_of entries.new scenario.now) }
{
    'entries: while let Some(entry) = entries.next() {
        let Ok(job) = effective(entry, scenario) else {
            continue;
        };
        return Some(job);
    }
    None
}
