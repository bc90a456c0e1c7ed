ghost use Rattle.std.specs.Prelude.{◌≡◌, ◌≤◌, IfSome};
ghost use Rattle.scenarios.specs.Job.{IsWithinLimits};
ghost use Rattle.scenarios.specs.Plan.{from_on, job_numbered};
ghost use Rattle.scenarios.specs.PlanView.{plan_in};
ghost use Rattle.scenarios.specs.Skips.{skips_of};
ghost use Rattle.scenarios.specs.SoundPlan.{IsPlan};

use crate::entry_job::effective;
use crate::job::Job;
use crate::jobs::Jobs;
use crate::scenario::{MAX_PROCS, Scenario};
use crate::skips::{Skips, skips_among};
use job_table::JobTable;
use std::alloc::Allocator;
use std::marker::Model;
use swf_text::ENTRY_LIMIT;

/// A plan, lent: a table under a scenario, by which its jobs are read.
#[derive(Drop)]
pub struct PlanRef<'a, A: Allocator + Copy> {
    table: &'a JobTable<A>,
    scenario: Scenario,
}

impl<'a, A: Allocator + Copy> Model for PlanRef<'a, A> {
    ghost use Rattle.scenarios.specs.PlanView.{PlanView, IsPlanned};

    ghost Value = { PlanView };

    ghost view = { λ p. record { log = p.table.now; scenario = p.scenario } };

    ghost invariant = { λ p. IsPlanned (record { log = p.table.now; scenario = p.scenario }) };
}

impl<'a, A: Allocator + Copy> PlanRef<'a, A> {
    /// The plan of a table under a scenario. It looks at no entry, and takes no memory.
    pub fn of(table: &'a JobTable<A>, scenario: Scenario) -> PlanRef<'a, A>
        ensures view { result ≡ record { log = table.now; scenario = scenario } }
        ensures sound { IsPlan (plan_in result) }
    {
        prove!(table.len() <= ENTRY_LIMIT);
        prove!(scenario.procs() <= MAX_PROCS);
        PlanRef { table, scenario }
    }

    /// The scenario.
    pub fn scenario(&self) -> Scenario
        ensures scenario { result ≡ self.now.scenario }
        ensures sound { IsPlan (plan_in self.now) }
    {
        self.scenario
    }

    /// The job of this number; None where it is not simulated. It looks the number up, and goes over
    /// no other entries.
    pub fn job(&self, number: u64) -> Option<Job>
        ensures job { result ≡ job_numbered (plan_in self.now).jobs number }
        ensures limits { IfSome result IsWithinLimits }
        ensures fits { IfSome result (λ job. job.size ≤ self.now.scenario.procs) }
        ensures sound { IsPlan (plan_in self.now) }
    {
        let entry = self.table.get(number)?;
        effective(entry, &self.scenario).ok()
    }

    /// The jobs that are submitted at a second or later, in the order of the log.
    pub fn from_second(&self, second: u64) -> Jobs<'a, A>
        ensures jobs { result ≡ from_on second (plan_in self.now).jobs }
        ensures sound { IsPlan (plan_in self.now) }
    {
        Jobs::of(self.table.from_second(second), self.scenario)
    }

    /// All jobs, in the order of the log.
    pub fn jobs(&self) -> Jobs<'a, A>
        ensures jobs { result ≡ (plan_in self.now).jobs }
        ensures sound { IsPlan (plan_in self.now) }
    {
        self.from_second(0)
    }

    /// How many entries of the table are skipped, by reason. It goes over all of them.
    pub fn skips(&self) -> Skips
        ensures { result ≡ skips_of self.now.log self.now.scenario }
    {
        skips_among(self.table.from_second(0), &self.scenario)
    }
}
