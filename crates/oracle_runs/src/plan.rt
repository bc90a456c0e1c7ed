ghost use Rattle.std.specs.Prelude.{◌≡◌, ℕ, ◌≤◌, IfOk, IfSome, All, count_by, nat_eq};
ghost use Rattle.std.specs.Result.{result_ok};
ghost use Rattle.swf_text.specs.Entry.{HasNumber, has_number};
ghost use Rattle.swf_text.specs.Log.{log_of};
ghost use Rattle.scenarios.specs.Job.{IsWithinLimits};
ghost use Rattle.scenarios.specs.Effective.{effective};
ghost use Rattle.scenarios.specs.Plan.{jobs_of, plan_of};

use crate::entry_job::effective;
use crate::job::PlainJob;
use scenarios::{MAX_PROCS, Order, Scenario};
use std::alloc::Allocator;
use std::marker::Model;
use swf_text::{Entry, Memory, SwfText};

/// The jobs of a log under a scenario, in the order of the log: by submit second, and of one second
/// by job number.
#[derive(Drop)]
pub struct LogPlan<A: Allocator + Copy> {
    scenario: Scenario,
    jobs: Vec<PlainJob, A>,
}

impl<A: Allocator + Copy> Model for LogPlan<A> {
    ghost use Rattle.scenarios.specs.Plan.{Plan};
    ghost use Rattle.scenarios.specs.SoundPlan.{IsPlan};

    ghost Value = { Plan };

    ghost view = { λ p. record { procs = p.scenario.procs; order = p.scenario.order; jobs = p.jobs.items } };

    ghost invariant = { λ p. IsPlan (record { procs = p.scenario.procs; order = p.scenario.order; jobs = p.jobs.items }) };
}

fn job_of<A: Allocator + Copy>(entry: &Entry<A>, scenario: &Scenario) -> Option<PlainJob>
    ensures job { result ≡ result_ok (effective entry.now scenario.now) }
    ensures limits { IfSome result IsWithinLimits }
    ensures numbered { IfSome result (λ job. HasNumber entry.now.main job.number) }
{
    let job = effective(entry, scenario).ok()?;
    prove!(job.number() == entry.number());
    Some(job)
}

fn jobs_of<A: Allocator + Copy>(
    alloc: A,
    entries: &[Entry<A>],
    scenario: &Scenario,
) -> Result<Vec<PlainJob, A>, Memory>
    ensures jobs { IfOk result (λ jobs. jobs.items ≡ jobs_of entries.now scenario.now) }
    ensures limits { IfOk result (λ jobs. All IsWithinLimits jobs.items) }
    ensures numbered { IfOk result (λ jobs. (n : ℕ) → count_by (λ j. nat_eq j.number n) jobs.items ≤ count_by (has_number n) entries.now) }
{
    let mut jobs = Vec::new(alloc);
    for entry in entries {
        if let Some(job) = job_of(entry, scenario) {
            jobs.push(job)?;
        }
    }
    Ok(jobs)
}

impl<A: Allocator + Copy> LogPlan<A> {
    ghost use Rattle.scenarios.specs.SoundPlan.{IsPlan};

    /// The plan of a log under a scenario: the jobs of its entries that are not skipped, by submit
    /// second and job number.
    pub fn of(alloc: A, text: &SwfText<A>, scenario: &Scenario) -> Result<LogPlan<A>, Memory>
        ensures { IfOk result (λ plan. plan ≡ plan_of (log_of text.now.entries) scenario.now) }
    {
        prove!(scenario.procs() <= MAX_PROCS);
        let mut jobs = jobs_of(alloc, text.entries(), scenario)?;
        jobs.sort_by_key(|job| (job.submit(), job.number()))?;
        Ok(LogPlan {
            scenario: *scenario,
            jobs,
        })
    }

    /// The jobs, by submit second, and of one second by job number.
    pub fn jobs(&self) -> &[PlainJob]
        ensures jobs { result.now ≡ self.now.jobs }
        ensures plan { IsPlan self.now }
    {
        self.jobs.as_slice()
    }

    /// The machine's processors.
    pub fn procs(&self) -> u64
        ensures procs { result ≡ self.now.procs }
        ensures plan { IsPlan self.now }
    {
        self.scenario.procs()
    }

    /// The order of backfills.
    pub fn order(&self) -> Order
        ensures { result ≡ self.now.order }
    {
        self.scenario.order()
    }

    pub(crate) fn scenario(&self) -> &Scenario
        ensures procs { result.now.procs ≡ self.now.procs }
        ensures order { result.now.order ≡ self.now.order }
    {
        &self.scenario
    }
}
