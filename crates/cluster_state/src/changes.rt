//! How a cluster changes: jobs arrive, start and end.
ghost use Rattle.std.specs.Prelude.{◌≡◌, ◌<◌, ◌≤◌, ◌+◌, ◌↔◌, OnOk, OnErr, IfNone, IfSome, IsOk, IsTrue, Some, drop, count_by, nat_eq, slice_get};
ghost use Rattle.scenarios.specs.Limits.{seconds_end};
ghost use Rattle.waiting_places.specs.Places.{at_place, waiting};
ghost use Rattle.cluster_state.specs.State.{arrived, after_start, started, free, ended_until, holders, CanArrive, CanStart};
ghost use Rattle.cluster_state.specs.Candidates.{CanStartAt};

use crate::by_end::RunningByEnd;
use crate::cluster::Cluster;
use crate::waiting::Waiting;
use scenarios::{Job, Placed};
use std::alloc::Allocator;
use swf_text::Memory;

impl<A: Allocator + Copy> Cluster<A> {
    /// Whether a job may join the queue: no job of its number waits or runs, and it is not larger
    /// than the machine.
    pub fn can_arrive(&self, job: &Job) -> bool
        ensures { IsTrue result ↔ CanArrive self.now.state job.now }
    {
        is_absent(self.queue.jobs(), self.running.by_end(), job.number())
            && job.size() <= self.procs
    }

    /// A job joins the queue, at its end.
    ///
    /// Memory where a growth was refused; the state is then as it was.
    pub fn arrive(&mut self, job: Job) -> Result<(), Memory>
        requires absent { holders self.old.state job.number ≡ 0 }
        requires fits { job.size ≤ self.old.state.procs }
        ensures ok { OnOk result (self.new.state ≡ arrived self.old.state job) }
        ensures err { OnErr result (self.new.state ≡ self.old.state) }
        ensures spare { self.new.spare ≡ self.old.spare }
    {
        self.queue.push(job)?;
        Ok(())
    }

    /// A job that arrives starts at second `now`, and doesn't join the queue before: the state is that
    /// after its arrival and its start. It takes no memory.
    pub fn start_arriving(&mut self, job: Job, now: u64)
        requires absent { holders self.old.state job.number ≡ 0 }
        requires fits { job.size ≤ free self.old.state }
        requires capacity { 1 ≤ self.old.spare }
        requires now { now < seconds_end }
        ensures state { self.new.state ≡ started (arrived self.old.state job) job now }
        ensures places { self.new.places ≡ self.old.places }
        ensures spare { self.old.spare ≤ self.new.spare + 1 }
    {
        let taken = job.size();
        self.running.join(Placed { job, start: now });
        self.free -= taken;
    }

    /// How many starts surely find capacity. Each start takes up one at most, and nothing else takes any.
    pub fn spare_starts(&self) -> usize
        ensures { result ≡ self.now.spare }
    {
        self.running.spare()
    }

    /// Reserves capacity for so many starts. Where there is capacity for them it takes no memory.
    ///
    /// Memory where a growth was refused; the capacity may then be greater than it was, too.
    pub fn reserve_starts(&mut self, count: usize) -> Result<(), Memory>
        ensures state { self.new.state ≡ self.old.state }
        ensures places { self.new.places ≡ self.old.places }
        ensures ok { OnOk result (count ≤ self.new.spare) }
        ensures kept { self.old.spare ≤ self.new.spare }
        ensures capacity { count ≤ self.old.spare → IsOk result }
    {
        self.running.reserve(count)
    }

    /// Whether a job of this number waits and fits into the free processors.
    pub fn can_start(&self, number: u64) -> bool
        ensures { IsTrue result ↔ CanStart self.now.state number }
    {
        match self.queue.find(number) {
            None => false,
            Some(job) => job.size() <= self.free,
        }
    }

    /// The waiting job of this number starts at second `now`.
    ///
    /// With capacity for a start it takes no memory. Memory where a growth was refused; the state is then
    /// as it was.
    pub fn start(&mut self, number: u64, now: u64) -> Result<(), Memory>
        requires fits { CanStart self.old.state number }
        requires now { now < seconds_end }
        ensures ok { OnOk result (self.new.state ≡ after_start self.old.state number now) }
        ensures err { OnErr result (self.new.state ≡ self.old.state) }
        ensures capacity { 1 ≤ self.old.spare → IsOk result }
        ensures spare { self.old.spare ≤ self.new.spare + 1 }
    {
        let Some(job) = self.queue.find(number) else {
            unreachable!()
        };
        self.running.reserve(1)?;
        let r = Placed { job, start: now };
        self.running.join(r);
        self.queue.remove(number);
        self.free -= job.size();
        Ok(())
    }

    /// The first waiting job starts at second `now` where it fits into the free processors: which one it
    /// is. None where nobody waits or it does not fit; then nothing has changed. It takes no memory.
    pub fn start_head(&mut self, now: u64) -> Option<Job>
        requires capacity { 1 ≤ self.old.spare }
        requires now { now < seconds_end }
        ensures none { IfNone result (self.new ≡ self.old) }
        ensures waits { IfNone result (IfSome (slice_get self.old.state.waiting 0) (λ head. free self.old.state < head.size)) }
        ensures head { IfSome result (λ head. slice_get self.old.state.waiting 0 ≡ Some head) }
        ensures fits { IfSome result (λ head. head.size ≤ free self.old.state) }
        ensures state { IfSome result (λ head. self.new.state ≡ started self.old.state head now) }
        ensures spare { self.old.spare ≤ self.new.spare + 1 }
    {
        let head = *self.waiting_at(0)?;
        if self.free < head.size() {
            return None;
        }
        let r = Placed {
            job: head,
            start: now,
        };
        self.running.join(r);
        self.queue.take_head();
        self.free -= head.size();
        Some(head)
    }

    /// The job at this place of the candidates starts at second `now`: the place from which on those
    /// behind it stand in the candidates then. It takes no memory.
    ///
    /// In order of arrival its place is left empty; by estimate the candidates close up.
    pub fn start_at(&mut self, place: usize, now: u64) -> usize
        requires fits { CanStartAt self.old place }
        requires capacity { 1 ≤ self.old.spare }
        requires now { now < seconds_end }
        ensures state { IfSome (at_place self.old.places place) (λ job. self.new.state ≡ started self.old.state job now) }
        ensures rest { waiting (drop result self.new.places) ≡ waiting (drop (place + 1) self.old.places) }
        ensures spare { self.old.spare ≤ self.new.spare + 1 }
    {
        let Some(candidate) = self.queue.get(place).copied() else {
            unreachable!()
        };
        let r = Placed {
            job: candidate,
            start: now,
        };
        self.running.join(r);
        self.free -= candidate.size();
        self.queue.take_at(place)
    }

    /// The jobs that end by second `t` leave.
    pub fn finish_until(&mut self, t: u64)
        ensures state { self.new.state ≡ ended_until self.old.state t }
        ensures spare { self.old.spare ≤ self.new.spare }
    {
        let freed = self.running.drop_until(t);
        self.free += freed;
    }
}

fn runs<A: Allocator + Copy>(running: RunningByEnd<'_, A>, number: u64) -> bool
    ensures { IsTrue result ↔ (1 ≤ count_by (λ r. nat_eq r.job.number number) running.entry) }
{
    for r in running {
        if r.job.number() == number {
            return true;
        }
    }
    false
}

fn waits(waiting: Waiting<'_>, number: u64) -> bool
    ensures { IsTrue result ↔ (1 ≤ count_by (λ j. nat_eq j.number number) waiting.entry) }
{
    for job in waiting {
        if job.number() == number {
            return true;
        }
    }
    false
}

fn is_absent<A: Allocator + Copy>(
    waiting: Waiting<'_>,
    running: RunningByEnd<'_, A>,
    number: u64,
) -> bool
    ensures { IsTrue result
        ↔ (count_by (λ j. nat_eq j.number number) waiting.entry
        + count_by (λ r. nat_eq r.job.number number) running.entry ≡ 0) }
{
    !waits(waiting, number) && !runs(running, number)
}
