ghost use Rattle.std.specs.Prelude.{◌≡◌, ◌≤◌, ◌↔◌, ℕ, IfOk, IsTrue, map, count_by, nat_eq};
ghost use Rattle.std.specs.Arc.{arc_value};
ghost use Rattle.frames.specs.Frames.{standing_at};
ghost use Rattle.scenarios.specs.Job.{EffectiveJob};
ghost use Rattle.cluster_state.specs.Snapshot.{number_of, NumbersRise, Fits, IsSnapshot, standing, standing_there};
ghost use Rattle.cluster_state.specs.Ends.{by_end, by_number};
ghost use Rattle.scenarios.specs.PlanView.{plan_in};

use crate::lookup::{can_run, have_jobs};
use crate::queue::Queue;
use crate::running_set::RunningSet;
use frames::{Frame, Keyed, Same, Standing};
use scenarios::PlanRef;
use std::alloc::Allocator;
use std::marker::Model;
use std::sync::Arc;
use swf_text::Memory;

/// The number of a running job.
#[derive(Clone, Copy, Debug, PartialEq, Eq)]
pub struct RunningNumber {
    /// The job number.
    pub number: u64,
    /// The second at which it started.
    pub start: u64,
}

/// Found, and put in order, by its number.
impl Keyed for RunningNumber {
    ghost key = { λ r. r.number };

    fn key(&self) -> u64 {
        self.number
    }
}

impl Same for RunningNumber {
    fn is(&self, other: &RunningNumber) -> bool {
        *self == *other
    }
}

/// Who waits and who runs, by number: a state as a log can tell it again. The numbers stand at a place
/// of two frames, which other snapshots may share.
///
/// No number stands twice.
#[derive(Drop)]
pub struct Snapshot<A: Allocator + Copy> {
    waiting: Arc<Frame<u64, A>, A>,
    running: Arc<Frame<RunningNumber, A>, A>,
    place: u32,
}

impl<A: Allocator + Copy> Model for Snapshot<A> {
    ghost use Rattle.std.specs.Arc.{arc_value};
    ghost use Rattle.cluster_state.specs.Snapshot.{Numbers, IsSnapshot, standing_there};

    ghost Value = { Numbers };

    ghost view = { λ s. standing_there s.place (arc_value s.waiting) (arc_value s.running) };

    ghost invariant = { λ s. IsSnapshot (standing_there s.place (arc_value s.waiting) (arc_value s.running)) };
}

impl<A: Allocator + Copy> Snapshot<A> {
    /// The numbers that stand at a place of two frames, those of the waiting jobs and those of the
    /// running ones. It shares the frames; Memory where 2^63 share one already.
    pub fn at(
        waiting: &Arc<Frame<u64, A>, A>,
        running: &Arc<Frame<RunningNumber, A>, A>,
        place: u32,
    ) -> Result<Snapshot<A>, Memory>
        requires { IsSnapshot (standing_there place (arc_value waiting.now) (arc_value running.now)) }
        ensures { IfOk result (λ s. s ≡ standing_there place (arc_value waiting.now) (arc_value running.now)) }
    {
        let waiting = Arc::try_clone(waiting)?;
        let running = Arc::try_clone(running)?;
        Ok(Snapshot {
            waiting,
            running,
            place,
        })
    }

    pub(crate) fn of(
        alloc: A,
        queue: &Queue<A>,
        running: Vec<RunningNumber, A>,
    ) -> Result<Snapshot<A>, Memory>
        requires { IsSnapshot (record { waiting = map (λ (j : EffectiveJob). j.number) queue.now.jobs; running = running.items }) }
        ensures { IfOk result (λ s. s ≡ record { waiting = map (λ (j : EffectiveJob). j.number) queue.now.jobs; running = running.items }) }
    {
        let waiting = numbers_of(alloc, queue)?;
        let waiting = shared(alloc, waiting.as_slice())?;
        let running = shared(alloc, running.as_slice())?;
        Ok(Snapshot {
            waiting,
            running,
            place: 0,
        })
    }

    /// The numbers of the waiting jobs, in order of arrival.
    pub fn waiting(&self) -> Standing<'_, u64>
        ensures numbers { result ≡ self.now.waiting }
        ensures sound { IsSnapshot self.now }
    {
        self.waiting.at(self.place)
    }

    /// The numbers of the running jobs with their starts, rising by number.
    pub fn running(&self) -> Standing<'_, RunningNumber>
        ensures numbers { result ≡ self.now.running }
        ensures sound { IsSnapshot self.now }
    {
        self.running.at(self.place)
    }

    /// Whether the same numbers wait, in the same order, and the same ones run since the same
    /// seconds.
    pub fn same(&self, other: &Snapshot<A>) -> bool
        ensures { IsTrue result ↔ (self.now ≡ other.now) }
    {
        are_same(self.waiting(), other.waiting()) && are_same(self.running(), other.running())
    }

    /// Whether this number waits or runs there.
    pub fn holds(&self, number: u64) -> bool
        ensures { IsTrue result ↔ (1 ≤ standing self.now number) }
    {
        self.waiting.holds(self.place, number) || self.running.holds(self.place, number)
    }

    /// Whether each number has a job in this plan, and the running ones together are within its machine.
    pub fn fits(&self, plan: &PlanRef<'_, A>) -> bool
        ensures { IsTrue result ↔ Fits self.now (plan_in plan.now) }
    {
        have_jobs(self.waiting(), plan) && can_run(self.running(), plan)
    }

    /// The same numbers once more, in the same frames; Memory where 2^63 share one already.
    pub fn copy(&self) -> Result<Snapshot<A>, Memory>
        ensures { IfOk result (λ s. s ≡ self.now) }
    {
        Snapshot::at(&self.waiting, &self.running, self.place)
    }
}

fn shared<T: Copy, A: Allocator + Copy>(
    alloc: A,
    items: &[T],
) -> Result<Arc<Frame<T, A>, A>, Memory>
    ensures { IfOk result (λ frame. standing_at 0 (arc_value frame) ≡ items.now) }
{
    let frame = Frame::single(alloc, items)?;
    Ok(Arc::new(alloc, frame)?)
}

fn are_same<T: Same>(one: Standing<'_, T>, other: Standing<'_, T>) -> bool
    ensures { IsTrue result ↔ (one.entry ≡ other.entry) }
{
    let mut behind = other;
    for item in one {
        let Some(next) = behind.next() else {
            return false;
        };
        if !item.is(next) {
            return false;
        }
    }
    behind.next().is_none()
}

fn numbers_of<A: Allocator + Copy>(alloc: A, queue: &Queue<A>) -> Result<Vec<u64, A>, Memory>
    ensures { IfOk result (λ numbers. numbers.items ≡ map (λ (j : EffectiveJob). j.number) queue.now.jobs) }
{
    let mut numbers = Vec::with_capacity(alloc, queue.len())?;
    for job in queue.jobs() {
        numbers.push(job.number())?;
    }
    Ok(numbers)
}

pub(crate) fn starts_of<A: Allocator + Copy>(
    alloc: A,
    running: &RunningSet<A>,
) -> Result<Vec<RunningNumber, A>, Memory>
    requires { (n : ℕ) → count_by (λ r. nat_eq r.job.number n) running.now.running ≤ 1 }
    ensures numbers { IfOk result (λ numbers. numbers.items ≡ map number_of running.now.running) }
    ensures rise { IfOk result (λ numbers. NumbersRise numbers.items) }
{
    let mut numbers = listed(alloc, running)?;
    numbers.sort_by_key(|r| r.number)?;
    Ok(numbers)
}

fn listed<A: Allocator + Copy>(
    alloc: A,
    running: &RunningSet<A>,
) -> Result<Vec<RunningNumber, A>, Memory>
    ensures numbers { IfOk result (λ numbers. numbers.items ≡ map number_of (by_end running.now.running)) }
    ensures by_number { IfOk result (λ _. by_number (by_end running.now.running) ≡ running.now.running) }
{
    let mut numbers = Vec::with_capacity(alloc, running.len())?;
    for r in running.by_end() {
        numbers.push(RunningNumber {
            number: r.job.number(),
            start: r.start,
        })?;
    }
    Ok(numbers)
}
