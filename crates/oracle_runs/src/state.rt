ghost use Rattle.std.specs.Prelude.{◌≡◌, ◌↔◌, ◌<◌, ◌≤◌, ◌^◌, [], IsTrue, OnErr, OnOk, Some, nat_eq, nat_lt, not, filter, position, sum_by};
ghost use Rattle.scenarios.specs.Limits.{procs_limit, seconds_end};
ghost use Rattle.scenarios.specs.Placed.{real_end};
ghost use Rattle.cluster_state.specs.State.{arrived, available, back_by, busy, empty, free, holders, placed, started, waiting_job, without, IsSound};
ghost use Rattle.easy_rule.specs.Simulation.{ended};

use crate::job::PlainJob;
use crate::running::PlainRunning;
use scenarios::{MAX_PROCS, Order, Scenario};
use std::alloc::Allocator;
use std::marker::Model;
use swf_text::Memory;

fn busy(running: &[PlainRunning]) -> u64
    requires { busy running.now < 2 ^ 64 }
    ensures { result ≡ busy running.now }
{
    running.iter().map(|r| r.job().size()).sum()
}

fn back_by(r: &PlainRunning, t: u64) -> u64
    ensures { result ≡ back_by t r.now }
{
    if r.expected_end() <= t {
        r.job().size()
    } else {
        0
    }
}

fn all_back_by(running: &[PlainRunning], t: u64) -> u64
    requires { busy running.now ≤ procs_limit }
    ensures { result ≡ sum_by (back_by t) running.now }
{
    let mut sum = 0;
    for r in running {
        sum += back_by(r, t);
    }
    sum
}

fn place_of(jobs: &[PlainJob], number: u64) -> Option<usize>
    ensures { result ≡ position (λ j. nat_eq j.number number) jobs.now }
{
    jobs.iter().position(|j| j.number() == number)
}

fn take_out<A: Allocator>(jobs: &mut Vec<PlainJob, A>, number: u64)
    ensures { jobs.new.items ≡ without number jobs.old.items }
{
    match place_of(jobs, number) {
        None => {}
        Some(place) => {
            jobs.remove(place);
        }
    }
}

fn place_before(running: &[PlainRunning], number: u64) -> Option<usize>
    ensures { result ≡ position (λ r. nat_lt number r.job.number) running.now }
{
    running.iter().position(|r| number < r.job().number())
}

fn put_in<A: Allocator>(running: &mut Vec<PlainRunning, A>, r: PlainRunning) -> Result<(), Memory>
    ensures ok { OnOk result (running.new.items ≡ placed r running.old.items) }
    ensures err { OnErr result (running.new.items ≡ running.old.items) }
{
    let place = place_before(running, r.job().number()).unwrap_or(running.len());
    running.insert(place, r)?;
    Ok(())
}

fn drop_at<A: Allocator>(running: &mut Vec<PlainRunning, A>, t: u64)
    ensures { running.new.items ≡ filter (λ r. not (nat_eq (real_end r) t)) running.old.items }
{
    running.retain(move |r| !(r.end() == t));
}

/// A machine at some second: the waiting jobs in order of arrival, and the running ones by number.
#[derive(Drop)]
pub(crate) struct PlainState<A: Allocator + Copy> {
    procs: u64,
    order: Order,
    waiting: Vec<PlainJob, A>,
    running: Vec<PlainRunning, A>,
}

impl<A: Allocator + Copy> Model for PlainState<A> {
    ghost use Rattle.cluster_state.specs.State.{State, IsSound};

    ghost Value = { State };

    ghost view = { λ s. record { procs = s.procs; order = s.order; waiting = s.waiting.items; running = s.running.items } };

    ghost invariant = { λ s. IsSound (record { procs = s.procs; order = s.order; waiting = s.waiting.items; running = s.running.items }) };
}

impl<A: Allocator + Copy> PlainState<A> {
    ghost use Rattle.cluster_state.specs.State.{IsSound};

    pub(crate) fn new(alloc: A, scenario: &Scenario) -> PlainState<A>
        ensures { result ≡ empty scenario.now.procs scenario.now.order }
    {
        PlainState {
            procs: scenario.procs(),
            order: scenario.order(),
            waiting: Vec::new(alloc),
            running: Vec::new(alloc),
        }
    }

    pub(crate) fn order(&self) -> Order
        ensures { result ≡ self.now.order }
    {
        self.order
    }

    pub(crate) fn waiting(&self) -> &[PlainJob]
        ensures jobs { result.now ≡ self.now.waiting }
        ensures sound { IsSound self.now }
    {
        self.waiting.as_slice()
    }

    pub(crate) fn running(&self) -> &[PlainRunning]
        ensures jobs { result.now ≡ self.now.running }
        ensures sound { IsSound self.now }
    {
        self.running.as_slice()
    }

    pub(crate) fn is_idle(&self) -> bool
        ensures { IsTrue result ↔ ((self.now.waiting ≡ []) × (self.now.running ≡ [])) }
    {
        self.waiting.is_empty() && self.running.is_empty()
    }

    pub(crate) fn free(&self) -> u64
        ensures value { result ≡ free self.now }
        ensures sound { IsSound self.now }
    {
        self.procs - busy(&self.running)
    }

    pub(crate) fn available(&self, t: u64) -> u64
        ensures { result ≡ available self.now t }
    {
        self.free() + all_back_by(&self.running, t)
    }

    pub(crate) fn arrive(&mut self, job: PlainJob) -> Result<(), Memory>
        requires absent { holders self.old job.number ≡ 0 }
        requires fits { job.size ≤ self.old.procs }
        ensures { OnOk result (self.new ≡ arrived self.old job) }
    {
        prove!(job.size() <= MAX_PROCS);
        self.waiting.push(job)?;
        Ok(())
    }

    pub(crate) fn start(&mut self, job: PlainJob, now: u64) -> Result<(), Memory>
        requires waits { waiting_job self.old job.number ≡ Some job }
        requires fits { job.size ≤ free self.old }
        requires early { now < seconds_end }
        ensures { OnOk result (self.new ≡ started self.old job now) }
    {
        put_in(&mut self.running, PlainRunning { job, start: now })?;
        take_out(&mut self.waiting, job.number());
        Ok(())
    }

    pub(crate) fn end_at(&mut self, t: u64)
        ensures { self.new ≡ ended self.old t }
    {
        drop_at(&mut self.running, t);
    }
}
