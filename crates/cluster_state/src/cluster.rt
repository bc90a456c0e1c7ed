ghost use Rattle.std.specs.Prelude.{◌≡◌, ◌≤◌, ◌<◌, ◌↔◌, [], IfOk, IfSome, IsNone, MatchOption, None, Some, All, Any, drop, length, slice_get, take, IsPermutation, ◌+◌};
ghost use Rattle.std.specs.Option.{option_copied};
ghost use Rattle.scenarios.specs.Limits.{procs_limit};
ghost use Rattle.scenarios.specs.declared.order.Order.TheVariants.{Arrival, Shortest};
ghost use Rattle.waiting_places.specs.Offers.{holds};
ghost use Rattle.waiting_places.specs.Places.{IsFirst, at_place, waiting};
ghost use Rattle.scenarios.specs.Placed.{real_end};
ghost use Rattle.cluster_state.specs.State.{available, empty, free, IsSound, RisesByNumber, busy};
ghost use Rattle.cluster_state.specs.Candidates.{fits_offer, AreCandidates};
ghost use Rattle.cluster_state.specs.Ends.{by_end, IsPast, RisesByEnd, block_limit};
ghost use Rattle.scenarios.specs.PlanView.{plan_in};
ghost use Rattle.cluster_state.specs.Snapshot.{numbers_of, restored, Fits};

use crate::by_end::RunningByEnd;
use crate::lookup::running_in;
use crate::queue::Queue;
use crate::runner::held;
use crate::running_set::RunningSet;
use crate::snapshot::{Snapshot, starts_of};
use crate::waiting::Waiting;
use scenarios::{Job, Order, Placed, PlanRef, Scenario};
use std::alloc::Allocator;
use std::marker::Model;
use swf_text::Memory;
use waiting_places::Offer;

/// A simulated machine, with the jobs that wait for it and those that run on it.
///
/// Seconds stay below 2^49, and a machine has at most 16,777,216 processors.
#[derive(Drop)]
pub struct Cluster<A: Allocator + Copy> {
    pub(crate) procs: u64,
    pub(crate) free: u64,
    pub(crate) queue: Queue<A>,
    pub(crate) running: RunningSet<A>,
}

impl<A: Allocator + Copy> Model for Cluster<A> {
    ghost use Rattle.cluster_state.specs.State.{ClusterView};

    ghost Value = { ClusterView };

    ghost use Rattle.cluster_state.specs.Parts.{view_of, IsCluster};

    ghost view = { view_of };

    ghost invariant = { IsCluster };
}

impl<A: Allocator + Copy> Cluster<A> {
    /// An empty machine of `procs` processors, with backfills in order of arrival.
    pub fn new(alloc: A, procs: u64) -> Cluster<A>
        requires { procs ≤ procs_limit }
        ensures { result.state ≡ empty procs Arrival }
    {
        Cluster::with_order(alloc, procs, Order::Arrival)
    }

    /// The empty machine of a scenario, with backfills in the scenario's order.
    pub fn for_scenario(alloc: A, scenario: &Scenario) -> Cluster<A>
        ensures { result.state ≡ empty scenario.now.procs scenario.now.order }
    {
        Cluster::with_order(alloc, scenario.procs(), scenario.order())
    }

    fn with_order(alloc: A, procs: u64, order: Order) -> Cluster<A>
        requires { procs ≤ procs_limit }
        ensures { result.state ≡ empty procs order }
    {
        Cluster {
            procs,
            free: procs,
            queue: Queue::new(alloc, order),
            running: RunningSet::new(alloc),
        }
    }

    fn with_running(
        alloc: A,
        procs: u64,
        order: Order,
        running: &[Placed],
    ) -> Result<Cluster<A>, Memory>
        requires sound { IsSound (record { procs = procs; order = order; waiting = []; running = running.now }) }
        requires rises { RisesByNumber running.now }
        ensures { IfOk result (λ c. c.state ≡ record { procs = procs; order = order; waiting = []; running = running.now }) }
    {
        let free = procs - held(running);
        let running = RunningSet::of(alloc, running)?;
        let queue = Queue::new(alloc, order);
        Ok(Cluster {
            procs,
            free,
            queue,
            running,
        })
    }

    /// The cluster of a snapshot: each number stands for its job in the plan, whose machine and order of
    /// backfills the cluster has.
    ///
    /// Memory where a growth was refused.
    pub fn restore(
        alloc: A,
        snapshot: &Snapshot<A>,
        plan: &PlanRef<'_, A>,
    ) -> Result<Cluster<A>, Memory>
        requires { Fits snapshot.now (plan_in plan.now) }
        ensures { IfOk result (λ c. c.state ≡ restored snapshot.now (plan_in plan.now)) }
    {
        let running = running_in(alloc, snapshot.running(), plan)?;
        let scenario = plan.scenario();
        let mut cluster = Cluster::with_running(
            alloc,
            scenario.procs(),
            scenario.order(),
            &running,
        )?;
        for number in snapshot.waiting() {
            if let Some(job) = plan.job(*number) {
                cluster.arrive(job)?;
            }
        }
        Ok(cluster)
    }

    /// The order in which the later waiting jobs are looked at.
    pub fn order(&self) -> Order
        ensures { result ≡ self.now.state.order }
    {
        self.queue.order()
    }

    /// The processors that no running job holds.
    pub fn free(&self) -> u64
        ensures free { result ≡ free self.now.state }
        ensures sound { IsSound self.now.state }
    {
        self.free
    }

    /// How many jobs wait.
    pub fn waiting_count(&self) -> usize
        ensures count { result ≡ length self.now.state.waiting }
        ensures sound { IsSound self.now.state }
    {
        self.queue.len()
    }

    /// How many jobs run.
    pub fn running_count(&self) -> usize
        ensures count { result ≡ length self.now.state.running }
        ensures sound { IsSound self.now.state }
    {
        self.running.len()
    }

    /// The waiting jobs in order of arrival.
    pub fn waiting(&self) -> Waiting<'_>
        ensures jobs { result ≡ self.now.state.waiting }
        ensures sound { IsSound self.now.state }
    {
        self.queue.jobs()
    }

    /// The waiting job at this place of the queue, counted from 0; none past the end. It goes over those
    /// before it; the first costs a step.
    pub fn waiting_at(&self, place: usize) -> Option<&Job>
        ensures { option_copied result ≡ slice_get self.now.state.waiting place }
    {
        self.queue.at(place)
    }

    /// The waiting jobs in order of arrival, but for the first `settled`. It goes over these alone.
    pub fn arrived_since(&self, settled: usize) -> Waiting<'_>
        ensures jobs { result ≡ drop settled self.now.state.waiting }
        ensures sound { IsSound self.now.state }
    {
        self.queue.jobs_behind(settled)
    }

    /// The place of the candidates from which on the waiting jobs behind the first `settled` stand: in
    /// order of arrival these alone, by estimate all, from place 0 on.
    pub fn place_behind(&self, settled: usize) -> usize
        requires { settled ≤ length self.now.state.waiting }
        ensures within { result ≤ length self.now.places }
        ensures front { self.now.state.order ≡ Arrival → waiting (take result self.now.places) ≡ take settled self.now.state.waiting }
        ensures rest { self.now.state.order ≡ Arrival → waiting (drop result self.now.places) ≡ drop settled self.now.state.waiting }
        ensures all { self.now.state.order ≡ Shortest → result ≡ 0 }
        ensures candidates { AreCandidates self.now }
    {
        self.queue.place_behind(settled)
    }

    /// The first place of the candidates from one on whose job fits the offer; none where none does. The
    /// candidates have the waiting jobs in the order in which they are looked at for a backfill.
    pub fn next_fit(&mut self, from: usize, offer: &Offer) -> Option<usize>
        ensures first { IsFirst (holds (fits_offer offer.now)) self.old.places from (length self.old.places) result }
        ensures same { self.new ≡ self.old }
        ensures candidates { AreCandidates self.old }
        ensures sound { IsSound self.old.state }
    {
        self.queue.next_fit(from, offer)
    }

    /// The job at this place of the candidates; none where nobody waits there.
    pub fn job_at(&self, place: usize) -> Option<&Job>
        ensures job { option_copied result ≡ at_place self.now.places place }
        ensures candidates { AreCandidates self.now }
        ensures sound { IsSound self.now.state }
    {
        self.queue.get(place)
    }

    /// The running jobs with their starts, rising by the second by which they have surely ended (start
    /// plus estimate), and of one second by number.
    pub fn running_by_end(&self) -> RunningByEnd<'_, A>
        ensures order { result ≡ by_end self.now.state.running }
        ensures rising { RisesByEnd result }
        ensures each { IsPermutation self.now.state.running result }
        ensures sound { IsSound self.now.state }
    {
        self.running.by_end()
    }

    /// The running jobs as `running_by_end` tells them, but for some first ones that are passed over
    /// together, since even once these have ended fewer than `need` processors are free: how many are
    /// free then, and the others. Once the first 128 of the others have ended too, as many are free as
    /// are needed, if the machine has so many.
    pub fn running_past(&self, need: u64) -> (u64, RunningByEnd<'_, A>)
        requires { free self.now.state < need }
        ensures past { IsPast self.now.state need result.0 result.1 }
        ensures most { need ≤ self.now.state.procs → need ≤ result.0 + busy (take block_limit result.1) }
        ensures sound { IsSound self.now.state }
    {
        let (held, rest) = self.running.past(need - self.free);
        (self.free + held, rest)
    }

    /// How many processors are available at a second: those that are free now, and those of the running
    /// jobs that are expected to have ended by then. These stand in blocks of up to 128, and it takes a
    /// step for each 64 blocks, and at most 64 for the last ones.
    pub fn available(&self, second: u64) -> u64
        ensures { result ≡ available self.now.state second }
    {
        self.running.back_by(second) + self.free
    }

    /// The running job at this place, counted from 0, with the second of its start; none past the
    /// end. They rise by the second by which they have surely ended (start plus estimate), and of
    /// one second by number.
    pub fn running_at(&self, place: usize) -> Option<(&Job, u64)>
        ensures order { MatchOption result (slice_get (by_end self.now.state.running) place ≡ None)
            (λ p. slice_get (by_end self.now.state.running) place ≡ Some (record { job = p.0.now; start = p.1 })) }
    {
        match self.running.at(place) {
            None => None,
            Some(r) => Some((&r.job, r.start)),
        }
    }

    /// The second at which the next running job ends; none where no job runs.
    pub fn next_end(&self) -> Option<u64>
        ensures none { IsNone result ↔ (self.now.state.running ≡ []) }
        ensures found { IfSome result (λ t. Any (λ r. real_end r ≡ t) self.now.state.running) }
        ensures least { IfSome result (λ t. All (λ r. t ≤ real_end r) self.now.state.running) }
    {
        self.running.next_end()
    }

    /// The numbers of the jobs that wait and run now; Memory where a growth was refused.
    pub fn snapshot(&self) -> Result<Snapshot<A>, Memory>
        ensures { IfOk result (λ s. s ≡ numbers_of self.now.state) }
    {
        let alloc = self.queue.allocator();
        let running = starts_of(alloc, &self.running)?;
        Snapshot::of(alloc, &self.queue, running)
    }
}
