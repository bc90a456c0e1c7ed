ghost use Rattle.std.specs.Prelude.{◌≡◌, ◌+◌, None, IfOk, IfErr, length, true, false};
ghost use Rattle.event_loop.specs.Events.{earlier, IsNextEvent, begun};
ghost use Rattle.scenarios.specs.PlanView.{plan_in};
ghost use Rattle.cluster_state.specs.Snapshot.{numbers_of};
ghost use Rattle.easy_rule.specs.Simulation.{before};

use crate::fault::EngineFault;
use crate::upcoming::Upcoming;
use cluster_state::{Cluster, Snapshot};
use easy_rule::Shadow;
use scenarios::Plan;
use std::alloc::Allocator;
use std::marker::Model;
use swf_text::Memory;

/// Simulates a plan, one event second after another.
///
/// An event second is one at which a job ends or is submitted. An engine stands at a position: its
/// jobs are those that wait and run before that second, and each earlier second is done with.
#[derive(Drop)]
pub struct Engine<A: Allocator + Copy> {
    pub(crate) alloc: A,
    pub(crate) plan: Plan<A>,
    pub(crate) cluster: Cluster<A>,
    pub(crate) upcoming: Upcoming<A>,
    pub(crate) last_shadow: Option<Shadow>,
    pub(crate) position: u64,
    pub(crate) handled: u64,
    pub(crate) failed: bool,
}

impl<A: Allocator + Copy> Model for Engine<A> {
    ghost use Rattle.scenarios.specs.PlanView.{plan_in};
    ghost use Rattle.event_loop.specs.Events.{Progress, IsEngine};

    ghost Value = { Progress };

    ghost view = { λ e. record { plan = plan_in e.plan; position = e.position; handled = e.handled; failed = e.failed } };

    ghost invariant = { λ e. IsEngine (plan_in e.plan) e.cluster.state e.upcoming e.last_shadow e.position e.handled e.failed };
}

impl<A: Allocator + Copy> Engine<A> {
    /// An engine of a plan before second 0.
    pub fn new(alloc: A, plan: Plan<A>) -> Engine<A>
        ensures { result ≡ begun (plan_in plan) 0 }
    {
        let upcoming = Upcoming::at(alloc, &plan.view(), 0);
        let cluster = Cluster::for_scenario(alloc, &plan.scenario());
        Engine {
            alloc,
            plan,
            cluster,
            upcoming,
            last_shadow: None,
            position: 0,
            handled: 0,
            failed: false,
        }
    }

    /// An engine of a plan before a second, at which the jobs of a snapshot wait and run. It has worked
    /// no event second yet. Memory where a growth was refused.
    pub fn resume(
        alloc: A,
        snapshot: &Snapshot<A>,
        second: u64,
        plan: Plan<A>,
    ) -> Result<Engine<A>, Memory>
        requires { snapshot.now ≡ numbers_of (before (plan_in plan) second) }
        ensures { IfOk result (λ e. e ≡ begun (plan_in plan) second) }
    {
        let upcoming = Upcoming::at(alloc, &plan.view(), second);
        let cluster = Cluster::restore(alloc, snapshot, &plan.view())?;
        Ok(Engine {
            alloc,
            plan,
            cluster,
            upcoming,
            last_shadow: None,
            position: second,
            handled: 0,
            failed: false,
        })
    }

    /// The second before which the engine stands: 0 or `resume`'s second at first, the second given
    /// after `advance_to`, and one past the last second worked after `step` and `finish`.
    pub fn position(&self) -> u64
        ensures { result ≡ self.now.position }
    {
        self.position
    }

    /// How many event seconds were worked.
    pub fn handled(&self) -> u64
        ensures { result ≡ self.now.handled }
    {
        self.handled
    }

    /// The next event second, from the position on; None where there is none, and in an engine that
    /// has failed.
    pub fn next_event(&self) -> Option<u64>
        ensures going { self.now.failed ≡ false → IsNextEvent self.now.plan self.now.position result }
        ensures failed { self.now.failed ≡ true → result ≡ None }
    {
        if self.failed {
            return None;
        }
        earlier(self.upcoming.next(), self.cluster.next_end())
    }

    /// How many jobs wait and run before the position; 0 in an engine that has failed.
    pub fn standing(&self) -> usize
        ensures going { self.now.failed ≡ false → result ≡ length (before self.now.plan self.now.position).waiting + length (before self.now.plan self.now.position).running }
        ensures failed { self.now.failed ≡ true → result ≡ 0 }
    {
        if self.failed {
            return 0;
        }
        self.cluster.waiting_count() + self.cluster.running_count()
    }

    /// The numbers of the jobs that wait and run before the position.
    ///
    /// Failed in an engine that has failed; Memory where a growth was refused.
    pub fn snapshot(&self) -> Result<Snapshot<A>, EngineFault>
        ensures ok { IfOk result (λ s. (self.now.failed ≡ false) × (s ≡ numbers_of (before self.now.plan self.now.position))) }
        ensures failed { self.now.failed ≡ true → result ≡ Err EngineFault.Failed }
        ensures memory { self.now.failed ≡ false → IfErr result (λ f. f ≡ EngineFault.Memory) }
    {
        if self.failed {
            return Err(EngineFault::Failed);
        }
        let snapshot = self.cluster.snapshot()?;
        Ok(snapshot)
    }
}

fn earlier(a: Option<u64>, b: Option<u64>) -> Option<u64>
    ensures { result ≡ earlier a b }
{
    match (a, b) {
        (None, b) => b,
        (Some(a), None) => Some(a),
        (Some(a), Some(b)) => Some(a.min(b)),
    }
}
