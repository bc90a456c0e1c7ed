// The jobs that come next: some in a `row`, and in `later` the submit second of the first behind these.
// `take_up` takes jobs up, so that those of a second stand in the row and those behind it come later.
ghost use Rattle.std.specs.Prelude.{◌≡◌, ◌<◌, ◌+◌, ◌↔◌, [], ◌∷◌, Some, OnOk, IfOk, IfSome, IsTrue};
ghost use Rattle.scenarios.specs.PlanView.{plan_in};
ghost use Rattle.cluster_state.specs.State.{IsSound};
ghost use Rattle.easy_rule.specs.Simulation.{joined, submitted};
ghost use Rattle.scenarios.specs.SoundPlan.{IsPlan};
ghost use Rattle.event_loop.specs.Upcoming.{first_submit, IsUpcoming, next_of, without_first};

use crate::arrivals::{arrive_all, fill, next_submit, only_at};
use cluster_state::Cluster;
use scenarios::{Job, PlanRef};
use std::alloc::Allocator;
use std::collections::VecDeque;
use std::marker::Model;
use swf_text::Memory;

#[derive(Drop)]
pub(crate) struct Upcoming<A: Allocator + Copy> {
    row: VecDeque<Job, A>,
    later: Option<u64>,
}

impl<A: Allocator + Copy> Model for Upcoming<A> {
    ghost use Rattle.event_loop.specs.Upcoming.{NextJobs};

    ghost Value = { NextJobs };

    ghost view = { λ c. record { row = c.row.items; later = c.later } };
}

impl<A: Allocator + Copy> Upcoming<A> {
    pub(crate) fn at(alloc: A, plan: &PlanRef<'_, A>, second: u64) -> Upcoming<A>
        ensures plan { IsPlan (plan_in plan.now) }
        ensures upcoming { IsUpcoming result second (plan_in plan.now).jobs }
    {
        Upcoming {
            row: VecDeque::new(alloc),
            later: next_submit(plan, second),
        }
    }

    pub(crate) fn next(&self) -> Option<u64>
        ensures { result ≡ next_of self.now }
    {
        submit_of_first(&self.row).or(self.later)
    }

    pub(crate) fn arrive(
        &mut self,
        cluster: &mut Cluster<A>,
        plan: &PlanRef<'_, A>,
        second: u64,
    ) -> Result<(), Memory>
        requires plan { IsPlan (plan_in plan.now) }
        requires upcoming { IsUpcoming self.old second (plan_in plan.now).jobs }
        requires sound { IsSound (joined cluster.old.state (submitted (plan_in plan.now) second)) }
        ensures state { OnOk result (cluster.new.state ≡ joined cluster.old.state (submitted (plan_in plan.now) second)) }
        ensures upcoming { OnOk result (IsUpcoming self.new (second + 1) (plan_in plan.now).jobs) }
        ensures running { cluster.new.state.running ≡ cluster.old.state.running }
    {
        self.take_up(plan, second)?;
        arrive_all(cluster, &mut self.row, second)?;
        Ok(())
    }

    pub(crate) fn only_at(
        &mut self,
        plan: &PlanRef<'_, A>,
        second: u64,
    ) -> Result<Option<Job>, Memory>
        requires plan { IsPlan (plan_in plan.now) }
        requires upcoming { IsUpcoming self.old second (plan_in plan.now).jobs }
        ensures upcoming { OnOk result (IsUpcoming self.new second (plan_in plan.now).jobs) }
        ensures only { IfOk result (λ o. IfSome o (λ job. submitted (plan_in plan.now) second ≡ job ∷ [])) }
        ensures rest { IfOk result (λ o. IfSome o (λ job. IsUpcoming (without_first self.new) (second + 1) (plan_in plan.now).jobs)) }
    {
        self.take_up(plan, second)?;
        Ok(only_at(&self.row, second))
    }

    pub(crate) fn pass(&mut self)
        ensures { self.new ≡ without_first self.old }
    {
        let _passed = self.row.pop_front();
    }

    fn take_up(&mut self, plan: &PlanRef<'_, A>, second: u64) -> Result<(), Memory>
        requires { IsUpcoming self.old second (plan_in plan.now).jobs }
        ensures upcoming { OnOk result (IsUpcoming self.new second (plan_in plan.now).jobs) }
        ensures later { OnOk result (IfSome self.new.later (λ t. second < t)) }
    {
        if is_at(self.later, second) {
            self.later = fill(&mut self.row, plan, second)?;
        }
        Ok(())
    }
}

fn submit_of_first<A: Allocator + Copy>(row: &VecDeque<Job, A>) -> Option<u64>
    ensures { result ≡ first_submit row.now.items }
{
    match row.front() {
        None => None,
        Some(job) => Some(job.submit()),
    }
}

fn is_at(next: Option<u64>, second: u64) -> bool
    ensures { IsTrue result ↔ (next ≡ Some second) }
{
    match next {
        None => false,
        Some(at) => at == second,
    }
}
