ghost use Rattle.std.specs.Prelude.{◌≡◌, option_copied, IfOk};
ghost use Rattle.std.specs.Arc.{arc_value};
ghost use Rattle.job_table.specs.Accepted.{AreAccepted};
ghost use Rattle.job_table.specs.Edit.{log_after};
ghost use Rattle.scenarios.specs.Plan.{plan_of};
ghost use Rattle.scenarios.specs.PlanView.{plan_in};
ghost use Rattle.checkpoints.specs.Cut.{IsShortCut};
ghost use Rattle.checkpoints.specs.RunView.{IsRun};
ghost use Rattle.rejoin.specs.Patch.{IsRejoined};
ghost use Rattle.tasks.specs.Tasks.{IsMade, IsTask, ticket_for};
ghost use Rattle.std.specs.Option.{option_map};

use crate::base::Base;
use crate::delivery::{MadeRun, RunSender};
use crate::ticket::Ticket;
use checkpoints::{Run, simulate};
use handover::open;
use job_table::JobTable;
use rejoin::{Work, rerun};
use scenarios::{Plan, Scenario, ScenarioId};
use std::alloc::Allocator;
use std::marker::Model;
use std::sync::Arc;
use swf_text::Memory;

fn made_again<A: Allocator + Copy>(
    alloc: A,
    base: &Base<A>,
    plan: &Plan<A>,
    spacing: u32,
) -> Result<(Arc<Run<A>, A>, Work), Memory>
    requires accepted { AreAccepted base.now.run.log base.now.edits }
    requires log { plan.now.log ≡ log_after base.now.run.log base.now.edits }
    ensures log { IfOk result (λ (run, work). (arc_value run).log ≡ plan.now.log) }
    ensures scenario { IfOk result (λ (run, work). (arc_value run).scenario ≡ base.now.run.scenario) }
    ensures sound { IfOk result (λ (run, work). IsRun (arc_value run)) }
    ensures rejoined { IfOk result (λ (run, work). IsRejoined (plan_of base.now.run.log base.now.run.scenario) (plan_of plan.now.log base.now.run.scenario) base.now.run.segments spacing (arc_value run).segments work.handled work.reused) }
{
    let table = plan.table().clone()?;
    let Ok((run, work)) = rerun(alloc, base.run(), base.edits(), table, spacing) else {
        return Err(Memory);
    };
    Ok((Arc::new(alloc, run)?, work))
}

fn made_anew<A: Allocator + Copy>(
    alloc: A,
    plan: &Plan<A>,
    spacing: u32,
) -> Result<Arc<Run<A>, A>, Memory>
    ensures log { IfOk result (λ run. (arc_value run).log ≡ plan.now.log) }
    ensures scenario { IfOk result (λ run. (arc_value run).scenario ≡ plan.now.scenario) }
    ensures sound { IfOk result (λ run. IsRun (arc_value run)) }
    ensures cut { IfOk result (λ run. IsShortCut (plan_in plan.now) spacing (arc_value run).segments) }
{
    let Ok(run) = simulate(alloc, plan.copy()?, spacing) else {
        return Err(Memory);
    };
    Ok(Arc::new(alloc, run)?)
}

/// What a claim returns to a worker: the request for a run of this log under this scenario.
#[derive(Drop)]
pub struct Task<A: Allocator + Copy> {
    alloc: A,
    ticket: u64,
    id: ScenarioId,
    version: u64,
    plan: Plan<A>,
    spacing: u32,
    base: Option<Base<A>>,
    // None before the ticket is made.
    sender: Option<RunSender<A>>,
}

impl<A: Allocator + Copy> Model for Task<A> {
    ghost use Rattle.std.specs.Prelude.{◌≡◌, IfSome, Some};
    ghost use Rattle.tasks.specs.Tasks.{TaskView, IsTask};

    ghost Value = { TaskView };

    ghost view = { λ t. record { ticket = t.ticket; id = t.id; version = t.version; log = t.plan.log; scenario = t.plan.scenario; spacing = t.spacing; base = t.base } };

    ghost invariant = { λ t. IsTask (record { ticket = t.ticket; id = t.id; version = t.version; log = t.plan.log; scenario = t.plan.scenario; spacing = t.spacing; base = t.base }) × IfSome t.sender (λ s. s ≡ Some t.plan) };
}

impl<A: Allocator + Copy> Task<A> {
    /// A task of these. Its condition is what holds of every task.
    pub fn new(
        alloc: A,
        ticket: u64,
        id: ScenarioId,
        version: u64,
        plan: Plan<A>,
        spacing: u32,
        base: Option<Base<A>>,
    ) -> Task<A>
        requires { IsTask (record { ticket = ticket; id = id; version = version; log = plan.log; scenario = plan.scenario; spacing = spacing; base = base }) }
        ensures { result ≡ record { ticket = ticket; id = id; version = version; log = plan.log; scenario = plan.scenario; spacing = spacing; base = base } }
    {
        Task {
            alloc,
            ticket,
            id,
            version,
            plan,
            spacing,
            base,
            sender: None,
        }
    }

    /// Its ticket, where it leaves its run from now on. Memory where a growth was refused.
    pub fn to_ticket(&mut self) -> Result<Ticket<A>, Memory>
        ensures task { self.new ≡ self.old }
        ensures ticket { IfOk result (λ ticket. ticket ≡ ticket_for self.old) }
    {
        let (sender, receiver) = open(self.alloc, self.plan.copy()?)?;
        self.sender = Some(sender);
        Ok(Ticket {
            number: self.ticket,
            id: self.id,
            version: self.version,
            receiver,
        })
    }

    /// The ticket's number, from 1 on; none is used twice.
    pub fn ticket(&self) -> u64
        ensures value { result ≡ self.now.ticket }
        ensures task { IsTask self.now }
    {
        self.ticket
    }

    /// The scenario's id.
    pub fn id(&self) -> ScenarioId
        ensures { result ≡ self.now.id }
    {
        self.id
    }

    /// The version of whose log a run is requested.
    pub fn version(&self) -> u64
        ensures { result ≡ self.now.version }
    {
        self.version
    }

    /// The log of the version.
    pub fn table(&self) -> &Arc<JobTable<A>, A>
        ensures { arc_value result.now ≡ self.now.log }
    {
        self.plan.table()
    }

    /// What the log is to be simulated under.
    pub fn scenario(&self) -> Scenario
        ensures { result ≡ self.now.scenario }
    {
        self.plan.scenario()
    }

    /// The most event seconds that a new segment may hold.
    pub fn spacing(&self) -> u32
        ensures { result ≡ self.now.spacing }
    {
        self.spacing
    }

    /// The published run, with the edits since, where there is one.
    pub fn base(&self) -> Option<&Base<A>>
        ensures { option_copied result ≡ self.now.base }
    {
        self.base.as_ref()
    }

    /// The version of the published run, where there is one.
    pub fn base_version(&self) -> Option<u64>
        ensures { result ≡ option_map (λ b. b.version) self.now.base }
    {
        Some(self.base.as_ref()?.version())
    }

    /// The run that is requested, and the work of making it from the base: by `rerun` where there is a
    /// base, and by `simulate` otherwise. It changes nothing of the book, and can be called again.
    /// Memory where a growth was refused.
    pub fn work(&self) -> Result<(Arc<Run<A>, A>, Option<Work>), Memory>
        ensures log { IfOk result (λ (run, work). (arc_value run).log ≡ self.now.log) }
        ensures scenario { IfOk result (λ (run, work). (arc_value run).scenario ≡ self.now.scenario) }
        ensures sound { IfOk result (λ (run, work). IsRun (arc_value run)) }
        ensures made { IfOk result (λ (run, work). IsMade self.now self.now.base (arc_value run) work) }
    {
        match &self.base {
            Some(base) => {
                let (run, work) = made_again(self.alloc, base, &self.plan, self.spacing)?;
                Ok((run, Some(work)))
            }
            None => {
                let run = made_anew(self.alloc, &self.plan, self.spacing)?;
                Ok((run, None))
            }
        }
    }

    /// As `work`, and leaves the run at the ticket, from which `Book::finish_delivered` takes it.
    pub fn deliver(&mut self) -> Result<(Arc<Run<A>, A>, Option<Work>), Memory>
        ensures task { self.new ≡ self.old }
        ensures log { IfOk result (λ (run, work). (arc_value run).log ≡ self.old.log) }
        ensures scenario { IfOk result (λ (run, work). (arc_value run).scenario ≡ self.old.scenario) }
        ensures sound { IfOk result (λ (run, work). IsRun (arc_value run)) }
        ensures made { IfOk result (λ (run, work). IsMade self.old self.old.base (arc_value run) work) }
    {
        let (run, work) = self.work()?;
        if let Some(sender) = &mut self.sender {
            sender.send(MadeRun { run: run.clone()? });
        }
        Ok((run, work))
    }
}
