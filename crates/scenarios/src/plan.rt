ghost use Rattle.std.specs.Prelude.{◌≡◌, IfOk};
ghost use Rattle.std.specs.Arc.{arc_value};
ghost use Rattle.job_table.specs.Table.{IsTable};
ghost use Rattle.scenarios.specs.PlanView.{plan_in};
ghost use Rattle.scenarios.specs.SoundPlan.{IsPlan};

use crate::plan_ref::PlanRef;
use crate::scenario::{MAX_PROCS, Scenario};
use job_table::JobTable;
use std::alloc::Allocator;
use std::marker::Model;
use std::sync::Arc;
use swf_text::{ENTRY_LIMIT, Memory};

/// A table under a scenario: what is simulated.
///
/// Its jobs are those of the table's entries that are not skipped, in the order of the log.
#[derive(Drop)]
pub struct Plan<A: Allocator + Copy> {
    table: Arc<JobTable<A>, A>,
    scenario: Scenario,
}

impl<A: Allocator + Copy> Model for Plan<A> {
    ghost use Rattle.std.specs.Arc.{arc_value};
    ghost use Rattle.scenarios.specs.PlanView.{PlanView, IsPlanned};

    ghost Value = { PlanView };

    ghost view = { λ p. record { log = arc_value p.table; scenario = p.scenario } };

    ghost invariant = { λ p. IsPlanned (record { log = arc_value p.table; scenario = p.scenario }) };
}

impl<A: Allocator + Copy> Plan<A> {
    /// The plan of a shared table under a scenario. It looks at no entry, and takes no memory.
    pub fn new(table: Arc<JobTable<A>, A>, scenario: Scenario) -> Plan<A>
        ensures view { result ≡ record { log = arc_value table; scenario = scenario } }
        ensures sound { IsPlan (plan_in result) }
    {
        prove!(table.len() <= ENTRY_LIMIT);
        prove!(scenario.procs() <= MAX_PROCS);
        Plan { table, scenario }
    }

    /// The same plan once more, of the same table; Memory where 2^63 share that already.
    pub fn copy(&self) -> Result<Plan<A>, Memory>
        ensures { IfOk result (λ plan. plan ≡ self.now) }
    {
        Ok(Plan::new(self.table.clone()?, self.scenario))
    }

    /// The table.
    pub fn table(&self) -> &Arc<JobTable<A>, A>
        ensures table { arc_value result.now ≡ self.now.log }
        ensures sound { IsPlan (plan_in self.now) }
    {
        &self.table
    }

    /// The scenario.
    pub fn scenario(&self) -> Scenario
        ensures scenario { result ≡ self.now.scenario }
        ensures sound { IsPlan (plan_in self.now) }
    {
        self.scenario
    }

    /// The same plan, lent, by which its jobs are read.
    pub fn view(&self) -> PlanRef<'_, A>
        ensures same { result ≡ self.now }
        ensures sound { IsPlan (plan_in self.now) }
        ensures table { IsTable self.now.log }
    {
        PlanRef::of(&self.table, self.scenario)
    }
}
