ghost use Rattle.std.specs.Prelude.{◌≡◌, ◌≤◌, ◌+◌, map, length, IfOk};
ghost use Rattle.std.specs.Arc.{arc_value};
ghost use Rattle.scenarios.specs.Plan.{jobs_of, plan_of};
ghost use Rattle.scenarios.specs.PlanView.{plan_in};
ghost use Rattle.scenarios.specs.Skips.{skips_of};
ghost use Rattle.easy_rule.specs.Simulation.{sim, start_of};
ghost use Rattle.checkpoints.specs.Cut.{IsCut};
ghost use Rattle.checkpoints.specs.Sums.{IsTablesOf};
ghost use Rattle.checkpoints.specs.Schedule.{rows_of};
ghost use Rattle.checkpoints.specs.RunView.{IsRun};
ghost use Rattle.checkpoints.specs.Nodes.{AreFrom};

use crate::merge_tree::MergeTree;
use crate::row::Row;
use crate::rows::Rows;
use crate::schedule::{listed, start_in};
use crate::segment::Segment;
use crate::starts::Starts;
use crate::sums::{tables_anew, tables_of};
use job_table::JobTable;
use metrics::Tables;
use scenarios::{Plan, Scenario, Skips};
use std::alloc::Allocator;
use std::marker::Model;
use std::sync::Arc;
use swf_text::Memory;

/// A table's simulation under a scenario: its segments, one after another, and its tables.
///
/// The schedule and tables of a run are those that the simulation, second by second, gives its own
/// table and scenario.
#[derive(Drop)]
pub struct Run<A: Allocator + Copy> {
    alloc: A,
    plan: Plan<A>,
    segments: Vec<Arc<Segment<A>, A>, A>,
    merge_tree: MergeTree<A>,
    tables: Tables<A>,
}

impl<A: Allocator + Copy> Model for Run<A> {
    ghost use Rattle.std.specs.Prelude.{map};
    ghost use Rattle.std.specs.Arc.{arc_value};
    ghost use Rattle.checkpoints.specs.RunView.{RunView, IsRun};
    ghost use Rattle.checkpoints.specs.Nodes.{IsMergeTreeOf, parts_of};

    ghost Value = { RunView };

    ghost view = { λ r. record { log = r.plan.log; scenario = r.plan.scenario; segments = map arc_value r.segments.items; tables = r.tables } };

    ghost invariant = { λ r. IsRun (record { log = r.plan.log; scenario = r.plan.scenario; segments = map arc_value r.segments.items; tables = r.tables }) × IsMergeTreeOf (parts_of (map arc_value r.segments.items)) r.merge_tree };
}

impl<A: Allocator + Copy> Run<A> {
    /// The run of these segments, which are those of the plan's simulation, and of these counts of its
    /// skipped entries. A segment with a place is an old run's at that place.
    ///
    /// It looks at no entry of the table, and takes those nodes of the old run's merge tree as they are
    /// whose segments all are reused, side by side. Memory where a growth was refused.
    pub fn of_reused(
        alloc: A,
        old: &Run<A>,
        plan: Plan<A>,
        skips: Skips,
        segments: Vec<Arc<Segment<A>, A>, A>,
        places: &[Option<usize>],
    ) -> Result<Run<A>, Memory>
        requires cut { IsCut (plan_in plan) (map arc_value segments.items) }
        requires skips { skips ≡ skips_of plan.log plan.scenario }
        requires places { AreFrom old.now.segments (map arc_value segments.items) places.now }
        ensures log { IfOk result (λ run. run.log ≡ plan.log) }
        ensures scenario { IfOk result (λ run. run.scenario ≡ plan.scenario) }
        ensures segments { IfOk result (λ run. run.segments ≡ map arc_value segments.items) }
        ensures sound { IfOk result IsRun }
    {
        prove!(plan.scenario().procs() >= 1);
        let merge_tree = MergeTree::of_reused(alloc, &old.merge_tree, segments.as_slice(), places)?;
        let tables = tables_of(alloc, &plan, skips, &merge_tree)?;
        Ok(Run {
            alloc,
            plan,
            segments,
            merge_tree,
            tables,
        })
    }

    /// The run of these segments, which are those of the plan's simulation. Its tables and its counts
    /// of skipped entries are made anew. Memory where a growth was refused.
    pub fn of_segments(
        alloc: A,
        plan: Plan<A>,
        segments: Vec<Arc<Segment<A>, A>, A>,
    ) -> Result<Run<A>, Memory>
        requires { IsCut (plan_in plan) (map arc_value segments.items) }
        ensures log { IfOk result (λ run. run.log ≡ plan.log) }
        ensures scenario { IfOk result (λ run. run.scenario ≡ plan.scenario) }
        ensures segments { IfOk result (λ run. run.segments ≡ map arc_value segments.items) }
        ensures sound { IfOk result IsRun }
    {
        prove!(plan.scenario().procs() >= 1);
        let merge_tree = MergeTree::of(alloc, segments.as_slice())?;
        let tables = tables_anew(alloc, &plan, &merge_tree)?;
        Ok(Run {
            alloc,
            plan,
            segments,
            merge_tree,
            tables,
        })
    }

    /// The table.
    pub fn table(&self) -> &Arc<JobTable<A>, A>
        ensures { arc_value result.now ≡ self.now.log }
    {
        self.plan.table()
    }

    /// The scenario.
    pub fn scenario(&self) -> Scenario
        ensures { result ≡ self.now.scenario }
    {
        self.plan.scenario()
    }

    /// The plan: the table under the scenario.
    pub fn plan(&self) -> &Plan<A>
        ensures log { result.now.log ≡ self.now.log }
        ensures scenario { result.now.scenario ≡ self.now.scenario }
        ensures sound { IsRun self.now }
    {
        &self.plan
    }

    /// The tables: plain sums over all jobs of the table under the scenario, each at its start.
    pub fn tables(&self) -> &Tables<A>
        ensures value { result.now ≡ self.now.tables }
        ensures sound { IsTablesOf self.now.log self.now.scenario self.now.tables }
    {
        &self.tables
    }

    /// The segments, in order: the first begins at second 0, each next one a second after the last
    /// event second of the one before. Without jobs there is none.
    pub fn segments(&self) -> &[Arc<Segment<A>, A>]
        ensures value { map arc_value result.now ≡ self.now.segments }
        ensures sound { IsCut (plan_of self.now.log self.now.scenario) self.now.segments }
    {
        self.segments.as_slice()
    }

    /// The second at which the job of this number starts; None where it is not simulated.
    ///
    /// It looks the job up by its number, finds the segment of its submit second, and goes on from
    /// there.
    pub fn start_of(&self, number: u64) -> Option<u64>
        ensures { result ≡ start_of (sim (plan_of self.now.log self.now.scenario)) number }
    {
        let job = self.plan.view().job(number)?;
        let submit = job.submit();
        let later = self.segments.partition_point(|s| s.first() <= submit);
        start_in(&self.segments.as_slice()[later.saturating_sub(1)..], number)
    }

    fn job_count(&self) -> usize
        ensures { result ≡ length (jobs_of self.now.log self.now.scenario) }
    {
        kept_of(self.plan.table().len(), &self.tables.overall().skips)
    }

    /// The rows of the schedule: one for each job that is simulated, in the order of the log, each made
    /// when it is asked for. Memory where a growth was refused.
    pub fn rows(&self) -> Result<Rows<'_, A>, Memory>
        ensures rows { IfOk result (λ rows. rows ≡ rows_of (plan_of self.now.log self.now.scenario)) }
        ensures each { IfOk result (λ rows. map (λ r. r.number) rows ≡ map (λ j. j.number) (jobs_of self.now.log self.now.scenario)) }
        ensures count { IfOk result (λ rows. length rows ≡ length (jobs_of self.now.log self.now.scenario)) }
    {
        let starts = Starts::of(self.alloc, self.segments.as_slice())?;
        let plan = self.plan.view();
        Ok(Rows::new(starts, plan.jobs(), self.job_count()))
    }

    /// The schedule: a row for each job that is simulated, in the order of the log. Memory where a
    /// growth was refused.
    pub fn schedule(&self) -> Result<Vec<Row, A>, Memory>
        ensures rows { IfOk result (λ rows. rows.items ≡ rows_of (plan_of self.now.log self.now.scenario)) }
        ensures each { IfOk result (λ rows. map (λ r. r.number) rows.items ≡ map (λ j. j.number) (jobs_of self.now.log self.now.scenario)) }
        ensures count { IfOk result (λ rows. length rows.items ≡ length (jobs_of self.now.log self.now.scenario)) }
    {
        let rows = self.rows()?;
        Ok(listed(self.alloc, rows)?)
    }
}

fn kept_of(count: usize, skips: &Skips) -> usize
    requires { skips.now.size + skips.now.run + skips.now.large + skips.now.long ≤ count }
    ensures { skips.now.size + skips.now.run + skips.now.large + skips.now.long + result ≡ count }
{
    let skipped = skips.size + skips.run + skips.large + skips.long;
    count - skipped as usize
}
