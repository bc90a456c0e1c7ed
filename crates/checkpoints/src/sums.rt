ghost use Rattle.std.specs.Prelude.{◌≡◌, List, IfOk};
ghost use Rattle.scenarios.specs.PlanView.{plan_in};
ghost use Rattle.scenarios.specs.Skips.{skips_of};
ghost use Rattle.metrics.specs.Part.{IsPartOf};
ghost use Rattle.checkpoints.specs.Segment.{SegmentView};
ghost use Rattle.checkpoints.specs.Cut.{IsCut};
ghost use Rattle.checkpoints.specs.Nodes.{IsMergeTreeOf, parts_of};
ghost use Rattle.checkpoints.specs.Sums.{IsTablesOf, all_placed};

use crate::merge_tree::MergeTree;
use metrics::{Part, Tables};
use scenarios::{Plan, Skips};
use std::alloc::Allocator;
use swf_text::Memory;

fn sums_of<A: Allocator + Copy>(
    alloc: A,
    plan: &Plan<A>,
    merge_tree: &MergeTree<A>,
) -> Result<Part<A>, Memory>
    requires { (ss : List SegmentView) × IsCut (plan_in plan.now) ss × IsMergeTreeOf (parts_of ss) merge_tree.now }
    ensures { IfOk result (IsPartOf (all_placed (plan_in plan.now))) }
{
    prove!(plan.scenario().procs() >= 1);
    merge_tree.total(alloc)
}

pub(crate) fn tables_of<A: Allocator + Copy>(
    alloc: A,
    plan: &Plan<A>,
    skips: Skips,
    merge_tree: &MergeTree<A>,
) -> Result<Tables<A>, Memory>
    requires cut { (ss : List SegmentView) × IsCut (plan_in plan.now) ss × IsMergeTreeOf (parts_of ss) merge_tree.now }
    requires skips { skips ≡ skips_of plan.now.log plan.now.scenario }
    ensures { IfOk result (λ tables. IsTablesOf plan.now.log plan.now.scenario tables) }
{
    let total = sums_of(alloc, plan, merge_tree)?;
    let tables = total.tables(plan.scenario().procs(), skips)?;
    Ok(tables)
}

// Where each entry is a job, none is looked at again.
fn skips_beside<A: Allocator + Copy>(plan: &Plan<A>, total: &Part<A>) -> Skips
    requires { IsPartOf (all_placed (plan_in plan.now)) total.now }
    ensures { result ≡ skips_of plan.now.log plan.now.scenario }
{
    if total.totals().count == plan.table().len() as u64 {
        return Skips {
            size: 0,
            run: 0,
            large: 0,
            long: 0,
        };
    }
    plan.view().skips()
}

pub(crate) fn tables_anew<A: Allocator + Copy>(
    alloc: A,
    plan: &Plan<A>,
    merge_tree: &MergeTree<A>,
) -> Result<Tables<A>, Memory>
    requires { (ss : List SegmentView) × IsCut (plan_in plan.now) ss × IsMergeTreeOf (parts_of ss) merge_tree.now }
    ensures { IfOk result (λ tables. IsTablesOf plan.now.log plan.now.scenario tables) }
{
    let total = sums_of(alloc, plan, merge_tree)?;
    let skips = skips_beside(plan, &total);
    let procs = plan.scenario().procs();
    let tables = total.tables(procs, skips)?;
    Ok(tables)
}
