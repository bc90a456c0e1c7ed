ghost use Rattle.std.specs.Prelude.{◌≡◌, ◌<◌, Some, None, OnOk, OnErr, IsOk, IfOk, drop};
ghost use Rattle.std.specs.List.{list_any};
ghost use Rattle.scenarios.specs.Limits.{seconds_end};
ghost use Rattle.cluster_state.specs.State.{free};
ghost use Rattle.easy_rule.specs.Rule.{may_backfill, next, shadow_of};
ghost use Rattle.easy_rule.specs.Decision.{IsDecision, IsSettledFront, IsUndecided};

use crate::backfill::backfills;
use crate::pass::{capacity_for_starts, pass_on};
use crate::shadow_time::Shadow;
use cluster_state::Cluster;
use scenarios::Job;
use std::alloc::Allocator;
use swf_text::Memory;

fn may_any<A: Allocator + Copy>(
    cluster: &Cluster<A>,
    settled: usize,
    now: u64,
    shadow: Shadow,
) -> bool
    ensures { result ≡ list_any (may_backfill now (free cluster.now.state) shadow) (drop settled cluster.now.state.waiting) }
{
    let free = cluster.free();
    for job in cluster.arrived_since(settled) {
        if backfills(job, now, free, shadow) {
            return true;
        }
    }
    false
}

/// As `decide_into`, where the state's shadow is known and nobody of the first `settled` waiting jobs
/// may start: so it is where only jobs have arrived, behind these, since the last decision. It looks
/// at the jobs behind them alone, unless one of these may start.
///
/// Memory where a growth was refused; no job has started then, and the list is empty.
pub fn decide_behind<A: Allocator + Copy>(
    cluster: &mut Cluster<A>,
    chosen: &mut Vec<Job, A>,
    settled: usize,
    shadow: Shadow,
    now: u64,
) -> Result<Shadow, Memory>
    requires now { now < seconds_end }
    requires settled { IsSettledFront cluster.old.state now settled shadow }
    ensures ok { OnOk result (IsDecision cluster.old cluster.new now chosen.new.items) }
    ensures shadow { IfOk result (λ left. shadow_of cluster.new.state ≡ Some left) }
    ensures settled { next cluster.old.state now ≡ None → IsOk result }
    ensures err { OnErr result (IsUndecided cluster.old cluster.new chosen.new.items) }
{
    chosen.clear();
    if !may_any(cluster, settled, now, shadow) {
        return Ok(shadow);
    }
    capacity_for_starts(cluster, chosen)?;
    let place = cluster.place_behind(settled);
    Ok(pass_on(cluster, chosen, shadow, place, now))
}
