ghost use Rattle.std.specs.Prelude.{◌≡◌, ◌+◌, ◌<◌, ◌≤◌, OnOk, OnErr, IsOk, IfOk, None, length};
ghost use Rattle.scenarios.specs.Limits.{seconds_end};
ghost use Rattle.easy_rule.specs.Rule.{next, state_after, starts_at};
ghost use Rattle.easy_rule.specs.Decision.{IsDecision, IsAnswered, IsUndecided};

use crate::first::{FirstStart, first_start, start_from};
use crate::pass::{capacity_for_starts, most_starts};
use crate::shadow_time::Shadow;
use crate::start::{Start, add_starts};
use cluster_state::Cluster;
use scenarios::Job;
use std::alloc::Allocator;
use swf_text::Memory;

/// Starts the jobs that start at second `now`, and returns these starts in order.
///
/// The first waiting job starts while it fits. Otherwise the first later one that fits starts, in
/// the order of the cluster, if it is expected to end by the shadow time or takes no more than the
/// extra processors; then the search begins again (Lifka 1995; Mu'alem and Feitelson, IEEE TPDS
/// 12(6), 2001). It is done in one pass over the queue: a job that may not start now may not start
/// after the starts of others either.
///
/// Each start takes up one of the cluster's capacity for starts at most, and nothing else takes any.
/// Memory where a growth was refused; no job has started then. It takes no memory where no job
/// starts.
pub fn decide<A: Allocator + Copy>(
    alloc: A,
    cluster: &mut Cluster<A>,
    now: u64,
) -> Result<Vec<Start, A>, Memory>
    requires { now < seconds_end }
    ensures state { OnOk result (cluster.new.state ≡ state_after cluster.old.state now) }
    ensures starts { IfOk result (λ starts. starts.items ≡ starts_at cluster.old.state now) }
    ensures capacity { IfOk result (λ starts. cluster.old.spare ≤ cluster.new.spare + length starts.items) }
    ensures settled { next cluster.old.state now ≡ None → IsOk result }
    ensures err { OnErr result (cluster.new.state ≡ cluster.old.state) }
    ensures spare { OnErr result (cluster.old.spare ≤ cluster.new.spare) }
{
    let first = first_start(cluster, now);
    if let FirstStart::Nobody(_) = first {
        return Ok(Vec::new(alloc));
    }
    let mut chosen = Vec::new(alloc);
    capacity_for_starts(cluster, &mut chosen)?;
    let mut starts = Vec::with_capacity(alloc, most_starts(cluster))?;
    let _left = start_from(cluster, &mut chosen, first, now);
    let Ok(()) = add_starts(&mut starts, &chosen, now) else {
        unreachable!()
    };
    Ok(starts)
}

/// As `decide`, and leaves the jobs that start, in order, in a lent list; what was in it before is
/// forgotten. Returns the shadow of the state that it leaves, where it came to know it. It does where
/// there is one and a processor is free.
///
/// It takes memory only where the list or the cluster has no capacity for as many starts as there can be
/// at once. Memory where a growth was refused; no job has started then, and the list is empty.
pub fn decide_into<A: Allocator + Copy>(
    cluster: &mut Cluster<A>,
    chosen: &mut Vec<Job, A>,
    now: u64,
) -> Result<Option<Shadow>, Memory>
    requires { now < seconds_end }
    ensures ok { OnOk result (IsDecision cluster.old cluster.new now chosen.new.items) }
    ensures outcome { IfOk result (λ outcome. IsAnswered cluster.new.state outcome) }
    ensures settled { next cluster.old.state now ≡ None → IsOk result }
    ensures err { OnErr result (IsUndecided cluster.old cluster.new chosen.new.items) }
{
    chosen.clear();
    let first = first_start(cluster, now);
    if let FirstStart::Nobody(left) = first {
        return Ok(left);
    }
    capacity_for_starts(cluster, chosen)?;
    Ok(start_from(cluster, chosen, first, now))
}
