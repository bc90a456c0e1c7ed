// The jobs that start at a second: first waiting jobs while they fit, and then later jobs in one pass over
// the candidates.
ghost use Rattle.std.specs.Prelude.{◌≡◌, ◌↔◌, ◌<◌, ◌≤◌, [], Some, IsTrue, IsSomeAnd, OnOk, IfSome, slice_get, vec_len, vec_capacity};
ghost use Rattle.scenarios.specs.Limits.{seconds_end};
ghost use Rattle.cluster_state.specs.State.{ClusterView, IsSound, free};
ghost use Rattle.easy_rule.specs.Rule.{shadow_of};
ghost use Rattle.easy_rule.specs.Pass.{most_starts, candidates_from, IsPass};
ghost use Rattle.easy_rule.specs.Decision.{HasCapacity, IsBegun, IsDecision};

use crate::backfill::left_by;
use crate::candidate::next_candidate;
use crate::shadow_time::Shadow;
use cluster_state::Cluster;
use scenarios::Job;
use std::alloc::Allocator;
use swf_text::Memory;

pub(crate) fn most_starts<A: Allocator + Copy>(cluster: &Cluster<A>) -> usize
    ensures { result ≡ most_starts cluster.now.state }
{
    cluster.waiting_count().min(cluster.free() as usize)
}

pub(crate) fn capacity_for_starts<A: Allocator + Copy>(
    cluster: &mut Cluster<A>,
    chosen: &mut Vec<Job, A>,
) -> Result<(), Memory>
    ensures state { cluster.new.state ≡ cluster.old.state }
    ensures places { cluster.new.places ≡ cluster.old.places }
    ensures jobs { chosen.new.items ≡ chosen.old.items }
    ensures kept { cluster.old.spare ≤ cluster.new.spare }
    ensures capacity { OnOk result (HasCapacity cluster.new (vec_len chosen.new) (vec_capacity chosen.new)) }
{
    let count = most_starts(cluster);
    cluster.reserve_starts(count)?;
    chosen.reserve(count)?;
    Ok(())
}

fn head_fits<A: Allocator + Copy>(cluster: &Cluster<A>) -> bool
    ensures fits { IsTrue result ↔ IsSomeAnd (slice_get cluster.now.state.waiting 0) (λ head. head.size ≤ free cluster.now.state) }
    ensures sound { IsSound cluster.now.state }
{
    let free = cluster.free();
    match cluster.waiting_at(0) {
        Some(head) => head.size() <= free,
        None => false,
    }
}

pub(crate) fn start_heads<A: Allocator + Copy>(
    cluster: &mut Cluster<A>,
    chosen: &mut Vec<Job, A>,
    now: u64,
)
    requires now { now < seconds_end }
    requires none { chosen.old.items ≡ [] }
    requires capacity { HasCapacity cluster.old (vec_len chosen.old) (vec_capacity chosen.old) }
    ensures begun { IsBegun cluster.old cluster.new now chosen.new.items }
    ensures head { IfSome (slice_get cluster.new.state.waiting 0) (λ head. free cluster.new.state < head.size) }
    ensures capacity { HasCapacity cluster.new (vec_len chosen.new) (vec_capacity chosen.new) }
{
    'heads: while head_fits(cluster) {
        let Some(head) = cluster.start_head(now) else {
            unreachable!()
        };
        let Ok(()) = chosen.push(head) else {
            unreachable!()
        };
    }
}

pub(crate) fn pass_on<A: Allocator + Copy>(
    cluster: &mut Cluster<A>,
    chosen: &mut Vec<Job, A>,
    shadow: Shadow,
    place: usize,
    now: u64,
) -> Shadow
    requires now { now < seconds_end }
    requires pass { IsPass cluster.old.state now shadow (candidates_from cluster.old place) }
    requires capacity { HasCapacity cluster.old (vec_len chosen.old) (vec_capacity chosen.old) }
    ensures decided { (first : ClusterView) → IsBegun first cluster.old now chosen.old.items → IsDecision first cluster.new now chosen.new.items }
    ensures shadow { shadow_of cluster.new.state ≡ Some result }
{
    let mut left = shadow;
    let mut from = place;
    'candidates: while let Some((at, job)) = next_candidate(cluster, from, now, left) {
        let Ok(()) = chosen.push(job) else {
            unreachable!()
        };
        from = cluster.start_at(at, now);
        left = left_by(left, now, &job);
    }
    left
}
