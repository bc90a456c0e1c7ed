ghost use Rattle.std.specs.Prelude.{◌≡◌, None, IfNone, IfSome, length};
ghost use Rattle.waiting_places.specs.Offers.{holds};
ghost use Rattle.waiting_places.specs.Places.{IsFirst};
ghost use Rattle.cluster_state.specs.State.{IsSound, free};
ghost use Rattle.cluster_state.specs.Candidates.{AreCandidates};
ghost use Rattle.easy_rule.specs.Rule.{may_backfill, next};
ghost use Rattle.easy_rule.specs.Pass.{candidates_from, IsCandidate, IsPass};

use crate::backfill::offer;
use crate::shadow_time::Shadow;
use cluster_state::Cluster;
use scenarios::Job;
use std::alloc::Allocator;

pub(crate) fn next_place<A: Allocator + Copy>(
    cluster: &mut Cluster<A>,
    from: usize,
    now: u64,
    shadow: Shadow,
) -> Option<usize>
    ensures first { IsFirst (holds (may_backfill now (free cluster.old.state) shadow)) cluster.old.places from (length cluster.old.places) result }
    ensures same { cluster.new ≡ cluster.old }
    ensures candidates { AreCandidates cluster.old }
    ensures sound { IsSound cluster.old.state }
{
    let offer = offer(now, cluster.free(), shadow);
    cluster.next_fit(from, &offer)
}

// Nobody at a place before `from` may start.
pub(crate) fn next_candidate<A: Allocator + Copy>(
    cluster: &mut Cluster<A>,
    from: usize,
    now: u64,
    shadow: Shadow,
) -> Option<(usize, Job)>
    requires { IsPass cluster.old.state now shadow (candidates_from cluster.old from) }
    ensures none { IfNone result (next cluster.old.state now ≡ None) }
    ensures some { IfSome result (λ found. IsCandidate cluster.old now shadow found.0 found.1) }
    ensures same { cluster.new ≡ cluster.old }
    ensures sound { IsSound cluster.old.state }
{
    if cluster.free() == 0 {
        return None;
    }
    let place = next_place(cluster, from, now, shadow)?;
    let Some(job) = cluster.job_at(place) else {
        unreachable!()
    };
    Some((place, *job))
}
