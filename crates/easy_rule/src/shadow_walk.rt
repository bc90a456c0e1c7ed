ghost use Rattle.std.specs.Prelude.{◌≡◌, ◌<◌, ◌≤◌, ◌+◌, IfSome, MatchOption};
ghost use Rattle.cluster_state.specs.State.{available, free};
ghost use Rattle.cluster_state.specs.Ends.{block_limit};
ghost use Rattle.easy_rule.specs.Rule.{IsLeast, IsShadow, shadow_of, shadow_at, ends_read};

use crate::shadow_time::Shadow;
use cluster_state::Cluster;
use std::alloc::Allocator;

// It walks over the running jobs in the order of their expected ends, until they have given back
// enough. First ones that don't give back enough together are passed over, so that the first 128 of the
// others do. Where more of them are expected to end at that same second, what all give back by then is
// added up block by block: an array of jobs may have one expected end.
fn walk<A: Allocator + Copy>(cluster: &Cluster<A>, need: u64) -> (Shadow, u64)
    requires wants { free cluster.now.state < need }
    requires within { need ≤ cluster.now.state.procs }
    ensures shadow { result.0 ≡ shadow_at cluster.now.state need }
    ensures least { IsLeast (λ t. need ≤ available cluster.now.state t) result.0.time }
    ensures reads { result.1 ≤ ends_read cluster.now.state result.0.time }
    ensures few { result.1 ≤ block_limit + 1 }
{
    let (mut capacity, rest) = cluster.running_past(need);
    let mut time = 0;
    let mut reads = 0;
    for r in rest {
        let end = r.expected_end();
        reads += 1;
        if need <= capacity {
            if time < end {
                let extra = capacity - need;
                return (Shadow { time, extra }, reads);
            }
            let extra = cluster.available(time) - need;
            return (Shadow { time, extra }, reads);
        }
        time = end;
        capacity += r.job.size();
    }
    let extra = capacity - need;
    (Shadow { time, extra }, reads)
}

pub(crate) fn shadow_for<A: Allocator + Copy>(cluster: &Cluster<A>, need: u64) -> Shadow
    requires wants { free cluster.now.state < need }
    requires within { need ≤ cluster.now.state.procs }
    ensures shadow { result ≡ shadow_at cluster.now.state need }
    ensures least { IsLeast (λ t. need ≤ available cluster.now.state t) result.time }
{
    let (shadow, _) = walk(cluster, need);
    shadow
}

/// As `shadow`, and how often its walk read a running job's expected end: at most once of each up to the
/// shadow time, and of the first past it, if there is one, and never where there is no shadow. Those that
/// are passed over together are not read one by one, so it is 129 times at most; the walk is all that goes
/// over jobs one by one, beside those of one block that are expected to end at the shadow time.
pub fn shadow_counted<A: Allocator + Copy>(cluster: &Cluster<A>) -> (Option<Shadow>, u64)
    ensures value { result.0 ≡ shadow_of cluster.now.state }
    ensures least { IfSome result.0 (λ w. IsShadow cluster.now.state w) }
    ensures reads { MatchOption result.0 (result.1 ≡ 0) (λ w. result.1 ≤ ends_read cluster.now.state w.time) }
    ensures few { result.1 ≤ block_limit + 1 }
{
    let Some(head) = cluster.waiting_at(0) else {
        return (None, 0);
    };
    if head.size() <= cluster.free() {
        return (None, 0);
    }
    let (shadow, reads) = walk(cluster, head.size());
    (Some(shadow), reads)
}

/// When the first waiting job can start at the latest, and what it leaves over then, if each running
/// job ends when it is expected to; none where no job waits or the first one fits now.
///
/// All running jobs that are expected to end at the shadow time count (Mu'alem and Feitelson, IEEE
/// TPDS 12(6), 2001).
pub fn shadow<A: Allocator + Copy>(cluster: &Cluster<A>) -> Option<Shadow>
    ensures value { result ≡ shadow_of cluster.now.state }
    ensures least { IfSome result (λ w. IsShadow cluster.now.state w) }
{
    let (shadow, _) = shadow_counted(cluster);
    shadow
}
