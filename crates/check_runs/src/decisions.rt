// Decisions behind jobs that are known to wait.
use crate::engines::are;
use cluster_state::Cluster;
use easy_rule::laws::{arrivals_unsettle_nobody, easy_is_a_rule};
use easy_rule::{Shadow, Start, add_starts, decide_behind, decide_into};
use scenarios::{Job, Order};
use std::alloc::Allocator;
use swf_text::Memory;

/// What job 2 leaves at 100.
const NOTHING_LEFT: Shadow = Shadow {
    time: 100,
    extra: 0,
};

// Whether this job, which comes alone at second 0, starts then.
fn begins_alone<A: Allocator + Copy>(
    cluster: &mut Cluster<A>,
    chosen: &mut Vec<Job, A>,
    job: Job,
) -> Result<bool, Memory> {
    if !cluster.can_arrive(&job) {
        return Ok(false);
    }
    cluster.arrive(job)?;
    decide_into(cluster, chosen, 0)?;
    Ok(chosen.len() == 1)
}

// Decides second 1, at which the second job comes, and second 2, at which the two last come, behind
// those that are known to wait; returns what the second job leaves then. The jobs that start in the
// last of these seconds are left in the list.
fn decide_two_seconds<A: Allocator + Copy>(
    cluster: &mut Cluster<A>,
    chosen: &mut Vec<Job, A>,
    second: Job,
    third: Job,
    fourth: Job,
) -> Result<Option<Shadow>, Memory> {
    if !cluster.can_arrive(&second) {
        return Ok(None);
    }
    cluster.arrive(second)?;
    let Some(shadow) = decide_into(cluster, chosen, 1)? else {
        return Ok(None);
    };
    easy_is_a_rule();
    let settled = cluster.waiting_count();
    if !cluster.can_arrive(&third) {
        return Ok(None);
    }
    cluster.arrive(third)?;
    if !cluster.can_arrive(&fourth) {
        return Ok(None);
    }
    cluster.arrive(fourth)?;
    arrivals_unsettle_nobody();
    Ok(Some(decide_behind(cluster, chosen, settled, shadow, 2)?))
}

/// The last two of four jobs start at second 2, in the order of backfills, behind the second one.
pub(crate) fn decides_behind<A: Allocator + Copy>(
    cluster: &mut Cluster<A>,
    chosen: &mut Vec<Job, A>,
    starts: &mut Vec<Start, A>,
    jobs: &[Job; 4],
) -> Result<bool, Memory> {
    if !begins_alone(cluster, chosen, jobs[0])? {
        return Ok(false);
    }
    let left = decide_two_seconds(cluster, chosen, jobs[1], jobs[2], jobs[3])?;
    add_starts(starts, chosen, 2)?;
    let wanted = match cluster.order() {
        Order::Arrival => [(3, 2), (4, 2)],
        Order::Shortest => [(4, 2), (3, 2)],
    };
    Ok(left == Some(NOTHING_LEFT) && are(starts, &wanted))
}
