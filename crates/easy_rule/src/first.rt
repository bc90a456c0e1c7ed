// Who starts first at a second: `Nobody` has the shadow of the state, where it was looked for, and `Later`
// has the shadow that the first waiting job leaves, and a place of the candidates. What starts jobs returns
// the shadow of the state that it leaves, where it came to know it.
ghost use Rattle.std.specs.Prelude.{◌≡◌, ◌<◌, [], IfSome, slice_get, vec_len, vec_capacity};
ghost use Rattle.scenarios.specs.Limits.{seconds_end};
ghost use Rattle.cluster_state.specs.State.{ClusterView, free};
ghost use Rattle.easy_rule.specs.Decision.{HasCapacity, IsBegun, IsDecision, IsAnswered};
ghost use Rattle.easy_rule.specs.First.{IsFirstStart};

use crate::candidate::next_place;
use crate::pass::{pass_on, start_heads};
use crate::shadow_time::Shadow;
use crate::shadow_walk::shadow_for;
use cluster_state::Cluster;
use scenarios::Job;
use std::alloc::Allocator;

#[derive(Clone, Copy)]
pub(crate) enum FirstStart {
    Nobody(Option<Shadow>),
    Head,
    Later(Shadow, usize),
}

pub(crate) fn first_start<A: Allocator + Copy>(cluster: &mut Cluster<A>, now: u64) -> FirstStart
    ensures first { IsFirstStart cluster.old now result }
    ensures same { cluster.new ≡ cluster.old }
{
    let free = cluster.free();
    let Some(head) = cluster.waiting_at(0) else {
        return FirstStart::Nobody(None);
    };
    if free == 0 {
        return FirstStart::Nobody(None);
    }
    let need = head.size();
    if need <= free {
        return FirstStart::Head;
    }
    let shadow = shadow_for(cluster, need);
    match next_place(cluster, 0, now, shadow) {
        None => FirstStart::Nobody(Some(shadow)),
        Some(place) => FirstStart::Later(shadow, place),
    }
}

pub(crate) fn start_from<A: Allocator + Copy>(
    cluster: &mut Cluster<A>,
    chosen: &mut Vec<Job, A>,
    first: FirstStart,
    now: u64,
) -> Option<Shadow>
    requires now { now < seconds_end }
    requires first { IsFirstStart cluster.old now first }
    requires none { chosen.old.items ≡ [] }
    requires capacity { HasCapacity cluster.old (vec_len chosen.old) (vec_capacity chosen.old) }
    ensures decided { IsDecision cluster.old cluster.new now chosen.new.items }
    ensures outcome { IsAnswered cluster.new.state result }
{
    match first {
        FirstStart::Nobody(left) => left,
        FirstStart::Head => {
            start_heads(cluster, chosen, now);
            start_later(cluster, chosen, now)
        }
        FirstStart::Later(shadow, place) => { Some(pass_on(cluster, chosen, shadow, place, now)) }
    }
}

fn start_later<A: Allocator + Copy>(
    cluster: &mut Cluster<A>,
    chosen: &mut Vec<Job, A>,
    now: u64,
) -> Option<Shadow>
    requires now { now < seconds_end }
    requires head { IfSome (slice_get cluster.old.state.waiting 0) (λ head. free cluster.old.state < head.size) }
    requires capacity { HasCapacity cluster.old (vec_len chosen.old) (vec_capacity chosen.old) }
    ensures decided { (first : ClusterView) → IsBegun first cluster.old now chosen.old.items → IsDecision first cluster.new now chosen.new.items }
    ensures outcome { IsAnswered cluster.new.state result }
{
    match first_start(cluster, now) {
        FirstStart::Nobody(left) => left,
        FirstStart::Head => unreachable!(),
        FirstStart::Later(shadow, place) => { Some(pass_on(cluster, chosen, shadow, place, now)) }
    }
}
