//! A job that arrives at a second at which no other does, and starts then.

ghost use Rattle.std.specs.Prelude.{◌≡◌, ◌<◌, ◌↔◌, OnOk, OnErr, IfOk, IfSome, IsTrue, length};
ghost use Rattle.scenarios.specs.Limits.{seconds_end};
ghost use Rattle.cluster_state.specs.State.{IsSound, arrived};
ghost use Rattle.easy_rule.specs.Rule.{shadow_of};
ghost use Rattle.easy_rule.specs.Decision.{IsDecision, IsSettledFront, IsUndecided};
ghost use Rattle.easy_rule.specs.AtOnce.{StartsAtOnce, with_arrival};
ghost use Rattle.easy_rule.specs.Pass.{less};
ghost use Rattle.std.specs.Option.{option_map};

use crate::backfill::{backfills, left_by};
use crate::shadow_time::Shadow;
use cluster_state::Cluster;
use scenarios::Job;
use std::alloc::Allocator;
use swf_text::Memory;

/// Whether a job that arrives alone is known to start at once: nobody waits and it fits, or the state's
/// shadow is known and the job may start in the place of the head.
pub fn starts_at_once<A: Allocator + Copy>(
    cluster: &Cluster<A>,
    job: &Job,
    last_shadow: Option<Shadow>,
    now: u64,
) -> bool
    ensures { IsTrue result ↔ StartsAtOnce cluster.now.state now last_shadow job.now }
{
    let free = cluster.free();
    match last_shadow {
        None => cluster.waiting_count() == 0 && job.size() <= free,
        Some(shadow) => backfills(job, now, free, shadow),
    }
}

/// Starts a job that arrives alone at second `now`, where `starts_at_once` holds and nobody who waits may
/// start, and leaves it in a lent list; what was in it before is forgotten. Nobody else starts then.
/// Returns the shadow of the state that it leaves, where it is known.
///
/// The job doesn't join the queue. It takes memory only where the list or the cluster has no capacity for
/// one start. Memory where a growth was refused; the job has not arrived then, and the list is empty.
pub fn start_at_once<A: Allocator + Copy>(
    cluster: &mut Cluster<A>,
    chosen: &mut Vec<Job, A>,
    job: Job,
    last_shadow: Option<Shadow>,
    now: u64,
) -> Result<Option<Shadow>, Memory>
    requires now { now < seconds_end }
    requires sound { IsSound (arrived cluster.old.state job) }
    requires starts { StartsAtOnce cluster.old.state now last_shadow job }
    requires settled { IfSome last_shadow (λ w. IsSettledFront (arrived cluster.old.state job) now (length cluster.old.state.waiting) w) }
    ensures ok { OnOk result (IsDecision (with_arrival cluster.old job) cluster.new now chosen.new.items) }
    ensures shadow { IfOk result (λ left. IfSome left (λ w. shadow_of cluster.new.state ≡ Some w)) }
    ensures err { OnErr result (IsUndecided cluster.old cluster.new chosen.new.items) }
{
    chosen.clear();
    cluster.reserve_starts(1)?;
    chosen.reserve(1)?;
    cluster.start_arriving(job, now);
    let Ok(()) = chosen.push(job) else {
        unreachable!()
    };
    Ok(left_at_once(last_shadow, now, &job))
}

fn left_at_once(last_shadow: Option<Shadow>, now: u64, job: &Job) -> Option<Shadow>
    ensures { result ≡ option_map (λ w. less w now job.now) last_shadow }
{
    match last_shadow {
        None => None,
        Some(shadow) => Some(left_by(shadow, now, job)),
    }
}
