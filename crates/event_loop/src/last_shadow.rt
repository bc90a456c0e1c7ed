ghost use Rattle.std.specs.Prelude.{◌≡◌, ◌<◌, OnOk, OnErr, IfOk, IfSome, Some, All};
ghost use Rattle.scenarios.specs.Limits.{seconds_end};
ghost use Rattle.scenarios.specs.Placed.{real_end};
ghost use Rattle.easy_rule.specs.Rule.{shadow_of};
ghost use Rattle.easy_rule.specs.Decision.{IsDecision, IsSettledFront, IsUndecided};

use cluster_state::Cluster;
use easy_rule::{Shadow, decide_behind, decide_into};
use scenarios::Job;
use std::alloc::Allocator;
use swf_text::Memory;

pub(crate) fn standing_at<A: Allocator + Copy>(
    cluster: &Cluster<A>,
    last_shadow: Option<Shadow>,
    second: u64,
) -> Option<Shadow>
    ensures last_shadow { IfSome result (λ w. last_shadow ≡ Some w) }
    ensures stands { IfSome result (λ _. All (λ r. second < real_end r) cluster.now.state.running) }
    ensures kept { All (λ r. second < real_end r) cluster.now.state.running → result ≡ last_shadow }
{
    if cluster.next_end().is_some_and(|end| end <= second) {
        return None;
    }
    last_shadow
}

// Where `last_shadow` is known, nobody of the first `settled` waiting jobs may start, and only those
// behind them are looked at.
pub(crate) fn decide_knowing<A: Allocator + Copy>(
    cluster: &mut Cluster<A>,
    started: &mut Vec<Job, A>,
    last_shadow: Option<Shadow>,
    settled: usize,
    now: u64,
) -> Result<Option<Shadow>, Memory>
    requires now { now < seconds_end }
    requires last_shadow { IfSome last_shadow (λ w. IsSettledFront cluster.old.state now settled w) }
    ensures ok { OnOk result (IsDecision cluster.old cluster.new now started.new.items) }
    ensures shadow { IfOk result (λ left. IfSome left (λ w. shadow_of cluster.new.state ≡ Some w)) }
    ensures err { OnErr result (IsUndecided cluster.old cluster.new started.new.items) }
{
    let Some(shadow) = last_shadow else {
        return decide_into(cluster, started, now);
    };
    let left = decide_behind(cluster, started, settled, shadow, now)?;
    Ok(Some(left))
}
