ghost use Rattle.std.specs.Prelude.{◌≡◌, ◌<◌, ◌+◌, [], OnOk, OnErr, IfOk, IfSome};
ghost use Rattle.scenarios.specs.Limits.{seconds_end};
ghost use Rattle.scenarios.specs.PlanView.{plan_in};
ghost use Rattle.scenarios.specs.SoundPlan.{IsPlan};
ghost use Rattle.easy_rule.specs.Rule.{shadow_of};
ghost use Rattle.easy_rule.specs.Simulation.{joined, submitted};
ghost use Rattle.event_loop.specs.Upcoming.{IsUpcoming};
ghost use Rattle.event_loop.specs.Second.{IsDecided, IsDue};

use crate::last_shadow::decide_knowing;
use crate::upcoming::Upcoming;
use cluster_state::Cluster;
use easy_rule::{Shadow, start_at_once, starts_at_once};
use scenarios::{Job, PlanRef};
use std::alloc::Allocator;
use swf_text::Memory;

// Where `last_shadow` is known, nobody who waits may start. A job that arrives alone and starts doesn't join
// the queue before.
pub(crate) fn arrive_and_decide<A: Allocator + Copy>(
    cluster: &mut Cluster<A>,
    upcoming: &mut Upcoming<A>,
    plan: &PlanRef<'_, A>,
    started: &mut Vec<Job, A>,
    last_shadow: Option<Shadow>,
    second: u64,
) -> Result<Option<Shadow>, Memory>
    requires now { second < seconds_end }
    requires plan { IsPlan (plan_in plan.now) }
    requires due { IsDue (plan_in plan.now) second cluster.old.state upcoming.old last_shadow }
    ensures decided { OnOk result (IsDecided (joined cluster.old.state (submitted (plan_in plan.now) second)) second started.new.items cluster.new.state) }
    ensures upcoming { OnOk result (IsUpcoming upcoming.new (second + 1) (plan_in plan.now).jobs) }
    ensures shadow { IfOk result (λ left. IfSome left (λ w. shadow_of cluster.new.state ≡ Some w)) }
    ensures running { OnErr result (cluster.new.state.running ≡ cluster.old.state.running) }
    ensures empty { OnErr result (started.old.items ≡ [] → started.new.items ≡ []) }
{
    if let Some(job) = upcoming.only_at(plan, second)? {
        if starts_at_once(cluster, &job, last_shadow, second) {
            upcoming.pass();
            return start_at_once(cluster, started, job, last_shadow, second);
        }
    }
    let settled = cluster.waiting_count();
    upcoming.arrive(cluster, plan, second)?;
    decide_knowing(cluster, started, last_shadow, settled, second)
}
