ghost use Rattle.std.specs.Prelude.{◌≡◌};
ghost use Rattle.scenarios.specs.Job.{EffectiveJob, IsWithinLimits};
ghost use Rattle.cluster_state.specs.Candidates.{fits_offer};
ghost use Rattle.easy_rule.specs.Rule.{may_backfill};
ghost use Rattle.easy_rule.specs.Pass.{less};

use crate::shadow_time::Shadow;
use scenarios::Job;
use waiting_places::Offer;

pub(crate) fn backfills(job: &Job, now: u64, free: u64, shadow: Shadow) -> bool
    ensures { result ≡ may_backfill now free shadow job.now }
{
    job.size() <= free
        && (now <= shadow.time && job.estimate() <= shadow.time - now || job.size() <= shadow.extra)
}

pub(crate) fn offer(now: u64, free: u64, shadow: Shadow) -> Offer
    ensures { (j : EffectiveJob) → IsWithinLimits j → fits_offer result j ≡ may_backfill now free shadow j }
{
    Offer {
        free,
        extra: shadow.extra.min(free),
        window: shadow.time.saturating_sub(now),
    }
}

pub(crate) fn left_by(shadow: Shadow, now: u64, job: &Job) -> Shadow
    ensures { result ≡ less shadow now job.now }
{
    if now <= shadow.time && job.estimate() <= shadow.time - now {
        return shadow;
    }
    Shadow {
        time: shadow.time,
        extra: shadow.extra.saturating_sub(job.size()),
    }
}
