ghost use Rattle.std.specs.Prelude.{◌≡◌, ℕ, ◌+◌, ◌≤◌, ◌<◌, length, sum_by};
ghost use Rattle.swf_text.specs.Limits.{entry_limit, whole_limit};
ghost use Rattle.scenarios.specs.Plan.{Plan};
ghost use Rattle.cluster_state.specs.State.{empty};
ghost use Rattle.easy_rule.specs.Simulation.{before, bound, last_submit};
ghost use Rattle.scenarios.specs.SoundPlan.{IsPlan};

use scenarios::Job;

/// The greatest submit second of these jobs, and 0 where there are none.
pub fn last_submit(jobs: &[Job]) -> u64
    ensures value { result ≡ last_submit jobs.now }
    ensures limit { result ≤ whole_limit }
{
    let mut last = 0;
    for job in jobs {
        last = job.submit().max(last);
    }
    last
}

fn total_length(jobs: &[Job]) -> u64
    requires { length jobs.now ≤ entry_limit }
    ensures value { result ≡ sum_by (λ j. j.length) jobs.now }
    ensures limit { result ≤ 419430400000000 }
{
    let mut total = 0;
    for job in jobs {
        total += job.length();
    }
    total
}

/// A second by which all of these jobs have ended, on any machine that they fit and in either order
/// of backfills: the greatest submit second and all lengths.
///
/// From the greatest submit second on, no second passes at which nobody runs while a job waits.
pub fn bound(jobs: &[Job]) -> u64
    requires { length jobs.now ≤ entry_limit }
    ensures value { (plan : Plan) → plan.jobs ≡ jobs.now → result ≡ bound plan }
    ensures ended { (plan : Plan) (t : ℕ) → plan.jobs ≡ jobs.now → IsPlan plan → result < t → before plan t ≡ empty plan.procs plan.order }
{
    last_submit(jobs) + total_length(jobs)
}
