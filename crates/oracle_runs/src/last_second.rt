ghost use Rattle.std.specs.Prelude.{◌≡◌, ◌+◌, ◌≤◌, length, sum_by};
ghost use Rattle.swf_text.specs.Limits.{entry_limit, whole_limit};
ghost use Rattle.scenarios.specs.Plan.{Plan};
ghost use Rattle.easy_rule.specs.Simulation.{bound, last_submit};

use crate::job::PlainJob;

pub(crate) fn last_submit(jobs: &[PlainJob]) -> u64
    ensures value { result ≡ last_submit jobs.now }
    ensures limit { result ≤ whole_limit }
{
    let mut last = 0;
    for job in jobs {
        last = job.submit().max(last);
    }
    last
}

fn total_length(jobs: &[PlainJob]) -> u64
    requires { length jobs.now ≤ entry_limit }
    ensures value { result ≡ sum_by (λ j. j.length) jobs.now }
    ensures limit { result ≤ 419430400000000 }
{
    let mut total = 0;
    for job in jobs {
        total += job.length();
    }
    total
}

pub(crate) fn bound(jobs: &[PlainJob]) -> u64
    requires { length jobs.now ≤ entry_limit }
    ensures { (plan : Plan) → plan.jobs ≡ jobs.now → result ≡ bound plan }
{
    last_submit(jobs) + total_length(jobs)
}
