ghost use Rattle.std.specs.Prelude.{◌≡◌, ◌≤◌, ◌<◌, IfOk, IfSome, nat_abs};
ghost use Rattle.swf_text.specs.Limits.{whole_limit};
ghost use Rattle.scenarios.specs.Limits.{factor_limit};
ghost use Rattle.scenarios.specs.Job.{IsWithinLimits};
ghost use Rattle.scenarios.specs.Effective.{effective, whole_field, positive, natural, size_of, run_of, base_of, estimate_of};

use crate::job::Job;
use crate::scenario::Scenario;
use crate::skip::Skip;
use std::alloc::Allocator;
use swf_text::Entry;

/// The longest estimate and length, in seconds.
pub const MAX_ESTIMATE: u64 = 100_000_000;

fn whole_field<A: Allocator + Copy>(entry: &Entry<A>, place: usize) -> i64
    requires low { 1 ≤ place }
    requires high { place ≤ 18 }
    ensures value { result ≡ whole_field entry.now.main place }
    ensures within { nat_abs result ≤ whole_limit }
{
    entry.whole(place)
}

fn natural(number: i64) -> Option<u64>
    ensures value { result ≡ natural number }
    ensures within { IfSome result (λ n. n ≤ nat_abs number) }
{
    u64::try_from(number).ok()
}

fn positive(number: i64) -> Option<u64>
    ensures value { result ≡ positive number }
    ensures within { IfSome result (λ n. n ≤ nat_abs number) }
{
    natural(number).filter(|n| *n > 0)
}

fn size_of<A: Allocator + Copy>(entry: &Entry<A>) -> Option<u64>
    ensures { result ≡ size_of entry.now.main }
{
    positive(whole_field(entry, 8)).or(positive(whole_field(entry, 5)))
}

fn run_of<A: Allocator + Copy>(entry: &Entry<A>) -> Option<u64>
    ensures value { result ≡ run_of entry.now.main }
    ensures within { IfSome result (λ n. n ≤ whole_limit) }
{
    natural(whole_field(entry, 4))
}

fn base_of<A: Allocator + Copy>(entry: &Entry<A>, run: u64) -> u64
    requires { run ≤ whole_limit }
    ensures value { result ≡ base_of entry.now.main run }
    ensures within { result ≤ whole_limit }
{
    match positive(whole_field(entry, 9)) {
        Some(asked) => asked,
        None => run,
    }
}

fn estimate_of(base: u64, factor: u64) -> u64
    requires base { base ≤ whole_limit }
    requires factor { factor ≤ factor_limit }
    ensures { result ≡ estimate_of base factor }
{
    (base * factor).div_ceil(1000).max(1)
}

/// The job that an entry is under a scenario, or the first reason to skip it.
///
/// The size is the requested processors (field 8) if above 0, otherwise the allocated ones
/// (field 5); the run time is field 4. The base estimate is the requested time (field 9) if above
/// 0, otherwise the run time; the estimate is the base times the factor, rounded up, and at least
/// one second. The job runs for its run time, at least one second, and at its estimate it is
/// killed. Fields are taken to the nearest whole number.
pub fn effective<A: Allocator + Copy>(entry: &Entry<A>, scenario: &Scenario) -> Result<Job, Skip>
    ensures job { result ≡ effective entry.now scenario.now }
    ensures limits { IfOk result IsWithinLimits }
{
    let size = size_of(entry).ok_or(Skip::NoSize)?;
    let run = run_of(entry).ok_or(Skip::NoRun)?;
    if size > scenario.procs() {
        return Err(Skip::TooLarge);
    }
    let estimate = estimate_of(base_of(entry, run), scenario.factor());
    if estimate > MAX_ESTIMATE {
        return Err(Skip::TooLong);
    }
    Ok(Job {
        number: entry.number(),
        submit: entry.submit(),
        user: whole_field(entry, 12),
        size: size as u32,
        estimate: estimate as u32,
        length: run.min(estimate).max(1) as u32,
        killed: estimate < run,
    })
}
