ghost use Rattle.std.specs.Prelude.{◌≡◌, ◌≤◌, IfOk, IfSome, nat_abs};
ghost use Rattle.swf_text.specs.Limits.{whole_limit};
ghost use Rattle.swf_text.specs.Number.{whole_of, greatest};
ghost use Rattle.scenarios.specs.Limits.{factor_limit};
ghost use Rattle.scenarios.specs.Job.{IsWithinLimits};
ghost use Rattle.scenarios.specs.Effective.{effective, whole_field, positive, size_of, estimate_of};

use crate::job::PlainJob;
use scenarios::{MAX_ESTIMATE, Scenario, Skip};
use std::alloc::Allocator;
use swf_text::{Entry, Fields};

// The nearest whole number to so many millionths, halves up.
fn rounded(millionths: i64) -> i64
    requires { nat_abs millionths ≤ greatest }
    ensures value { result ≡ whole_of millionths }
    ensures within { nat_abs result ≤ whole_limit }
{
    (millionths + 500_000).div_euclid(1_000_000)
}

fn whole_field(line: &Fields, place: usize) -> i64
    requires low { 1 ≤ place }
    requires high { place ≤ 18 }
    ensures value { result ≡ whole_field line.now.0 place }
    ensures within { nat_abs result ≤ whole_limit }
{
    rounded(line.0[place - 1].millionths())
}

fn positive(number: i64) -> Option<u64>
    ensures value { result ≡ positive number }
    ensures within { IfSome result (λ n. n ≤ nat_abs number) }
{
    if number <= 0 {
        return None;
    }
    Some(number as u64)
}

fn size_of(line: &Fields) -> Option<u64>
    ensures { result ≡ size_of line.now.0 }
{
    let asked = positive(whole_field(line, 8));
    if asked.is_some() {
        return asked;
    }
    positive(whole_field(line, 5))
}

fn estimate_of(base: u64, factor: u64) -> u64
    requires base { base ≤ whole_limit }
    requires factor { factor ≤ factor_limit }
    ensures { result ≡ estimate_of base factor }
{
    ((base * factor + 999) / 1000).max(1)
}

/// The job of an entry under a scenario, or the first reason to skip it: without a size or a run
/// time, larger than the machine, or with an estimate above 100,000,000 seconds.
pub fn effective<A: Allocator + Copy>(
    entry: &Entry<A>,
    scenario: &Scenario,
) -> Result<PlainJob, Skip>
    ensures job { result ≡ effective entry.now scenario.now }
    ensures limits { IfOk result IsWithinLimits }
{
    let line = entry.main();
    let size = size_of(&line).ok_or(Skip::NoSize)?;
    let run = whole_field(&line, 4);
    if run < 0 {
        return Err(Skip::NoRun);
    }
    if size > scenario.procs() {
        return Err(Skip::TooLarge);
    }
    let run = run as u64;
    let base = positive(whole_field(&line, 9)).unwrap_or(run);
    let estimate = estimate_of(base, scenario.factor());
    if estimate > MAX_ESTIMATE {
        return Err(Skip::TooLong);
    }
    Ok(PlainJob {
        number: entry.number(),
        submit: entry.submit(),
        user: whole_field(&line, 12),
        size,
        estimate,
        length: run.min(estimate).max(1),
        killed: estimate < run,
    })
}
