ghost use Rattle.easy_rule.specs.Examples.{FourJobs, EndsAtTheShadowTime, EndsAfterTheShadowTime};
ghost use Rattle.easy_rule.specs.Examples.{TakesTheExtraOnce, CountsAllThatEnd, EndsAtItsEstimate};
ghost use Rattle.easy_rule.specs.Examples.{BackfillsByArrival, BackfillsByEstimate};
ghost use Rattle.easy_rule.specs.Examples.{BreaksTiesByArrival};

/// The four-job log: a job is backfilled that ends before the shadow time, then one that takes the
/// extra processors.
pub fn four_jobs()
    ensures { FourJobs }
{}

/// A job that is expected to end exactly at the shadow time is backfilled.
pub fn ends_at_the_shadow_time()
    ensures { EndsAtTheShadowTime }
{}

/// A job that is expected to end a second later and takes more than the extra processors is not.
pub fn ends_after_the_shadow_time()
    ensures { EndsAfterTheShadowTime }
{}

/// The extra processors are given once.
pub fn takes_the_extra_once()
    ensures { TakesTheExtraOnce }
{}

/// All running jobs that are expected to end at the shadow time count towards the extra processors.
pub fn counts_all_that_end()
    ensures { CountsAllThatEnd }
{}

/// A job is ended at its estimate.
pub fn ends_at_its_estimate()
    ensures { EndsAtItsEstimate }
{}

/// In order of arrival the earlier of two jobs that may be backfilled starts.
pub fn backfills_by_arrival()
    ensures { BackfillsByArrival }
{}

/// By estimate the shorter one starts.
pub fn backfills_by_estimate()
    ensures { BackfillsByEstimate }
{}

/// Of two with one estimate the earlier one starts.
pub fn breaks_ties_by_arrival()
    ensures { BreaksTiesByArrival }
{}
