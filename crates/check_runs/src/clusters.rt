// The machine's state: who joins, starts and leaves, and what its readers answer.
use crate::decisions::decides_behind;
use crate::engines::are;
use crate::logs::{NOTED, four_jobs, outcome};
use checking::table_of;
use cluster_state::{Cluster, Offer, RunningByEnd, RunningNumber, Snapshot, Waiting};
use easy_rule::{Shadow, decide, shadow, shadow_counted};
use refusing::Outcome;
use scenarios::{Job, PlanRef, Scenario};
use std::alloc::Allocator;
use swf_text::Memory;

/// What is done with a log's four jobs.
#[derive(Clone, Copy)]
pub(crate) enum Deed {
    DecideBehind,
    Restore,
    StartTwo,
}

/// Two jobs run until 100, for which a third waits, and what it leaves is enough for a fourth.
const TWO_END: &[u8] = b"1 0 -1 100 4 -1 -1 4 100 -1 1 7 -1 -1 -1 -1 -1 -1
2 0 -1 100 4 -1 -1 4 100 -1 1 7 -1 -1 -1 -1 -1 -1
3 1 -1 10 5 -1 -1 5 10 -1 1 7 -1 -1 -1 -1 -1 -1
4 2 -1 500 2 -1 -1 2 500 -1 1 7 -1 -1 -1 -1 -1 -1
";

/// On ten processors job 2 waits for job 1, until 100; jobs 3 and 4 come at 2.
const BEHIND: &[u8] = b"1 0 -1 100 6 -1 -1 6 100 -1 1 7 -1 -1 -1 -1 -1 -1
2 1 -1 50 8 -1 -1 8 50 -1 1 8 -1 -1 -1 -1 -1 -1
3 2 -1 500 2 -1 -1 2 500 -1 1 7 -1 -1 -1 -1 -1 -1
4 2 -1 98 2 -1 -1 2 98 -1 1 8 -1 -1 -1 -1 -1 -1
";

/// Whether jobs may join the queue, which they then do.
pub(crate) fn all_join<A: Allocator + Copy>(
    cluster: &mut Cluster<A>,
    jobs: &[Job],
) -> Result<bool, Memory> {
    for job in jobs {
        if !cluster.can_arrive(job) {
            return Ok(false);
        }
        cluster.arrive(*job)?;
    }
    Ok(true)
}

fn wait(mut jobs: Waiting<'_>, numbers: &[u64]) -> bool {
    for number in numbers {
        if jobs.next().map(|job| job.number()) != Some(*number) {
            return false;
        }
    }
    jobs.next().is_none()
}

fn run<A: Allocator + Copy>(mut jobs: RunningByEnd<'_, A>, wanted: &[(u64, u64)]) -> bool {
    for want in wanted {
        if jobs
            .next()
            .map(|placed| (placed.job.number(), placed.start))
            != Some(*want)
        {
            return false;
        }
    }
    jobs.next().is_none()
}

// Whether a snapshot has job 1 running since second 0, and the other three waiting.
fn is_of_one<A: Allocator + Copy>(snapshot: &Snapshot<A>) -> bool {
    let one = RunningNumber {
        number: 1,
        start: 0,
    };
    snapshot.waiting().eq(&[2, 3, 4])
        && snapshot.running().eq(&[one])
        && (snapshot.holds(1), snapshot.holds(4), snapshot.holds(5)) == (true, true, false)
}

fn gives_back<A: Allocator + Copy>(
    alloc: A,
    snapshot: &Snapshot<A>,
    plan: &PlanRef<'_, A>,
) -> Result<bool, Memory> {
    if !is_of_one(snapshot) || !snapshot.fits(plan) {
        return Ok(false);
    }
    let again = Cluster::restore(alloc, snapshot, plan)?;
    let reads = wait(again.waiting(), &[2, 3, 4]) && run(again.running_by_end(), &[(1, 0)]);
    Ok(reads && again.order() == plan.scenario().order() && again.snapshot()?.same(snapshot))
}

// A copy of the snapshot of a cluster in which the first of these jobs runs, and the others wait.
fn snapshot_of<A: Allocator + Copy>(
    cluster: &mut Cluster<A>,
    jobs: &[Job],
) -> Result<Snapshot<A>, Memory> {
    if all_join(cluster, jobs)? && cluster.can_start(1) {
        cluster.start(1, 0)?;
    }
    cluster.snapshot()?.copy()
}

// Both waiting jobs start at second 0, one after the other, with capacity for both.
fn both_start<A: Allocator + Copy>(cluster: &mut Cluster<A>) -> Result<bool, Memory> {
    cluster.reserve_starts(2)?;
    let first = cluster.start_head(0);
    let second = cluster.start_head(0);
    Ok(first.is_some() && second.is_some())
}

// Whether jobs 1 and 2 run, and jobs 3 and 4 wait.
fn has_two_and_two<A: Allocator + Copy>(cluster: &Cluster<A>) -> bool {
    run(cluster.running_by_end(), &[(1, 0), (2, 0)])
        && (
            cluster.running_at(1).is_some(),
            cluster.running_at(2).is_some(),
        ) == (true, false)
        && wait(cluster.waiting(), &[3, 4])
        && wait(cluster.arrived_since(1), &[4])
        && cluster.waiting_at(1).map(|job| job.number()) == Some(4)
        && (cluster.waiting_count(), cluster.free(), cluster.next_end()) == (2, 2, Some(100))
}

// Whether job 3 may start at 100 and leaves 5 processors then, as each end tells that is read once.
fn has_shadow<A: Allocator + Copy>(cluster: &Cluster<A>) -> bool {
    let wanted = Some(Shadow {
        time: 100,
        extra: 5,
    });
    shadow(cluster) == wanted && shadow_counted(cluster) == (wanted, 2)
}

// The first job behind job 3 that fits into what is free now.
fn first_fit<A: Allocator + Copy>(cluster: &mut Cluster<A>) -> Option<u64> {
    if cluster.waiting_count() == 0 {
        return None;
    }
    let offer = Offer {
        free: 2,
        extra: 2,
        window: 98,
    };
    let from = cluster.place_behind(1);
    let place = cluster.next_fit(from, &offer)?;
    Some(cluster.job_at(place)?.number())
}

// Job 4 starts at second 2, and runs on when the first two have ended.
fn fourth_starts<A: Allocator + Copy>(alloc: A, cluster: &mut Cluster<A>) -> Result<bool, Memory> {
    if !has_two_and_two(cluster) || !has_shadow(cluster) || first_fit(cluster) != Some(4) {
        return Ok(false);
    }
    let starts = decide(alloc, cluster, 2)?;
    cluster.finish_until(100);
    Ok(are(&starts, &[(4, 2)]) && (cluster.free(), cluster.next_end()) == (8, Some(502)))
}

// Two jobs join and start, and then two more join, of which the last starts.
fn starts_two<A: Allocator + Copy>(
    alloc: A,
    cluster: &mut Cluster<A>,
    jobs: &[Job; 4],
) -> Result<bool, Memory> {
    let all = jobs.as_slice();
    if !all_join(cluster, &all[..2])? || !both_start(cluster)? || !all_join(cluster, &all[2..])? {
        return Ok(false);
    }
    fourth_starts(alloc, cluster)
}

fn log_for(deed: Deed) -> &'static [u8] {
    match deed {
        Deed::Restore => NOTED,
        Deed::StartTwo => TWO_END,
        Deed::DecideBehind => BEHIND,
    }
}

fn does<A: Allocator + Copy>(
    alloc: A,
    deed: Deed,
    plan: &PlanRef<'_, A>,
    jobs: &[Job; 4],
) -> Result<bool, Memory> {
    let mut cluster = Cluster::for_scenario(alloc, &plan.scenario());
    match deed {
        Deed::DecideBehind => decides_behind(
            &mut cluster,
            &mut Vec::new(alloc),
            &mut Vec::new(alloc),
            jobs,
        ),
        Deed::StartTwo => starts_two(alloc, &mut cluster, jobs),
        Deed::Restore => gives_back(alloc, &snapshot_of(&mut cluster, jobs)?, plan),
    }
}

/// This is done with the jobs of its log.
pub(crate) fn goes<A: Allocator + Copy>(alloc: A, deed: Deed, scenario: Scenario) -> Outcome {
    let Some(table) = table_of(alloc, log_for(deed)) else {
        return Outcome::Before;
    };
    let plan = PlanRef::of(&table, scenario);
    match four_jobs(&plan) {
        Some(jobs) => outcome(does(alloc, deed, &plan, &jobs).map_err(|_| true)),
        None => Outcome::Wrong,
    }
}
