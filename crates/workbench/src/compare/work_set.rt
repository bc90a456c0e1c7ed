ghost use Rattle.std.specs.Prelude.{◌<◌, length};

use crate::compare::edits::NUMBERS;
use crate::compare::standing::{is_before, stands};
use checkpoints::{Row, Run, Segment};
use job_table::JobTable;
use scenarios::{Job, Scenario, effective};
use std::alloc::Global;
use std::sync::Arc;

/// A stretch of seconds: from its first one to before the next stretch's, or all later ones.
#[derive(Clone, Copy)]
struct Stretch {
    first: u64,
    next: Option<u64>,
}

/// What is known of a new plan: its schedule, its event seconds, and the jobs that the edits touched, as
/// they were before and as they are after them.
#[derive(Clone, Copy)]
struct Plan<'a> {
    rows: &'a [Row],
    events: &'a [u64],
    touched: &'a [Job],
}

/// What there is to be worked and to be reused.
#[derive(Clone, Copy)]
pub(crate) struct Counts {
    /// The event seconds of the new plan.
    pub(crate) events: u64,
    /// Those of them that lie in no reused stretch.
    pub(crate) work: u64,
    /// The reused segments of the old run.
    pub(crate) reused: u64,
    /// Whether the last old segment is reused, but not all of them.
    pub(crate) rejoins: bool,
}

fn job_of(table: &JobTable<Global>, scenario: &Scenario, number: u64) -> Option<Job> {
    effective(table.get(number)?, scenario).ok()
}

fn add_job(jobs: &mut Vec<Job>, job: Option<Job>) -> Option<()> {
    match job {
        Some(job) => jobs.push(job).ok(),
        None => Some(()),
    }
}

fn add_touched(touched: &mut Vec<Job>, was: &Run<Global>, is: &Run<Global>) -> Option<()> {
    let scenario = was.scenario();
    for number in 0..NUMBERS {
        let old = job_of(was.table(), &scenario, number);
        let new = job_of(is.table(), &scenario, number);
        if old != new {
            add_job(touched, old)?;
            add_job(touched, new)?;
        }
    }
    Some(())
}

fn is_among(seconds: &[u64], second: u64) -> bool {
    for known in seconds {
        if *known == second {
            return true;
        }
    }
    false
}

// Adds a second that is not yet there.
fn add(seconds: &mut Vec<u64>, second: u64) -> Option<()> {
    if is_among(seconds.as_slice(), second) {
        return Some(());
    }
    seconds.push(second).ok()
}

fn add_events(events: &mut Vec<u64>, rows: &[Row]) -> Option<()> {
    for row in rows {
        add(events, row.submit)?;
        add(events, row.end)?;
    }
    Some(())
}

fn may_begin(events: &[u64], first: u64) -> bool {
    first == 0 || is_among(events, first - 1)
}

impl Stretch {
    fn has(self, second: u64) -> bool {
        match self.next {
            Some(next) => second >= self.first && second < next,
            None => second >= self.first,
        }
    }
}

// Whether a touched job stands before an old segment, or is submitted in its stretch.
fn is_touched(old: &Segment<Global>, stretch: Stretch, touched: &[Job]) -> bool {
    for job in touched {
        if stands(old.before(), job.number()) || stretch.has(job.submit()) {
            return true;
        }
    }
    false
}

fn is_reused(old: &Segment<Global>, stretch: Stretch, plan: &Plan<'_>) -> bool {
    may_begin(plan.events, stretch.first)
        && is_before(plan.rows, old.before(), stretch.first)
        && !is_touched(old, stretch, plan.touched)
}

fn stretch_at(segments: &[Arc<Segment<Global>, Global>], place: usize) -> Stretch
    requires { place < length segments.now }
{
    let first = segments[place].first();
    match segments.get(place + 1) {
        Some(segment) => Stretch {
            first,
            next: Some(segment.first()),
        },
        None => Stretch { first, next: None },
    }
}

fn add_reused(
    reused: &mut Vec<Stretch>,
    segments: &[Arc<Segment<Global>, Global>],
    plan: &Plan<'_>,
) -> Option<()> {
    for place in 0..segments.len() {
        let stretch = stretch_at(segments, place);
        if is_reused(&segments[place], stretch, plan) {
            reused.push(stretch).ok()?;
        }
    }
    Some(())
}

fn is_within(stretches: &[Stretch], second: u64) -> bool {
    for stretch in stretches {
        if stretch.has(second) {
            return true;
        }
    }
    false
}

fn count_outside(seconds: &[u64], reused: &[Stretch]) -> u64 {
    let mut count = 0u64;
    for second in seconds {
        count = count.wrapping_add(u64::from(!is_within(reused, *second)));
    }
    count
}

fn is_open(stretches: &[Stretch]) -> bool {
    match stretches.last() {
        Some(stretch) => stretch.next.is_none(),
        None => false,
    }
}

fn counts_by(alloc: Global, was: &Run<Global>, plan: &Plan<'_>) -> Option<Counts> {
    let mut reused = Vec::new(alloc);
    add_reused(&mut reused, was.segments(), plan)?;
    Some(Counts {
        events: plan.events.len() as u64,
        work: count_outside(plan.events, reused.as_slice()),
        reused: reused.len() as u64,
        rejoins: reused.len() < was.segments().len() && is_open(reused.as_slice()),
    })
}

// Whether a segment of the new plan may begin where it does, tells who waits and runs before it, has
// starts of its stretch alone, and ends behind its first second.
fn is_segment(segment: &Segment<Global>, stretch: Stretch, plan: &Plan<'_>) -> bool {
    for start in segment.starts() {
        if !stretch.has(start.at) {
            return false;
        }
    }
    may_begin(plan.events, stretch.first)
        && is_before(plan.rows, segment.before(), stretch.first)
        && stretch.has(stretch.first)
}

// Whether the new plan is cut into these segments: the first begins at 0, each later one a second
// after an event second.
fn is_cut(segments: &[Arc<Segment<Global>, Global>], plan: &Plan<'_>) -> bool {
    for place in 0..segments.len() {
        if !is_segment(&segments[place], stretch_at(segments, place), plan) {
            return false;
        }
    }
    match segments.first() {
        None => plan.events.is_empty(),
        Some(segment) => segment.first() == 0,
    }
}

// What there is to be worked and to be reused of an old run, by a new one with these rows and event
// seconds; none where its segments are no cut.
fn counts_at(
    alloc: Global,
    was: &Run<Global>,
    is: &Run<Global>,
    rows: &[Row],
    events: &[u64],
) -> Option<Counts> {
    let mut touched = Vec::new(alloc);
    add_touched(&mut touched, was, is)?;
    let plan = Plan {
        rows,
        events,
        touched: touched.as_slice(),
    };
    if !is_cut(is.segments(), &plan) {
        return None;
    }
    counts_by(alloc, was, &plan)
}

fn counts_with(alloc: Global, was: &Run<Global>, is: &Run<Global>, rows: &[Row]) -> Option<Counts> {
    let mut events = Vec::new(alloc);
    add_events(&mut events, rows)?;
    counts_at(alloc, was, is, rows, events.as_slice())
}

// What there is to be worked and to be reused of an old run, by a new one; none where the new one's
// segments are no cut.
pub(crate) fn counts_of(alloc: Global, was: &Run<Global>, is: &Run<Global>) -> Option<Counts> {
    let rows = is.schedule().ok()?;
    counts_with(alloc, was, is, rows.as_slice())
}
