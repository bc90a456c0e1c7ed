//! Processor-seconds by day: those before the jobs' ends, less those before their starts, each kept by how
//! much it falls behind which days. So a job adds at most four entries, however long it runs.

ghost use Rattle.std.specs.Prelude.{◌≡◌, ℕ, Bool, ◌+◌, ◌*◌, ◌^◌, ◌<◌, ◌≤◌, All, List, [], ◌++◌, map, OnOk, IfOk, if◌then◌else◌};
ghost use Rattle.std.specs.Ordering.{nat_cmp};
ghost use Rattle.std.specs.BTreeMap.{is_at};
ghost use Rattle.std.specs.List.Sorted.{IsStrictlySortedBy};
ghost use Rattle.std.specs.Map.{keys_of, lookup};
ghost use Rattle.scenarios.specs.Limits.{procs_limit};
ghost use Rattle.metrics.specs.Days.{AreFallsOf, IsFalls, before_in, day_list, day_total, end_of, from_day};
ghost use Rattle.metrics.specs.Entries.{total_at};
ghost use Rattle.metrics.specs.Part.{AreJobs};
ghost use Rattle.metrics.specs.Sums.{AreFalls};
ghost use Rattle.metrics.specs.Tables.{day_row_of};

use crate::entries::{find, merge};
use crate::rows::{DayRow, day_row};
use scenarios::Placed;
use std::alloc::{AllocError, Allocator};

// A day, and by how much a sum falls behind it. A list has them by rising day.
type Fall = (u64, u64);

pub(crate) type Falls<A> = Vec<Fall, A>;

pub(crate) const DAY: u64 = 86400;

#[derive(Drop)]
pub(crate) struct Days<A: Allocator + Copy> {
    pub(crate) starts: Falls<A>,
    pub(crate) ends: Falls<A>,
}

fn add_fall<A: Allocator + Copy>(falls: &mut Falls<A>, day: u64, by: u64) -> Result<(), AllocError>
    requires list { IsFalls falls.old.items }
    requires near { day < 2 ^ 40 }
    requires fits { from_day 0 falls.old.items + by < 2 ^ 64 }
    ensures list { OnOk result (IsFalls falls.new.items) }
    ensures sums { OnOk result ((test : ℕ → Bool) → total_at test (λ n. n) falls.new.items ≡ total_at test (λ n. n) falls.old.items + (if test day then by else 0)) }
{
    match find(falls, day) {
        Ok(place) => falls[place].1 += by,
        Err(place) => falls.insert(place, (day, by))?,
    }
    Ok(())
}

fn add_second<A: Allocator + Copy>(
    falls: &mut Falls<A>,
    second: u64,
    size: u64,
) -> Result<(), AllocError>
    requires list { IsFalls falls.old.items }
    requires second { second < 2 ^ 50 }
    requires size { size ≤ procs_limit }
    requires fits { from_day 0 falls.old.items + size * 86400 < 2 ^ 64 }
    ensures list { OnOk result (IsFalls falls.new.items) }
    ensures sums { OnOk result ((d : ℕ) → from_day d falls.new.items ≡ from_day d falls.old.items + size * before_in d second) }
{
    let day = second / DAY;
    let rest = second % DAY;
    add_fall(falls, day, size * rest)?;
    if day > 0 {
        add_fall(falls, day - 1, size * (DAY - rest))?;
    }
    Ok(())
}

fn merge_falls<A: Allocator + Copy>(
    alloc: A,
    left: &[Fall],
    right: &[Fall],
) -> Result<Falls<A>, AllocError>
    requires fits { from_day 0 left.now + from_day 0 right.now < 2 ^ 64 }
    requires left { IsFalls left.now }
    requires right { IsFalls right.now }
    ensures list { IfOk result (λ falls. IsFalls falls.items) }
    ensures sums { IfOk result (λ falls. (test : ℕ → Bool) → total_at test (λ n. n) falls.items ≡ total_at test (λ n. n) left.now + total_at test (λ n. n) right.now) }
{
    let falls = merge(alloc, left, right, |a, b| Some(a + b))?;
    Ok(falls.unwrap())
}

fn from_day(falls: &[Fall], day: u64) -> u64
    requires { from_day 0 falls.now < 2 ^ 64 }
    ensures { result ≡ from_day day falls.now }
{
    let mut sum = 0;
    'falls: for (at, by) in falls {
        if day <= *at {
            sum += *by;
        }
    }
    sum
}

fn fall_at(falls: &[Fall], day: u64) -> u64
    requires { IsStrictlySortedBy nat_cmp (keys_of falls.now) }
    ensures { result ≡ day_total day falls.now }
{
    match find(falls, day) {
        Ok(place) => falls[place].1,
        Err(_) => 0,
    }
}

fn end_of(falls: &[Fall]) -> u64
    requires { All (λ e. e.0 < 2 ^ 40) falls.now }
    ensures value { result ≡ end_of falls.now }
    ensures near { result ≤ 2 ^ 40 }
{
    let mut end = 0;
    'falls: for (day, _) in falls {
        if end <= *day {
            end = *day + 1;
        }
    }
    end
}

impl<A: Allocator + Copy> Days<A> {
    pub(crate) fn none(alloc: A) -> Days<A>
        ensures { AreFallsOf [] result.starts.items result.ends.items }
    {
        Days {
            starts: Vec::new(alloc),
            ends: Vec::new(alloc),
        }
    }

    pub(crate) fn of_jobs(alloc: A, placed: &[Placed]) -> Result<Days<A>, AllocError>
        requires { AreJobs placed.now }
        ensures { IfOk result (λ days. AreFallsOf placed.now days.starts.items days.ends.items) }
    {
        let mut starts = Vec::new(alloc);
        let mut ends = Vec::new(alloc);
        for each in placed {
            add_second(&mut starts, each.start, each.job.size())?;
            add_second(&mut ends, each.end(), each.job.size())?;
        }
        Ok(Days { starts, ends })
    }

    pub(crate) fn copy(&self, alloc: A) -> Result<Days<A>, AllocError>
        ensures starts { IfOk result (λ days. days.starts.items ≡ self.now.starts.items) }
        ensures ends { IfOk result (λ days. days.ends.items ≡ self.now.ends.items) }
    {
        Ok(Days {
            starts: Vec::from_slice(alloc, self.starts.as_slice())?,
            ends: Vec::from_slice(alloc, self.ends.as_slice())?,
        })
    }

    pub(crate) fn merge(&self, alloc: A, other: &Days<A>) -> Result<Days<A>, AllocError>
        requires { (ps qs : List Placed) × AreJobs (ps ++ qs) × AreFallsOf ps self.now.starts.items self.now.ends.items × AreFallsOf qs other.now.starts.items other.now.ends.items }
        ensures { IfOk result (λ days. (ps qs : List Placed) → AreFallsOf ps self.now.starts.items self.now.ends.items → AreFallsOf qs other.now.starts.items other.now.ends.items → AreFallsOf (ps ++ qs) days.starts.items days.ends.items) }
    {
        let starts = merge_falls(alloc, self.starts.as_slice(), other.starts.as_slice())?;
        let ends = merge_falls(alloc, self.ends.as_slice(), other.ends.as_slice())?;
        Ok(Days { starts, ends })
    }

    pub(crate) fn busy_at(&self, day: u64) -> Option<u128>
        requires { AreFalls self.now.starts.items self.now.ends.items }
        ensures { result ≡ lookup (is_at (nat_cmp day)) (day_list self.now.starts.items self.now.ends.items) }
    {
        let starts = from_day(self.starts.as_slice(), day);
        let ends = from_day(self.ends.as_slice(), day);
        if starts == ends {
            return None;
        }
        Some(u128::from(ends - starts))
    }

    pub(crate) fn rows(&self, alloc: A, procs: u64) -> Result<Vec<DayRow, A>, AllocError>
        requires { AreFalls self.now.starts.items self.now.ends.items }
        ensures { IfOk result (λ rows. rows.items ≡ map (day_row_of procs) (day_list self.now.starts.items self.now.ends.items)) }
    {
        let mut rows = Vec::new(alloc);
        let mut starts = from_day(self.starts.as_slice(), 0);
        let mut ends = from_day(self.ends.as_slice(), 0);
        for day in 0..end_of(self.ends.as_slice()) {
            if starts < ends {
                rows.push(day_row(procs, day, u128::from(ends - starts)))?;
            }
            starts -= fall_at(self.starts.as_slice(), day);
            ends -= fall_at(self.ends.as_slice(), day);
        }
        Ok(rows)
    }
}
