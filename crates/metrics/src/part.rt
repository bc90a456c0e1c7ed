//! A part: the sums over some jobs.

ghost use Rattle.std.specs.Prelude.{◌≡◌, ◌+◌, ◌≤◌, List, [], ◌++◌, IfOk};
ghost use Rattle.std.specs.Ordering.{int_cmp, nat_cmp};
ghost use Rattle.std.specs.BTreeMap.{is_at};
ghost use Rattle.std.specs.Map.{lookup};
ghost use Rattle.swf_text.specs.Limits.{entry_limit};
ghost use Rattle.metrics.specs.Part.{IsPartOf, IsPart};
ghost use Rattle.metrics.specs.Placed.{CanSum};
ghost use Rattle.metrics.specs.Users.{sums_of, sums_entry};
ghost use Rattle.metrics.specs.Days.{busy_on, busy_entry};

use crate::days::Days;
use crate::stored::{self, Stored};
use crate::totals::Totals;
use crate::users::{self, UserSums};
use scenarios::Placed;
use std::alloc::Allocator;
use std::marker::Model;
use swf_text::Memory;

/// The sums over some jobs of a schedule: over all, by user and by day.
///
/// It is that of some jobs, at most 4,194,304, each with a start that it may have.
#[derive(Drop)]
pub struct Part<A: Allocator + Copy> {
    pub(crate) totals: Totals,
    pub(crate) users: Stored<A>,
    pub(crate) days: Days<A>,
    pub(crate) alloc: A,
}

impl<A: Allocator + Copy> Model for Part<A> {
    ghost use Rattle.metrics.specs.Part.{PartSums};
    ghost use Rattle.metrics.specs.Sums.{IsTally, sums_in};

    ghost Value = { PartSums };

    ghost view = { λ p. sums_in (record { totals = p.totals; users = p.users; starts = p.days.starts.items; ends = p.days.ends.items }) };

    ghost invariant = { λ p. IsTally (record { totals = p.totals; users = p.users; starts = p.days.starts.items; ends = p.days.ends.items }) };
}

impl<A: Allocator + Copy> Part<A> {
    /// The part of no job. It takes no memory.
    pub fn empty(alloc: A) -> Part<A>
        ensures { IsPartOf [] result }
    {
        Part {
            totals: Totals::none(),
            users: Stored::empty(alloc),
            days: Days::none(alloc),
            alloc,
        }
    }

    /// The part of the jobs. Memory where a growth was refused.
    pub fn of(alloc: A, placed: &[Placed]) -> Result<Part<A>, Memory>
        requires { CanSum placed.now }
        ensures { IfOk result (λ part. IsPartOf placed.now part) }
    {
        let totals = Totals::of_jobs(placed);
        let sums = users::of_jobs(alloc, placed)?;
        let users = Stored::of(alloc, sums.as_slice())?;
        let days = Days::of_jobs(alloc, placed)?;
        Ok(Part {
            totals,
            users,
            days,
            alloc,
        })
    }

    /// The part of the jobs of both. Memory where a growth was refused.
    pub fn merge(&self, other: &Part<A>) -> Result<Part<A>, Memory>
        requires { self.now.totals.count + other.now.totals.count ≤ entry_limit }
        ensures { IfOk result (λ part. (xs ys : List Placed) → IsPartOf xs self.now → IsPartOf ys other.now → IsPartOf (xs ++ ys) part) }
    {
        let totals = self.totals.plus(&other.totals);
        let users = stored::merge(self.alloc, &self.users, &other.users)?;
        let days = self.days.merge(self.alloc, &other.days)?;
        Ok(Part {
            totals,
            users,
            days,
            alloc: self.alloc,
        })
    }

    /// As `merge`, for one who doesn't go on with this part: it is dropped. Memory where a growth was
    /// refused.
    pub fn absorb(self, other: &Part<A>) -> Result<Part<A>, Memory>
        requires { self.totals.count + other.now.totals.count ≤ entry_limit }
        ensures { IfOk result (λ part. (xs ys : List Placed) → IsPartOf xs self → IsPartOf ys other.now → IsPartOf (xs ++ ys) part) }
    {
        self.merge(other)
    }

    /// The sums over all jobs.
    pub fn totals(&self) -> Totals
        ensures value { result ≡ self.now.totals }
        ensures part { IsPart self.now }
    {
        self.totals
    }

    /// The sums over the jobs of a user; None where none of the jobs is this user's. It takes no memory.
    pub fn user(&self, user: i64) -> Option<UserSums>
        ensures value { result ≡ lookup (is_at (int_cmp user)) self.now.users }
        ensures sums { (ps : List Placed) → IsPartOf ps self.now → result ≡ sums_entry (sums_of user ps) }
    {
        self.users.at(user)
    }

    /// The processor-seconds that the jobs take in a day; None where they take none. It takes no memory.
    pub fn day(&self, day: u64) -> Option<u128>
        ensures value { result ≡ lookup (is_at (nat_cmp day)) self.now.days }
        ensures sums { (ps : List Placed) → IsPartOf ps self.now → result ≡ busy_entry (busy_on day ps) }
    {
        self.days.busy_at(day)
    }
}
