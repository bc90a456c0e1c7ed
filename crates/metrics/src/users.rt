//! Sums by user.

ghost use Rattle.std.specs.Prelude.{◌≡◌, ℤ, ◌+◌, ◌<◌, map, OnOk, IfOk, Some, if◌then◌else◌};
ghost use Rattle.std.specs.Ordering.{int_cmp, int_eq};
ghost use Rattle.std.specs.BTreeMap.{is_at};
ghost use Rattle.std.specs.Map.{keys_of, lookup};
ghost use Rattle.std.specs.List.Sorted.{IsPermutation, IsStrictlySortedBy};
ghost use Rattle.metrics.specs.Users.{plus, CanAdd, alone, no_sums, sums_of, user_total, IsUserList};
ghost use Rattle.metrics.specs.Placed.{CanStart};
ghost use Rattle.metrics.specs.Part.{AreJobs};

use crate::entries::{self, find};
use crate::measures;
use scenarios::Placed;
use std::alloc::{AllocError, Allocator};

/// The sums over the jobs of one user: seconds of waiting, slowdowns in thousandths,
/// processor-seconds.
#[derive(Clone, Copy, Debug, PartialEq, Eq)]
pub struct UserSums {
    pub count: u64,
    pub wait: u128,
    pub slowdown: u128,
    pub busy: u128,
}

impl UserSums {
    pub(crate) fn of_job(placed: &Placed) -> UserSums
        requires { CanStart placed.now }
        ensures { result ≡ alone placed.now }
    {
        UserSums {
            count: 1,
            wait: u128::from(measures::wait(placed)),
            slowdown: u128::from(measures::slowdown(placed)),
            busy: u128::from(measures::busy(placed)),
        }
    }

    pub(crate) fn plus(&self, other: &UserSums) -> UserSums
        requires { CanAdd self.now other.now }
        ensures { result ≡ plus self.now other.now }
    {
        UserSums {
            count: self.count + other.count,
            wait: self.wait + other.wait,
            slowdown: self.slowdown + other.slowdown,
            busy: self.busy + other.busy,
        }
    }
}

pub(crate) type UserEntry = (i64, UserSums);

pub(crate) type Users<A> = Vec<UserEntry, A>;

fn add_user<A: Allocator + Copy>(
    users: &mut Users<A>,
    user: i64,
    sums: &UserSums,
) -> Result<(), AllocError>
    requires list { IsUserList users.old.items }
    requires fits { CanAdd (user_total user users.old.items) sums.now }
    requires some { 0 < sums.now.count }
    ensures list { OnOk result (IsUserList users.new.items) }
    ensures sums { OnOk result ((q : ℤ) → user_total q users.new.items ≡ plus (user_total q users.old.items) (if int_eq q user then sums.now else no_sums)) }
{
    match find(users, user) {
        Ok(place) => users[place].1 = users[place].1.plus(sums),
        Err(place) => users.insert(place, (user, *sums))?,
    }
    Ok(())
}

fn by_user<A: Allocator + Copy>(alloc: A, placed: &[Placed]) -> Result<Vec<&Placed, A>, AllocError>
    ensures { IfOk result (λ jobs. IsPermutation placed.now (map (λ job. job.now) jobs.items)) }
{
    let mut jobs = Vec::with_capacity(alloc, placed.len())?;
    for each in placed {
        jobs.push(each)?;
    }
    jobs.sort_by_key(|each| each.job.user())?;
    Ok(jobs)
}

pub(crate) fn sums_at(users: &[UserEntry], user: i64) -> Option<UserSums>
    requires { IsStrictlySortedBy int_cmp (keys_of users.now) }
    ensures { result ≡ lookup (is_at (int_cmp user)) users.now }
{
    match find(users, user) {
        Ok(place) => Some(users[place].1),
        Err(_) => None,
    }
}

// How many users the jobs have, where those of a user stand behind one another. It decides only how
// much capacity is reserved.
fn count_users(jobs: &[&Placed]) -> usize {
    jobs.chunk_by(|a, b| a.job.user() == b.job.user()).count()
}

pub(crate) fn of_jobs<A: Allocator + Copy>(
    alloc: A,
    placed: &[Placed],
) -> Result<Users<A>, AllocError>
    requires { AreJobs placed.now }
    ensures list { IfOk result (λ users. IsUserList users.items) }
    ensures sums { IfOk result (λ users. (q : ℤ) → user_total q users.items ≡ sums_of q placed.now) }
{
    let jobs = by_user(alloc, placed)?;
    let mut users = Vec::with_capacity(alloc, count_users(jobs.as_slice()))?;
    for each in jobs.as_slice() {
        add_user(&mut users, each.job.user(), &UserSums::of_job(each))?;
    }
    Ok(users)
}

pub(crate) fn merge<A: Allocator + Copy>(
    alloc: A,
    left: &[UserEntry],
    right: &[UserEntry],
) -> Result<Users<A>, AllocError>
    requires fits { (q : ℤ) → CanAdd (user_total q left.now) (user_total q right.now) }
    requires left { IsUserList left.now }
    requires right { IsUserList right.now }
    ensures list { IfOk result (λ users. IsUserList users.items) }
    ensures sums { IfOk result (λ users. (q : ℤ) → user_total q users.items ≡ plus (user_total q left.now) (user_total q right.now)) }
{
    let plus = |a: UserSums, b: UserSums|
        requires { CanAdd a b }
        ensures { result ≡ Some (plus a b) }
    { Some(a.plus(&b)) };
    let users = entries::merge(alloc, left, right, plus)?;
    Ok(users.unwrap())
}
