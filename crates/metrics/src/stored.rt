//! Sums by user as a part stores them, by rising user: the first ones in 64 bits a sum, as far as they fit,
//! and the others. Two parts that have no others are merged in 64 bits, unless a sum of both does not fit.

ghost use Rattle.std.specs.Prelude.{◌≡◌, ◌≤◌, ℤ, IfOk, IfSome, [], length, map, take};
ghost use Rattle.std.specs.Ordering.{int_cmp};
ghost use Rattle.std.specs.BTreeMap.{is_at};
ghost use Rattle.std.specs.Map.{keys_of, lookup};
ghost use Rattle.std.specs.List.Sorted.{IsStrictlySortedBy};
ghost use Rattle.metrics.specs.Stored.{long, long_of};
ghost use Rattle.metrics.specs.Users.{CanAdd, IsUserList, plus, user_total};

use crate::entries::{self, find};
use crate::users::{self, UserEntry, UserSums, Users, sums_at};
use std::alloc::{AllocError, Allocator};
use std::marker::Model;

#[derive(Clone, Copy)]
pub(crate) struct ShortSums {
    count: u64,
    wait: u64,
    slowdown: u64,
    busy: u64,
}

impl ShortSums {
    fn of(sums: &UserSums) -> Option<ShortSums>
        ensures { IfSome result (λ short. long short ≡ sums.now) }
    {
        Some(ShortSums {
            count: sums.count,
            wait: u64::try_from(sums.wait).ok()?,
            slowdown: u64::try_from(sums.slowdown).ok()?,
            busy: u64::try_from(sums.busy).ok()?,
        })
    }

    fn plus(&self, other: &ShortSums) -> Option<ShortSums>
        ensures { IfSome result (λ short. long short ≡ plus (long self.now) (long other.now)) }
    {
        Some(ShortSums {
            count: self.count.checked_add(other.count)?,
            wait: self.wait.checked_add(other.wait)?,
            slowdown: self.slowdown.checked_add(other.slowdown)?,
            busy: self.busy.checked_add(other.busy)?,
        })
    }

    fn long(&self) -> UserSums
        ensures { result ≡ long self.now }
    {
        UserSums {
            count: self.count,
            wait: u128::from(self.wait),
            slowdown: u128::from(self.slowdown),
            busy: u128::from(self.busy),
        }
    }
}

type ShortEntry = (i64, ShortSums);

#[derive(Drop)]
pub(crate) struct Stored<A: Allocator + Copy> {
    short: Vec<ShortEntry, A>,
    others: Vec<UserEntry, A>,
}

impl<A: Allocator + Copy> Model for Stored<A> {
    ghost use Rattle.std.specs.Prelude.{◌++◌, ℤ, List, map};
    ghost use Rattle.metrics.specs.declared.users.UserSums.{UserSums};
    ghost use Rattle.metrics.specs.Stored.{long_of};

    ghost Value = { List (ℤ × UserSums) };

    ghost view = { λ s. map long_of s.short.items ++ s.others.items };
}

impl<A: Allocator + Copy> Stored<A> {
    pub(crate) fn empty(alloc: A) -> Stored<A>
        ensures { result ≡ [] }
    {
        Stored {
            short: Vec::new(alloc),
            others: Vec::new(alloc),
        }
    }

    pub(crate) fn of(alloc: A, entries: &[UserEntry]) -> Result<Stored<A>, AllocError>
        ensures { IfOk result (λ stored. stored ≡ entries.now) }
    {
        let short = short_front(alloc, entries)?;
        let others = Vec::from_slice(alloc, &entries[short.len()..])?;
        Ok(Stored { short, others })
    }

    fn of_short(alloc: A, entries: &[ShortEntry]) -> Result<Stored<A>, AllocError>
        ensures { IfOk result (λ stored. stored ≡ map long_of entries.now) }
    {
        Ok(Stored {
            short: Vec::from_slice(alloc, entries)?,
            others: Vec::new(alloc),
        })
    }

    pub(crate) fn list(&self, alloc: A) -> Result<Users<A>, AllocError>
        ensures { IfOk result (λ users. users.items ≡ self.now) }
    {
        let count = self.short.len().saturating_add(self.others.len());
        let mut users = Vec::with_capacity(alloc, count)?;
        'short: for (user, sums) in self.short.as_slice() {
            users.push((*user, sums.long()))?;
        }
        users.extend_from_slice(self.others.as_slice())?;
        Ok(users)
    }

    pub(crate) fn at(&self, user: i64) -> Option<UserSums>
        requires { IsStrictlySortedBy int_cmp (keys_of self.now) }
        ensures { result ≡ lookup (is_at (int_cmp user)) self.now }
    {
        match short_at(self.short.as_slice(), user) {
            Some(sums) => Some(sums.long()),
            None => sums_at(self.others.as_slice(), user),
        }
    }
}

fn short_front<A: Allocator + Copy>(
    alloc: A,
    entries: &[UserEntry],
) -> Result<Vec<ShortEntry, A>, AllocError>
    ensures within { IfOk result (λ short. length short.items ≤ length entries.now) }
    ensures front { IfOk result (λ short. map long_of short.items ≡ take (length short.items) entries.now) }
{
    let mut short = Vec::with_capacity(alloc, entries.len())?;
    'entries: for (user, sums) in entries {
        let Some(sums) = ShortSums::of(sums) else {
            return Ok(short);
        };
        short.push((*user, sums))?;
    }
    Ok(short)
}

fn short_at(users: &[ShortEntry], user: i64) -> Option<ShortSums>
    requires { IsStrictlySortedBy int_cmp (keys_of users.now) }
    ensures { result ≡ lookup (is_at (int_cmp user)) users.now }
{
    match find(users, user) {
        Ok(place) => Some(users[place].1),
        Err(_) => None,
    }
}

// None where sums of both do not fit.
fn merge_short<A: Allocator + Copy>(
    alloc: A,
    left: &[ShortEntry],
    right: &[ShortEntry],
) -> Result<Option<Vec<ShortEntry, A>>, AllocError>
    requires left { IsUserList (map long_of left.now) }
    requires right { IsUserList (map long_of right.now) }
    ensures list { IfOk result (λ merged. IfSome merged (λ users. IsUserList (map long_of users.items))) }
    ensures sums { IfOk result (λ merged. IfSome merged (λ users. (q : ℤ) → user_total q (map long_of users.items) ≡ plus (user_total q (map long_of left.now)) (user_total q (map long_of right.now)))) }
{
    entries::merge(alloc, left, right, |a, b| a.plus(&b))
}

pub(crate) fn merge<A: Allocator + Copy>(
    alloc: A,
    left: &Stored<A>,
    right: &Stored<A>,
) -> Result<Stored<A>, AllocError>
    requires fits { (q : ℤ) → CanAdd (user_total q left.now) (user_total q right.now) }
    requires left { IsUserList left.now }
    requires right { IsUserList right.now }
    ensures list { IfOk result (λ users. IsUserList users) }
    ensures sums { IfOk result (λ users. (q : ℤ) → user_total q users ≡ plus (user_total q left.now) (user_total q right.now)) }
{
    if left.others.is_empty() && right.others.is_empty() {
        if let Some(users) = merge_short(alloc, left.short.as_slice(), right.short.as_slice())? {
            return Stored::of_short(alloc, users.as_slice());
        }
    }
    let left = left.list(alloc)?;
    let right = right.list(alloc)?;
    let users = users::merge(alloc, left.as_slice(), right.as_slice())?;
    Stored::of(alloc, users.as_slice())
}
