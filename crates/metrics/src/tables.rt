//! The tables of a part.

ghost use Rattle.std.specs.Prelude.{◌≡◌, map, IfOk};
ghost use Rattle.metrics.specs.Tables.{user_row_of, tables_of};

use crate::days::Days;
use crate::part::Part;
use crate::rows::{DayRow, Overall, UserRow, over_all, user_row};
use crate::users::UserEntry;
use scenarios::Skips;
use std::alloc::{AllocError, Allocator};
use std::marker::Model;
use swf_text::Memory;

/// The tables of some jobs on a machine: numbers over all, a row a user and a row a day.
#[derive(Drop)]
pub struct Tables<A: Allocator + Copy> {
    alloc: A,
    overall: Overall,
    users: Vec<UserRow, A>,
    procs: u64,
    days: Days<A>,
}

impl<A: Allocator + Copy> Model for Tables<A> {
    ghost use Rattle.std.specs.Prelude.{map};
    ghost use Rattle.metrics.specs.Days.{day_list};
    ghost use Rattle.metrics.specs.Sums.{AreFalls};
    ghost use Rattle.metrics.specs.Tables.{TableRows, day_row_of};

    ghost Value = { TableRows };

    ghost view = { λ t. record { overall = t.overall; users = t.users.items; days = map (day_row_of t.procs) (day_list t.days.starts.items t.days.ends.items) } };

    ghost invariant = { λ t. AreFalls t.days.starts.items t.days.ends.items };
}

impl<A: Allocator + Copy> Tables<A> {
    /// The numbers over all jobs.
    pub fn overall(&self) -> Overall
        ensures { result ≡ self.now.overall }
    {
        self.overall
    }

    /// A row for each user who has a job, by rising user.
    pub fn users(&self) -> &[UserRow]
        ensures { result.now ≡ self.now.users }
    {
        &self.users
    }

    /// A row for each day in which processor-seconds are taken, by rising day, made anew: there may be
    /// many more of them than jobs. Memory where a growth was refused.
    pub fn days(&self) -> Result<Vec<DayRow, A>, Memory>
        ensures { IfOk result (λ rows. rows.items ≡ self.now.days) }
    {
        Ok(self.days.rows(self.alloc, self.procs)?)
    }
}

fn user_rows<A: Allocator + Copy>(
    alloc: A,
    users: &[UserEntry],
) -> Result<Vec<UserRow, A>, AllocError>
    ensures { IfOk result (λ rows. rows.items ≡ map user_row_of users.now) }
{
    let mut rows = Vec::with_capacity(alloc, users.len())?;
    'users: for (user, sums) in users {
        rows.push(user_row(*user, sums))?;
    }
    Ok(rows)
}

impl<A: Allocator + Copy> Part<A> {
    /// The tables of the part's jobs, on a machine of `procs` processors and with these counts of
    /// skipped entries. Means are cut down, and 0 where there is no job. Memory where a growth was
    /// refused.
    pub fn tables(&self, procs: u64, skips: Skips) -> Result<Tables<A>, Memory>
        ensures { IfOk result (λ tables. tables ≡ tables_of procs skips self.now) }
    {
        let users = self.users.list(self.alloc)?;
        let users = user_rows(self.alloc, users.as_slice())?;
        let days = self.days.copy(self.alloc)?;
        Ok(Tables {
            alloc: self.alloc,
            overall: over_all(procs, skips, &self.totals),
            users,
            procs,
            days,
        })
    }
}
