ghost use Rattle.std.specs.Prelude.{◌≡◌, ◌∷◌, [], length, MatchOption};
ghost use Rattle.std.specs.Iterator.{YieldsFirst, item_count};
ghost use Rattle.std.specs.List.{filter_map};
ghost use Rattle.checkpoints.specs.Starts.{AreEarly, row_by};

use crate::row::Row;
use crate::starts::Starts;
use scenarios::Jobs;
use std::alloc::Allocator;
use std::marker::Model;

/// The rows of a schedule, in the order of the log, each made when it is asked for.
#[derive(Drop)]
pub struct Rows<'a, A: Allocator + Copy> {
    starts: Starts<A>,
    jobs: Jobs<'a, A>,
    left: usize,
}

impl<'a, A: Allocator + Copy> Model for Rows<'a, A> {
    ghost use Rattle.std.specs.Prelude.{◌≡◌, List, length};
    ghost use Rattle.std.specs.List.{filter_map};
    ghost use Rattle.checkpoints.specs.declared.row.Row.{Row};
    ghost use Rattle.checkpoints.specs.Starts.{AreEarly, row_by};

    ghost Value = { List Row };

    ghost view = { λ r. filter_map (row_by r.starts) r.jobs };

    ghost invariant = { λ r. (r.left ≡ length (filter_map (row_by r.starts) r.jobs)) × AreEarly r.starts };
}

impl<'a, A: Allocator + Copy> Rows<'a, A> {
    pub(crate) fn new(starts: Starts<A>, jobs: Jobs<'a, A>, left: usize) -> Rows<'a, A>
        requires count { left ≡ length (filter_map (row_by starts) jobs) }
        requires early { AreEarly starts }
        ensures { result ≡ filter_map (row_by starts) jobs.entry }
    {
        Rows { starts, jobs, left }
    }

    /// How many rows are left.
    pub fn left(&self) -> usize
        ensures { result ≡ length self.now }
    {
        self.left
    }
}

impl<'a, A: Allocator + Copy> Iterator for Rows<'a, A> {
    type Item = Row;

    ghost next_gives = { YieldsFirst (λ rows. rows) };

    ghost remaining = { item_count (λ rows. rows) };

    fn next(&mut self) -> Option<Row> {
        let row = next_row(&self.starts, &mut self.jobs)?;
        self.left -= 1;
        Some(row)
    }
}

fn next_row<A: Allocator + Copy>(starts: &Starts<A>, jobs: &mut Jobs<'_, A>) -> Option<Row>
    requires { AreEarly starts.now }
    ensures { MatchOption result ((filter_map (row_by starts.now) jobs.old ≡ []) × (filter_map (row_by starts.now) jobs.new ≡ []))
        (λ row. filter_map (row_by starts.now) jobs.old ≡ row ∷ filter_map (row_by starts.now) jobs.new) }
{
    'jobs: while let Some(job) = jobs.next() {
        let Some(start) = starts.at(job.number()) else {
            continue;
        };
        return Some(Row::at(&job, start));
    }
    None
}
