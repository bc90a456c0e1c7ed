ghost use Rattle.std.specs.Prelude.{◌≡◌};

use cluster_state::Snapshot;
use easy_rule::Start;
use metrics::Part;
use std::alloc::Allocator;
use std::marker::Model;

/// A stretch of a simulation: its first second, who waits and runs before it, its starts, and the
/// sums over the jobs that start in it.
///
/// Alone it says nothing of any table; a `Run` keeps that its segments are those of its own.
#[derive(Drop)]
pub struct Segment<A: Allocator + Copy> {
    first: u64,
    before: Snapshot<A>,
    starts: Vec<Start, A>,
    part: Part<A>,
}

impl<A: Allocator + Copy> Model for Segment<A> {
    ghost use Rattle.checkpoints.specs.Segment.{SegmentView};

    ghost Value = { SegmentView };

    ghost view = { λ s. record { first = s.first; before = s.before; starts = s.starts.items; part = s.part } };
}

impl<A: Allocator + Copy> Segment<A> {
    /// A segment of these.
    pub fn new(first: u64, before: Snapshot<A>, starts: Vec<Start, A>, part: Part<A>) -> Segment<A>
        ensures { result ≡ record { first = first; before = before; starts = starts.items; part = part } }
    {
        Segment {
            first,
            before,
            starts,
            part,
        }
    }

    /// The first second.
    pub fn first(&self) -> u64
        ensures { result ≡ self.now.first }
    {
        self.first
    }

    /// Who waits and runs before the first second.
    pub fn before(&self) -> &Snapshot<A>
        ensures { result.now ≡ self.now.before }
    {
        &self.before
    }

    /// The starts, in order of starting.
    pub fn starts(&self) -> &[Start]
        ensures { result.now ≡ self.now.starts }
    {
        self.starts.as_slice()
    }

    /// The sums over the jobs that start.
    pub fn part(&self) -> &Part<A>
        ensures { result.now ≡ self.now.part }
    {
        &self.part
    }
}
