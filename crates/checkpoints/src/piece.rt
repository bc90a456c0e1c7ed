ghost use Rattle.std.specs.Prelude.{◌≡◌, IfErr, IfOk, None, Some};

use crate::segment::Segment;
use cluster_state::Snapshot;
use easy_rule::Start;
use metrics::Part;
use std::alloc::Allocator;
use std::marker::Model;

/// A stretch of a simulation that was worked: its first second, its starts, and the sums over the jobs
/// that start in it; and who waits and runs before it, where that was noted at once.
///
/// `Segments` makes a segment of it.
#[derive(Drop)]
pub struct Piece<A: Allocator + Copy> {
    first: u64,
    before: Option<Snapshot<A>>,
    starts: Vec<Start, A>,
    part: Part<A>,
}

impl<A: Allocator + Copy> Model for Piece<A> {
    ghost use Rattle.checkpoints.specs.Pieces.{PieceView};

    ghost Value = { PieceView };

    ghost view = { λ p. record { first = p.first; before = p.before; starts = p.starts.items; part = p.part } };
}

impl<A: Allocator + Copy> Piece<A> {
    pub(crate) fn new(
        first: u64,
        before: Option<Snapshot<A>>,
        starts: Vec<Start, A>,
        part: Part<A>,
    ) -> Piece<A>
        ensures { result ≡ record { first = first; before = before; starts = starts.items; part = part } }
    {
        Piece {
            first,
            before,
            starts,
            part,
        }
    }

    pub(crate) fn into_segment(self) -> Result<Segment<A>, Piece<A>>
        ensures noted { IfOk result (λ s. self ≡ record { first = s.first; before = Some s.before; starts = s.starts; part = s.part }) }
        ensures other { IfErr result (λ piece. piece ≡ self) }
    {
        let Piece {
            first,
            before,
            starts,
            part,
        } = self;
        match before {
            Some(before) => Ok(Segment::new(first, before, starts, part)),
            None => Err(Piece::new(first, None, starts, part)),
        }
    }

    pub(crate) fn with(self, before: Snapshot<A>) -> Segment<A>
        ensures { result ≡ record { first = self.first; before = before; starts = self.starts; part = self.part } }
    {
        let Piece {
            first,
            starts,
            part,
            ..
        } = self;
        Segment::new(first, before, starts, part)
    }

    /// The first second.
    pub fn first(&self) -> u64
        ensures { result ≡ self.now.first }
    {
        self.first
    }

    /// The starts, in order of starting.
    pub fn starts(&self) -> &[Start]
        ensures { result.now ≡ self.now.starts }
    {
        self.starts.as_slice()
    }
}
