ghost use Rattle.std.specs.Prelude.{◌≡◌, ℕ, map, IfOk, OnOk};
ghost use Rattle.std.specs.Arc.{arc_value};
ghost use Rattle.std.specs.List.Sorted.{IsNonDecreasingBy};
ghost use Rattle.easy_rule.specs.Simulation.{start_of};
ghost use Rattle.checkpoints.specs.Cut.{all_starts};
ghost use Rattle.checkpoints.specs.Starts.{known_start, place_in, start_in};

use crate::noting::Noting;
use crate::segment::Segment;
use easy_rule::Start;
use std::alloc::{AllocError, Allocator};
use std::marker::Model;
use std::sync::Arc;
use swf_text::Memory;

/// How many places a start may cost, so that each number from the least to the greatest has one.
pub(crate) const PLACES: usize = 4;

/// The starts of some segments, by number. Where the numbers lie dense, each has a place of its own;
/// otherwise starts are sorted.
#[derive(Drop)]
pub(crate) struct Starts<A: Allocator + Copy> {
    least: u64,
    places: Vec<Option<u64>, A>,
    others: Vec<Start, A>,
}

impl<A: Allocator + Copy> Model for Starts<A> {
    ghost use Rattle.std.specs.List.Sorted.{IsNonDecreasingBy};
    ghost use Rattle.checkpoints.specs.Starts.{KnownStarts};

    ghost Value = { KnownStarts };

    ghost view = { λ s. record { least = s.least; places = s.places.items; others = s.others.items } };

    ghost invariant = { λ s. IsNonDecreasingBy (λ x. x.number) s.others.items };
}

impl<A: Allocator + Copy> Starts<A> {
    pub(crate) fn new(
        least: u64,
        places: Vec<Option<u64>, A>,
        mut others: Vec<Start, A>,
    ) -> Result<Starts<A>, Memory>
        ensures { IfOk result (λ starts. (n : ℕ) → known_start starts n ≡ start_in least places.items others.items n) }
    {
        sort_by_number(&mut others)?;
        Ok(Starts {
            least,
            places,
            others,
        })
    }

    pub(crate) fn of(alloc: A, segments: &[Arc<Segment<A>, A>]) -> Result<Starts<A>, Memory>
        ensures { IfOk result (λ starts. (n : ℕ) → known_start starts n ≡ start_of (all_starts (map arc_value segments.now)) n) }
    {
        let numbers = Numbers::of(segments);
        let places = numbers.places();
        let mut noting = Noting::new(alloc, numbers.least, places, places)?;
        for segment in segments {
            noting.note_all(segment.starts())?;
        }
        noting.finish()
    }

    pub(crate) fn at(&self, number: u64) -> Option<u64>
        ensures { result ≡ known_start self.now number }
    {
        match place_of(self.least, self.places.len(), number) {
            Some(place) => self.places[place],
            None => start_among(self.others.as_slice(), number),
        }
    }
}

// It decides only how starts are kept.
#[derive(Clone, Copy)]
struct Numbers {
    least: u64,
    greatest: u64,
    count: usize,
}

impl Numbers {
    fn none() -> Numbers {
        Numbers {
            least: u64::MAX,
            greatest: 0,
            count: 0,
        }
    }

    fn of<A: Allocator + Copy>(segments: &[Arc<Segment<A>, A>]) -> Numbers {
        let mut numbers = Numbers::none();
        for segment in segments {
            numbers.add(segment.starts());
        }
        numbers
    }

    fn add(&mut self, starts: &[Start]) {
        for start in starts {
            self.least = self.least.min(start.number);
            self.greatest = self.greatest.max(start.number);
        }
        self.count = self.count.saturating_add(starts.len());
    }

    fn places(&self) -> usize {
        let span = self.greatest.saturating_sub(self.least);
        if span / (PLACES as u64) < self.count as u64 {
            return (span as usize).saturating_add(1);
        }
        0
    }
}

pub(crate) fn place_of(least: u64, len: usize, number: u64) -> Option<usize>
    ensures { result ≡ place_in least len number }
{
    let place = number.checked_sub(least)? as usize;
    if place < len { Some(place) } else { None }
}

pub(crate) fn sort_by_number<A: Allocator + Copy>(
    starts: &mut Vec<Start, A>,
) -> Result<(), AllocError>
    ensures order { OnOk result (IsNonDecreasingBy (λ x. x.number) starts.new.items) }
    ensures starts { OnOk result ((n : ℕ) → start_of starts.new.items n ≡ start_of starts.old.items n) }
{
    starts.sort_by_key(|x| x.number)?;
    Ok(())
}

pub(crate) fn start_among(starts: &[Start], number: u64) -> Option<u64>
    requires { IsNonDecreasingBy (λ x. x.number) starts.now }
    ensures { result ≡ start_of starts.now number }
{
    let place = starts.partition_point(|x| x.number < number);
    let found = starts.get(place)?;
    if found.number != number {
        return None;
    }
    Some(found.at)
}
